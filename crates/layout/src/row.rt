// Where the bytes of a row stand: a number of the row, from 0 to 2,911, and a place of its array, 32 times the block and the
// serial.

ghost use Rattle.std.specs.Prelude.{◌≡◌, ◌+◌, ◌-◌, ◌*◌, ◌/◌, ◌%◌, ◌<◌, ◌≤◌, if◌then◌else◌, Some, None, nat_lt};
ghost use Rattle.layout.specs.Group.{number_d, sign_d};
ghost use Rattle.layout.specs.Placing.{block_at, serial_at, number_at, is_occupied, is_data};

use crate::sizes::{BLOCK_BYTES, ROW};

/// The number of the first D byte of a row.
const DATA_START: usize = 2;

/// The number after its last D byte.
const DATA_END: usize = 2880;

/// The place of number `q` of a row.
pub fn place_of(q: usize) -> usize
    ensures is { result ≡ 32 * block_at q + serial_at q }
    ensures below { q < 2912 → result < 4096 }
{
    let word = q / 2;
    let block = word % 52 + 75 * (word % 2) + word / 832;
    let serial = 2 * (1 - q % 2 + word / 52) - word / 52 % 2 - 32 * (word / 832);
    BLOCK_BYTES * block + serial
}

/// Whether a byte of a row stands at this block and serial, and no check byte of C1 or C2.
#[tactic(auto, using(std::proofs::lemmas::Bool::Decides::nat_tests), unfolding(crate::specs::Placing::is_occupied, crate::specs::Placing::is_c1_check))]
fn is_occupied(b: usize, s: usize) -> bool
    ensures { result ≡ is_occupied b s }
{
    if b % 2 == 1 && s >= 24 {
        return false;
    }
    b < 52 || b > 75
}

/// Where block `b` stands among the 52 that a run of G3 words goes through.
fn column(b: usize) -> usize
    ensures is { result ≡ (if nat_lt b 52 then b - b % 2 else b - b % 2 - 75) }
    ensures within { result ≤ b }
{
    let even = b - b % 2;
    if b < 52 {
        even
    } else {
        even.saturating_sub(75)
    }
}

/// The number of the byte at place `p`, if a byte of a row stands there.
pub fn number_at(p: usize) -> Option<usize>
    ensures { result ≡ (if is_occupied (p / 32) (p % 32) then Some (number_at (p / 32) (p % 32)) else None) }
{
    let b = p / BLOCK_BYTES;
    let s = p % BLOCK_BYTES;
    if !is_occupied(b, s) {
        return None;
    }
    let run = 2 * (s / 4) + s % 2;
    Some(2 * (832 * (b % 2) + 52 * run + column(b)) + (1 - s / 2 % 2))
}

/// The number of the D byte at place `p`, if one stands there.
pub fn data_number_at(p: usize) -> Option<usize>
    ensures { result ≡ (if is_data (p / 32) (p % 32) then Some (number_at (p / 32) (p % 32)) else None) }
{
    match number_at(p) {
        Some(q) if q >= DATA_START && q < DATA_END => Some(q),
        _ => None,
    }
}

/// Where D byte `d` of a sub-group stands in the two rows of its frame, PLUS before MINUS.
pub fn data_place(d: usize) -> usize
    ensures { result ≡ 2912 * sign_d d + number_d d }
{
    let word = d / 4 + 1;
    let minus = (d % 4 / 2 + word) % 2;
    ROW * minus + 2 * word + d % 2
}
