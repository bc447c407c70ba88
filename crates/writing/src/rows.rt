ghost use Rattle.std.specs.Prelude.{◌≡◌, ℕ, ◌+◌, ◌*◌, ◌/◌, ◌%◌, ◌<◌, ◌≤◌, length, bit_xor, slice_index};
ghost use Rattle.writing.specs.Rows.{pad_at, data_index, plain_at, c3_filled, HasRows};

use layout::address::Address;
use layout::register::Register;
pub use layout::sizes::{GROUP, SUB_GROUP};
use layout::sizes::{ROW, ROWS, TRACKS};
use reed_solomon::codes::C3;
use reed_solomon::interleaved::Interleaving;

/// The places of the check bytes in a C3 word.
const C3_CHECKS: [usize; 2] = [45, 44];

/// A group, and the bytes that are XORed to each of its sub-groups.
#[derive(Clone, Copy)]
struct Source<'a> {
    group: &'a [u8; GROUP],
    pad: &'a [u8; SUB_GROUP],
}

/// The bytes that are XORed to each sub-group.
fn make_pad(mut register: Register, pad: &mut [u8])
    ensures { (d : ℕ) → d < length pad.new → slice_index pad.new d ≡ pad_at register.tap register.bits d }
{
    for byte in pad.iter_mut() {
        *byte = register.next_byte();
    }
}

impl Source<'_> {
    /// The randomized data byte at number `q` of row `k`.
    fn data_byte(self, k: usize, q: usize) -> u8
        requires k_bound { k < 44 }
        requires le_q { 2 ≤ q }
        requires q_bound { q < 2880 }
        ensures { result ≡ bit_xor (slice_index self.entry.group.now (5756 * (k / 2) + data_index k q)) (slice_index self.entry.pad.now (data_index k q)) }
    {
        let d = 4 * (q / 2 - 1) + 2 * ((k % 2 + q / 2) % 2) + q % 2;
        self.group[SUB_GROUP * (k / 2) + d] ^ self.pad[d]
    }

    /// Byte `q` of the row of a track before the check bytes of C3.
    fn unchecked_byte(self, position: Address, q: usize) -> u8
        ensures { result ≡ plain_at self.entry.group.now self.entry.pad.now position.track q }
    {
        if q < 2 {
            return if q == 1 { position.frame_byte() } else { 0 };
        }
        if q < 2880 && position.track < 44 {
            self.data_byte(position.track, q)
        } else {
            0
        }
    }

    /// Writes the row of a track before the check bytes of C3.
    fn spread_row(self, position: Address, row: &mut [u8])
        ensures { (q : ℕ) → q < length row.new → slice_index row.new q ≡ plain_at self.entry.group.now self.entry.pad.now position.track q }
    {
        for (q, byte) in row.iter_mut().enumerate() {
            *byte = self.unchecked_byte(position, q);
        }
    }

    /// Writes all rows before the check bytes of C3.
    fn spread(self, number: u16, rows: &mut [u8; ROWS])
        ensures { (p : ℕ) → p < 133952 → slice_index rows.new p ≡ plain_at self.entry.group.now self.entry.pad.now (p / 2912) (p % 2912) }
    {
        for track in 0..TRACKS {
            let position = Address {
                group: number,
                track,
            };
            self.spread_row(position, &mut rows[ROW * track..ROW * track + ROW]);
        }
    }
}

/// Gives every C3 word of data its check bytes.
fn put_c3(rows: &mut [u8; ROWS])
    ensures { (p : ℕ) → p < 133952 → slice_index rows.new p ≡ c3_filled rows.old p }
{
    let bytes: &mut [u8] = rows;
    for w in 0..2878 {
        let at = Interleaving {
            start: w + 2,
            stride: ROW,
        };
        let _ = C3.fill_interleaved(bytes, at, &C3_CHECKS);
    }
}

/// Writes the rows of a group: what each of its 46 tracks carries.
pub(crate) fn make_rows(register: Register, number: u16, group: &[u8; GROUP], rows: &mut [u8; ROWS])
    ensures { HasRows register.tap register.bits group.now rows.new }
{
    let mut pad = [0u8; SUB_GROUP];
    make_pad(register, &mut pad);
    let source = Source { group, pad: &pad };
    source.spread(number, rows);
    put_c3(rows);
}
