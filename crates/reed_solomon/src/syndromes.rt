ghost use Rattle.std.specs.Prelude.{◌≡◌, ℕ, ◌<◌, ◌≤◌, length, ◌↔◌, IsTrue, bit_xor, slice_index};
ghost use Rattle.galois.specs.Galois.{gmul, alpha};
ghost use Rattle.reed_solomon.specs.Words.{syndrome, Checks};

use galois::field;
use galois::tables::TIMES;

/// The check sum of the word at the exponent `e`, as the code is defined: each byte times 2 to
/// the power `e` times the number of bytes behind it, added up.
pub fn check_sum(word: &[u8], e: usize) -> u8
    ensures { result ≡ syndrome e word.now }
{
    let last = word.len().saturating_sub(1);
    let mut sum = 0;
    for (j, byte) in word.iter().enumerate() {
        sum ^= field::multiply(*byte, field::exp((e % 255) * ((last - j) % 255)));
    }
    sum
}

/// The same check sum, as the value of a polynomial: a product less for each byte.
pub(crate) fn evaluate(word: &[u8], e: usize) -> u8
    ensures { result ≡ syndrome e word.now }
{
    let x = field::exp(e);
    word.iter()
        .fold(0, |sum, byte| field::multiply(sum, x) ^ *byte)
}

/// The byte `x` times 2 to the power `e`, by the table for the few powers that the three codes use.
fn times_power(x: u8, e: usize) -> u8
    requires { e < 6 }
    ensures { result ≡ gmul x (alpha e) }
{
    TIMES[256 * e + x as usize]
}

/// Takes one more byte of a word into its first six check sums.
fn add_byte(sums: &mut [u8; 6], byte: u8)
    ensures { (e : ℕ) → e < 6 → slice_index sums.new e ≡ bit_xor (gmul (slice_index sums.old e) (alpha e)) byte }
{
    for (e, sum) in sums.iter_mut().enumerate() {
        *sum = times_power(*sum, e) ^ byte;
    }
}

/// The first six check sums of the word, in one pass over it.
fn six_sums(word: &[u8]) -> [u8; 6]
    ensures { (e : ℕ) → e < 6 → slice_index result e ≡ syndrome e word.now }
{
    let mut sums = [0; 6];
    for byte in word {
        add_byte(&mut sums, *byte);
    }
    sums
}

/// The first check sums of the word, as many as there is room for.
pub(crate) fn syndromes_into(word: &[u8], sums: &mut [u8])
    ensures { (e : ℕ) → e < length sums.new → slice_index sums.new e ≡ syndrome e word.now }
{
    let six = six_sums(word);
    for (e, sum) in sums.iter_mut().enumerate() {
        *sum = if e < 6 { six[e] } else { evaluate(word, e) };
    }
}

/// Whether the first `few` check sums of the word are 0.
fn first_vanish(word: &[u8], few: usize) -> bool
    requires { few ≤ 6 }
    ensures { IsTrue result ↔ Checks few word.now }
{
    six_sums(word)[..few].iter().all(|sum| *sum == 0)
}

/// Whether the check sums of the word from `k` on to `r` are 0.
fn others_vanish(word: &[u8], k: usize, r: usize) -> bool
    ensures { IsTrue result ↔ ((e : ℕ) → k ≤ e → e < r → syndrome e word.now ≡ 0) }
{
    (k..r).all(|e| evaluate(word, e) == 0)
}

/// Whether the first `r` check sums of the word are 0.
pub fn checks(word: &[u8], r: usize) -> bool
    ensures { IsTrue result ↔ Checks r word.now }
{
    // The check sums repeat after 255 exponents.
    first_vanish(word, r.min(6)) && others_vanish(word, 6, r.min(255))
}
