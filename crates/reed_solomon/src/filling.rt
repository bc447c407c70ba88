ghost use Rattle.std.specs.Prelude.{◌≡◌, ℕ, ◌-◌, ◌<◌, ◌≤◌, map, length, ◌↔◌, IsTrue, IsOk, OnOk, OnErr, ◌≢◌, bit_xor, slice_index};
ghost use Rattle.galois.specs.Galois.{gmul, ginv, alpha};
ghost use Rattle.reed_solomon.specs.Steps.{xsum, vsum, patch, Swept};
ghost use Rattle.reed_solomon.specs.Words.{syndrome, Distinct, Within, Fit, Filled, Refused, Fills};

use crate::fault::{FillFault, Unfillable};
use crate::syndromes;
use galois::field;

/// As many bytes of a word as the three codes fill at most.
const FEW: usize = 6;

/// The sum of the values, each times its weight to the power `e`.
fn weighed_sum(weights: &[u8], values: &[u8], e: usize) -> u8
    ensures { result ≡ vsum e weights.now values.now }
{
    weights
        .iter()
        .zip(values)
        .map(|(w, v)| field::multiply(*v, field::power(*w, e)))
        .fold(0, |sum, term| sum ^ term)
}

/// The sum of the values.
fn sum(values: &[u8]) -> u8
    ensures { result ≡ xsum values.now }
{
    values.iter().fold(0, |sum, v| sum ^ *v)
}

/// Adds to each sum but the first `weight` times the sum before it, so that the value with this
/// weight drops out of them.
fn eliminate(sums: &mut [u8], weight: u8)
    ensures { Swept weight sums.old sums.new }
{
    let mut before = 0;
    for sum in sums.iter_mut() {
        let own = *sum;
        *sum = own ^ field::multiply(weight, before);
        before = own;
    }
}

/// Divides each value by its weight plus `weight`.
fn divide(values: &mut [u8], weights: &[u8], weight: u8)
    requires values_len { length values.old ≡ length weights.now }
    requires by_index { (i : ℕ) → i < length weights.now → slice_index weights.now i ≢ weight }
    ensures { (i : ℕ) → i < length values.new → slice_index values.new i ≡ gmul (slice_index values.old i) (ginv (bit_xor (slice_index weights.now i) weight)) }
{
    // By index: after a `zip` of `iter_mut` nothing is known of the values.
    for (i, v) in values.iter_mut().enumerate() {
        *v = field::multiply(*v, field::reciprocal(weights[i] ^ weight));
    }
}

/// Turns the sums into the values that have them: value i times the powers of weight i.
fn solve(sums: &mut [u8], weights: &[u8])
    requires sums_len { length sums.old ≡ length weights.now }
    requires distinct { Distinct weights.now }
    ensures { (e : ℕ) → e < length weights.now → vsum e weights.now sums.new ≡ slice_index sums.old e }
{
    if let Some((weight, others)) = weights.split_first() {
        eliminate(sums, *weight);
        let rest = &mut sums[1..];
        solve(rest, others);
        divide(rest, others, *weight);
        let others_sum = sum(rest);
        sums[0] ^= others_sum;
    }
}

/// The weights of the places of a word of `n` bytes: 2 to the power of the bytes behind each.
fn weigh(n: usize, places: &[usize], weights: &mut [u8])
    requires n_bound { n < 256 }
    requires weights_len { length weights.old ≡ length places.now }
    requires within { Within n places.now }
    ensures { weights.new ≡ map (λ p. alpha (n - 1 - p)) places.now }
{
    // By index: after a `zip` of `iter_mut` nothing is known of the weights.
    for (i, p) in places.iter().enumerate() {
        weights[i] = field::exp(n - 1 - *p);
    }
}

/// Adds the values to the word, each at its place.
fn add_at(word: &mut [u8], places: &[usize], values: &[u8])
    requires values_len { length values.now ≡ length places.now }
    requires within { Within (length word.old) places.now }
    ensures { word.new ≡ patch word.old places.now values.now }
{
    for (p, v) in places.iter().zip(values) {
        word[*p] ^= *v;
    }
}

/// Whether the values have the check sums of the word from `k` on to `r`.
fn agrees(word: &[u8], weights: &[u8], values: &[u8], k: usize, r: usize) -> bool
    ensures { IsTrue result ↔ ((e : ℕ) → k ≤ e → e < r → syndrome e word.now ≡ vsum e weights.now values.now) }
{
    (k..r).all(|e| syndromes::evaluate(word, e) == weighed_sum(weights, values, e))
}

/// Fills in memory that is lent for the weights and the values. These are two slices and no slice
/// of pairs, since the values change and the weights stay.
// Inlined, since its callers mostly know how long the word is and how many bytes are lost.
#[inline(always)]
fn fill_with(
    word: &mut [u8],
    lost: &[usize],
    r: usize,
    weights: &mut [u8],
    values: &mut [u8],
) -> Result<(), Unfillable>
    requires fit { Fit r lost.now word.old }
    requires weights_len { length weights.old ≡ length lost.now }
    requires values_len { length values.old ≡ length lost.now }
    ensures ok { OnOk result (Filled r lost.now word.old word.new) }
    ensures err { OnErr result (Refused r lost.now word.old word.new) }
    ensures always { length lost.now ≡ r → IsOk result }
{
    weigh(word.len(), lost, weights);
    syndromes::syndromes_into(word, values);
    solve(values, weights);
    if !agrees(word, weights, values, lost.len(), r) {
        return Err(Unfillable);
    }
    add_at(word, lost, values);
    Ok(())
}

/// Fills up to `N` lost bytes.
fn fill_up_to<const N: usize>(word: &mut [u8], lost: &[usize], r: usize) -> Result<(), Unfillable>
    requires fit { Fit r lost.now word.old }
    requires lost_len { length lost.now ≤ N }
    requires memory { N ≤ 255 }
    ensures ok { OnOk result (Filled r lost.now word.old word.new) }
    ensures err { OnErr result (Refused r lost.now word.old word.new) }
    ensures always { length lost.now ≡ r → IsOk result }
{
    let mut weights = [0u8; N];
    let mut values = [0u8; N];
    let k = lost.len();
    fill_with(word, lost, r, &mut weights[..k], &mut values[..k])
}

/// Gives the lost bytes the values with which the word checks to `r`, or leaves it as it is where
/// there are none; for exactly `r` lost bytes there always are. For callers that know what they
/// pass; `fill` tests it.
pub fn fill_places(word: &mut [u8], lost: &[usize], r: usize) -> Result<(), Unfillable>
    requires { Fit r lost.now word.old }
    ensures ok { OnOk result (Filled r lost.now word.old word.new) }
    ensures err { OnErr result (Refused r lost.now word.old word.new) }
    ensures always { length lost.now ≡ r → IsOk result }
{
    // Few lost bytes, as many as the three codes ever have, need less memory.
    if lost.len() <= FEW {
        fill_up_to::<FEW>(word, lost, r)
    } else {
        fill_up_to::<255>(word, lost, r)
    }
}

/// Whether each of these is a place of a word of `n` bytes.
fn all_within(places: &[usize], n: usize) -> bool
    ensures { IsTrue result ↔ Within n places.now }
{
    places.iter().all(|p| *p < n)
}

/// Whether each place is named once. It ends at the first that is not: among places of a word of
/// up to 255 bytes, at the 256th place at the latest.
fn all_distinct(places: &[usize]) -> bool
    ensures { IsTrue result ↔ Distinct places.now }
{
    places
        .iter()
        .enumerate()
        .all(|(i, p)| !places[..i].contains(p))
}

/// Gives the lost bytes of the word the values with which it checks to `r`. Where there are none,
/// or the call cannot be taken, the word is left as it is.
pub fn fill(word: &mut [u8], lost: &[usize], r: usize) -> Result<(), FillFault>
    ensures { Fills r lost.now word.old word.new result }
{
    if word.len() > 255 {
        return Err(FillFault::WordLength);
    }
    if !all_within(lost, word.len()) {
        return Err(FillFault::NotAPlace);
    }
    if !all_distinct(lost) {
        return Err(FillFault::PlaceTwice);
    }
    if lost.len() > r {
        return Err(FillFault::TooManyLost);
    }
    // The check sums repeat after 255 exponents.
    fill_places(word, lost, r.min(255))?;
    Ok(())
}
