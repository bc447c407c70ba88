use galois::field;
use reed_solomon::{filling, syndromes};
use std::alloc::{AllocError, Global};
use std::io;

/// The bytes of a word.
const LENGTH: usize = 26;

/// The check bytes of a word, which are its last.
const CHECK_BYTES: usize = 10;

// Two words that are worked out in descriptions of the QR code, version 1-M: 16 data bytes and 10
// check bytes, over the same field and with the same roots.
const PUBLISHED: [[u8; LENGTH]; 2] = [
    [
        32, 91, 11, 120, 209, 114, 220, 77, 67, 64, 236, 17, 236, 17, 236, 17, 196, 35, 39, 119,
        235, 215, 231, 226, 93, 23,
    ],
    [
        16, 32, 12, 86, 97, 128, 236, 17, 236, 17, 236, 17, 236, 17, 236, 17, 165, 36, 212, 193,
        237, 54, 199, 135, 44, 85,
    ],
];

/// Ten places of a word: the first, and each of the others so many behind the one before.
#[derive(Clone, Copy)]
struct Pattern {
    first: usize,
    step: usize,
}

const PATTERNS: [Pattern; 12] = [
    Pattern { first: 0, step: 1 },
    Pattern { first: 16, step: 1 },
    Pattern { first: 8, step: 1 },
    Pattern { first: 0, step: 3 },
    Pattern { first: 1, step: 3 },
    Pattern { first: 0, step: 5 },
    Pattern { first: 7, step: 5 },
    Pattern { first: 3, step: 7 },
    Pattern { first: 25, step: 9 },
    Pattern {
        first: 12,
        step: 11,
    },
    Pattern { first: 2, step: 15 },
    Pattern { first: 4, step: 25 },
];

impl Pattern {
    /// The places that the set bits of `mask` choose.
    fn chosen(self, heap: Global, mask: usize) -> Result<Vec<usize>, AllocError> {
        let mut chosen = Vec::new(heap);
        for i in 0..CHECK_BYTES {
            if (mask >> i) % 2 == 1 {
                chosen.push(self.first.wrapping_add(i.wrapping_mul(self.step)) % LENGTH)?;
            }
        }
        Ok(chosen)
    }
}

/// Changes the bytes at these places.
fn spoil(word: &mut [u8], places: &[usize]) {
    for place in places {
        if let Some(byte) = word.get_mut(*place) {
            *byte ^= 0xa5;
        }
    }
}

/// Whether the word comes back after the bytes at these places were spoiled.
fn restored(whole: &[u8; LENGTH], lost: &[usize]) -> bool {
    let mut word = *whole;
    spoil(&mut word, lost);
    filling::fill(&mut word, lost, CHECK_BYTES).is_ok() && word == *whole
}

/// How many of the 1,024 sets of a pattern's places were filled as they should be.
fn sets_restored(
    heap: Global,
    whole: &[u8; LENGTH],
    pattern: Pattern,
) -> Result<usize, AllocError> {
    let mut count = 0usize;
    for mask in 0..1024 {
        let lost = pattern.chosen(heap, mask)?;
        if restored(whole, lost.as_slice()) {
            count = count.saturating_add(1);
        }
    }
    Ok(count)
}

/// Whether both ways to a check sum give 0 at each exponent.
fn sums_are_zero(word: &[u8; LENGTH]) -> bool {
    (0..CHECK_BYTES).all(|e| syndromes::check_sum(word, e) == 0)
        && syndromes::checks(word, CHECK_BYTES)
}

/// Whether the check bytes come out of the data bytes by filling.
fn check_bytes_found(whole: &[u8; LENGTH]) -> bool {
    restored(whole, &[16, 17, 18, 19, 20, 21, 22, 23, 24, 25])
}

/// The sets of each pattern's places that were filled as they should be.
fn patterns(rt: &impl Print, heap: Global, word: &[u8; LENGTH]) -> io::Result<()> {
    for pattern in PATTERNS {
        let Pattern { first, step } = pattern;
        let sets = sets_restored(heap, word, pattern)?;
        println!(rt; "  places from {first} by {step}: {sets} of 1024 sets filled")?;
    }
    Ok(())
}

fn published(rt: &impl Print, heap: Global) -> io::Result<()> {
    for word in PUBLISHED {
        let first = word[0];
        let zero = sums_are_zero(&word);
        let found = check_bytes_found(&word);
        println!(rt;
            "published word with data {first}..: sums are zero {zero}, check bytes found {found}"
        )?;
        patterns(rt, heap, &word)?;
    }
    Ok(())
}

fn products(rt: &impl Print) -> io::Result<()> {
    println!(rt;
        "2 * 128 = {}, 1 / 29 = {:?}, 1 / 0 = {:?}",
        field::multiply(2, 128),
        field::inverse(29),
        field::inverse(0)
    )?;
    println!(rt;
        "2^8 = {}, 2^255 = {}, 0^0 = {}, 3^1000000 = {}",
        field::power(2, 8),
        field::power(2, 255),
        field::power(0, 0),
        field::power(3, 1000000)
    )
}

pub(crate) fn run(rt: &impl Print, heap: Global) -> io::Result<()> {
    products(rt)?;
    published(rt, heap)
}
