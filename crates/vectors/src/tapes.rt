use crate::noise::Noise;
use images::inhibited::InhibitedImage;
use images::packed_image::PackedImage;
use images::word_image::WordImage;
use std::alloc::{AllocError, Global};
use std::io;
use tape::fault::TapeFault;
use tape::traits::{Playable, Recordable, WORDS};
use tape::window::Window;

/// The words to store and those that are fetched.
#[derive(Drop)]
struct Buffers {
    words: Vec<u16>,
    fetched: Vec<u16>,
}

impl Buffers {
    /// Zeros, a track of each.
    fn new(heap: Global) -> Result<Buffers, AllocError> {
        Ok(Buffers {
            words: vec![in heap; 0u16; WORDS]?,
            fetched: vec![in heap; 0u16; WORDS]?,
        })
    }

    /// Makes the words to store look random, each below 1,024.
    fn shuffle(&mut self, seed: u32) {
        let mut noise = Noise(seed);
        for word in self.words.iter_mut() {
            *word = (noise.next() / 65_536 % 1024) as u16;
        }
    }
}

/// The sum of the words, each times its place.
fn digest(words: &[u16]) -> u64 {
    let mut sum = 0u64;
    for (i, w) in words.iter().enumerate() {
        sum = sum.wrapping_add((*w as u64).wrapping_mul(i as u64 + 1));
    }
    sum
}

/// The number of an answer, 0 where the call was carried out.
fn number_of(answer: Result<(), TapeFault>) -> u8 {
    answer.err().map_or(0, |fault| fault.number())
}

/// What fetch answers, as its number or 0, and what it delivers.
fn fetch<T: Playable>(
    rt: &impl Print,
    what: &str,
    tape: &T,
    track: usize,
    buffer: &mut [u16],
) -> io::Result<()> {
    buffer.fill(7);
    let number = number_of(tape.fetch(track, buffer));
    let found = digest(buffer);
    println!(rt; "  {what}: {number}, words {found}")
}

/// What store answers, as its number or 0.
fn store<T: Recordable>(
    rt: &impl Print,
    what: &str,
    tape: &mut T,
    track: usize,
    buffer: &[u16],
) -> io::Result<()> {
    let number = number_of(tape.store(track, buffer));
    println!(rt; "  {what}: {number}")
}

/// Fetches on any playable tape of three tracks.
fn fetches<T: Playable>(rt: &impl Print, tape: &T, buffer: &mut [u16]) -> io::Result<()> {
    fetch(rt, "fetch track 1", tape, 1, buffer)?;
    fetch(rt, "fetch track 0", tape, 0, buffer)?;
    fetch(rt, "fetch track 3", tape, 3, buffer)
}

/// Stores and fetches on any recordable tape of three tracks.
fn stores<T: Recordable>(rt: &impl Print, tape: &mut T, buffers: &mut Buffers) -> io::Result<()> {
    let length = tape.length();
    buffers.shuffle(1);
    let words = buffers.words.as_slice();
    println!(rt; "  {length} tracks, words {}", digest(words))?;
    store(rt, "store track 1", tape, 1, words)?;
    store(rt, "store track 3", tape, 3, words)?;
    fetches(rt, tape, buffers.fetched.as_mut_slice())
}

/// Blanks on it, after a store that is declined.
fn blanks<T: Recordable>(rt: &impl Print, tape: &mut T, buffers: &mut Buffers) -> io::Result<()> {
    if let Some(word) = buffers.words.get_mut(4) {
        *word = 1024;
    }
    store(rt, "store the word 1024", tape, 1, buffers.words.as_slice())?;
    let blanked = tape.blank(1).is_ok();
    let beyond = tape.blank(3).is_ok();
    println!(rt; "  blank track 1: {blanked}, track 3: {beyond}")?;
    fetch(rt, "fetch track 1", tape, 1, buffers.fetched.as_mut_slice())
}

/// The same calls on any recordable tape of three tracks.
fn calls<T: Recordable>(rt: &impl Print, tape: &mut T, buffers: &mut Buffers) -> io::Result<()> {
    stores(rt, tape, buffers)?;
    blanks(rt, tape, buffers)?;
    buffers.shuffle(2);
    store(rt, "store track 2", tape, 2, buffers.words.as_slice())
}

/// A window by hostile numbers.
fn windows(rt: &impl Print, memory: &[u16], buffer: &mut [u16]) -> io::Result<()> {
    for (first, count) in [
        (0, usize::MAX),
        (usize::MAX, usize::MAX),
        (2, 1),
        (3, 5),
        (1, 0),
    ] {
        let window = Window {
            below: InhibitedImage { memory },
            first,
            count,
        };
        let length = window.length();
        println!(rt; "  from {first}, {count} tracks: {length}")?;
        fetch(rt, "  its track 0", &window, 0, buffer)?;
    }
    Ok(())
}

/// A word image with a flag of 2, and numbers above 1,023 in a written track.
fn odd_numbers(rt: &impl Print, memory: &mut [u16], buffer: &mut [u16]) -> io::Result<()> {
    memory.fill(65_535);
    if memory.len() > 4609 {
        memory[0] = 1;
        memory[3] = 1023;
        memory[4609] = 2;
    }
    fetch(
        rt,
        "numbers above 1023 in a written track",
        &InhibitedImage { memory },
        0,
        buffer,
    )?;
    fetch(rt, "a flag of 2", &InhibitedImage { memory }, 1, buffer)?;
    match buffer.get_mut(0..WORDS - 1) {
        Some(short) => fetch(
            rt,
            "a buffer of 4607 numbers",
            &InhibitedImage { memory },
            0,
            short,
        ),
        None => Ok(()),
    }
}

/// The same calls on a word image and on a packed image.
fn images(
    rt: &impl Print,
    numbers: &mut [u16],
    bytes: &mut [u8],
    buffers: &mut Buffers,
) -> io::Result<()> {
    println!(rt; "word image")?;
    calls(rt, &mut WordImage { memory: numbers }, buffers)?;
    println!(rt; "packed image")?;
    calls(rt, &mut PackedImage { memory: bytes }, buffers)
}

/// A word image that is only played.
fn played(rt: &impl Print, numbers: &mut [u16], buffer: &mut [u16]) -> io::Result<()> {
    println!(rt; "windows on an inhibited image of three tracks")?;
    windows(rt, numbers, buffer)?;
    println!(rt; "odd numbers")?;
    odd_numbers(rt, numbers, buffer)
}

pub(crate) fn run(rt: &HostRuntime) -> io::Result<()> {
    let heap = rt.alloc();
    let mut numbers = vec![in heap; 0u16; 4 * 4609 - 1]?;
    let mut bytes = vec![in heap; 0u8; 4 * 5761 - 1]?;
    let mut buffers = Buffers::new(heap)?;
    images(
        rt,
        numbers.as_mut_slice(),
        bytes.as_mut_slice(),
        &mut buffers,
    )?;
    played(rt, numbers.as_mut_slice(), buffers.fetched.as_mut_slice())
}
