use crate::noise::Noise;
use channel::line::LineCode;
use channel::plain::Plain;
use channel::sheet;
use channel::sheet::{CheckedSheet, RawSheet};
use images::packed_image::{PackedImage, STRIDE};
use layout::settings::Settings;
use layout::sizes::{BENCH, GROUP};
use std::alloc::{AllocError, Global};
use std::io;
use tape::traits::{Playable, WORDS};
use writing::group::write_group;

// tools/tracks.py works out the same digests from the rules alone.

/// The group: above 255, so that its labels carry another number.
const NUMBER: u16 = 257;

const SETTINGS: Settings = Settings {
    tap: 3,
    start: 12345,
};

/// The memory that writing is lent. Programs share no crate, so each has its own.
#[derive(Drop)]
struct Buffers {
    group: Vec<u8>,
    bench: Vec<u8>,
    track: Vec<u16>,
}

impl Buffers {
    /// A group whose bytes look random, and zeros.
    fn new(heap: Global) -> Result<Buffers, AllocError> {
        let mut group = vec![in heap; 0u8; GROUP]?;
        let mut noise = Noise(7);
        for byte in group.iter_mut() {
            *byte = (noise.next() >> 24) as u8;
        }
        Ok(Buffers {
            group,
            bench: vec![in heap; 0u8; BENCH]?,
            track: vec![in heap; 0u16; WORDS]?,
        })
    }
}

fn digest(words: &[u16]) -> u64 {
    words.iter().fold(0u64, |value, word| {
        value.wrapping_mul(1_000_003).wrapping_add(*word as u64)
    })
}

/// The words of a byte are 300 + 2b in state 0 and 301 + 2b in state 1; a byte with an odd count of ones turns the state.
/// Test data; programs share no crate, so `cartridge` has it too.
fn example_numbers() -> [u32; 512] {
    let mut numbers = [0u32; 512];
    for (i, number) in numbers.iter_mut().enumerate() {
        let i = i as u32;
        let odd = (i / 2).count_ones() % 2;
        *number = 300 + i + 1024 * ((i % 2 + odd) % 2);
    }
    numbers
}

fn example_sheet() -> CheckedSheet {
    let numbers = example_numbers();
    let mut checked = CheckedSheet::new();
    let _ = sheet::check(&RawSheet { numbers: &numbers }, &mut checked);
    checked
}

/// Prints the digest of each track of the group.
fn digests<T: Playable>(rt: &impl Print, tape: &T, buffer: &mut [u16]) -> io::Result<()> {
    for t in 0..46 {
        match tape.fetch(46 * (NUMBER as usize - 1) + t, buffer) {
            Ok(()) => println!(rt; "  {t}: {}", digest(buffer))?,
            Err(_) => println!(rt; "  {t}: not fetched")?,
        }
    }
    Ok(())
}

/// Writes the group under a line code, and prints what stands on the tape.
fn write<C: LineCode>(
    rt: &impl Print,
    name: &str,
    code: &C,
    memory: &mut [u8],
    buffers: &mut Buffers,
) -> io::Result<()> {
    let mut tape = PackedImage { memory };
    let answer = write_group(
        &mut tape,
        code,
        SETTINGS,
        NUMBER,
        buffers.group.as_slice(),
        buffers.bench.as_mut_slice(),
        buffers.track.as_mut_slice(),
    );
    if answer.is_ok() {
        println!(rt; "tracks of group {NUMBER} under the {name}")?;
    }
    digests(rt, &tape, buffers.track.as_mut_slice())
}

pub(crate) fn run(rt: &HostRuntime) -> io::Result<()> {
    let heap = rt.alloc();
    let mut buffers = Buffers::new(heap)?;
    let mut memory = vec![in heap; 0u8; 46 * NUMBER as usize * STRIDE]?;
    let memory = memory.as_mut_slice();
    write(rt, "plain code", &Plain, memory, &mut buffers)?;
    write(rt, "sheet", &example_sheet(), memory, &mut buffers)
}
