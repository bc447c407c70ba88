//! How fast groups are written and read: `speed GROUPS` prints megabytes of group bytes a second.
#![tactic(auto)]

use channel::plain::Plain;
use images::word_image::{STRIDE, WordImage};
use layout::settings::Settings;
use layout::sizes::{BENCH, GROUP};
use losses::sheet::LossSheet;
use reading::group::read_group;
use std::alloc::{AllocError, Global};
use std::time::Instant;
use std::{env, io};
use tape::traits::{Recordable, WORDS};
use writing::group::write_group;

const SETTINGS: Settings = Settings {
    tap: 3,
    start: 12345,
};

/// The memory that the calls are lent: for a group, for a bench, and for a track.
/// Programs share no crate, so each has its own.
#[derive(Drop)]
struct Buffers {
    group: Vec<u8>,
    bench: Vec<u8>,
    track: Vec<u16>,
}

impl Buffers {
    /// A group whose bytes look random, and zeros.
    fn new(heap: Global) -> Result<Buffers, AllocError> {
        let mut group = vec![in heap; 0u8; GROUP]?;
        noise(group.as_mut_slice());
        Ok(Buffers {
            group,
            bench: vec![in heap; 0u8; BENCH]?,
            track: vec![in heap; 0u16; WORDS]?,
        })
    }
}

/// Bytes that look random. Test data; programs share no crate, so `vectors` has it too.
fn noise(bytes: &mut [u8]) {
    let mut x = 7u32;
    for byte in bytes.iter_mut() {
        x = x.wrapping_mul(1_664_525).wrapping_add(1_013_904_223);
        *byte = (x >> 24) as u8;
    }
}

/// Writes the group again and again, and says how often that was done.
fn write_many<T: Recordable>(tape: &mut T, turns: u32, buffers: &mut Buffers) -> usize {
    let group = buffers.group.as_slice();
    let (bench, track) = (buffers.bench.as_mut_slice(), buffers.track.as_mut_slice());
    (0..turns)
        .filter(|_| write_group(tape, &Plain, SETTINGS, 1, group, bench, track).is_ok())
        .count()
}

/// Reads the group again and again, and says how often that was done.
fn read_many<T: Recordable>(tape: &T, turns: u32, buffers: &mut Buffers) -> usize {
    let group = buffers.group.as_mut_slice();
    let (bench, track) = (buffers.bench.as_mut_slice(), buffers.track.as_mut_slice());
    (0..turns)
        .filter(|_| {
            let mut sheet = LossSheet::new();
            read_group(tape, &Plain, SETTINGS, 1, bench, track, group, &mut sheet).is_ok()
        })
        .count()
}

/// The number of groups that the first argument asks for, if it asks for any.
fn turns(rt: &HostRuntime) -> io::Result<Option<u32>> {
    let word = env::args(rt)?.nth(1);
    let turns = word.and_then(|word| word.parse::<u32>().ok());
    Ok(turns.filter(|turns| *turns > 0))
}

/// Prints how many groups the work has done, and how fast.
fn measure<F: FnOnce() -> usize>(rt: &HostRuntime, what: &str, work: F) -> io::Result<()>
    requires { F.IsAlwaysCallable work }
{
    let start = Instant::now(rt)?;
    let done = work();
    let millis = start.elapsed(rt)?.as_millis();
    let bytes = done as u64 as u128 * 126_632;
    let tenths = (bytes / 100).checked_div(millis).unwrap_or(0);
    println!(rt;
        "{what}: {done} groups in {millis} ms, {}.{} MB/s",
        tenths / 10,
        tenths % 10
    )
}

fn run(rt: &HostRuntime, turns: u32) -> io::Result<()> {
    let heap = rt.alloc();
    let mut memory = vec![in heap; 0u16; 46 * STRIDE]?;
    let mut buffers = Buffers::new(heap)?;
    let mut tape = WordImage {
        memory: memory.as_mut_slice(),
    };
    measure(rt, "write", || write_many(&mut tape, turns, &mut buffers))?;
    measure(rt, "read", || read_many(&tape, turns, &mut buffers))
}

fn main(rt: HostRuntime) -> io::Result<()> {
    match turns(&rt)? {
        Some(turns) => run(&rt, turns),
        None => println!(rt; "speed GROUPS: writes and reads that many groups"),
    }
}
