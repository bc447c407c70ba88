use channel::sheet;
use channel::sheet::{CheckedSheet, RawSheet};
use std::io;

/// A sheet for the example: the words of a byte are 300 + 2b in state 0 and 301 + 2b in state 1, and a byte with an odd
/// count of ones turns the state. Test data; programs share no crate, so `vectors` has it too.
fn example() -> [u32; 512] {
    let mut numbers = [0u32; 512];
    for (i, number) in numbers.iter_mut().enumerate() {
        let i = i as u32;
        let odd = (i / 2).count_ones() % 2;
        *number = 300 + i + 1024 * ((i % 2 + odd) % 2);
    }
    numbers
}

/// Checks one sheet, and says what came of it.
fn try_sheet(
    rt: &impl Print,
    what: &str,
    numbers: &[u32],
    into: &mut CheckedSheet,
) -> io::Result<()> {
    match sheet::check(&RawSheet { numbers }, into) {
        Ok(()) => println!(rt; "  {what}: good"),
        Err(fault) => {
            let number = fault.number();
            println!(rt; "  {what}: declined with {number}, {fault:?}")
        }
    }
}

/// Checks three bad sheets and a good one, which the checked sheet then is.
pub(crate) fn check_them(rt: &impl Print, into: &mut CheckedSheet) -> io::Result<()> {
    println!(rt; "Code sheets")?;
    let good = example();
    try_sheet(rt, "a sheet of 511 numbers", &good[0..511], into)?;
    let mut wide = example();
    wide[17] = 2048;
    try_sheet(rt, "a sheet with the number 2048", &wide, into)?;
    let mut shared = example();
    shared[400] = 300;
    try_sheet(rt, "a sheet with one word for two bytes", &shared, into)?;
    try_sheet(rt, "the example sheet", &good, into)
}
