use channel::line::LineCode;
use channel::plain::Plain;
use channel::sheet;
use channel::sheet::{CheckedSheet, RawSheet};
use channel::state::State;
use std::io;

/// How many bytes come back from their words in a state.
fn come_back<C: LineCode>(code: &C, state: State) -> usize {
    (0..=255u8)
        .filter(|byte| {
            let (word, _next) = code.encode(state, *byte);
            code.decode(word) == Some(*byte)
        })
        .count()
}

/// How many numbers of 16 bits give a byte.
fn give_a_byte<C: LineCode>(code: &C) -> usize {
    (0..=u16::MAX)
        .filter(|word| code.decode(*word).is_some())
        .count()
}

fn show<C: LineCode>(rt: &impl Print, what: &str, code: &C) -> io::Result<()> {
    let back = come_back(code, State::Zero).saturating_add(come_back(code, State::One));
    let bytes = give_a_byte(code);
    let (word, next) = code.encode(State::Zero, 200);
    println!(rt;
        "  {what}: {back} of 512 come back, {bytes} words give a byte; 200 from state 0: {word}, {next:?}"
    )
}

/// A sheet with the words that a rule gives, mod 1,024. The rule takes twice the byte plus the state.
fn sheet_of<F: Fn(u32) -> u32>(rule: F) -> [u32; 512]
    requires { F.IsAlwaysCallable rule }
{
    let mut numbers = [0u32; 512];
    for (i, number) in numbers.iter_mut().enumerate() {
        let i = i as u32;
        *number = rule(i) % 1024 + 1024 * (i / 3 % 2);
    }
    numbers
}

/// Checks a sheet, and shows the line code after it.
fn checked(
    rt: &impl Print,
    what: &str,
    numbers: &[u32],
    into: &mut CheckedSheet,
) -> io::Result<()> {
    let fault = sheet::check(&RawSheet { numbers }, into).err();
    let number = fault.map_or(0, |fault| fault.number());
    println!(rt; "  {what}: {number}")?;
    show(rt, "then", into)
}

/// Sheets that have a word for each byte.
fn good_sheets(rt: &impl Print, sheet: &mut CheckedSheet) -> io::Result<()> {
    checked(
        rt,
        "a word for each byte and state",
        &sheet_of(|i| i.wrapping_mul(515)),
        sheet,
    )?;
    checked(
        rt,
        "one word for both states",
        &sheet_of(|i| (i / 2).wrapping_mul(3)),
        sheet,
    )
}

/// Sheets with words under two bytes.
fn shared_words(rt: &impl Print, sheet: &mut CheckedSheet) -> io::Result<()> {
    let mut numbers = sheet_of(|i| i.wrapping_mul(4));
    checked(rt, "words under two bytes", &numbers, sheet)?;
    numbers[511] = u32::MAX;
    checked(
        rt,
        "a number above 2047, and words under two bytes",
        &numbers,
        sheet,
    )
}

pub(crate) fn run(rt: &impl Print) -> io::Result<()> {
    println!(rt; "line codes")?;
    show(rt, "plain", &Plain)?;
    let mut sheet = CheckedSheet::new();
    show(rt, "new sheet", &sheet)?;
    checked(rt, "no numbers", &[], &mut sheet)?;
    good_sheets(rt, &mut sheet)?;
    shared_words(rt, &mut sheet)
}
