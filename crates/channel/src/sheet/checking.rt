ghost use Rattle.std.specs.Prelude.{◌≡◌, ℕ, ◌+◌, ◌/◌, ◌<◌, length, None, MatchOption, MatchResult, OnOk, slice_index, slice_index_or};
ghost use Rattle.channel.specs.Codes.{Narrow, Apart, Wide, Shared, Inverse, free, plain_decode, plain_line, sheet_line};
ghost use Rattle.channel.specs.Faults.{SheetVerdict};
ghost use Rattle.channel.specs.Stand.{GoodSheetsServe, DecodesNoMore, SharedWordsServeNever, OneVerdict};
ghost use Rattle.channel.specs.Served.{ServesAs};

use crate::fault::SheetFault;
use crate::line::LineCode;
use crate::plain::Plain;
use crate::sheet::{CheckedSheet, NUMBERS, RawSheet, WORDS};

/// The largest number of a good sheet: word 1,023 and next state 1.
const LARGEST: u32 = 2047;

impl CheckedSheet {
    /// A checked sheet that is the plain code.
    pub fn new() -> CheckedSheet
        ensures { ServesAs result plain_line }
    {
        CheckedSheet {
            numbers: plain_numbers(),
            bytes: plain_bytes(),
        }
    }
}

/// Checks the raw sheet. A good one fills the checked sheet; any other is declined, and the checked sheet stays as it
/// was.
pub fn check(raw: &RawSheet, into: &mut CheckedSheet) -> Result<(), SheetFault>
    ensures answer { SheetVerdict raw.now.numbers.now result }
    ensures held { MatchResult result (λ _. into.new.numbers ≡ raw.now.numbers.now) (λ _. into.new ≡ into.old) }
    ensures code { OnOk result (ServesAs into.new (sheet_line raw.now.numbers.now)) }
{
    if raw.numbers.len() != NUMBERS {
        return Err(SheetFault::WrongCount);
    }
    let Some(numbers) = narrowed(raw.numbers) else {
        return Err(SheetFault::WideNumber);
    };
    let Some(bytes) = inverted(&numbers) else {
        return Err(SheetFault::SharedWord);
    };
    into.numbers = numbers;
    into.bytes = bytes;
    Ok(())
}

/// The numbers of the plain code: the word is the byte, and the next state is 1.
fn plain_numbers() -> [u16; NUMBERS]
    ensures { (length result ≡ 512) × ((i : ℕ) → i < 512 → slice_index result i ≡ i / 2 + 1024) }
{
    let mut numbers = [0u16; NUMBERS];
    for (i, number) in numbers.iter_mut().enumerate() {
        *number = (i / 2 + 1024) as u16;
    }
    numbers
}

/// The bytes of the plain code's words.
fn plain_bytes() -> [Option<u8>; WORDS]
    ensures { (w : ℕ) → w < 1024 → slice_index_or result w None ≡ plain_decode w }
{
    let mut bytes = [None; WORDS];
    for (word, byte) in bytes.iter_mut().enumerate() {
        *byte = Plain.decode(word as u16);
    }
    bytes
}

/// The numbers as a table, or none where one is above 2,047.
fn narrowed(numbers: &[u32]) -> Option<[u16; NUMBERS]>
    requires { length numbers.now ≡ 512 }
    ensures { MatchOption result (Wide numbers.now) (λ t. (t ≡ numbers.now) × Narrow numbers.now) }
{
    let mut table = [0u16; NUMBERS];
    // The table by its index: of what is written through a zip nothing would be known after the loop.
    for (i, number) in numbers.iter().enumerate() {
        if *number > LARGEST {
            return None;
        }
        table[i] = *number as u16;
    }
    Some(table)
}

/// Whether the byte may take the entry: it is empty, or the byte has it already.
fn is_free(entry: Option<u8>, byte: u8) -> bool
    ensures { result ≡ free entry byte }
{
    entry.is_none_or(|other| other == byte)
}

/// The table from words to bytes, or none where one word stands under two bytes.
fn inverted(numbers: &[u16; NUMBERS]) -> Option<[Option<u8>; WORDS]>
    requires { length numbers.now ≡ 512 }
    ensures { MatchOption result (Shared numbers.now) (λ t. Apart numbers.now × Inverse t numbers.now) }
{
    let mut bytes = [None; WORDS];
    for (i, number) in numbers.iter().enumerate() {
        let word = (*number % 1024) as usize;
        let byte = (i / 2) as u8;
        if !is_free(bytes[word], byte) {
            return None;
        }
        bytes[word] = Some(byte);
    }
    Some(bytes)
}

/// What the check rests on: a good sheet is a line code, a sheet with a word under two bytes is none whatever the
/// decoding, and no sheet has two verdicts.
pub fn sheets_stand()
    ensures serve { GoodSheetsServe }
    ensures exact { DecodesNoMore }
    ensures only { SharedWordsServeNever }
    ensures verdict { OneVerdict }
{}
