use losses::fault::ReadFault;
use losses::sheet::{LossRow, LossSheet};
use std::io;
use writing::fault::WriteFault;

/// Prints the rows of the tracks that are lost, and how many were read.
pub(crate) fn print_sheet(rt: &impl Print, sheet: &LossSheet) -> io::Result<()> {
    let mut read = 0usize;
    for t in 0..46 {
        let LossRow { cause, m, n } = sheet.finding(t);
        match cause {
            Some(cause) => {
                let number = cause.number();
                println!(rt; "    track {t}: cause {number}, {cause:?}, m {m}, n {n}")?;
            }
            None => read = read.saturating_add(1),
        }
    }
    println!(rt; "    {read} tracks read")
}

/// Prints what came of writing a group.
pub(crate) fn print_written(
    rt: &impl Print,
    number: u16,
    answer: Result<(), WriteFault>,
) -> io::Result<()> {
    match answer {
        Ok(()) => println!(rt; "  group {number}: written"),
        Err(fault) => {
            let number = fault.number();
            println!(rt; "  declined with {number}, {fault:?}")
        }
    }
}

/// Prints what came of reading a group.
pub(crate) fn print_answer(
    rt: &impl Print,
    answer: Result<(), ReadFault>,
    text: &[u8],
) -> io::Result<()> {
    match answer {
        Ok(()) => {
            let text = std::str::from_utf8(text).unwrap_or("no text");
            println!(rt; "    read; it begins: {text}")
        }
        Err(fault) => {
            let number = fault.number();
            println!(rt; "    declined with {number}, {fault:?}")
        }
    }
}
