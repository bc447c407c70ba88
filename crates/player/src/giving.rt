mod entries;
mod groups;

/// How much was given: bytes and rows, and of a record that is still open its bytes so far and its warning.
// The record has no type of its own here: whether one is open is known to the walk, which goes before. The warning is a number, as
// in rows.
#[derive(Clone, Copy)]
pub(crate) struct Giving {
    pub(crate) bytes: usize,
    pub(crate) rows: usize,
    pub(crate) length: usize,
    pub(crate) warned: u8,
}
