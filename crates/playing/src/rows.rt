use crate::fault::PlayFault;

/// An item as it was played: its kind (0 is a record, 1 and 2 are marks), the number of output bytes before it, the
/// number of its own, and 1 if its first entry has the warning, else 0.
// Kind and warning are numbers: the rows lie in lent memory, in the form that the readers of a cartridge have them.
#[derive(Clone, Copy)]
pub struct Row {
    pub kind: u8,
    pub place: usize,
    pub length: usize,
    pub warned: u8,
}

/// What playing answers: the numbers of rows and of bytes given, and why it was declined, if it was.
// No Result: what was given before a decline counts too.
#[derive(Clone, Copy)]
pub struct Played {
    pub rows: usize,
    pub bytes: usize,
    pub fault: Option<PlayFault>,
}
