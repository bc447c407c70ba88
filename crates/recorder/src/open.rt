use crate::ledger::Ledger;

pub mod calling;
pub mod making;
mod placing;

/// An open recording. It alone holds its group buffer, and has to be closed: it cannot be let go.
pub struct OpenRecording<'a> {
    pub(crate) group: &'a mut [u8],
    pub(crate) ledger: Ledger,
}
