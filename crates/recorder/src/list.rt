use calls::fault::Decline;

pub mod carrying;
pub mod whole;

/// A call on an open recording.
#[derive(Clone, Copy)]
pub enum Call<'a> {
    /// A record with its bytes.
    Record(&'a [u8]),
    /// A mark of this kind.
    Mark(u8),
    /// A warning.
    Warn,
}

/// A call, and the answer that it was given.
#[derive(Clone, Copy)]
pub struct Asked<'a> {
    pub call: Call<'a>,
    pub answer: Result<(), Decline>,
}
