use calls::fault::Decline;

/// A recording that is closed for good.
// No Result: the counts stand where closing is declined too.
#[derive(Clone, Copy)]
pub struct ClosedRecording {
    /// The groups stored.
    pub groups: u16,
    /// The records and marks carried out.
    pub items: u32,
    /// Why closing was declined, if it was.
    pub decline: Option<Decline>,
}
