ghost use Rattle.std.specs.Prelude.{◌≡◌, replicate, if◌then◌else◌, Some, None, nat_lt, slice_index_or, slice_set};
ghost use Rattle.losses.specs.Losses.{cause_number, is_loss, no_loss};

pub use layout::sizes::TRACKS;

/// Why a track is lost.
#[derive(Clone, Copy, PartialEq, Eq, Debug)]
pub enum Cause {
    /// It is blank.
    Blank = 1,
    /// A C2 word has more than six lost bytes.
    TooManyLost = 2,
    /// A C2 word has no filling.
    NoFilling = 3,
    /// A header byte is wrong.
    WrongHeader = 4,
}

impl Cause {
    /// The number of the cause.
    pub fn number(self) -> u8
        ensures { result ≡ cause_number (Some self) }
    {
        self as u8
    }
}

/// The finding on a track: why it is lost, if it is, and the C2 word of the causes `TooManyLost` and `NoFilling`, else 0 and 0.
// A row has three values in every case, as the loss sheet of the format has; so m and n stand beside the cause and not within it.
#[derive(Clone, Copy, PartialEq, Eq, Debug)]
pub struct LossRow {
    pub cause: Option<Cause>,
    pub m: u8,
    pub n: u8,
}

/// The finding on a track that was read.
pub const NO_LOSS: LossRow = LossRow {
    cause: None,
    m: 0,
    n: 0,
};

impl From<Cause> for LossRow {
    ghost from_gives = { λ c r. r ≡ record { cause = Some c; m = 0; n = 0 } };

    /// The finding on a track that is lost for a cause that names no C2 word.
    fn from(cause: Cause) -> LossRow {
        LossRow {
            cause: Some(cause),
            m: 0,
            n: 0,
        }
    }
}

impl LossRow {
    /// The number of the cause, 0 where the track was read.
    pub fn number(self) -> u8
        ensures { result ≡ cause_number self.cause }
    {
        self.cause.map_or(0, |cause| cause.number())
    }

    /// Whether the track is lost.
    pub fn is_loss(self) -> bool
        ensures { result ≡ is_loss self.cause }
    {
        self.cause.is_some()
    }
}

/// The findings on the 46 tracks of a group.
#[derive(Clone, Copy)]
pub struct LossSheet {
    rows: [LossRow; TRACKS],
}

/// Writes a finding into one row.
// The row is lent, so that the others are seen to stay: a rule of the project.
fn write_row(row: &mut LossRow, finding: LossRow)
    ensures { row.new ≡ finding }
{
    *row = finding;
}

impl LossSheet {
    /// A sheet on which every track was read.
    pub fn new() -> LossSheet
        ensures { result.rows ≡ replicate 46 no_loss }
    {
        LossSheet {
            rows: [NO_LOSS; TRACKS],
        }
    }

    /// The row of track `t`.
    pub fn row(&self, t: usize) -> Option<LossRow>
        ensures { result ≡ (if nat_lt t 46 then Some (slice_index_or self.now.rows t no_loss) else None) }
    {
        self.rows.get(t).copied()
    }

    /// Puts the finding on track `t` into that track's row; there is none from 46 on.
    pub fn put(&mut self, t: usize, finding: LossRow)
        ensures { self.new.rows ≡ (if nat_lt t 46 then slice_set self.old.rows t finding else self.old.rows) }
    {
        if t < TRACKS {
            write_row(&mut self.rows[t], finding);
        }
    }

    /// The finding on track `t`: none is lost from 46 on.
    pub fn finding(&self, t: usize) -> LossRow
        ensures { result ≡ slice_index_or self.now.rows t no_loss }
    {
        self.row(t).unwrap_or(NO_LOSS)
    }

    /// Whether track `t` is lost.
    pub fn is_lost(&self, t: usize) -> bool
        ensures { result ≡ is_loss (slice_index_or self.now.rows t no_loss).cause }
    {
        self.finding(t).is_loss()
    }
}
