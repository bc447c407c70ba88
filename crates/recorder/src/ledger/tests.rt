ghost use Rattle.std.specs.Prelude.{◌≡◌, ℕ, ◌*◌};
ghost use Rattle.calls.specs.Declines.{and_then, makable, refused, admitted, reaches, recordable, markable};
ghost use Rattle.recorder.specs.Views.{book_of};

use crate::ledger::Ledger;
use calls::fault::Decline;
use layout::register::Register;
use layout::settings::Settings;
use layout::sizes::{BENCH, GROUP, TRACK_WORDS, TRACKS};

/// The bytes of the longest record.
const LONGEST: usize = 16_777_215;

/// The tests for making: the settings, the length of the group buffer, and whether the tape has a group.
pub(crate) fn test_making(settings: Settings, group: usize, long: bool) -> Result<(), Decline>
    ensures { result ≡ makable settings group long }
{
    Register::new(settings).ok_or(Decline::Setting)?;
    if group != GROUP {
        return Err(Decline::GroupBuffer);
    }
    if long {
        Ok(())
    } else {
        Err(Decline::ShortTape)
    }
}

impl Ledger {
    /// The number that the recording was made in spite of, with a group buffer of so many bytes.
    pub(crate) fn test_made(&self, group: usize) -> Result<(), Decline>
        ensures { result ≡ refused (book_of self.now) group }
    {
        test_making(self.settings, group, self.limit > 0)
    }

    /// That, and the lengths of the track buffer and of the bench.
    pub(crate) fn test_lent(&self, group: usize, buffer: usize, bench: usize) -> Result<(), Decline>
        ensures { result ≡ admitted (record { track = buffer; bench = bench }) group (book_of self.now) }
    {
        self.test_made(group)?;
        if buffer != TRACK_WORDS {
            return Err(Decline::TrackBuffer);
        }
        if bench != BENCH {
            return Err(Decline::Bench);
        }
        Ok(())
    }

    /// Whether a tape of so many tracks still has G groups.
    pub(crate) fn test_tape(&self, tracks: usize) -> Result<(), Decline>
        ensures { result ≡ reaches tracks (book_of self.now) }
    {
        if tracks < TRACKS * self.limit as usize {
            return Err(Decline::LostTracks);
        }
        Ok(())
    }

    /// Whether a record of so many bytes can be laid.
    pub(crate) fn test_record(&self, bytes: usize) -> Result<(), Decline>
        ensures { result ≡ recordable bytes (book_of self.now) }
    {
        if bytes == 0 || bytes > LONGEST {
            return Err(Decline::Length);
        }
        if self.record_ends(bytes) > self.limit as u32 {
            return Err(Decline::Full);
        }
        Ok(())
    }

    /// Whether a mark of this kind can be laid. The kind is a number: any may be asked for, and another than 1 and 2 is declined.
    pub(crate) fn test_mark(&self, kind: u8) -> Result<(), Decline>
        ensures { result ≡ markable kind (book_of self.now) }
    {
        if kind == 0 || kind > 2 {
            return Err(Decline::MarkKind);
        }
        if self.mark_ends() > self.limit as u32 {
            return Err(Decline::Full);
        }
        Ok(())
    }

    /// The tests of a record behind those of the lent memory.
    pub(crate) fn admit_record(&self, tracks: usize, bytes: usize) -> Result<(), Decline>
        ensures { result ≡ and_then (reaches tracks (book_of self.now)) (recordable bytes (book_of self.now)) }
    {
        self.test_tape(tracks)?;
        self.test_record(bytes)
    }

    /// The tests of a mark behind those of the lent memory.
    pub(crate) fn admit_mark(&self, tracks: usize, kind: u8) -> Result<(), Decline>
        ensures { result ≡ and_then (reaches tracks (book_of self.now)) (markable kind (book_of self.now)) }
    {
        self.test_tape(tracks)?;
        self.test_mark(kind)
    }
}
