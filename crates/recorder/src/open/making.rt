ghost use Rattle.std.specs.Prelude.{◌≡◌, length};
ghost use Rattle.calls.specs.Calls.{checked, held_made};
ghost use Rattle.recorder.specs.Views.{held_in};

use crate::ledger::Ledger;
use crate::ledger::tests::test_making;
use crate::open::OpenRecording;
use calls::fault::Decline;
use layout::settings::Settings;
use layout::sizes::TRACKS;
use tape::traits::Playable;

/// The most groups of a recording.
const MOST_GROUPS: usize = 65_535;

/// The check for making: whether a recording on this tape, with these settings and this group buffer, can be used.
pub fn check<T: Playable>(tape: &T, settings: Settings, group: &[u8]) -> Result<(), Decline>
    ensures { result ≡ checked settings (length group.now) (length (T.Playable.tracks tape.now)) }
{
    test_making(settings, group.len(), tape.length() >= TRACKS)
}

impl<'a> OpenRecording<'a> {
    /// Makes a recording on a tape. Where the check for making gives a number, the recording declines every call with it,
    /// and its group buffer is left as it is.
    pub fn make<T: Playable>(tape: &T, settings: Settings, group: &'a mut [u8]) -> OpenRecording<'a>
        ensures held { held_in result ≡ held_made settings group.old (length (T.Playable.tracks tape.now)) }
        ensures same { result.group.ghost_name ≡ group.entry.ghost_name }
    {
        if check(tape, settings, group).is_ok() {
            group.fill(0);
        }
        let limit = (tape.length() / TRACKS).min(MOST_GROUPS) as u16;
        OpenRecording {
            group,
            ledger: Ledger::new(settings, limit),
        }
    }
}
