ghost use Rattle.calls.specs.Calls.{MakeFollows, RecordObeys, MarkObeys, WarnObeys, CloseEnds};
ghost use Rattle.calls.specs.Lists.{Ran};

/// What an open recording holds is the recording of a run, and each call does to both the same. So a whole list of calls that is
/// closed without a decline is a run, and its list follows from the calls carried out.
pub fn calls_stand()
    ensures make { MakeFollows }
    ensures record { RecordObeys }
    ensures mark { MarkObeys }
    ensures warn { WarnObeys }
    ensures close { CloseEnds }
    ensures ran { Ran }
{}
