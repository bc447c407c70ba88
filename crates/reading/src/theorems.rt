ghost use Rattle.reading.specs.Laws.{RowsFit, TrackKept, GroupKept, GroupUnmixed};

/// Every finding has its cause's number and names a C2 word, and a lightly damaged track is read.
pub fn findings_stand()
    ensures rows { RowsFit }
    ensures kept { TrackKept }
{}

/// With two bad tracks and the others lightly damaged a group is read: always where the bad ones are blank, and else it is
/// read or declined.
pub fn groups_stand()
    ensures kept { GroupKept }
    ensures unmixed { GroupUnmixed }
{}
