ghost use Rattle.laying.specs.Calls.{Faithful, Recorded, Predicted};
ghost use Rattle.laying.specs.Lay.{BoundFree, StoresOpen};
ghost use Rattle.laying.specs.Settled.{Settled};

/// After any calls, carried out or declined, the groups and the open group's entries give the list so far; a
/// recording that is closed then is read back from its bytes; and a record's last entry stands in the predicted group.
pub fn recordings_stand()
    ensures faithful { Faithful }
    ensures recorded { Recorded }
    ensures predicted { Predicted }
{}

/// The index of a recording with no item, and of those with one record of a few lengths.
pub fn settled_stand()
    ensures { Settled }
{}

/// However many groups the rest of a record may take, from as many as its bytes on, it is laid the same.
pub fn rests_stand()
    ensures { BoundFree }
{}

/// The open group, completed, is the group that a recording stores.
pub fn groups_stand()
    ensures { StoresOpen }
{}
