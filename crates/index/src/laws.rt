ghost use Rattle.index.specs.Bytes.{Reread};
ghost use Rattle.index.specs.Counted.{Agreed};
ghost use Rattle.index.specs.Cursors.{ReadsGroup, ReadsAll};
ghost use Rattle.index.specs.Writing.{OpensEmpty};

/// A group's bytes are 126,632, and give the group again.
pub fn bytes_stand()
    ensures { Reread }
{}

/// Walking a group by numbers alone gives the state and the numbers of walking it, and the same fault.
pub fn numbers_stand()
    ensures { Agreed }
{}

/// A reader gives a group's entries, one after the other.
pub fn readers_stand()
    ensures group { ReadsGroup }
    ensures all { ReadsAll }
{}

/// A group of zeros is an open group without entries.
pub fn writers_stand()
    ensures { OpensEmpty }
{}
