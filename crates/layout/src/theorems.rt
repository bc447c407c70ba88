ghost use Rattle.layout.specs.Randomizer.{Randomizes};
ghost use Rattle.layout.specs.Reading.{FillingLaw};
ghost use Rattle.layout.specs.Damage.{LightReads};
ghost use Rattle.layout.specs.Group.{Kept, NeverMixed};
ghost use Rattle.layout.specs.Writing.{OneArray, WrittenOnce};

/// Randomizing twice gives the bytes back.
pub fn randomizer_stands()
    ensures { Randomizes }
{}

/// A lightly damaged track reads as it was written, under every line code that keeps the law.
pub fn reading_stands()
    ensures filling { FillingLaw }
    ensures light { LightReads }
{}

/// A group with at most two tracks blank and the others lightly damaged reads as the group; with anything at all on two
/// tracks it reads as the group or has a C3 word that does not check.
pub fn group_stands()
    ensures kept { Kept }
    ensures unmixed { NeverMixed }
{}

/// Each row has one array, and each group one list of 46 tracks.
pub fn writing_stands()
    ensures row { OneArray }
    ensures group { WrittenOnce }
{}
