ghost use Rattle.reed_solomon.specs.Words.{ByPlaces, Distance, Unique, Fillable};

/// A check sum is the sum over the places of a word; two words that check and differ at few places
/// are equal; a filling is unique; with as many lost bytes as check sums there always is one.
pub fn words_are_apart()
    ensures places { ByPlaces }
    ensures distance { Distance }
    ensures unique { Unique }
    ensures fillable { Fillable }
{}
