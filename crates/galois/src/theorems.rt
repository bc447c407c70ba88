ghost use Rattle.galois.specs.Galois.{Field};

/// The bytes are a field, with 2 as a generator.
pub fn bytes_are_a_field()
    ensures { Field }
{}
