ghost use Rattle.playing.specs.Promise.{Promised};

/// A play that gives what the definitions say keeps the promise, for every line code that keeps its law.
pub fn promise_stands()
    ensures { Promised }
{}
