//! The settled examples of the format, as one theorem over one list.
#![tactic(auto)]

ghost use Rattle.settled.specs.Examples.{Settled};

/// Each settled example comes out of the definitions as it has to; those with a record, whatever its bytes.
pub fn settled_numbers_hold()
    ensures { Settled }
{}
