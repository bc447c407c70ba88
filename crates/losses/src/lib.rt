//! What reading finds and why it is declined: the loss sheet with its causes, and the faults.
#![tactic(auto)]

pub mod fault;
pub mod sheet;
