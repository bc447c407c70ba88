//! Playing: what a tape gives, and what that promises of every recording.
#![tactic(auto)]

pub mod fault;
pub mod laws;
pub mod rows;
