//! The calls of a recording: what each answers and leaves, and the laws that join them to runs.
#![tactic(auto)]

pub mod fault;
pub mod laws;
