//! Runs of a recording: definitions and laws.
#![tactic(auto)]

pub mod laws;
