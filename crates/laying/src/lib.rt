//! How the calls of a recording are laid into groups: definitions and laws.
#![tactic(auto)]

pub mod laws;
