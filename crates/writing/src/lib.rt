//! A group as its 46 tracks: rows of bytes, arrays with their check bytes, channel words, and the tape.
#![tactic(auto)]

pub mod array;
pub mod fault;
pub mod group;
mod places;
pub mod rows;
pub mod words;
