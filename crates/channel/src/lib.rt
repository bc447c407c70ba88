//! Line codes of a DDS tape: how a byte stands on the tape as a channel word of ten bits, and how a word is read
//! back as a byte.
//!
//! A line code gives for a state and a byte always the same word and next state, and for a word one byte or none;
//! the word of any state and byte gives that byte back.
#![tactic(auto)]

pub mod fault;
pub mod line;
pub mod plain;
pub mod series;
pub mod sheet;
pub mod state;
