//! The index of a group: entries and a table behind the user bytes, how items are laid into groups, and how groups are
//! walked.
#![tactic(auto)]

pub mod entry;
pub mod fault;
pub mod kind;
pub mod laws;
pub mod reader;
pub mod succession;
pub mod table;
pub mod tally;
pub mod walk;
pub mod writer;
