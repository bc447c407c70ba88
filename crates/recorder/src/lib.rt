//! Recording: records, marks and warnings laid into groups, and the groups stored on a tape.
#![tactic(auto)]

pub mod closed;
pub mod ledger;
pub mod list;
pub mod open;
