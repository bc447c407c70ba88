//! A magnetic tape as recorder and player see it: a fixed number of tracks, each blank or 4,608 channel words.
//!
//! `Playable` and `Recordable` say what a tape does. A window on neighbouring tracks of a tape is a tape, and so is one
//! that is lent.
#![tactic(auto)]

pub mod checks;
pub mod fault;
pub mod lent;
pub mod shared;
pub mod traits;
pub mod window;
