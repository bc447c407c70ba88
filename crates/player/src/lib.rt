//! Playing a tape: its groups are read and walked, and their records and marks given.
#![tactic(auto)]

mod giving;
mod lent;
mod measuring;
