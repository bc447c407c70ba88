//! The field of 256 elements, by tables of the powers of 2.
#![tactic(auto)]

pub mod field;
pub mod tables;
pub mod theorems;
