//! Reed-Solomon codes over the field of 256 elements: check sums, and filling of lost bytes.
#![tactic(auto)]

pub mod codes;
pub mod fault;
pub mod filling;
pub mod interleaved;
pub mod syndromes;
pub mod theorems;
