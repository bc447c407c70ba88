//! Tapes in memory: a word image, a packed image, and a word image that can only be played.
#![tactic(auto)]

pub mod image;
pub mod inhibited;
mod number;
pub mod packed_image;
pub mod word_image;
