//! What a track of a DDS tape reads as, and what the 46 tracks of a group read as.
//!
//! A track is decoded block by block, its C1 words are checked, and its C2 words filled. What went wrong stands in a
//! loss sheet. Up to two lost tracks of a group are filled by C3.
#![tactic(auto)]

mod c1;
mod c2;
mod c3;
mod decoding;
pub mod group;
mod lost_words;
mod passing;
pub mod randomizer;
mod recovery;
pub mod theorems;
pub mod track;
