//! The text of a report, and its way to a sink. No call takes memory.
#![tactic(auto)]

mod answer;
pub mod first_word;
pub mod heard;
pub mod laws;
mod line;
pub mod number;
pub mod page;
mod piece;
mod row;
pub mod summary;
pub mod write;
