//! A line from threads that make events to one that listens: each thread sends its own events through a queue of its own,
//! and waits for no room in it.
#![tactic(auto)]

mod ear;
pub mod heard;
pub mod hearing;
pub mod line;
pub mod sending;
mod talk;
