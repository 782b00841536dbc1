//! Rules of network address translation: how a file says them, which flows each is for, and the reply tuple
//! that a flow gets by them.
#![tactic(auto)]

pub mod laws;
pub mod read;
mod reply;
pub mod rule;
mod search;
pub mod translate;
