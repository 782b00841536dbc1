//! Replays captures and then a script over a tracker, and reports what became of them.
#![tactic(auto)]

mod beside;
mod captures;
mod desks;
mod jobs;
pub mod laws;
pub mod listened;
pub mod replay;
mod script_run;
mod shared;
mod telling;
