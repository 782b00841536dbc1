//! One packet's way through the tracker, and when a verdict on a frame fits a history.
#![tactic(auto)]

mod attempt;
mod begin;
mod bundles;
mod fast;
pub mod handle;
pub mod handle_into;
pub mod laws;
pub mod packet;
mod payload;
mod scan;
pub mod setup;
