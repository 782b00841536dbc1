//! Trackers that keep their records in a list: one for one thread, and one whose passes take turns.
#![tactic(auto)]

mod book;
mod bundles;
mod calls;
pub mod desk;
mod entries;
mod expecting;
mod holds;
pub mod laws;
mod noting;
mod turn;
pub mod turn_desk;
