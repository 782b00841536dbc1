//! The commands of a script: how its lines say them, and what the tracker answers to them.
#![tactic(auto)]

mod bundles;
pub mod command;
mod entries;
mod expire;
mod late;
pub mod laws;
mod line;
mod looks;
mod options;
pub mod perform;
pub mod read;
mod sort;
mod spoken;
mod sweep;
