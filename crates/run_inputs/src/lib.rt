//! The inputs of a run: the files that its words name, read one after another, or a made workload.
#![tactic(auto)]

mod flaw;
mod input;
pub mod laws;
mod made;
mod read;
mod totals;

pub use flaw::{FileKind, Flaw, Refusal, refusal_status};
pub use input::{Inputs, read_all};
