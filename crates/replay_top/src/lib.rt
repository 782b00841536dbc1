//! The whole program as one call.
#![tactic(auto)]

mod ending;
mod error_line;
mod process;
mod program;
mod reassembly;
mod replay;
mod rewriting;
mod sizes;

pub use ending::Run;
pub use made_captures::{MadeCaptures, make_captures};
pub use process::{collect_words, exit_code, run_without_words};
pub use program::top;
pub use run_inputs::{FileKind, Flaw, Refusal};
