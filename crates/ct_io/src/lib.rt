//! The outside as two traits: files that are read, and sinks that are written; with a version of
//! each in memory, for tests, and one over the system. Nothing that comes from outside is assumed:
//! each call may fail, and each `Failed` answer shows in a count.
#![tactic(auto)]

mod counts;
mod files;
mod gate;
mod mem_file;
mod mem_files;
mod mem_sink;
mod sink;
mod std_files;
mod std_sink;
mod std_stream;

pub use files::{Failed, Files};
pub use gate::{Crossing, Gate, NoGate};
pub use mem_files::MemFiles;
pub use mem_sink::MemSink;
pub use sink::Sink;
pub use std_files::StdFiles;
pub use std_sink::StdSink;
pub use std_stream::StdStream;
