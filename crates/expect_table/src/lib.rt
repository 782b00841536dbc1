//! Expectations: which connections are expected, of which entry, and until when.
#![tactic(auto)]

pub mod expectation;
pub mod laws;
pub mod table;
