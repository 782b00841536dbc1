//! Tests of what is written, and of the files and sinks below, in a crate of their own. The library is empty.
#![tactic(auto)]

#[cfg(test)]
mod files;
#[cfg(test)]
mod report;
#[cfg(test)]
mod rewrite;
