//! Tests of the clerks of the shared table, in a crate of their own. The library is empty.
#![tactic(auto)]

#[cfg(test)]
mod tests;
