//! The buckets of the shared table: chains of links, which a pass locks to change them, and follows without a lock.
#![tactic(auto)]

pub mod finding;
pub mod lock;
pub mod locked_chain;
pub mod lookup;
#[cfg(test)]
mod tests;
