//! Looking at one place of the pool after the other, over any desk: what a look at a place leaves, and what the looks at
//! all places say of every entry.
#![tactic(auto)]

mod bundles;
pub mod laws;
pub mod place;
