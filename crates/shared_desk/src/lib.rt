//! The tracker whose table many threads share: a clerk for each of them.
#![tactic(auto)]

mod claiming;
pub mod clerk;
mod commit;
mod confirm;
mod desk;
mod entry;
mod expect_turn;
mod expecting;
mod holding;
mod killing;
pub mod laws;
mod lookup;
mod noting;
mod rival;
mod touching;
pub mod tracker;
mod tuples;
