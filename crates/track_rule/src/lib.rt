//! The shared table of the tracker: its words and slots, the rule that holds of them between any two steps of any passes,
//! and the steps.
#![tactic(auto)]

pub mod board;
pub mod bucket_steps;
pub mod chain_stores;
pub mod commits;
pub mod expect_events;
pub mod expect_turn;
pub mod free_list;
pub mod history_word;
pub mod kills;
pub mod laws;
pub mod layout;
pub mod pass;
pub mod place_phase;
pub mod plays;
pub mod pool;
pub mod record_turn;
pub mod rule;
pub mod slot;
pub mod touches;
pub mod view;
pub mod word_places;
