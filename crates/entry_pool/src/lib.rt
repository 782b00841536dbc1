//! The places of the shared table: they are taken for new entries, held, given up, and made free again.
#![tactic(auto)]

pub mod hold;
pub mod take;
mod turn;
