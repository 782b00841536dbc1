//! A book that many passes share, each in its turn: the atomic steps, what they keep and what they tell.

pub mod change;
pub mod pass;
pub mod plays;
pub mod rule;
pub mod steps;
pub mod view;
