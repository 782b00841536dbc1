//! The one history of the tracker: records, the events that change them, and the verdicts on packets.
#![tactic(auto)]

pub mod answer;
pub mod check;
pub mod desk;
pub mod event;
pub mod filter;
pub mod find;
pub mod laws;
pub mod legality;
pub mod many_threads;
pub mod merge;
pub mod order;
pub mod outcome;
pub mod packed;
pub mod place_use;
pub mod places;
pub mod record;
pub mod report;
pub mod short_note;
pub mod short_verdict;
pub mod sight_laws;
pub mod sizes;
pub mod verdict;
pub mod zone_laws;
