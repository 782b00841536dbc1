//! Tests of what is written over any desk: packets over a desk of one entry, over one that lets another pass act before a
//! call of its own, and over desks whose passes take turns. The library is a run on such desks, for tests of whole programs.
#![tactic(auto)]

#[cfg(test)]
mod busy_desk;
#[cfg(test)]
mod one_entry;
#[cfg(test)]
mod packets;
#[cfg(test)]
mod turn_desks;
pub mod turn_replay;
#[cfg(test)]
mod zones;
