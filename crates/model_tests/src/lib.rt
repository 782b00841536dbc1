//! Tests of tuples, rules, expectations and histories, and of the trackers that keep their records in a list, in a crate of
//! their own. The library is empty.
#![tactic(auto)]

#[cfg(test)]
mod book;
#[cfg(test)]
mod cells;
#[cfg(test)]
mod expectations;
#[cfg(test)]
mod history;
#[cfg(test)]
mod rooms;
#[cfg(test)]
mod rules;
#[cfg(test)]
mod tuples;
