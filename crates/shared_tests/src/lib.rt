//! Tests of what threads share, in a crate of their own: the shared table below its clerks, and the line to a listener. The
//! library is empty.
#![tactic(auto)]

#[cfg(test)]
mod listen;
#[cfg(test)]
mod pool;
#[cfg(test)]
mod rule;
