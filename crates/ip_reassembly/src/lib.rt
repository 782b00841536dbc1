//! Puts the fragments of IPv4 datagrams together (RFC 791, section 3.2).
#![tactic(auto)]

mod datagram;
mod gathering;
mod groups;
pub mod laws;
pub mod piece;
mod reassembly;

pub use reassembly::{Defragged, defrag};
