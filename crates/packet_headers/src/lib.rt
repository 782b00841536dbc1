//! Capture files and the headers of their packets.
#![tactic(auto)]

mod byte_order;
pub mod capture;
pub mod capture_laws;
pub mod classify;
pub mod classify_laws;
pub mod frame;
pub mod layout_laws;
pub mod packet;
pub mod tcp_numbers;

pub use byte_order::Endian;
pub use room_list::Bytes;
