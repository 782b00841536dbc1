//! The helper of FTP: which end of a data connection a payload of the control connection names (RFC 959,
//! RFC 2428), and what is expected of it.
#![tactic(auto)]

mod laws;
mod payload;
mod text;
mod want;

pub use laws::{named_ends_are_unique, naming_bytes_are_unique, reading_is_naming};
pub use payload::{EndSpan, NamedEnd, end_span, named_end};
pub use want::want_of;
