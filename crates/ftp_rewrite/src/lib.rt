//! How the packets of a translated FTP session leave: with the texts that name an end rewritten, and their sequence and
//! acknowledgment numbers moved by that (RFC 959, RFC 2428, RFC 9293).
#![tactic(auto)]

mod adjust;
mod asked;
mod follow;
pub mod laws;
mod line;
mod new_end;
mod page;
mod rewrite;
mod sent;
mod session;
mod write;

pub use adjust::{Added, Adjust, Edit};
pub use follow::rewrites;
pub use rewrite::{NewText, Rewrite, Rewrites};
pub use write::{LEAST_BUFFER, WriteFault, write_rewrites};
