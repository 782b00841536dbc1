//! What is said to a command, before it becomes an answer.

use history_book::answer::Said;

/// What is said to a command, and the points from which and up to which it was so.
#[derive(Drop)]
pub struct Spoken {
    pub said: Said,
    pub from: u64,
    pub to: u64,
}
