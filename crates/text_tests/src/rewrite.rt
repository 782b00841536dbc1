//! Edits and whole sessions by hand.

mod edits;
mod scene;
mod sessions;
