//! What the threads of a run share.

use event_listen::line::Line;
use packet_path::setup::Setup;
use std::alloc::Global;

/// What all threads of a run are given: the setup, the gate that they pass, the script's moment, and the line to the
/// listener where there is one.
#[derive(Drop)]
pub struct Shared<'a, 'l, G> {
    pub alloc: Global,
    pub setup: &'a Setup,
    pub gate: &'a G,
    pub moment: u64,
    pub line: Option<&'l Line>,
}
