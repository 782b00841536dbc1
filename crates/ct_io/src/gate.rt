//! Points at which a test may hold a worker back.

/// The points of a worker's or a listener's way at which it passes a gate.
#[derive(Clone, Copy)]
pub enum Crossing {
    BeforePacket,
    BeforeCommand,
    InConfirm,
    /// A listener has taken a note.
    Heard,
}

/// A gate that workers pass. It may make a worker wait, and changes nothing else.
pub trait Gate {
    /// The worker of this number passes.
    fn at(&self, worker: u32, crossing: Crossing);
}

/// A gate that lets everyone pass.
#[derive(Clone, Copy)]
pub struct NoGate;

impl Gate for NoGate {
    fn at(&self, _worker: u32, _crossing: Crossing) {}
}
