//! What captures have together.

/// How many bytes and packets captures have together.
#[derive(Clone, Copy)]
pub struct CaptureTotals {
    pub bytes: usize,
    pub packets: usize,
}
