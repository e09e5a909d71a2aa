//! Where workers pass as they start.

/// Where each worker passes once, before it works: a test can learn there that workers run at the
/// same time. It promises nothing, and no result depends on it.
pub trait Gate {
    /// The worker of this number, counted from 0, is about to start.
    fn pass(&self, worker: u8);
}

/// The gate that does nothing.
#[derive(Drop)]
pub struct OpenGate;

impl Gate for OpenGate {
    fn pass(&self, _worker: u8) {}
}
