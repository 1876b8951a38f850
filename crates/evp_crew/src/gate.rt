//! Where a caller may hold workers back.

/// Is called before each turn, while the worker holds that one actor. It may wait.
pub trait Gate {
    fn before(&self, worker: u32, actor: u32);
}

/// A gate that holds nobody back.
#[derive(Clone, Copy, Debug)]
pub struct OpenGate;

impl Gate for OpenGate {
    fn before(&self, _worker: u32, _actor: u32) {}
}
