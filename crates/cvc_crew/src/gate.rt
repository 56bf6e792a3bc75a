//! What is called before each turn.

/// Called by each worker before each of its turns. It may hold the worker for a while, and so bring a schedule about.
/// No answer depends on it.
pub trait Gate: Sync {
    /// Before the turn of this number of a worker. Workers and turns count from 0.
    fn before(&self, worker: u32, turn: u64);
}

/// A gate that holds nobody.
#[derive(Clone, Copy)]
pub struct NoGate;

impl Gate for NoGate {
    fn before(&self, _worker: u32, _turn: u64) {}
}
