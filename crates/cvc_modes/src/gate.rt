//! What is called before each mode.

/// A gate of modes: it is called once before each mode is settled.
pub trait ModeGate: Sync {
    /// Called before the mode of this number, from 0, by the thread that settles it.
    fn before(&self, mode: u32);
}

/// A gate that does nothing.
#[derive(Clone, Copy, Debug)]
pub struct NoModeGate;

impl ModeGate for NoModeGate {
    fn before(&self, _mode: u32) {}
}
