//! Standard output as a sink.
ghost use Rattle.std.specs.Prelude.{◌≡◌, None};

use crate::{Sink, WriteFailed};

/// The runtime's standard output. It doesn't tell what it took. Each error of std counts as a fault, and so does a write of no byte.
#[derive(Drop)]
pub struct StdSink<'r, R: Print> {
    rt: &'r R,
    faults: u64,
}

impl<'r, R: Print> StdSink<'r, R> {
    /// The standard output of this runtime. No write has failed.
    pub fn new(rt: &'r R) -> StdSink<'r, R>
        ensures { ⟦<StdSink<'r, R> as Sink>⟧.faults result ≡ 0 }
    {
        StdSink { rt, faults: 0 }
    }
}

impl<R: Print> Sink for StdSink<'_, R> {
    ghost written = { λ _. None };

    ghost faults = { λ s. s.faults };

    fn write(&mut self, piece: &[u8]) -> Result<usize, WriteFailed> {
        match self.rt.write_some(piece) {
            Ok(count) if count > 0 => Ok(count),
            _ => {
                self.faults = self.faults.saturating_add(1);
                Err(WriteFailed)
            }
        }
    }
}
