//! A sink that never fails.
ghost use Rattle.std.specs.Prelude.{◌≡◌, ◌<◌, None, Ok, length};
ghost use Rattle.cvc_io.specs.Bytes.{TakesSome, Writes};
ghost use Rattle.cvc_io.specs.Causes.{HasCause};

use crate::{Sink, WriteFailed};

/// A sink that takes every piece whole, counts the bytes and keeps none of them: it doesn't tell what it took, and its count of faults is the
/// constant 0.
#[derive(Drop)]
pub struct CountSink {
    count: u64,
}

impl CountSink {
    ghost use Rattle.cvc_io.specs.CountSink.{count_of};

    /// A sink that has taken nothing.
    pub fn new() -> CountSink
        ensures { count_of result ≡ 0 }
    {
        CountSink { count: 0 }
    }

    /// How many bytes it took, up to the last value of a `u64`.
    pub fn count(&self) -> u64
        ensures { result ≡ count_of self.now }
    {
        self.count
    }
}

impl Sink for CountSink {
    ghost use Rattle.cvc_io.specs.CountSink.{count_of, count_with};

    ghost written = { λ _. None };

    ghost faults = { λ _. 0 };

    fn write(&mut self, piece: &[u8]) -> Result<usize, WriteFailed>
        requires { 0 < length piece.now }
        ensures bound { TakesSome result piece.now }
        ensures bytes { Writes None None result piece.now }
        ensures cause { HasCause 0 0 result }
        ensures whole { result ≡ Ok (length piece.now) }
        ensures count { count_of self.new ≡ count_with (count_of self.old) (length piece.now) }
    {
        self.count = self.count.saturating_add(piece.len() as u64);
        Ok(piece.len())
    }
}
