//! A taker of bytes.
ghost use Rattle.std.specs.Prelude.{◌<◌, ℕ, List, Option, length};
ghost use Rattle.cvc_io.specs.Causes.{HasCause};
ghost use Rattle.cvc_io.specs.Bytes.{Writes, TakesSome};

use crate::WriteFailed;

/// What takes the program's bytes.
pub trait Sink {
    /// All bytes that it took, where the sink tells them.
    ghost written: { Self → Option (List ℕ) };

    /// How often it has failed.
    ghost faults: { Self → ℕ };

    /// Takes at least one byte from the front of the piece, and says how many. One that takes none has failed.
    fn write(&mut self, piece: &[u8]) -> Result<usize, WriteFailed>
        requires { 0 < length piece.now }
        ensures bound { TakesSome result piece.now }
        ensures bytes { Writes (written self.old) (written self.new) result piece.now }
        ensures cause { HasCause (faults self.old) (faults self.new) result };
}
