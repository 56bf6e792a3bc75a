//! Files to read.
ghost use Rattle.std.specs.Prelude.{◌≡◌, ◌<◌, ℕ, List, Option, None, length, IsSome, IsSomeAnd, OnOk, OnErr};
ghost use Rattle.std.specs.Io.{ReadsAtMost};
ghost use Rattle.cvc_io.specs.Causes.{HasCause};
ghost use Rattle.cvc_io.specs.Files.{Files, Standing, IsOpened, Reads, NoneFalls, RoseFor};

use crate::{OpenFailed, ReadFailed};

/// Named files, one of which may stand open.
pub trait Shelf {
    /// The files, where the shelf tells them.
    ghost files: { Self → Option Files };

    /// The file that stands open.
    ghost standing: { Self → Option Standing };

    /// For each name how often it has failed.
    ghost faults: { Self → List ℕ → ℕ };

    /// Opens the file of this name at its first byte.
    fn open_file(&mut self, name: &[u8]) -> Result<(), OpenFailed>
        requires { standing self.old ≡ None }
        ensures files { files self.new ≡ files self.old }
        ensures opened { OnOk result (IsSomeAnd (standing self.new) (IsOpened (files self.old) name.now)) }
        ensures refused { OnErr result (standing self.new ≡ None) }
        ensures counts { NoneFalls (faults self.old) (faults self.new) }
        ensures cause { HasCause (faults self.old name.now) (faults self.new name.now) result };

    /// Reads the next bytes of the open file into the front of the buffer, and says how many: 0 exactly at the end.
    fn read(&mut self, buf: &mut [u8]) -> Result<usize, ReadFailed>
        requires open { IsSome (standing self.old) }
        requires room { 0 < length buf.old }
        ensures files { files self.new ≡ files self.old }
        ensures bound { ReadsAtMost result buf.new }
        ensures bytes { Reads (standing self.old) (standing self.new) result buf.new }
        ensures counts { NoneFalls (faults self.old) (faults self.new) }
        ensures cause { OnErr result (RoseFor (standing self.old) (faults self.old) (faults self.new)) };

    /// Closes the open file.
    fn close_file(&mut self)
        requires { IsSome (standing self.old) }
        ensures files { files self.new ≡ files self.old }
        ensures closed { standing self.new ≡ None }
        ensures counts { NoneFalls (faults self.old) (faults self.new) };
}
