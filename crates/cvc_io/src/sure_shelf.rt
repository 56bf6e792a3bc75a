//! A shelf in memory that never fails.
ghost use Rattle.std.specs.Prelude.{◌≡◌, Some, None, [], ◌∷◌, ◌++◌, OnOk, OnErr};
ghost use Rattle.std.specs.Option.{ForSome, option_map};
ghost use Rattle.cvc_io.specs.MemFiles.{IsOpenFile};

use crate::held::{MemFile, OpenFile, copy_from, find};
use crate::{OpenFailed, ReadFailed, Shelf};
use cvc_base::{NoMemory, Text};
use std::alloc::Global;

/// Files in memory that are always opened and read: its count of faults is the constant 0. A name that it doesn't hold opens with no bytes.
#[derive(Drop)]
pub struct SureShelf {
    alloc: Global,
    files: Vec<MemFile>,
    // whether a file stands open, and the place in one that it holds
    is_open: bool,
    reading: Option<OpenFile>,
    ghost opened: { ForSome reading (IsOpenFile files.items) },
}

// The first byte of the file at `place`, if there is one.
fn at_start(place: Option<usize>) -> Option<OpenFile>
    ensures { result ≡ option_map (λ k. record { place = k; at = 0 }) place }
{
    let place = place?;
    Some(OpenFile { place, at: 0 })
}

impl SureShelf {
    ghost use Rattle.cvc_io.specs.SureFiles.{files_of, standing_of};

    /// A shelf without files.
    pub fn new(alloc: Global) -> SureShelf
        ensures files { files_of result ≡ [] }
        ensures standing { standing_of result ≡ None }
    {
        SureShelf {
            alloc,
            files: Vec::new(alloc),
            is_open: false,
            reading: None,
        }
    }

    /// Puts a file on the shelf. A name that is added again has the later bytes.
    pub fn add(&mut self, name: &[u8], bytes: &[u8]) -> Result<(), NoMemory>
        requires { standing_of self.old ≡ None }
        ensures ok { OnOk result (files_of self.new ≡ files_of self.old ++ record { name = name.now; bytes = bytes.now } ∷ []) }
        ensures err { OnErr result (files_of self.new ≡ files_of self.old) }
        ensures standing { standing_of self.new ≡ None }
    {
        let file = MemFile {
            name: Text::of(self.alloc, name)?,
            bytes: Text::of(self.alloc, bytes)?,
        };
        self.reading = None;
        self.files.push(file)?;
        Ok(())
    }
}

impl Shelf for SureShelf {
    ghost use Rattle.cvc_io.specs.SureFiles.{files_of, standing_of};

    ghost files = { λ s. Some (files_of s) };

    ghost standing = { standing_of };

    ghost faults = { λ _ _. 0 };

    fn open_file(&mut self, name: &[u8]) -> Result<(), OpenFailed> {
        self.reading = at_start(find(&self.files, name));
        self.is_open = true;
        Ok(())
    }

    fn read(&mut self, buf: &mut [u8]) -> Result<usize, ReadFailed> {
        let Some(open) = self.reading else {
            return Ok(0);
        };
        let taken = copy_from(self.files[open.place].bytes.bytes(), open.at, buf);
        self.reading = Some(OpenFile {
            place: open.place,
            at: open.at + taken,
        });
        Ok(taken)
    }

    fn close_file(&mut self) {
        self.is_open = false;
    }
}
