//! The real files as a shelf.
ghost use Rattle.std.specs.Prelude.{◌≡◌, ℕ, List, None};
ghost use Rattle.cvc_io.specs.Files.{Standing};
ghost use Rattle.std.specs.Option.{option_map};

use crate::{OpenFailed, ReadFailed, Shelf};
use std::io::Read;
use std::rt::Files;
use std::{fs, str};

/// The files that the runtime reaches. It tells neither their bytes nor the open one's name. Each error of std counts as a fault,
/// which it tells of every name; a name that is no UTF-8 text counts as one.
#[derive(Drop)]
pub struct FileShelf<'r, R: Files> {
    rt: &'r R,
    file: Option<R::File>,
    faults: u64,
}

impl<'r, R: Files> FileShelf<'r, R> {
    /// The files of this runtime. None stands open, and none has failed.
    pub fn new(rt: &'r R) -> FileShelf<'r, R>
        ensures standing { ⟦<FileShelf<'r, R> as Shelf>⟧.standing result ≡ None }
        ensures faults { (name : List ℕ) → ⟦<FileShelf<'r, R> as Shelf>⟧.faults result name ≡ 0 }
    {
        FileShelf {
            rt,
            file: None,
            faults: 0,
        }
    }
}

impl<R: Files> Shelf for FileShelf<'_, R> {
    ghost files = { λ _. None };

    ghost standing = { λ s. option_map (λ _. record { name = None; rest = None }) s.file };

    ghost faults = { λ s _. s.faults };

    fn open_file(&mut self, name: &[u8]) -> Result<(), OpenFailed> {
        let opened = match str::from_utf8(name) {
            Ok(path) => fs::open(self.rt, path).ok(),
            Err(_) => None,
        };
        match opened {
            Some(file) => {
                self.file = Some(file);
                Ok(())
            }
            None => {
                self.faults = self.faults.saturating_add(1);
                Err(OpenFailed)
            }
        }
    }

    fn read(&mut self, buf: &mut [u8]) -> Result<usize, ReadFailed> {
        match &mut self.file {
            Some(file) => match file.read(buf) {
                Ok(count) => Ok(count),
                Err(_) => {
                    self.faults = self.faults.saturating_add(1);
                    Err(ReadFailed)
                }
            },
            None => unreachable!(),
        }
    }

    fn close_file(&mut self) {
        self.file = None;
    }
}
