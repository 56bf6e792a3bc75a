//! A shelf in memory that can fail.
ghost use Rattle.std.specs.Prelude.{◌≡◌, ◌<◌, ◌≤◌, ℕ, Option, Some, None, [], ◌∷◌, ◌++◌, ◌&&◌, not, is_ok, IfOk, OnOk, OnErr, IsSome, IsSomeAnd, length};
ghost use Rattle.std.specs.Prelude.{slice_index, slice_set};
ghost use Rattle.std.specs.Io.{ReadsAtMost};
ghost use Rattle.cvc_io.specs.Causes.{HasCause, Rose, bump};
ghost use Rattle.cvc_io.specs.Files.{Fills, IsOpened, Reads, NoneFalls, RoseFor};
ghost use Rattle.std.specs.Option.{ForSome};
ghost use Rattle.cvc_io.specs.MemFiles.{IsOpenFile, count_at};

use crate::held::{MemFile, OpenFile, copy_from, find};
use crate::{OpenFailed, ReadFailed, Shelf};
use cvc_base::{NoMemory, Text};
use std::alloc::Global;

/// Files in memory. The calls that open and read are numbered together from 1, and those whose number was given to `fail_at`
/// fail; so does opening a name that it doesn't hold.
#[derive(Drop)]
pub struct MemShelf {
    alloc: Global,
    files: Vec<MemFile>,
    // how often a call on each file has failed, and how often any call has
    failures: Vec<u64>,
    all: u64,
    calls: u64,
    failing: Vec<u64>,
    reading: Option<OpenFile>,
    ghost counted: { length failures.items ≡ length files.items },
    ghost opened: { ForSome reading (IsOpenFile files.items) },
}

// Counts a failure, up to the last value of the counter.
fn count(failures: &mut u64)
    ensures one { failures.new ≡ bump failures.old }
    ensures later { failures.old ≤ failures.new }
{
    *failures = failures.saturating_add(1);
}

// Counts a failure on the file at `place`.
fn count_failure(failures: &mut [u64], all: &mut u64, place: usize)
    requires { place < length failures.old }
    ensures own { failures.new ≡ slice_set failures.old place (bump (slice_index failures.old place)) }
    ensures all { all.new ≡ bump all.old }
    ensures later { (o : Option ℕ) → count_at failures.old all.old o ≤ count_at failures.new all.new o }
    ensures cause { Rose (count_at failures.old all.old (Some place)) (count_at failures.new all.new (Some place)) }
{
    count(&mut failures[place]);
    count(all);
}

impl MemShelf {
    ghost use Rattle.cvc_io.specs.Files.{File};
    ghost use Rattle.cvc_io.specs.Memory.{files_of, standing_of, counts_of, failing_of, calls_of, AreSame, CountsAdded};

    /// A shelf without files.
    pub fn new(alloc: Global) -> MemShelf
        ensures files { files_of result ≡ [] }
        ensures standing { standing_of result ≡ None }
        ensures failing { failing_of result ≡ [] }
        ensures calls { calls_of result ≡ 0 }
        ensures counts { AreSame (λ _. 0) (counts_of result) }
    {
        MemShelf {
            alloc,
            files: Vec::new(alloc),
            failures: Vec::new(alloc),
            all: 0,
            calls: 0,
            failing: Vec::new(alloc),
            reading: None,
        }
    }

    /// Puts a file on the shelf. A name that is added again has the later bytes, and keeps its count of failures.
    pub fn add(&mut self, name: &[u8], bytes: &[u8]) -> Result<(), NoMemory>
        requires { standing_of self.old ≡ None }
        ensures ok { OnOk result (files_of self.new ≡ files_of self.old ++ record { name = name.now; bytes = bytes.now } ∷ []) }
        ensures err { OnErr result (files_of self.new ≡ files_of self.old) }
        ensures standing { standing_of self.new ≡ None }
        ensures failing { failing_of self.new ≡ failing_of self.old }
        ensures calls { calls_of self.new ≡ calls_of self.old }
        ensures counts { CountsAdded (files_of self.old) name.now (is_ok result) (counts_of self.old) (counts_of self.new) }
    {
        let file = MemFile {
            name: Text::of(self.alloc, name)?,
            bytes: Text::of(self.alloc, bytes)?,
        };
        let failures = match find(&self.files, name) {
            Some(place) => self.failures[place],
            None => 0,
        };
        self.failures.reserve(1)?;
        self.files.push(file)?;
        self.failures.push_reserved(failures);
        Ok(())
    }

    /// The call of this number is to fail.
    pub fn fail_at(&mut self, call: u64) -> Result<(), NoMemory>
        ensures ok { OnOk result (failing_of self.new ≡ failing_of self.old ++ call ∷ []) }
        ensures err { OnErr result (failing_of self.new ≡ failing_of self.old) }
        ensures files { files_of self.new ≡ files_of self.old }
        ensures standing { standing_of self.new ≡ standing_of self.old }
        ensures calls { calls_of self.new ≡ calls_of self.old }
        ensures counts { AreSame (counts_of self.old) (counts_of self.new) }
    {
        self.failing.push(call)?;
        Ok(())
    }
}

impl Shelf for MemShelf {
    ghost use Rattle.cvc_io.specs.Memory.{files_of, standing_of, counts_of, failing_of, calls_of, is_held, is_to_fail, AreSame, CountsCall, CountsRead};

    ghost files = { λ s. Some (files_of s) };

    ghost standing = { standing_of };

    ghost faults = { counts_of };

    fn open_file(&mut self, name: &[u8]) -> Result<(), OpenFailed>
        requires { standing_of self.old ≡ None }
        ensures files { Some (files_of self.new) ≡ Some (files_of self.old) }
        ensures opened { OnOk result (IsSomeAnd (standing_of self.new) (IsOpened (Some (files_of self.old)) name.now)) }
        ensures refused { OnErr result (standing_of self.new ≡ None) }
        ensures counts { NoneFalls (counts_of self.old) (counts_of self.new) }
        ensures cause { HasCause (counts_of self.old name.now) (counts_of self.new name.now) result }
        // It fails exactly where the call was to fail or the shelf lacks the name.
        ensures fails { is_ok result ≡ (is_held (files_of self.old) name.now && not (is_to_fail (failing_of self.old) (calls_of self.old))) }
        ensures moves { CountsCall (files_of self.old) name.now (is_ok result) (counts_of self.old) (counts_of self.new) }
        ensures failing { failing_of self.new ≡ failing_of self.old }
        ensures calls { calls_of self.new ≡ bump (calls_of self.old) }
    {
        count(&mut self.calls);
        let fails = self.failing.contains(&self.calls);
        match find(&self.files, name) {
            Some(place) if !fails => {
                self.reading = Some(OpenFile { place, at: 0 });
                Ok(())
            }
            Some(place) => {
                count_failure(&mut self.failures, &mut self.all, place);
                Err(OpenFailed)
            }
            None => {
                count(&mut self.all);
                Err(OpenFailed)
            }
        }
    }

    fn read(&mut self, buf: &mut [u8]) -> Result<usize, ReadFailed>
        requires open { IsSome (standing_of self.old) }
        requires room { 0 < length buf.old }
        ensures files { Some (files_of self.new) ≡ Some (files_of self.old) }
        ensures bound { ReadsAtMost result buf.new }
        ensures bytes { Reads (standing_of self.old) (standing_of self.new) result buf.new }
        // It gives as much as there is room for, or all that is left.
        ensures fills { IfOk result (Fills (standing_of self.old) (length buf.old)) }
        ensures counts { NoneFalls (counts_of self.old) (counts_of self.new) }
        ensures cause { OnErr result (RoseFor (standing_of self.old) (counts_of self.old) (counts_of self.new)) }
        // It fails exactly where the call was to fail.
        ensures fails { is_ok result ≡ not (is_to_fail (failing_of self.old) (calls_of self.old)) }
        ensures moves { CountsRead (files_of self.old) (standing_of self.old) (is_ok result) (counts_of self.old) (counts_of self.new) }
        ensures failing { failing_of self.new ≡ failing_of self.old }
        ensures calls { calls_of self.new ≡ bump (calls_of self.old) }
    {
        let Some(open) = self.reading else {
            unreachable!()
        };
        count(&mut self.calls);
        if self.failing.contains(&self.calls) {
            count_failure(&mut self.failures, &mut self.all, open.place);
            return Err(ReadFailed);
        }
        let taken = copy_from(self.files[open.place].bytes.bytes(), open.at, buf);
        self.reading = Some(OpenFile {
            place: open.place,
            at: open.at + taken,
        });
        Ok(taken)
    }

    fn close_file(&mut self)
        requires { IsSome (standing_of self.old) }
        ensures files { Some (files_of self.new) ≡ Some (files_of self.old) }
        ensures closed { standing_of self.new ≡ None }
        ensures counts { NoneFalls (counts_of self.old) (counts_of self.new) }
        ensures same { AreSame (counts_of self.old) (counts_of self.new) }
        ensures failing { failing_of self.new ≡ failing_of self.old }
        ensures calls { calls_of self.new ≡ calls_of self.old }
    {
        self.reading = None;
    }
}
