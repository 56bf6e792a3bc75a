//! Where and why an input is refused.

use crate::{Cause, NoMemory};
use std::alloc::{AllocError, AllocFailed};

/// One of the three input files.
#[derive(Clone, Copy, Debug, PartialEq, Eq)]
pub enum FileKind {
    Netlist,
    Models,
    Power,
}

/// A line of an input file. Lines count from 1; 0 stands for the file as a whole.
#[derive(Clone, Copy, Debug, PartialEq, Eq)]
pub struct Place {
    pub file: FileKind,
    pub line: u32,
}

/// Why an input is refused, and where.
#[derive(Clone, Copy, Debug, PartialEq, Eq)]
pub struct Fault {
    pub place: Place,
    pub cause: Cause,
}

impl Fault {
    ghost use Rattle.std.specs.Prelude.{◌≡◌};
    ghost use Rattle.cvc_base.specs.Faults.{fault_on};

    /// The fault of this cause at a line of a file.
    pub fn at(file: FileKind, line: u32, cause: Cause) -> Fault
        ensures { result ≡ fault_on file line cause }
    {
        Fault {
            place: Place { file, line },
            cause,
        }
    }
}

/// Why a reader has no answer: the first fault of its input, or want of memory.
#[derive(Clone, Copy, Debug, PartialEq, Eq)]
pub enum Refusal {
    At(Fault),
    NoMemory,
}

impl From<Fault> for Refusal {
    ghost use Rattle.std.specs.Prelude.{◌≡◌};
    ghost use Rattle.cvc_base.specs.declared.fault.Refusal.TheVariants as refusals;

    ghost from_gives = { λ fault refusal. refusal ≡ refusals.At fault };

    fn from(fault: Fault) -> Refusal {
        Refusal::At(fault)
    }
}

impl From<NoMemory> for Refusal {
    ghost use Rattle.std.specs.Prelude.{◌≡◌};
    ghost use Rattle.cvc_base.specs.declared.fault.Refusal.TheVariants as refusals;

    ghost from_gives = { λ _ refusal. refusal ≡ refusals.NoMemory };

    fn from(_: NoMemory) -> Refusal {
        Refusal::NoMemory
    }
}

impl From<AllocError> for Refusal {
    ghost use Rattle.std.specs.Prelude.{◌≡◌};
    ghost use Rattle.cvc_base.specs.declared.fault.Refusal.TheVariants as refusals;

    ghost from_gives = { λ _ refusal. refusal ≡ refusals.NoMemory };

    fn from(_: AllocError) -> Refusal {
        Refusal::NoMemory
    }
}

impl<T: Drop> From<AllocFailed<T>> for Refusal {
    ghost use Rattle.std.specs.Prelude.{◌≡◌};
    ghost use Rattle.cvc_base.specs.declared.fault.Refusal.TheVariants as refusals;

    ghost from_gives = { λ _ refusal. refusal ≡ refusals.NoMemory };

    fn from(_: AllocFailed<T>) -> Refusal {
        Refusal::NoMemory
    }
}
