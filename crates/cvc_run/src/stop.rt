//! Why a step of a run has no answer.
ghost use Rattle.std.specs.Prelude.{◌≡◌};
ghost use Rattle.cvc_run.specs.Stops.{as_load, as_step, fault_of_stop};

use crate::stage::{Refused, Stage};
use cvc_base::{Fault, NoMemory, Refusal};
use std::alloc::AllocError;

/// Why a step of a run has no answer. `F` says how it is refused.
#[derive(Clone, Copy, Debug, PartialEq, Eq)]
pub enum RunStop<F> {
    /// It is refused.
    At(F),
    /// A file could not be opened or read.
    Read,
    /// There was no memory.
    NoMemory,
}

/// Why a file is not loaded: `At` holds its first fault.
pub type LoadFault = RunStop<Fault>;

impl<F> From<NoMemory> for RunStop<F> {
    ghost use Rattle.std.specs.Prelude.{◌≡◌};
    ghost use Rattle.cvc_run.specs.declared.stop.RunStop.TheVariants as stops;

    ghost from_gives = { λ _ e. e ≡ stops.NoMemory };

    fn from(_: NoMemory) -> RunStop<F> {
        RunStop::NoMemory
    }
}

impl<F> From<AllocError> for RunStop<F> {
    ghost use Rattle.std.specs.Prelude.{◌≡◌};
    ghost use Rattle.cvc_run.specs.declared.stop.RunStop.TheVariants as stops;

    ghost from_gives = { λ _ e. e ≡ stops.NoMemory };

    fn from(_: AllocError) -> RunStop<F> {
        RunStop::NoMemory
    }
}

impl From<Refusal> for LoadFault {
    ghost use Rattle.std.specs.Prelude.{◌≡◌};
    ghost use Rattle.cvc_run.specs.Stops.{load_fault_of};

    ghost from_gives = { λ refusal e. e ≡ load_fault_of refusal };

    fn from(refusal: Refusal) -> LoadFault {
        match refusal {
            Refusal::At(fault) => RunStop::At(fault),
            Refusal::NoMemory => RunStop::NoMemory,
        }
    }
}

impl RunStop<Refused> {
    /// Why the files of a run that stops here are not loaded.
    pub(crate) fn load_fault(self) -> LoadFault
        ensures { result ≡ fault_of_stop self }
    {
        match self {
            RunStop::At(refused) => RunStop::At(refused.fault),
            RunStop::Read => RunStop::Read,
            RunStop::NoMemory => RunStop::NoMemory,
        }
    }
}

/// The answer of a reader of bytes, as that of a load.
pub(crate) fn as_load<T: Drop>(answer: Result<T, Refusal>) -> Result<T, LoadFault>
    ensures { result ≡ as_load answer }
{
    match answer {
        Ok(value) => Ok(value),
        Err(refusal) => Err(LoadFault::from(refusal)),
    }
}

/// The answer of a load, as that of the step of a run at this stage.
pub(crate) fn as_step<T: Drop>(
    stage: Stage,
    loaded: Result<T, LoadFault>,
) -> Result<T, RunStop<Refused>>
    ensures { result ≡ as_step stage loaded }
{
    match loaded {
        Ok(value) => Ok(value),
        Err(RunStop::At(fault)) => Err(RunStop::At(Refused { stage, fault })),
        Err(RunStop::Read) => Err(RunStop::Read),
        Err(RunStop::NoMemory) => Err(RunStop::NoMemory),
    }
}
