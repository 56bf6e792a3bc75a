//! What of a run can be refused.
ghost use Rattle.std.specs.Prelude.{◌≡◌};
ghost use Rattle.cvc_run.specs.Stages.{status_at};

use crate::Status;
use cvc_base::Fault;

/// What of a run can be refused, in this order: each of the three files, and that they fit together.
#[derive(Clone, Copy, Debug, PartialEq, Eq)]
pub enum Stage {
    Netlist,
    Models,
    Power,
    Binding,
}

impl Stage {
    /// How a run ends that is refused at this stage.
    pub fn status(&self) -> Status
        ensures { result ≡ status_at self.now }
    {
        match self {
            Stage::Netlist => Status::Netlist,
            Stage::Models => Status::Models,
            Stage::Power => Status::Power,
            Stage::Binding => Status::Binding,
        }
    }
}

/// The refusal of a run: at which stage, and with which fault.
#[derive(Clone, Copy, Debug, PartialEq, Eq)]
pub struct Refused {
    pub stage: Stage,
    pub fault: Fault,
}
