//! A judged circuit with the flat list that it is bound from, and what is told of it.
ghost use Rattle.std.specs.Prelude.{◌≡◌};
ghost use Rattle.cvc_run.specs.Outcome.{status_of};

use crate::Status;
use crate::telling::Told;
use cvc_base::Findings;
use cvc_flat::Flat;
use cvc_io::{Sink, WriteFailed};
use cvc_judge::Judged;
use cvc_report::{write_report, write_summary};

/// What is written of a judged circuit.
#[derive(Clone, Copy)]
pub(crate) enum Telling {
    /// The report, with a line for each net where they are asked for.
    Report { nets: bool },
    /// The summary of the circuit that was generated from this seed with this size.
    Summary { seed: u64, size: u32 },
}

/// A judged circuit, the flat list that it is bound from, and what is told of it.
#[derive(Drop)]
pub(crate) struct Checked {
    pub flat: Flat,
    pub judged: Judged,
    pub telling: Telling,
}

fn status_of(findings: &Findings) -> Status
    ensures { result ≡ status_of findings.now }
{
    match findings.as_slice() {
        [] => Status::Clean,
        [_, ..] => Status::Errors,
    }
}

impl Told for Checked {
    ghost use Rattle.cvc_run.specs.Telling.{IsChecked, checked_ending};

    ghost told = { checked_ending };

    ghost can_tell = { IsChecked };

    fn status(&self) -> Status {
        status_of(&self.judged.findings)
    }

    fn write<K: Sink>(&self, sink: &mut K) -> Result<(), WriteFailed> {
        let Judged {
            circuit,
            family,
            findings,
        } = &self.judged;
        match self.telling {
            Telling::Report { nets } => {
                write_report(circuit, &self.flat, family, findings, nets, sink)
            }
            Telling::Summary { seed, size } => write_summary(seed, size, circuit, findings, sink),
        }
    }
}
