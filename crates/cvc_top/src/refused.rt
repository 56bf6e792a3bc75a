//! Refusals of the rows of further files, as runs tell them.
ghost use Rattle.std.specs.Prelude.{◌≡◌};
ghost use Rattle.cvc_report.specs.Printed.{file_word};
ghost use Rattle.cvc_top.specs.Further.{stop_about};

use cvc_base::{Cause, FileKind};
use cvc_rows::{LineFault, Refused};
use cvc_run::{LineCause, LineRefused, RunRefused, RunStop, Subject};

/// Why a run stops that is refused at a line of a file of rows.
pub(crate) fn stop_about(
    subject: Subject,
    refused: Refused<LineFault<Cause>>,
) -> RunStop<RunRefused>
    ensures { result ≡ stop_about subject refused }
{
    match refused {
        Refused::At(fault) => RunStop::At(RunRefused::Line(LineRefused {
            subject,
            line: fault.line,
            cause: LineCause::Text(fault.cause),
        })),
        Refused::NoMemory => RunStop::NoMemory,
    }
}

/// The word of a file in a refusal line.
pub(crate) fn file_word(file: FileKind) -> &'static [u8]
    ensures { result.now ≡ file_word file }
{
    match file {
        FileKind::Netlist => b"netlist",
        FileKind::Models => b"models",
        FileKind::Power => b"power",
    }
}
