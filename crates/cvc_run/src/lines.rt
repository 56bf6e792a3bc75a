//! Refusals of the files that a command reads besides the netlist, the models and the power file: of a line, with a word.
ghost use Rattle.std.specs.Prelude.{◌≡◌};
ghost use Rattle.cvc_run.specs.Lines.{status_about, word_about, word_in};

use crate::stage::Refused;
use crate::telling::Told;
use crate::{RunStop, Status};
use cvc_base::Cause;
use cvc_io::{Sink, WriteFailed};
use cvc_report::write_line_refusal;
use cvc_text::Word;

/// What a refused line is of.
#[derive(Clone, Copy, Debug, PartialEq, Eq)]
pub enum Subject {
    Log,
    Report,
    Expected,
    Modes,
    Edits,
}

impl Subject {
    /// The word of a refusal line.
    pub fn word(&self) -> &'static [u8]
        ensures { result.now ≡ word_about self.now }
    {
        match self {
            Subject::Log => b"log",
            Subject::Report => b"report",
            Subject::Expected => b"expected",
            Subject::Modes => b"modes",
            Subject::Edits => b"edits",
        }
    }

    /// How a run ends that is refused so.
    pub fn status(&self) -> Status
        ensures { result ≡ status_about self.now }
    {
        match self {
            Subject::Log | Subject::Report => Status::Certificate,
            Subject::Expected => Status::Expected,
            Subject::Modes => Status::Modes,
            Subject::Edits => Status::Edits,
        }
    }
}

/// Why a line of such a file is refused.
#[derive(Clone, Copy, Debug, PartialEq, Eq)]
pub enum LineCause {
    /// As lines of other files are.
    Text(Cause),
    /// It is a row of a list that has as many modes as there may be.
    TooManyModes,
    /// It takes away a row that isn't there.
    NotThere,
}

impl LineCause {
    /// The word of a refusal line.
    pub fn word(&self) -> &'static [u8]
        ensures { result.now ≡ word_in self.now }
    {
        match self {
            LineCause::Text(cause) => cause.word(),
            LineCause::TooManyModes => b"too-many-modes",
            LineCause::NotThere => b"not-there",
        }
    }
}

/// The refusal of a line of such a file: of what it is, its number from 1, and its cause.
#[derive(Clone, Copy, Debug, PartialEq, Eq)]
pub struct LineRefused {
    pub subject: Subject,
    pub line: u32,
    pub cause: LineCause,
}

impl Told for LineRefused {
    ghost use Rattle.cvc_run.specs.Lines.{line_ending};

    ghost told = { line_ending };

    ghost can_tell = { λ _. Unit {0} };

    fn status(&self) -> Status {
        self.subject.status()
    }

    fn write<K: Sink>(&self, sink: &mut K) -> Result<(), WriteFailed> {
        write_line_refusal(
            &[Word::Text(self.subject.word())],
            self.line,
            self.cause.word(),
            sink,
        )
    }
}

/// How a run with such files is refused: at a stage of the netlist, the models and the power file, or at a line of a further file.
#[derive(Clone, Copy, Debug, PartialEq, Eq)]
pub enum RunRefused {
    At(Refused),
    Line(LineRefused),
}

impl Told for RunRefused {
    ghost use Rattle.cvc_run.specs.Lines.{run_refused_ending};

    ghost told = { run_refused_ending };

    ghost can_tell = { λ _. Unit {0} };

    fn status(&self) -> Status {
        match self {
            RunRefused::At(refused) => refused.status(),
            RunRefused::Line(refused) => refused.status(),
        }
    }

    fn write<K: Sink>(&self, sink: &mut K) -> Result<(), WriteFailed> {
        match self {
            RunRefused::At(refused) => refused.write(sink),
            RunRefused::Line(refused) => refused.write(sink),
        }
    }
}

impl From<RunStop<Refused>> for RunStop<RunRefused> {
    ghost use Rattle.std.specs.Prelude.{◌≡◌};
    ghost use Rattle.cvc_run.specs.Lines.{stop_of};

    ghost from_gives = { λ stop e. e ≡ stop_of stop };

    fn from(stop: RunStop<Refused>) -> RunStop<RunRefused> {
        match stop {
            RunStop::At(refused) => RunStop::At(RunRefused::At(refused)),
            RunStop::Read => RunStop::Read,
            RunStop::NoMemory => RunStop::NoMemory,
        }
    }
}
