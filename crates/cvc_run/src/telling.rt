//! The end of a run: the text that is written, and the status.
ghost use Rattle.std.specs.Prelude.{◌≡◌, ◌≤◌, IfOk};
ghost use Rattle.cvc_io.specs.Bytes.{WritesText};
ghost use Rattle.cvc_io.specs.Causes.{HasCause};
ghost use Rattle.cvc_run.specs.Outside.{Ends, taken};
ghost use Rattle.cvc_run.specs.Stops.{IfAt};
ghost use Rattle.cvc_run.specs.Telling.{TellsRun};

use crate::stage::Refused;
use crate::{RunStop, Status};
use cvc_io::{Sink, WriteFailed};
use cvc_report::{write_refusal, write_word_refusal};
use cvc_words::WordFault;

/// What a run tells at its end: a status and a text.
pub trait Told {
    ghost use Rattle.cvc_run.specs.Outside.{Ending};

    /// The status and the text.
    ghost told: { Self → Ending };

    /// What must hold of it to be told.
    ghost can_tell: { Self → Type 0 };

    /// The status.
    fn status(&self) -> Status
        ensures { result ≡ (told self.now).status };

    /// Writes the text. A failed write leaves a prefix of it in the sink, and comes only where the sink's count of faults rose.
    fn write<K: Sink>(&self, sink: &mut K) -> Result<(), WriteFailed>
        requires { can_tell self.now }
        ensures written { WritesText (K.written sink.old) (K.written sink.new) result (told self.now).text }
        ensures cause { HasCause (K.faults sink.old) (K.faults sink.new) result };
}

impl Told for Refused {
    ghost use Rattle.cvc_run.specs.Outcome.{refused_ending};

    ghost told = { refused_ending };

    ghost can_tell = { λ _. Unit {0} };

    fn status(&self) -> Status {
        self.stage.status()
    }

    fn write<K: Sink>(&self, sink: &mut K) -> Result<(), WriteFailed> {
        write_refusal(&self.fault, sink)
    }
}

impl Told for WordFault {
    ghost use Rattle.cvc_run.specs.Outcome.{words_ending};

    ghost told = { words_ending };

    ghost can_tell = { λ _. Unit {0} };

    fn status(&self) -> Status {
        Status::Words
    }

    fn write<K: Sink>(&self, sink: &mut K) -> Result<(), WriteFailed> {
        write_word_refusal(self.word(), sink)
    }
}

/// Tells something: writes its text, and answers its status, or `WriteFault` where the sink failed.
pub fn tell<T: Told, K: Sink>(told: &T, sink: &mut K) -> Status
    requires { T.can_tell told.now }
    ensures counts { K.faults sink.old ≤ K.faults sink.new }
    ensures ends { Ends (T.told told.now) (taken (K.written sink.old) (K.written sink.new) (K.faults sink.old) (K.faults sink.new)) result }
{
    match told.write(sink) {
        Ok(()) => told.status(),
        Err(WriteFailed) => Status::WriteFault,
    }
}

/// Ends a run: tells its answer or its refusal. A fault of the shelf and want of memory write nothing.
pub fn tell_run<T: Told, F: Told, K: Sink>(run: &Result<T, RunStop<F>>, sink: &mut K) -> Status
    requires answer { IfOk run.now T.can_tell }
    requires refusal { IfAt run.now F.can_tell }
    ensures counts { K.faults sink.old ≤ K.faults sink.new }
    ensures told { TellsRun T.told F.told run.now (taken (K.written sink.old) (K.written sink.new) (K.faults sink.old) (K.faults sink.new)) result }
{
    match run {
        Ok(answer) => tell(answer, sink),
        Err(RunStop::At(refusal)) => tell(refusal, sink),
        Err(RunStop::Read) => Status::ReadFault,
        Err(RunStop::NoMemory) => Status::NoMemory,
    }
}
