//! The text of a log.
ghost use Rattle.std.specs.Prelude.{◌≡◌};
ghost use Rattle.std.specs.List.{flat_map};
ghost use Rattle.cvc_io.specs.Bytes.{WritesText};
ghost use Rattle.cvc_io.specs.Causes.{HasCause};
ghost use Rattle.cvc_text.specs.Putting.{Puts, stand};
ghost use Rattle.cvc_chain.specs.Text.{log_line, log_text};

use crate::{Log, LogLine};
use cvc_io::{Sink, WriteFailed};
use cvc_text::{TextBuffer, Word};

// Puts a line.
fn put_line<K: Sink>(line: &LogLine, text: &mut TextBuffer, sink: &mut K) -> Result<(), WriteFailed>
    ensures { Puts result (stand (K.written sink.old) text.old (K.faults sink.old)) (stand (K.written sink.new) text.new (K.faults sink.new))
        (log_line line.now) }
{
    let words = [
        Word::Number(u64::from(line.device)),
        Word::Number(u64::from(line.slot)),
        Word::Signed(line.value.get()),
    ];
    text.put_line(&words, sink)
}

// Puts all lines.
fn put_lines<K: Sink>(
    log: &[LogLine],
    text: &mut TextBuffer,
    sink: &mut K,
) -> Result<(), WriteFailed>
    ensures { Puts result (stand (K.written sink.old) text.old (K.faults sink.old)) (stand (K.written sink.new) text.new (K.faults sink.new))
        (log_text log.now) }
{
    for line in log {
        put_line(line, text, sink)?;
    }
    Ok(())
}

/// Writes a line for each line of the log: `DEVICE SLOT VALUE`, the value in millivolts. It takes no memory, and time linear in the text. A failed write
/// leaves a prefix of the text in the sink, and comes only where the sink's count of faults rose.
#[tactic(auto, using(cvc_text::proofs::Putting::put_flushed))]
pub fn write_log<K: Sink>(log: &Log, sink: &mut K) -> Result<(), WriteFailed>
    ensures written { WritesText (K.written sink.old) (K.written sink.new) result (log_text log.now) }
    ensures cause { HasCause (K.faults sink.old) (K.faults sink.new) result }
{
    let mut text = TextBuffer::new();
    put_lines(log.as_slice(), &mut text, sink)?;
    text.flush(sink)
}
