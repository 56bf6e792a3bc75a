//! The lines of refusals.
ghost use Rattle.std.specs.Prelude.{◌≡◌, ◌++◌, map, codes};
ghost use Rattle.cvc_io.specs.Causes.{HasCause};
ghost use Rattle.cvc_io.specs.Bytes.{WritesText};
ghost use Rattle.cvc_text.specs.Printed.{word_text};
ghost use Rattle.cvc_text.specs.Putting.{Puts, stand};
ghost use Rattle.cvc_report.specs.Refusals.{line_refusal, refusal, word_refusal};

use crate::printed::word_for_file;
use cvc_base::Fault;
use cvc_io::{Sink, WriteFailed};
use cvc_text::{TextBuffer, Word, write_line};

// Puts the line of a refusal.
fn put_line_refusal<K: Sink>(
    subject: &[Word],
    number: u32,
    word: &[u8],
    text: &mut TextBuffer,
    sink: &mut K,
) -> Result<(), WriteFailed>
    ensures { Puts result (stand (K.written sink.old) text.old (K.faults sink.old)) (stand (K.written sink.new) text.new (K.faults sink.new))
        (line_refusal (map word_text subject.now) number word.now) }
{
    text.put(b"refused", sink)?;
    text.put_words(subject, sink)?;
    text.end_line(
        &[
            Word::Text(b"line"),
            Word::Number(number as u64),
            Word::Text(word),
        ],
        sink,
    )
}

/// Writes the line of a refusal of a line: what it is of, its number and the word of its cause, as `refused mode night power line 3 bad-row` with the
/// subject `mode night power`. A failed write leaves a prefix of it in the sink, and comes only where the sink's count of faults rose.
#[tactic(auto, using(cvc_text::proofs::Putting::put_flushed))]
pub fn write_line_refusal<K: Sink>(
    subject: &[Word],
    number: u32,
    word: &[u8],
    sink: &mut K,
) -> Result<(), WriteFailed>
    ensures written { WritesText (K.written sink.old) (K.written sink.new) result (line_refusal (map word_text subject.now) number word.now) }
    ensures cause { HasCause (K.faults sink.old) (K.faults sink.new) result }
{
    let mut text = TextBuffer::new();
    put_line_refusal(subject, number, word, &mut text, sink)?;
    text.flush(sink)
}

/// Writes the line of a refused input file, as `refused netlist line 3 short-card`. A failed write leaves a prefix of it in the sink, and comes
/// only where the sink's count of faults rose.
pub fn write_refusal<K: Sink>(fault: &Fault, sink: &mut K) -> Result<(), WriteFailed>
    ensures written { WritesText (K.written sink.old) (K.written sink.new) result (refusal fault.now) }
    ensures cause { HasCause (K.faults sink.old) (K.faults sink.new) result }
{
    let file = [Word::Text(word_for_file(fault.place.file))];
    write_line_refusal(&file, fault.place.line, fault.cause.word(), sink)
}

/// Writes the line of refused words, as `refused words no-command`, with the word of their fault. A failed write leaves a prefix of it in the
/// sink, and comes only where the sink's count of faults rose.
pub fn write_word_refusal<K: Sink>(word: &[u8], sink: &mut K) -> Result<(), WriteFailed>
    ensures written { WritesText (K.written sink.old) (K.written sink.new) result (word_refusal word.now) }
    ensures cause { HasCause (K.faults sink.old) (K.faults sink.new) result }
{
    write_line(
        &[
            Word::Text(b"refused"),
            Word::Text(b"words"),
            Word::Text(word),
        ],
        sink,
    )
}
