//! The text of missed bounds.
ghost use Rattle.std.specs.Prelude.{◌≡◌, All};
ghost use Rattle.std.specs.List.{flat_map};
ghost use Rattle.cvc_io.specs.Bytes.{WritesText};
ghost use Rattle.cvc_io.specs.Causes.{HasCause};
ghost use Rattle.cvc_text.specs.Printed.{word_text};
ghost use Rattle.cvc_text.specs.Putting.{Puts, stand};
ghost use Rattle.cvc_expect.specs.Text.{IsTellable, count_line, expected_on, expected_text, missed_line, missed_text, missed_words, side_word};

use crate::{Bound, ExpectRow, Expected, Missed, MissedList};
use cvc_base::{Mv, Side};
use cvc_io::{Sink, WriteFailed};
use cvc_text::{TextBuffer, Word};

fn side_word(side: Side) -> &'static [u8]
    ensures { result.now ≡ side_word side }
{
    match side {
        Side::Low => b"low",
        Side::High => b"high",
    }
}

// What a row expects on a side.
fn expected_on(row: &ExpectRow, side: Side) -> Bound
    ensures { result ≡ expected_on side row.now }
{
    match side {
        Side::Low => row.low,
        Side::High => row.high,
    }
}

fn expected_word<'a>(bound: Bound) -> Word<'a>
    ensures { word_text result ≡ expected_text bound }
{
    match bound {
        Bound::Any => Word::Text(b"*"),
        Bound::Unknown => Word::Bound(None),
        Bound::At(voltage) => Word::Bound(Some(voltage)),
    }
}

// The line of a row's bound.
fn put_bound<K: Sink>(
    row: &ExpectRow,
    side: Side,
    found: Option<Mv>,
    text: &mut TextBuffer,
    sink: &mut K,
) -> Result<(), WriteFailed>
    ensures { Puts result (stand (K.written sink.old) text.old (K.faults sink.old)) (stand (K.written sink.new) text.new (K.faults sink.new))
        (missed_words row.now side found) }
{
    let words = [
        Word::Text(b"missed"),
        Word::Text(row.name.bytes()),
        Word::Text(side_word(side)),
        Word::Text(b"expected"),
        expected_word(expected_on(row, side)),
        Word::Text(b"found"),
        Word::Bound(found),
    ];
    text.put_line(&words, sink)
}

// The line of an item.
fn put_missed<K: Sink>(
    expected: &Expected,
    missed: &Missed,
    text: &mut TextBuffer,
    sink: &mut K,
) -> Result<(), WriteFailed>
    requires { IsTellable expected.now missed.now }
    ensures { Puts result (stand (K.written sink.old) text.old (K.faults sink.old)) (stand (K.written sink.new) text.new (K.faults sink.new))
        (missed_line expected.now missed.now) }
{
    let row = expected.get(missed.row as usize);
    put_bound(row, missed.side, missed.found, text, sink)
}

// The lines of these items.
fn put_each<K: Sink>(
    expected: &Expected,
    list: &[Missed],
    text: &mut TextBuffer,
    sink: &mut K,
) -> Result<(), WriteFailed>
    requires { All (IsTellable expected.now) list.now }
    ensures { Puts result (stand (K.written sink.old) text.old (K.faults sink.old)) (stand (K.written sink.new) text.new (K.faults sink.new))
        (flat_map (missed_line expected.now) list.now) }
{
    for missed in list {
        put_missed(expected, missed, text, sink)?;
    }
    Ok(())
}

// The last line: how many there are.
fn put_count<K: Sink>(
    list: &[Missed],
    text: &mut TextBuffer,
    sink: &mut K,
) -> Result<(), WriteFailed>
    ensures { Puts result (stand (K.written sink.old) text.old (K.faults sink.old)) (stand (K.written sink.new) text.new (K.faults sink.new))
        (count_line list.now) }
{
    text.put_line(
        &[Word::Text(b"missed"), Word::Number(list.len() as u64)],
        sink,
    )
}

// All lines.
fn put_all<K: Sink>(
    expected: &Expected,
    list: &[Missed],
    text: &mut TextBuffer,
    sink: &mut K,
) -> Result<(), WriteFailed>
    requires { All (IsTellable expected.now) list.now }
    ensures { Puts result (stand (K.written sink.old) text.old (K.faults sink.old)) (stand (K.written sink.new) text.new (K.faults sink.new))
        (missed_text expected.now list.now) }
{
    text.put_line(&[Word::Text(b"CVC expectations")], sink)?;
    put_each(expected, list, text, sink)?;
    put_count(list, text, sink)
}

/// Writes the missed bounds of these rows: a line for each, and how many there are. Each item's row is there, and something is expected of that row's bound.
/// It takes no memory, and time linear in the text. A failed write leaves a prefix of the text in the sink, and comes only where the sink's count of faults
/// rose.
#[tactic(auto, using(cvc_text::proofs::Putting::put_flushed))]
pub fn write_missed<K: Sink>(
    expected: &Expected,
    list: &MissedList,
    sink: &mut K,
) -> Result<(), WriteFailed>
    requires { All (IsTellable expected.now) list.now }
    ensures written { WritesText (K.written sink.old) (K.written sink.new) result (missed_text expected.now list.now) }
    ensures cause { HasCause (K.faults sink.old) (K.faults sink.new) result }
{
    let mut text = TextBuffer::new();
    put_all(expected, list.as_slice(), &mut text, sink)?;
    text.flush(sink)
}
