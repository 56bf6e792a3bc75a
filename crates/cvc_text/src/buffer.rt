//! A buffer whose bytes are handed to a sink in large pieces.
ghost use Rattle.std.specs.Prelude.{◌≡◌, ◌<◌, ◌≤◌, [], ◌++◌, take, length, OnOk};
ghost use Rattle.arrayvec.specs.ArrayVec.{array_vec_len};
ghost use Rattle.cvc_io.specs.Bytes.{WritesText};
ghost use Rattle.cvc_io.specs.Causes.{HasCause};
ghost use Rattle.cvc_text.specs.Putting.{Puts, stand};

use arrayvec::ArrayVec;
use cvc_io::{Sink, WriteFailed};
use std::marker::Model;

/// How many bytes wait at most before a sink takes them.
const ROOM: usize = 16_384;

/// Bytes that wait for a sink. Contracts see it as the list of these bytes. Each call that puts takes time linear in what it puts, and the sink that
/// is to have it all; the sink takes what waits whenever it fills the buffer, and the rest when it is flushed. Where a write fails, all that waits is
/// dropped.
#[derive(Drop)]
pub struct TextBuffer {
    waiting: ArrayVec<u8, ROOM>,
}

impl Model for TextBuffer {
    ghost use Rattle.std.specs.Prelude.{ℕ, List};

    ghost Value = { List ℕ };

    ghost view = { λ t. t.waiting.items };
}

/// Writes a text at once, by as many writes as the sink asks for. A failed write leaves a prefix of it in the sink, and comes only where the sink's
/// count of faults rose.
pub fn write_all<K: Sink>(text: &[u8], sink: &mut K) -> Result<(), WriteFailed>
    ensures written { WritesText (K.written sink.old) (K.written sink.new) result text.now }
    ensures cause { HasCause (K.faults sink.old) (K.faults sink.new) result }
{
    let mut done = 0;
    while done < text.len() {
        done += sink.write(&text[done..])?;
    }
    Ok(())
}

// Puts as much of the text behind what waits as there is room for, and says how much.
fn fill(waiting: &mut ArrayVec<u8, ROOM>, text: &[u8]) -> usize
    ensures bound { result ≤ length text.now }
    ensures some { array_vec_len waiting.old < ROOM → 0 < length text.now → 0 < result }
    ensures put { waiting.new.items ≡ waiting.old.items ++ take result text.now }
{
    let count = text.len().min(waiting.remaining_capacity());
    match waiting.try_extend_from_slice(&text[..count]) {
        Ok(()) => count,
        Err(_) => unreachable!(),
    }
}

impl TextBuffer {
    /// A buffer in which nothing waits.
    pub fn new() -> TextBuffer
        ensures { result ≡ [] }
    {
        TextBuffer {
            waiting: ArrayVec::new(),
        }
    }

    /// Writes all that waits; there is no write where nothing does. A failed write leaves a prefix of it in the sink, and comes only where the sink's
    /// count of faults rose. Nothing waits afterwards.
    pub fn flush<K: Sink>(&mut self, sink: &mut K) -> Result<(), WriteFailed>
        ensures written { WritesText (K.written sink.old) (K.written sink.new) result self.old }
        ensures cause { HasCause (K.faults sink.old) (K.faults sink.new) result }
        ensures empty { self.new ≡ [] }
    {
        let result = write_all(self.waiting.as_slice(), sink);
        self.waiting.clear();
        result
    }

    // Writes all that waits where it fills the buffer.
    #[tactic(auto, using(crate::proofs::Putting::written_put))]
    fn make_room<K: Sink>(&mut self, sink: &mut K) -> Result<(), WriteFailed>
        ensures put { Puts result (stand (K.written sink.old) self.old (K.faults sink.old)) (stand (K.written sink.new) self.new (K.faults sink.new)) [] }
        ensures room { OnOk result (length self.new < ROOM) }
    {
        if self.waiting.is_full() {
            self.flush(sink)
        } else {
            Ok(())
        }
    }

    /// Puts a text behind what waits.
    pub fn put<K: Sink>(&mut self, text: &[u8], sink: &mut K) -> Result<(), WriteFailed>
        ensures { Puts result (stand (K.written sink.old) self.old (K.faults sink.old)) (stand (K.written sink.new) self.new (K.faults sink.new)) text.now }
    {
        let mut done = 0;
        while done < text.len() {
            self.make_room(sink)?;
            done += fill(&mut self.waiting, &text[done..]);
        }
        Ok(())
    }
}
