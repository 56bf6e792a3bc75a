//! Lines of words.
ghost use Rattle.std.specs.Prelude.{◌≡◌, [], ◌∷◌, map};
ghost use Rattle.std.specs.List.{flat_map};
ghost use Rattle.cvc_io.specs.Bytes.{WritesText};
ghost use Rattle.cvc_io.specs.Causes.{HasCause};
ghost use Rattle.cvc_text.specs.Putting.{Puts, stand};
ghost use Rattle.cvc_text.specs.Lines.{blank_before, line_end, line};
ghost use Rattle.cvc_text.specs.Printed.{word_text};

use crate::{TextBuffer, Word};
use cvc_io::{Sink, WriteFailed};
use itoa::Buffer;

impl TextBuffer {
    // Puts these texts, one behind another.
    fn put_pieces<K: Sink>(&mut self, pieces: &[&[u8]], sink: &mut K) -> Result<(), WriteFailed>
        ensures { Puts result (stand (K.written sink.old) self.old (K.faults sink.old)) (stand (K.written sink.new) self.new (K.faults sink.new))
            (flat_map (λ w. w.now) pieces.now) }
    {
        for piece in pieces {
            self.put(piece, sink)?;
        }
        Ok(())
    }

    /// Puts a word.
    pub fn put_word<K: Sink>(&mut self, word: &Word, sink: &mut K) -> Result<(), WriteFailed>
        ensures { Puts result (stand (K.written sink.old) self.old (K.faults sink.old)) (stand (K.written sink.new) self.new (K.faults sink.new))
            (word_text word.now) }
    {
        let mut digits = Buffer::new();
        match *word {
            Word::Text(text) => self.put(text, sink),
            Word::Name(pieces) => self.put_pieces(pieces, sink),
            Word::Number(number) => self.put(digits.format(number).as_bytes(), sink),
            Word::Signed(number) => self.put(digits.format(number).as_bytes(), sink),
            Word::Bound(Some(voltage)) => self.put(digits.format(voltage.get()).as_bytes(), sink),
            Word::Bound(None) => self.put(b"?", sink),
        }
    }

    // Puts a word behind a blank.
    fn put_behind<K: Sink>(&mut self, word: &Word, sink: &mut K) -> Result<(), WriteFailed>
        ensures { Puts result (stand (K.written sink.old) self.old (K.faults sink.old)) (stand (K.written sink.new) self.new (K.faults sink.new))
            (32 ∷ word_text word.now) }
    {
        self.put(b" ", sink)?;
        self.put_word(word, sink)
    }

    /// Puts each word behind a blank.
    pub fn put_words<K: Sink>(&mut self, words: &[Word], sink: &mut K) -> Result<(), WriteFailed>
        ensures { Puts result (stand (K.written sink.old) self.old (K.faults sink.old)) (stand (K.written sink.new) self.new (K.faults sink.new))
            (blank_before (map word_text words.now)) }
    {
        for word in words {
            self.put_behind(word, sink)?;
        }
        Ok(())
    }

    /// Puts each word behind a blank, and LF.
    #[tactic(auto, using(crate::proofs::Putting::puts_then, crate::proofs::Putting::puts_stopped))]
    pub fn end_line<K: Sink>(&mut self, words: &[Word], sink: &mut K) -> Result<(), WriteFailed>
        ensures { Puts result (stand (K.written sink.old) self.old (K.faults sink.old)) (stand (K.written sink.new) self.new (K.faults sink.new))
            (line_end (map word_text words.now)) }
    {
        self.put_words(words, sink)?;
        self.put(b"\n", sink)
    }

    /// Puts a line of these words, with a blank between each two and LF at the end.
    #[tactic(auto, using(crate::proofs::Putting::puts_then, crate::proofs::Putting::puts_stopped))]
    pub fn put_line<K: Sink>(&mut self, words: &[Word], sink: &mut K) -> Result<(), WriteFailed>
        ensures { Puts result (stand (K.written sink.old) self.old (K.faults sink.old)) (stand (K.written sink.new) self.new (K.faults sink.new))
            (line (map word_text words.now)) }
    {
        match words.split_first() {
            Some((first, others)) => {
                self.put_word(first, sink)?;
                self.end_line(others, sink)
            }
            None => self.put(b"\n", sink),
        }
    }
}

/// Writes a text of this one line. A failed write leaves a prefix of it in the sink, and comes only where the sink's count of faults rose.
#[tactic(auto, using(crate::proofs::Putting::put_flushed))]
pub fn write_line<K: Sink>(words: &[Word], sink: &mut K) -> Result<(), WriteFailed>
    ensures written { WritesText (K.written sink.old) (K.written sink.new) result (line (map word_text words.now)) }
    ensures cause { HasCause (K.faults sink.old) (K.faults sink.new) result }
{
    let mut text = TextBuffer::new();
    text.put_line(words, sink)?;
    text.flush(sink)
}
