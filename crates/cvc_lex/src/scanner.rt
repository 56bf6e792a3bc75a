//! The state of a lexer: what the open physical line and the open logical line need, and the closed lines that wait.
ghost use Rattle.std.specs.Prelude.{◌≡◌, ◌+◌, ◌<◌, ◌≤◌, ◌++◌, [], ℕ, List, Some, None, Ok, Err, true, false, IfSome, length};
ghost use Rattle.std.specs.Option.{ForSome};

use crate::physical::{
    cut, file_limit, has_bad_byte, indent, is_netlist, line_len, shape_of, short_comment, text_of,
};
use crate::shape::Shape;
use crate::tokens::add_tokens;
use cvc_base::{Cause, FileKind, Line, Refusal, Stop, Tokens};
use std::alloc::Global;
use std::collections::VecDeque;
use std::mem;

// The most bytes of the texts of a logical line.
const LINE_LIMIT: usize = 1_048_576;

/// A logical line, and how many bytes its texts have.
#[derive(Debug, Drop)]
pub(crate) struct Logical {
    pub(crate) line: Line,
    pub(crate) size: usize,
}

/// The state of a lexer.
#[derive(Drop)]
pub(crate) struct Scanner {
    alloc: Global,
    file: FileKind,
    pub(crate) finished: bool,
    pub(crate) refused: Option<Refusal>,
    // the closed lines that were not handed out
    pub(crate) closed: VecDeque<Line>,
    // the logical line that is open
    open: Option<Logical>,
    // how many physical lines have ended, and how many bytes have come
    count: u32,
    size: usize,
    // the open physical line so far
    rest: Vec<u8>,
    ghost counted: { count + length rest.items ≤ size },
    ghost limited: { size ≤ 134217728 },
    ghost short: { ForSome «open» (λ l. l.size ≤ 1048576) },
}

impl Scanner {
    ghost use Rattle.std.specs.List.{prefix_len};
    ghost use Rattle.cvc_lex.specs.Bytes.{file_limit as limit_of, is_netlist as netlist_of, is_blank};
    ghost use Rattle.cvc_lex.specs.Physical.{read, shape_of as shape_in};
    ghost use Rattle.cvc_base.specs.Answers.{refusal_in};
    ghost use Rattle.cvc_lex.specs.Comments.{Shortens};
    ghost use Rattle.cvc_lex.specs.Lined.{IsLineEnd, HasNoEnd};
    ghost use Rattle.cvc_lex.specs.Scanning.{lexing_of, Adds, Ends, Closes, IsGoing, Reads, EndsStream, CountsBytes, outcome, shaped, start_read};
    ghost use Rattle.cvc_lex.specs.Scanning.{start_shape, continuation_read};

    pub(crate) fn new(alloc: Global, file: FileKind) -> Scanner
        ensures { lexing_of result ≡ record { file = file; finished = false; refused = None; waiting = []; started = None; count = 0; size = 0; rest = [] } }
    {
        Scanner {
            alloc,
            file,
            finished: false,
            refused: None,
            closed: VecDeque::new(alloc),
            open: None,
            count: 0,
            size: 0,
            rest: Vec::new(alloc),
        }
    }

    // The open logical line closes.
    fn close(&mut self) -> Result<(), Stop>
        ensures { Closes (lexing_of self.old) (lexing_of self.new) result }
    {
        if let Some(open) = self.open.take() {
            self.closed.push_back(open.line)?;
        }
        Ok(())
    }

    // A card, a directive or a row starts with this text.
    fn start_line(&mut self, number: u32, text: &[u8], directive: bool) -> Result<(), Stop>
        requires { length text.now ≤ 134217728 }
        ensures { Adds (lexing_of self.old) (lexing_of self.new) (start_read self.old.file number (start_shape directive) text.now) result }
    {
        let netlist = is_netlist(self.file);
        if netlist && text.len() > LINE_LIMIT {
            return Err(Stop::At(Cause::LongLine));
        }
        let mut tokens = Tokens::new(self.alloc);
        add_tokens(self.alloc, self.file, number, text, 0, &mut tokens)?;
        let line = Line {
            tokens,
            first: number,
            last: number,
            directive,
        };
        if netlist {
            self.close()?;
            self.open = Some(Logical {
                line,
                size: text.len(),
            });
        } else {
            self.closed.push_back(line)?;
        }
        Ok(())
    }

    // The open logical line goes on with this text, whose first byte that is no blank is the `+`.
    fn continue_line(&mut self, number: u32, text: &[u8]) -> Result<(), Stop>
        requires short { length text.now ≤ 134217728 }
        requires netlist { netlist_of self.old.file ≡ true }
        requires plus { prefix_len is_blank text.now < length text.now }
        ensures { Adds (lexing_of self.old) (lexing_of self.new) (continuation_read self.old.file number text.now) result }
    {
        let Some(mut open) = self.open.take() else {
            return Err(Stop::At(Cause::StrayPlus));
        };
        let size = open.size + (text.len() - 1);
        if size > LINE_LIMIT {
            return Err(Stop::At(Cause::LongLine));
        }
        let from = indent(text) + 1;
        add_tokens(
            self.alloc,
            self.file,
            number,
            text,
            from,
            &mut open.line.tokens,
        )?;
        open.line.last = number;
        open.size = size;
        self.open = Some(open);
        Ok(())
    }

    // The logical lines go on with a text as it is cut.
    fn add_text(&mut self, number: u32, text: &[u8]) -> Result<(), Stop>
        requires { length text.now ≤ 134217728 }
        ensures { Adds (lexing_of self.old) (lexing_of self.new) (shaped self.old.file number (shape_in self.old.file text.now) text.now) result }
    {
        match shape_of(self.file, text) {
            Shape::Skipped => Ok(()),
            Shape::Directive => self.start_line(number, text, true),
            Shape::Card => self.start_line(number, text, false),
            Shape::Continuation => self.continue_line(number, text),
        }
    }

    // The physical line ends; its bytes were counted.
    fn end_line(&mut self, line: &[u8]) -> Result<(), Stop>
        requires short { length line.now ≤ 134217728 }
        requires counted { self.old.count < self.old.size }
        requires rest { self.old.rest.items ≡ [] }
        ensures { Ends (lexing_of self.old) (lexing_of self.new) (read self.old.file (self.old.count + 1) line.now) result }
    {
        let number = self.count + 1;
        let text = text_of(line);
        if has_bad_byte(text) {
            return Err(Stop::At(Cause::BadByte));
        }
        self.add_text(number, cut(self.file, text))?;
        self.count = number;
        Ok(())
    }

    // What is kept of the physical line is the whole of it.
    fn end_rest(&mut self) -> Result<(), Stop>
        requires { self.old.count < self.old.size }
        ensures { Ends (record (lexing_of self.old) { rest = [] }) (lexing_of self.new) (read self.old.file (self.old.count + 1) self.old.rest.items) result }
    {
        let line = mem::replace(&mut self.rest, Vec::new(self.alloc));
        self.end_line(&line)
    }

    // So many bytes more have come.
    fn count_bytes(&mut self, n: usize) -> Result<(), Stop>
        ensures { CountsBytes (lexing_of self.old) (lexing_of self.new) n result }
    {
        let limit = file_limit(self.file);
        if self.size > limit || n > limit - self.size {
            return Err(Stop::At(Cause::FileTooLong));
        }
        self.size += n;
        Ok(())
    }

    // Of a comment that goes on little is kept.
    fn shorten(&mut self) -> Result<(), Stop>
        ensures { Shortens (lexing_of self.old) (lexing_of self.new) result }
    {
        let Some(short) = short_comment(self.file, &self.rest) else {
            return Ok(());
        };
        self.rest = Vec::from_slice(self.alloc, &short)?;
        Ok(())
    }

    // The physical line goes on with these bytes, and more of it may come.
    fn keep(&mut self, bytes: &[u8]) -> Result<(), Stop>
        requires going { IsGoing (lexing_of self.old) }
        requires bytes { HasNoEnd bytes.now }
        ensures { Reads (lexing_of self.old) (lexing_of self.new) bytes.now result }
    {
        self.count_bytes(bytes.len())?;
        self.rest.extend_from_slice(bytes)?;
        self.shorten()
    }

    // The physical line ends with these bytes.
    fn end_with(&mut self, bytes: &[u8]) -> Result<(), Stop>
        requires going { IsGoing (lexing_of self.old) }
        requires bytes { IsLineEnd bytes.now }
        ensures { Reads (lexing_of self.old) (lexing_of self.new) bytes.now result }
    {
        self.count_bytes(bytes.len())?;
        if self.rest.is_empty() {
            return self.end_line(bytes);
        }
        self.rest.extend_from_slice(bytes)?;
        self.end_rest()
    }

    /// The stream goes on with these bytes.
    pub(crate) fn read_piece(&mut self, piece: &[u8]) -> Result<(), Stop>
        requires { IsGoing (lexing_of self.old) }
        ensures { Reads (lexing_of self.old) (lexing_of self.new) piece.now result }
    {
        let mut start = 0;
        while let Some(len) = line_len(&piece[start..]) {
            self.end_with(&piece[start..start + len])?;
            start += len;
        }
        self.keep(&piece[start..])
    }

    /// The open lines end with the stream.
    pub(crate) fn end_lines(&mut self) -> Result<(), Stop>
        requires { IsGoing (lexing_of self.old) }
        ensures { EndsStream (lexing_of self.old) (lexing_of self.new) result }
    {
        if self.rest.is_empty() {
            return self.close();
        }
        self.end_rest()?;
        self.close()
    }

    /// The answer of a step, whose refusal is kept. The stop stands in the open physical line.
    pub(crate) fn answer(&mut self, done: Result<(), Stop>) -> Result<(), Refusal>
        requires { self.old.refused ≡ None }
        ensures state { lexing_of self.new ≡ outcome (lexing_of self.old) done }
        ensures refused { self.new.refused ≡ refusal_in result }
    {
        let Err(stop) = done else { return Ok(()) };
        let refusal = stop.on(self.file, self.count + 1);
        self.refused = Some(refusal);
        Err(refusal)
    }
}
