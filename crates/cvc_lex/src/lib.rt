//! Logical lines of the input files, from bytes that come in pieces cut anywhere. A lexer hands out, in order and each once, the
//! lines that are closed in the stream so far, and refuses with the first fault of the stream.
#![tactic(auto)]

pub mod laws;
mod physical;
mod scanner;
mod shape;
mod tokens;

ghost use Rattle.std.specs.Prelude.{◌≡◌, ◌+◌, ◌++◌, [], ℕ, List, true, false, IfOk, IfSome, Some, None, Err};

use cvc_base::{FileKind, Line, NoMemory, Refusal};
use scanner::Scanner;
use std::alloc::Global;
use std::marker::Model;

/// A reader of one file's bytes. It stands for the stream of bytes that it was fed and the number of lines that it handed out.
/// Memory is taken for the open logical line, the open physical line and the lines that were not handed out yet.
#[derive(Drop)]
pub struct Lexer {
    scanner: Scanner,
}

impl Model for Lexer {
    ghost use Rattle.cvc_lex.specs.Lexing.{Lexing};

    ghost Value = { Lexing };

    ghost use Rattle.cvc_lex.specs.Scanning.{lexing_of};

    ghost view = { λ l. lexing_of l.scanner };
}

impl Lexer {
    ghost use Rattle.cvc_lex.specs.Lines.{sure_fault, lexical};
    ghost use Rattle.cvc_base.specs.Answers.{IfAt, Refuses, refusal_in};
    ghost use Rattle.cvc_lex.specs.Lexing.{StandsFor, IsFirstFaultOf, TakesFirst, Hands};

    /// A lexer that has read nothing. The kind of file chooses the line rules and the limits.
    pub fn new(alloc: Global, file: FileKind) -> Result<Lexer, NoMemory>
        ensures stands { IfOk result (λ x. StandsFor x [] 0) }
        ensures fresh { IfOk result (λ x. (x.file ≡ file) × (x.finished ≡ false) × (x.refused ≡ None)) }
    {
        Ok(Lexer {
            scanner: Scanner::new(alloc, file),
        })
    }

    /// Takes the next piece of the stream. It refuses with the first fault as soon as that is sure: at a physical line that has
    /// ended, or where the stream passes the file's limit and no earlier line has a fault. A refusal is kept.
    pub fn feed(&mut self, piece: &[u8]) -> Result<(), Refusal>
        requires { self.old.finished ≡ false }
        ensures stands { (stream : List ℕ) (n : ℕ) → StandsFor self.old stream n → StandsFor self.new (stream ++ piece.now) n }
        ensures refuses { (stream : List ℕ) (n : ℕ) → StandsFor self.old stream n → Refuses (sure_fault self.old.file (stream ++ piece.now)) result }
        ensures sure { (stream : List ℕ) (n : ℕ) → StandsFor self.old stream n → IfAt result (IsFirstFaultOf self.old.file (stream ++ piece.now)) }
        ensures refused { self.new.refused ≡ refusal_in result }
        ensures kept { IfSome self.old.refused (λ r. (result ≡ Err r) × (self.new ≡ self.old)) }
        ensures same { (self.new.file ≡ self.old.file) × (self.new.finished ≡ false) }
    {
        if let Some(refusal) = self.scanner.refused {
            return Err(refusal);
        }
        let done = self.scanner.read_piece(piece);
        self.scanner.answer(done)
    }

    /// Ends the stream. It refuses with the first fault of the whole stream, if there is one.
    pub fn finish(&mut self) -> Result<(), Refusal>
        requires { self.old.finished ≡ false }
        ensures stands { (stream : List ℕ) (n : ℕ) → StandsFor self.old stream n → StandsFor self.new stream n }
        ensures refuses { (stream : List ℕ) (n : ℕ) → StandsFor self.old stream n → Refuses (lexical self.old.file stream) result }
        ensures refused { self.new.refused ≡ refusal_in result }
        ensures kept { IfSome self.old.refused (λ r. result ≡ Err r) }
        ensures same { (self.new.file ≡ self.old.file) × (self.new.finished ≡ true) }
    {
        if let Some(refusal) = self.scanner.refused {
            self.scanner.finished = true;
            return Err(refusal);
        }
        let done = self.scanner.end_lines();
        let answer = self.scanner.answer(done);
        self.scanner.finished = true;
        answer
    }

    /// The next logical line that is closed. `None` exactly where all closed lines were handed out, or after a want of memory.
    pub fn next_line(&mut self) -> Option<Line>
        ensures hands { (stream : List ℕ) (n : ℕ) → StandsFor self.old stream n → Hands self.old self.new stream n result }
        ensures taken { TakesFirst self.old.waiting self.new.waiting result }
        ensures same { self.new ≡ record self.old { waiting = self.new.waiting } }
    {
        self.scanner.closed.pop_front()
    }
}
