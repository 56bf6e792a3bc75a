//! Netlists, read in pieces.
ghost use Rattle.std.specs.Prelude.{◌≡◌, ◌++◌, ◌∷◌, ◌<◌, [], ℕ, List, None, All, IfOk, IsSome, OnOk, length};
ghost use Rattle.cvc_base.specs.Answers.{Gives, IfAt};
ghost use Rattle.cvc_cdl.specs.Builder.{named_top};
ghost use Rattle.cvc_cdl.specs.File.{file_of};
ghost use Rattle.cvc_cdl.specs.WellFormed.{IsWellFormed};
ghost use Rattle.cvc_io.specs.Causes.{Rose};
ghost use Rattle.cvc_io.specs.Files.{NoneFalls, RoseFor};
ghost use Rattle.cvc_lex.specs.Laws.{HasToken};
ghost use Rattle.cvc_run.specs.Loads.{OfContent};
ghost use Rattle.cvc_run.specs.Reader.{HasRead, IsDecided, IsReading, Passes, StopsAt};
ghost use Rattle.cvc_run.specs.Rests.{HasReadFile, HasReadRest, IsFaultOf, OfRest};
ghost use Rattle.cvc_run.specs.Shelves.{Leaves};
ghost use Rattle.cvc_run.specs.Stops.{IfAt as IfLoadAt, ReadOnlyWhere, Says};

use crate::LoadFault;
use crate::load::PIECE;
use crate::stop::as_load;
use cvc_base::{FileKind, Line, NoMemory, Refusal};
use cvc_card::read_card;
use cvc_cdl::{Builder, Netlist};
use cvc_io::Shelf;
use cvc_lex::Lexer;
use std::alloc::Global;

/// Takes the bytes of a netlist in pieces cut anywhere, and passes each logical line on to the builder as soon as it is closed. After a refusal it is
/// of no more use.
#[derive(Drop)]
pub(crate) struct NetlistReader {
    alloc: Global,
    lexer: Lexer,
    builder: Builder,
}

// Passes the card of a line on.
fn pass_line(alloc: Global, builder: &mut Builder, line: &Line) -> Result<(), Refusal>
    requires { HasToken line.now }
    ensures passed { OnOk result (Passes builder.old (line.now ∷ []) builder.new) }
    ensures fault { IfAt result (StopsAt builder.old (line.now ∷ [])) }
{
    let card = read_card(alloc, line)?;
    builder.add(card, line.first)
}

// Passes the lines on that are closed and were not handed out.
fn pass_lines(alloc: Global, lexer: &mut Lexer, builder: &mut Builder) -> Result<(), Refusal>
    requires { All HasToken lexer.old.waiting }
    ensures passed { OnOk result (Passes builder.old lexer.old.waiting builder.new) }
    ensures handed { OnOk result (lexer.new ≡ record lexer.old { waiting = [] }) }
    ensures fault { IfAt result (StopsAt builder.old lexer.old.waiting) }
{
    while let Some(line) = lexer.next_line() {
        pass_line(alloc, builder, &line)?;
    }
    Ok(())
}

impl NetlistReader {
    /// A reader that has read nothing.
    pub(crate) fn new(alloc: Global) -> Result<NetlistReader, NoMemory>
        ensures { IfOk result (λ reader. HasRead reader []) }
    {
        Ok(NetlistReader {
            alloc,
            lexer: Lexer::new(alloc, FileKind::Netlist)?,
            builder: Builder::new(alloc)?,
        })
    }

    /// Takes the next piece. It refuses with the first fault of the netlist as soon as that is decided.
    pub(crate) fn feed(&mut self, piece: &[u8]) -> Result<(), Refusal>
        requires { IsReading self.old }
        ensures read { (stream : List ℕ) → HasRead self.old stream → OnOk result (HasRead self.new (stream ++ piece.now)) }
        ensures decided { (stream : List ℕ) → HasRead self.old stream → IfAt result (IsDecided (stream ++ piece.now)) }
    {
        let fed = self.lexer.feed(piece);
        // the lines that close before the line of a lexical fault are judged first
        pass_lines(self.alloc, &mut self.lexer, &mut self.builder)?;
        fed
    }

    /// Ends the netlist, whose top is the cell of this name. It refuses with the first fault.
    pub(crate) fn finish(mut self, top: Option<&[u8]>) -> Result<Netlist, Refusal>
        requires { IsReading self }
        ensures netlist { (stream : List ℕ) → HasRead self stream → Gives (λ netlist. netlist) result (file_of stream (named_top top.entry)) }
        ensures well_formed { IfOk result IsWellFormed }
    {
        let ended = self.lexer.finish();
        pass_lines(self.alloc, &mut self.lexer, &mut self.builder)?;
        ended?;
        self.builder.finish(top)
    }
}

// Feeds the reader with a whole text, in pieces.
fn feed_text(text: &[u8], reader: &mut NetlistReader) -> Result<(), Refusal>
    requires fresh { HasRead reader.old [] }
    ensures read { OnOk result (HasRead reader.new text.now) }
    ensures decided { IfAt result (IsDecided text.now) }
{
    let mut rest = text;
    'pieces: while !rest.is_empty() {
        let (piece, later) = rest.split_at(rest.len().min(PIECE));
        reader.feed(piece)?;
        rest = later;
    }
    Ok(())
}

/// The netlist of these bytes, or its first fault. The lines of one piece are held at a time.
pub(crate) fn netlist_of(
    alloc: Global,
    bytes: &[u8],
    top: Option<&[u8]>,
) -> Result<Netlist, Refusal>
    ensures netlist { Gives (λ netlist. netlist) result (file_of bytes.now (named_top top.entry)) }
    ensures well_formed { IfOk result IsWellFormed }
{
    let mut reader = NetlistReader::new(alloc)?;
    feed_text(bytes, &mut reader)?;
    reader.finish(top)
}

// Feeds the reader with what is left of the open file, up to its end or to the first fault that is decided. The bytes come through the buffer.
fn feed_through<S: Shelf>(
    shelf: &mut S,
    reader: &mut NetlistReader,
    buf: &mut [u8],
) -> Result<(), LoadFault>
    requires open { IsSome (S.standing shelf.old) }
    requires fresh { HasRead reader.old [] }
    requires room { 0 < length buf.old }
    ensures still { IsSome (S.standing shelf.new) }
    ensures files { S.files shelf.new ≡ S.files shelf.old }
    ensures counts { NoneFalls (S.faults shelf.old) (S.faults shelf.new) }
    ensures read { OnOk result (HasReadRest (S.standing shelf.old) reader.new) }
    ensures decided { IfLoadAt result (λ fault. OfRest (S.standing shelf.old) (IsFaultOf fault)) }
    ensures cause { ReadOnlyWhere result (RoseFor (S.standing shelf.old) (S.faults shelf.old) (S.faults shelf.new)) }
{
    'pieces: loop {
        let Ok(count) = shelf.read(buf) else {
            return Err(LoadFault::Read);
        };
        if count == 0 {
            return Ok(());
        }
        reader.feed(&buf[..count])?;
    }
}

// Feeds the reader with what is left of the open file, up to its end or to the first fault that is decided.
fn feed_rest<S: Shelf>(shelf: &mut S, reader: &mut NetlistReader) -> Result<(), LoadFault>
    requires open { IsSome (S.standing shelf.old) }
    requires fresh { HasRead reader.old [] }
    ensures still { IsSome (S.standing shelf.new) }
    ensures files { S.files shelf.new ≡ S.files shelf.old }
    ensures counts { NoneFalls (S.faults shelf.old) (S.faults shelf.new) }
    ensures read { OnOk result (HasReadRest (S.standing shelf.old) reader.new) }
    ensures decided { IfLoadAt result (λ fault. OfRest (S.standing shelf.old) (IsFaultOf fault)) }
    ensures cause { ReadOnlyWhere result (RoseFor (S.standing shelf.old) (S.faults shelf.old) (S.faults shelf.new)) }
{
    let mut buf = vec![in reader.alloc; 0; PIECE]?;
    feed_through(shelf, reader, buf.as_mut_slice())
}

// Feeds the reader with the file of this name.
fn feed_file<S: Shelf>(
    name: &[u8],
    shelf: &mut S,
    reader: &mut NetlistReader,
) -> Result<(), LoadFault>
    requires closed { S.standing shelf.old ≡ None }
    requires fresh { HasRead reader.old [] }
    ensures read { OnOk result (HasReadFile (S.files shelf.old) name.now reader.new) }
    ensures decided { IfLoadAt result (λ fault. OfContent (S.files shelf.old) name.now (IsFaultOf fault)) }
    ensures cause { ReadOnlyWhere result (Rose (S.faults shelf.old name.now) (S.faults shelf.new name.now)) }
    ensures shelf { Leaves (S.standing shelf.new) (S.files shelf.old) (S.files shelf.new) (S.faults shelf.old) (S.faults shelf.new) }
{
    if shelf.open_file(name).is_err() {
        return Err(LoadFault::Read);
    }
    let fed = feed_rest(shelf, reader);
    shelf.close_file();
    fed
}

/// The netlist of the file of this name, whose top is the cell of that name, or the first fault. It is read in pieces of 65,536 bytes, and no further
/// than to the first fault that is decided.
pub(crate) fn load_netlist<S: Shelf>(
    alloc: Global,
    name: &[u8],
    top: Option<&[u8]>,
    shelf: &mut S,
) -> Result<Netlist, LoadFault>
    requires { S.standing shelf.old ≡ None }
    ensures netlist { OfContent (S.files shelf.old) name.now (λ content. Says (λ netlist. netlist) result (file_of content (named_top top.entry))) }
    ensures well_formed { IfOk result IsWellFormed }
    ensures cause { ReadOnlyWhere result (Rose (S.faults shelf.old name.now) (S.faults shelf.new name.now)) }
    ensures shelf { Leaves (S.standing shelf.new) (S.files shelf.old) (S.files shelf.new) (S.faults shelf.old) (S.faults shelf.new) }
{
    let mut reader = NetlistReader::new(alloc)?;
    feed_file(name, shelf, &mut reader)?;
    as_load(reader.finish(top))
}
