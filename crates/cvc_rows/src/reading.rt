//! The rows of a whole file.
ghost use Rattle.std.specs.Prelude.{◌≡◌, ◌≤◌, [], All, IfOk, length};
ghost use Rattle.cvc_lex.specs.Bytes.{file_limit};
ghost use Rattle.cvc_rows.specs.Lexed.{IsLexed, IsToldAs};
ghost use Rattle.cvc_rows.specs.Refusing.{Answers};
ghost use Rattle.cvc_rows.specs.Rows.{rows_behind, rows_of};

use crate::{Judge, LineFault, Refused};
use cvc_base::{Fault, FileKind, ItemList, NoMemory, Refusal};
use cvc_lex::Lexer;
use cvc_lex::laws::lines_are_few;
use std::alloc::Global;

// A file that is read to its end. The lexer has the lines that close before that of the lexical fault.
#[derive(Drop)]
struct Lexed {
    lexer: Lexer,
    fault: Option<Fault>,
}

// The fault of the end of a file, if there is one.
fn fault_of(ended: Result<(), Refusal>) -> Result<Option<Fault>, NoMemory>
    ensures { IfOk result (IsToldAs ended) }
{
    match ended {
        Ok(()) => Ok(None),
        Err(Refusal::At(fault)) => Ok(Some(fault)),
        Err(Refusal::NoMemory) => Err(NoMemory),
    }
}

fn lex(alloc: Global, file: FileKind, bytes: &[u8]) -> Result<Lexed, NoMemory>
    ensures { IfOk result (IsLexed file bytes.now) }
{
    let mut lexer = Lexer::new(alloc, file)?;
    // a refusal is kept: the end of the file answers it again
    let _ = lexer.feed(bytes);
    let fault = fault_of(lexer.finish())?;
    lines_are_few();
    Ok(Lexed { lexer, fault })
}

// The rows of the lines that the lexer still has.
fn judge_lines<J: Judge>(
    alloc: Global,
    lexer: &mut Lexer,
    mut judge: J,
) -> Result<ItemList<J::Row>, Refused<LineFault<J::Cause>>>
    requires { J.knows judge [] }
    ensures rows { Answers result (rows_behind (J.verdict judge) [] lexer.old.waiting) }
    ensures fine { IfOk result (All J.fine) }
    ensures few { IfOk result (λ rows. length rows ≤ length lexer.old.waiting) }
{
    let mut rows = ItemList::new(alloc);
    while let Some(line) = lexer.next_line() {
        match judge.judge(alloc, &line) {
            Ok(row) => rows.push(row)?,
            Err(refused) => return Err(refused.at(line.first)),
        }
    }
    Ok(rows)
}

/// The rows of a file, or its first fault. Faults stand by line; on one line those of its bytes and tokens come first, as the judge tells
/// them, and then the judge's own. It takes the time of the judge for each line, and is linear in the file else.
pub fn read_rows<J: Judge>(
    alloc: Global,
    file: FileKind,
    bytes: &[u8],
    judge: J,
) -> Result<ItemList<J::Row>, Refused<LineFault<J::Cause>>>
    requires { J.knows judge [] }
    ensures rows { Answers result (rows_of J.told (J.verdict judge) file bytes.now) }
    ensures fine { IfOk result (All J.fine) }
    ensures few { IfOk result (λ rows. length rows ≤ file_limit file) }
{
    let mut lexed = lex(alloc, file, bytes)?;
    let rows = judge_lines(alloc, &mut lexed.lexer, judge)?;
    match lexed.fault {
        None => Ok(rows),
        Some(fault) => Err(Refused::At(LineFault {
            line: fault.place.line,
            cause: J::tell(fault.cause),
        })),
    }
}
