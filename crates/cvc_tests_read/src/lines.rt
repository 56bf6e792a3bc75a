ghost use Rattle.std.specs.Prelude.{◌≡◌, false};

use cvc_base::{FileKind, Line, Refusal};
use cvc_lex::Lexer;
use std::alloc::Global;
use std::test::Fail;

// A card with CR LF, a comment before its continuation and another behind it, and no LF at the end.
const CONTINUED: &[u8] = b"R1 VDD n1\r\n* note\r\n+ 1k $ tail";

// The only line of a netlist that comes in two pieces, if it has one line.
fn only_line(alloc: Global, first: &[u8], second: &[u8]) -> Result<Option<Line>, Refusal> {
    let mut lexer = Lexer::new(alloc, FileKind::Netlist)?;
    lexer.feed(first)?;
    lexer.feed(second)?;
    lexer.finish()?;
    let line = lexer.next_line();
    if lexer.next_line().is_some() {
        return Ok(None);
    }
    Ok(line)
}

fn has_words(line: &Line, words: &[&[u8]]) -> bool {
    if line.tokens.len() != words.len() {
        return false;
    }
    for (token, word) in line.tokens.as_slice().iter().zip(words) {
        if token.text.bytes() != *word {
            return false;
        }
    }
    true
}

#[test]
fn continued_card_at_every_cut(rt: HostRuntime) -> Result<(), Fail> {
    let words: [&[u8]; 4] = [b"R1", b"VDD", b"n1", b"1k"];
    for cut in 0..CONTINUED.len() {
        let Ok(found) = only_line(rt.alloc(), &CONTINUED[..cut], &CONTINUED[cut..]) else {
            return Err("refused".into());
        };
        let Some(line) = found else {
            return Err("not one line".into());
        };
        assert!(rt; has_words(&line, &words), "cut at {cut}");
        assert_eq!(rt; (line.first, line.last, line.directive), (1, 3, false));
    }
    Ok(())
}

// Feeds this piece so many times.
fn feed_often(lexer: &mut Lexer, piece: &[u8], times: u32) -> Result<(), Refusal>
    requires { lexer.old.finished ≡ false }
    ensures { lexer.new.finished ≡ false }
{
    for _ in 0..times {
        lexer.feed(piece)?;
    }
    Ok(())
}

// How many tokens the waiting lines have.
fn waiting_tokens(lexer: &mut Lexer) -> u64
    ensures { lexer.new.finished ≡ lexer.old.finished }
{
    let mut count = 0u64;
    while let Some(line) = lexer.next_line() {
        count = count.saturating_add(line.tokens.len() as u64);
    }
    count
}

#[test]
fn twenty_megabytes_of_equals_signs(rt: HostRuntime) -> Result<(), Fail> {
    // 20 lines of a million signs, each in 1000 pieces
    let mut lexer = Lexer::new(rt.alloc(), FileKind::Netlist)?;
    let signs = [b'='; 1000];
    let mut count = 0u64;
    'lines: for _ in 0..20u8 {
        feed_often(&mut lexer, &signs, 1000)?;
        lexer.feed(b"\n")?;
        count = count.saturating_add(waiting_tokens(&mut lexer));
    }
    lexer.finish()?;
    assert_eq!(rt;
        count.saturating_add(waiting_tokens(&mut lexer)),
        20_000_000
    );
    Ok(())
}

#[test]
fn comment_of_a_hundred_megabytes(rt: HostRuntime) -> Result<(), Fail> {
    for mark in [b"*".as_slice(), b" * "] {
        let mut lexer = Lexer::new(rt.alloc(), FileKind::Netlist)?;
        lexer.feed(mark)?;
        feed_often(&mut lexer, &[b'x'; 50_000], 2000)?;
        lexer.feed(b"\nR1 a b 1k")?;
        lexer.finish()?;
        assert_eq!(rt; waiting_tokens(&mut lexer), 4);
    }
    Ok(())
}
