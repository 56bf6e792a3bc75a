ghost use Rattle.std.specs.Prelude.{◌≡◌, false};

use cvc_base::{Cause, Fault, FileKind, Place, Refusal};
use cvc_lex::Lexer;
use std::alloc::Global;
use std::test::Fail;

// Reads a file that comes in two pieces, to its end or to a refusal.
fn read(lexer: &mut Lexer, front: &[u8], back: &[u8]) -> Result<(), Refusal>
    requires { lexer.old.finished ≡ false }
{
    lexer.feed(front)?;
    lexer.feed(back)?;
    lexer.finish()
}

// Each line as its first and last number and its tokens with their places, and the refusal.
fn told(alloc: Global, file: FileKind, front: &[u8], back: &[u8]) -> Result<Vec<u8>, Fail> {
    let mut lexer = Lexer::new(alloc, file)?;
    let answer = read(&mut lexer, front, back);
    let mut text = Vec::new(alloc);
    for _ in 0..100u8 {
        let Some(line) = lexer.next_line() else { break };
        let kind = if line.directive { "*" } else { "" };
        text.extend_from_slice(format!(in alloc;
            "{}-{}{}",
            line.first, line.last, kind
        )?.as_bytes())?;
        for token in line.tokens.as_slice() {
            text.push(b' ')?;
            text.extend_from_slice(token.text.bytes())?;
            text.extend_from_slice(format!(in alloc;
                "@{}:{}",
                token.line, token.column
            )?.as_bytes())?;
        }
        text.push(b';')?;
    }
    match answer {
        Ok(()) => {}
        Err(Refusal::At(fault)) => {
            text.extend_from_slice(fault.cause.word())?;
            text.extend_from_slice(format!(in alloc; " {}", fault.place.line)?.as_bytes())?;
        }
        Err(Refusal::NoMemory) => text.extend_from_slice(b"no-memory")?,
    }
    Ok(text)
}

#[test]
fn continuation_comments_and_line_ends(rt: HostRuntime) -> Result<(), Fail> {
    let want = b"1-4 M1@1:1 out@1:4 en@1:8 src@4:3 vss@4:7 nhv@4:11;";
    for text in [
        b"M1 out en\n* note\n\n+ src vss nhv $ tail".as_slice(),
        b"M1 out en\n* note\n\n+ src vss nhv $ tail\n",
        b"M1 out en\r\n* note\r\n\r\n+ src vss nhv $ tail",
        b"M1 out en\r\n* note\r\n\r\n+ src vss nhv $ tail\r\n",
    ] {
        for cut in 0..text.len() {
            let got = told(rt.alloc(), FileKind::Netlist, &text[..cut], &text[cut..])?;
            assert_eq!(rt; got.as_slice(), want.as_slice(), "cut at {cut}");
        }
    }
    Ok(())
}

#[test]
fn lines_and_faults(rt: HostRuntime) -> Result<(), Fail> {
    let card = FileKind::Netlist;
    let row = FileKind::Models;
    for (file, text, want) in [
        (card, b"+ a".as_slice(), b"stray-plus 1".as_slice()),
        (card, b"* c\n\n  + a", b"stray-plus 3"),
        (card, b"*+ c\n****\n$ R1 a\na", b"4-4 a@4:1;"),
        (card, b"\tR1  a=b", b"1-1 R1@1:2 a@1:6 =@1:7 b@1:8;"),
        (
            card,
            b"w=$ x\nw= $ x\na $",
            b"1-1 w@1:1 =@1:2 $@1:3 x@1:5;2-2 w@2:1 =@2:2;3-3 a@3:1;",
        ),
        (
            card,
            b"a\n+$ x\n++ y",
            b"1-3 a@1:1 $@2:2 x@2:4 +@3:2 y@3:4;",
        ),
        (
            card,
            b"*.GLOBAL v\n* c\n+ w\nb",
            b"1-3* *.GLOBAL@1:1 v@1:10 w@3:3;4-4 b@4:1;",
        ),
        (card, b"a\nb\n* \x01\nc", b"1-1 a@1:1;bad-byte 3"),
        (card, b"a\nb\r\r\n", b"bad-byte 2"),
        (card, b"a\x7f", b"bad-byte 1"),
        (card, b"a \x80\xff", b"1-1 a@1:1 \x80\xff@1:3;"),
        (
            row,
            b"a=b c#d e\n# f\n \t\n+ g\n* h\r",
            b"1-1 a=b@1:1 c@1:5;4-4 +@4:1 g@4:3;5-5 *@5:1 h@5:3;",
        ),
        (row, b"a\nb\x01\n", b"1-1 a@1:1;bad-byte 2"),
    ] {
        let got = told(rt.alloc(), file, text, b"")?;
        assert_eq!(rt; got.as_slice(), want);
    }
    Ok(())
}

// What a lexer answers to a file that begins with `first` and goes on with `piece`, so often.
fn fed(
    alloc: Global,
    file: FileKind,
    first: &[u8],
    piece: &[u8],
    times: u32,
) -> Result<Result<(), Refusal>, Fail> {
    let mut lexer = Lexer::new(alloc, file)?;
    lexer.feed(first)?;
    for _ in 0..times {
        if let Err(refusal) = lexer.feed(piece) {
            assert_refused_again(&mut lexer, refusal)?;
            return Ok(Err(refusal));
        }
    }
    Ok(lexer.finish())
}

// The next call gives the same refusal.
fn assert_refused_again(lexer: &mut Lexer, refusal: Refusal) -> Result<(), Fail>
    requires { lexer.old.finished ≡ false }
{
    match read(lexer, b"x\n", b"") {
        Err(again) if again == refusal => Ok(()),
        _ => Err("another refusal")?,
    }
}

fn at(file: FileKind, line: u32, cause: Cause) -> Result<(), Refusal> {
    Err(Refusal::At(Fault {
        place: Place { file, line },
        cause,
    }))
}

#[test]
fn token_and_file_limits(rt: HostRuntime) -> Result<(), Fail> {
    let alloc = rt.alloc();
    let card = FileKind::Netlist;
    let row = FileKind::Models;
    let feeds = vec![in alloc; b'\n'; 65_536]?;
    let letters = vec![in alloc; b'a'; 1025]?;
    let token = &letters[..1024];
    let mut long = Vec::from_slice(alloc, b"+")?;
    long.extend_from_slice(token)?;
    long.push(b'\n')?;
    let plus = long.as_slice();
    for (file, first, piece, times, want) in [
        (card, token, b" b".as_slice(), 1, Ok(())),
        (
            card,
            letters.as_slice(),
            b" b",
            1,
            at(card, 1, Cause::LongToken),
        ),
        (
            row,
            b"",
            feeds.as_slice(),
            257,
            at(row, 16_777_217, Cause::FileTooLong),
        ),
        (card, b"a\n", plus, 1023, Ok(())),
        (card, b"a\n", plus, 1024, at(card, 1025, Cause::LongLine)),
    ] {
        assert_eq!(rt; fed(alloc, file, first, piece, times)?, want);
    }
    Ok(())
}
