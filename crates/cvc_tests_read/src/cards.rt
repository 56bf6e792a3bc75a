use cvc_base::{
    Cause, Fault, FileKind, Line, NoMemory, Pairs, Place, Refusal, Text, Token, Tokens,
};
use cvc_card::{Card, Letter, Ports, read_card};
use std::alloc::Global;
use std::test::Fail;

/// The line of these tokens, which blanks part.
fn line_of(alloc: Global, text: &str) -> Result<Line, NoMemory> {
    let mut tokens = Tokens::new(alloc);
    for word in text.split_whitespace() {
        let token = Token {
            text: Text::of(alloc, word.as_bytes())?,
            line: 7,
            column: 1,
        };
        tokens.push(token)?;
    }
    Ok(Line {
        tokens,
        first: 7,
        last: 9,
        directive: text.starts_with('*'),
    })
}

#[test]
fn worked_faults_of_cards(rt: HostRuntime) -> Result<(), Fail> {
    let alloc = rt.alloc();
    for (text, cause) in [
        ("R1 a b 1k w =", Cause::BadParam),
        ("R1 a b 'r*2'", Cause::Unsupported),
        ("V1 a 0 1.2", Cause::Unsupported),
        (".TRAN 1n 10n", Cause::UnknownCard),
        ("E1 a b c d 2", Cause::UnknownCard),
        ("M1 d g s nch", Cause::ShortCard),
        ("XI0 a / inv $PINS A = a", Cause::BadPins),
        ("XI0 / inv $PINS A = a A = b", Cause::BadPins),
        ("R1 a b w = x = y", Cause::BadParam),
        ("M1 a $ = 1 'x'", Cause::BadParam),
        ("M1 a 'x' $ = 1", Cause::Unsupported),
        ("X1 a / $PINS A = a", Cause::BadPins),
        ("Q1 a b c 1", Cause::ShortCard),
    ] {
        let line = line_of(alloc, text)?;
        assert!(rt; !line.tokens.is_empty());
        let place = Place {
            file: FileKind::Netlist,
            line: 7,
        };
        let found = read_card(alloc, &line).err();
        assert!(rt;
            found == Some(Refusal::At(Fault { place, cause })),
            "{text}"
        );
    }
    Ok(())
}

#[test]
fn ignored_lines_say_nothing(rt: HostRuntime) -> Result<(), Fail> {
    let alloc = rt.alloc();
    for text in ["*.RESI = 2000", ".OPTION x =", ".end"] {
        let line = line_of(alloc, text)?;
        assert!(rt; !line.tokens.is_empty());
        let ignored = matches!(read_card(alloc, &line), Ok(Card::Ignored));
        assert!(rt; ignored, "{text}");
    }
    Ok(())
}

fn pair_is(pairs: &Pairs, i: usize, name: &[u8], value: &[u8]) -> bool {
    i < pairs.len()
        && {
            let pair = pairs.get(i);
            pair.name.bytes() == name && pair.value.bytes() == value
        }
}

#[test]
fn resistor_with_a_model_and_a_parameter(rt: HostRuntime) -> Result<(), Fail> {
    let alloc = rt.alloc();
    let line = line_of(alloc, "RR0 A B 1K $SUB = VSS $[rpoly]")?;
    assert!(rt; !line.tokens.is_empty());
    let Ok(Card::Device(card)) = read_card(alloc, &line) else {
        return Err(Fail::from("no device"));
    };
    assert!(rt; card.letter == Letter::R);
    assert!(rt; card.name.bytes() == b"RR0".as_slice());
    assert_eq!(rt; card.nets.len(), 2);
    assert!(rt; card.model.bytes() == b"rpoly".as_slice());
    assert_eq!(rt; card.pairs.len(), 2);
    assert!(rt; pair_is(&card.pairs, 0, b"R", b"1K"));
    assert!(rt; pair_is(&card.pairs, 1, b"SUB", b"VSS"));
    Ok(())
}

#[test]
fn instance_connected_by_name(rt: HostRuntime) -> Result<(), Fail> {
    let alloc = rt.alloc();
    let line = line_of(alloc, "XI0 w = 1 / pass $pins A = en Y = out")?;
    assert!(rt; !line.tokens.is_empty());
    let Ok(Card::Inst(card)) = read_card(alloc, &line) else {
        return Err(Fail::from("no instance"));
    };
    assert!(rt; card.cell.bytes() == b"pass".as_slice());
    assert!(rt; pair_is(&card.pairs, 0, b"w", b"1"));
    let Ports::ByName(connections) = &card.ports else {
        return Err(Fail::from("by order"));
    };
    assert_eq!(rt; connections.len(), 2);
    assert!(rt; pair_is(connections, 1, b"Y", b"out"));
    Ok(())
}
