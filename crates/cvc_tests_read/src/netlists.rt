use cvc_base::Cause::{
    self, EndsName, NestedSubckt, NoTop, OpenSubckt, PortCount, Recursive, StrayEnds, TwiceCell,
    TwiceName, TwicePort, UnknownCell, UnknownPort,
};
use cvc_base::{Fault, FileKind, Place, Refusal};
use cvc_card::{Card, read_card};
use cvc_cdl::{Builder, Netlist};
use cvc_lex::Lexer;
use std::alloc::{AllocError, Global};
use std::test::Fail;

// The netlist of a text that has no fault in its lines.
fn read(alloc: Global, bytes: &[u8], top: Option<&[u8]>) -> Result<Netlist, Refusal> {
    let Ok(mut lexer) = Lexer::new(alloc, FileKind::Netlist) else {
        return Err(Refusal::NoMemory);
    };
    lexer.feed(bytes)?;
    lexer.finish()?;
    let Ok(mut builder) = Builder::new(alloc) else {
        return Err(Refusal::NoMemory);
    };
    while let Some(line) = lexer.next_line() {
        if !line.tokens.is_empty() {
            builder.add(read_card(alloc, &line)?, line.first)?;
        }
    }
    builder.finish(top)
}

fn at(line: u32, cause: Cause) -> Option<Refusal> {
    let file = FileKind::Netlist;
    let place = Place { file, line };
    Some(Refusal::At(Fault { place, cause }))
}

#[test]
fn card_faults_in_order(rt: HostRuntime) {
    let files: [(&[u8], u32, Cause); 14] = [
        (
            b".SUBCKT t a\nX1 a missing\nM1 a a a\n.ENDS",
            3,
            Cause::ShortCard,
        ),
        (b".SUBCKT a\n\n.SUBCKT b\n+ p\n.ENDS", 3, NestedSubckt),
        (b".SUBCKT a\n.SUBCKT a p p\n.ENDS", 2, NestedSubckt),
        (b".SUBCKT a\n.ENDS\n.SUBCKT a p p\n.ENDS", 3, TwiceCell),
        (b".SUBCKT a p q p\n.ENDS b", 1, TwicePort),
        (b".ENDS b", 1, StrayEnds),
        (b".SUBCKT a\n.ENDS a\n.ENDS", 3, StrayEnds),
        (b".SUBCKT a\n.ENDS A\n.ENDS", 2, EndsName),
        (b"R1 a b 1\nX1 a missing\nX1 b c d", 3, TwiceName),
        (b".SUBCKT t\nR1 a b 1\nR1 a b 1\n.ENDS", 3, TwiceName),
        (b"R1 a b 1\n.SUBCKT t\n.ENDS\nR1 a b 1", 4, TwiceName),
        // A cell without its end comes before all that is looked at then.
        (b"X1 a missing\n.SUBCKT a p\nX1 p a", 2, OpenSubckt),
        (
            b".SUBCKT a\n.ENDS\n.SUBCKT b\nR1 a b 1\n.SUBCKT c",
            5,
            NestedSubckt,
        ),
        (b".SUBCKT a\n.ENDS\n.SUBCKT b\nR1 a b 1", 3, OpenSubckt),
    ];
    for (bytes, line, cause) in files {
        assert_eq!(rt; read(rt.alloc(), bytes, None).err(), at(line, cause));
    }
}

#[test]
fn instances_in_file_order(rt: HostRuntime) {
    let files: [(&[u8], u32, Cause); 12] = [
        (b".SUBCKT t a\nX1 a missing\n.ENDS", 2, UnknownCell),
        (b".SUBCKT t a\nX1 a missing\n.ENDS\nX1 a b", 2, UnknownCell),
        (b"X1 a b t\n.SUBCKT t a\nX1 a missing\n.ENDS", 1, PortCount),
        (
            b".SUBCKT t a\n.ENDS\nX1 / t $PINS b=n\n.SUBCKT u a\nX1 a missing\n.ENDS",
            3,
            UnknownPort,
        ),
        (
            b".SUBCKT t a\n.ENDS\nX1 n t\nX2 t\n.SUBCKT u a\nX1 a missing\n.ENDS",
            4,
            PortCount,
        ),
        (
            b".SUBCKT t a\n.ENDS\nR1 a b 1\n.SUBCKT u a\nX1 a t\n.ENDS\nX2 a b u\nX3 c",
            7,
            PortCount,
        ),
        (
            b".SUBCKT t a b\n.ENDS\nX1 / t $PINS a=n A=m",
            3,
            UnknownPort,
        ),
        // What contains itself comes after all of these, at the first that names it.
        (
            b".SUBCKT a p\nX1 p b\n.ENDS\n.SUBCKT b p\nX1 p a\n.ENDS\nX2 n c",
            7,
            UnknownCell,
        ),
        (
            b"X1 n c\n.SUBCKT a p\nX1 p a\n.ENDS\n.SUBCKT c p\nX1 p a\n.ENDS",
            1,
            Recursive,
        ),
        (
            b"X1 n d\n.SUBCKT a p\nX1 p a\n.ENDS\n.SUBCKT d p\n.ENDS",
            3,
            Recursive,
        ),
        (b".SUBCKT a p\nX1 / a\n.ENDS", 2, PortCount),
        (b".SUBCKT a p\nX1 / a $PINS\n.ENDS", 2, Recursive),
    ];
    for (bytes, line, cause) in files {
        assert_eq!(rt;
            read(rt.alloc(), bytes, Some(b"none")).err(),
            at(line, cause)
        );
    }
}

#[test]
fn recursion_and_depth(rt: HostRuntime) {
    let bytes = b".SUBCKT a p\nX1 p b\n.ENDS\n.SUBCKT b p\nX1 p a\n.ENDS";
    assert_eq!(rt; read(rt.alloc(), bytes, None).err(), at(2, Recursive));
}

#[test]
fn tops(rt: HostRuntime) -> Result<(), Fail> {
    let files: [(&[u8], Option<&[u8]>, Option<&[u8]>); 6] = [
        (b"", None, None),
        (b".GLOBAL g\n.PARAM w=1", None, None),
        (
            b".GLOBAL g\n.SUBCKT a\nR1 a b 1\n.ENDS\n.SUBCKT b\n.ENDS",
            None,
            Some(b"b"),
        ),
        (b".SUBCKT a\n.ENDS\nR1 a b 1\n.SUBCKT b\n.ENDS", None, None),
        (b"X1 b\n.SUBCKT a\n.ENDS\n.SUBCKT b\n.ENDS", None, None),
        (
            b".SUBCKT a\n.ENDS\nR1 a b 1\n.SUBCKT b\n.ENDS",
            Some(b"a"),
            Some(b"a"),
        ),
    ];
    for (bytes, asked, want) in files {
        let Ok(netlist) = read(rt.alloc(), bytes, asked) else {
            return Err("refused".into());
        };
        assert_eq!(rt; netlist.top.as_ref().map(|name| name.bytes()), want);
    }
    let no_cell = read(rt.alloc(), b".SUBCKT a\n.ENDS", Some(b"A")).err();
    assert_eq!(rt; no_cell, at(0, NoTop));
    Ok(())
}

#[test]
fn parts_of_a_netlist(rt: HostRuntime) -> Result<(), Fail> {
    let bytes = b".PARAM w=1\n.SUBCKT c a b w=2\n.PARAM x=3 y=4\nR1 a b 1\n.PARAM w=5\n.ENDS\n\
        .PARAM z=6\n*.GLOBAL vdd! vss!\n.GLOBAL vss! gnd! vdd!\nR1 n m 1\nX1 n m c";
    let Ok(netlist) = read(rt.alloc(), bytes, None) else {
        return Err("refused".into());
    };
    let globals: [(&[u8], u32); 3] = [(b"vdd!", 8), (b"vss!", 8), (b"gnd!", 9)];
    assert_eq!(rt; netlist.globals.len(), 3);
    for (i, (name, line)) in globals.into_iter().enumerate() {
        assert!(rt; i < netlist.globals.len());
        let global = netlist.globals.get(i);
        assert_eq!(rt; (global.name.bytes(), global.line), (name, line));
    }
    assert_eq!(rt; (netlist.params.len(), netlist.main.items.len()), (2, 2));
    assert_eq!(rt; (netlist.main.pairs.len(), netlist.main.line), (0, 0));
    assert_eq!(rt; netlist.cells.len(), 1);
    let cell = netlist.cells.get(0);
    assert_eq!(rt; (cell.name.bytes(), cell.line), (b"c".as_slice(), 2));
    assert_eq!(rt; (cell.ports.len(), cell.items.len()), (2, 1));
    let pairs: [&[u8]; 4] = [b"2", b"3", b"4", b"5"];
    assert_eq!(rt; cell.pairs.len(), 4);
    for (i, value) in pairs.into_iter().enumerate() {
        assert!(rt; i < cell.pairs.len());
        assert_eq!(rt; cell.pairs.get(i).value.bytes(), value);
    }
    Ok(())
}

// Cells, each of which but the first has one instance of the one before it, around one resistor.
fn nested_cells(alloc: Global, cells: u32) -> Result<Vec<u8>, AllocError> {
    let mut netlist = Vec::from_slice(alloc, b".SUBCKT c0 p\nR1 p VSS 1\n.ENDS\n")?;
    for below in 0..cells.saturating_sub(1) {
        let cell = format!(in alloc; ".SUBCKT c{} p\nX1 p c{below}\n.ENDS\n", below + 1)?;
        netlist.extend_from_slice(cell.as_bytes())?;
    }
    Ok(netlist)
}

#[test]
fn a_chain_of_a_hundred_thousand_cells(rt: HostRuntime) -> Result<(), Fail> {
    let text = nested_cells(rt.alloc(), 100_000)?;
    let Ok(netlist) = read(rt.alloc(), &text, Some(b"c99999")) else {
        return Err("refused".into());
    };
    assert_eq!(rt; netlist.cells.len(), 100_000);
    Ok(())
}

#[test]
fn a_refusal_is_kept(rt: HostRuntime) -> Result<(), Fail> {
    let mut builder = Builder::new(rt.alloc())?;
    assert_eq!(rt; builder.add(Card::Ignored, 1), Ok(()));
    assert_eq!(rt; builder.add(Card::Ends(None), 2).err(), at(2, StrayEnds));
    assert_eq!(rt; builder.add(Card::Ignored, 3).err(), at(2, StrayEnds));
    assert_eq!(rt; builder.add(Card::Ends(None), 4).err(), at(2, StrayEnds));
    assert_eq!(rt; builder.finish(None).err(), at(2, StrayEnds));
    Ok(())
}
