//! Voltages, texts, lists and stops: that they keep what they are given.
ghost use Rattle.std.specs.Prelude.{◌≡◌, pos};

use cvc_base::{Cause, Fault, FileKind, ItemList, Mv, NoMemory, Refusal, Stop, Text, Texts, Token};
use std::alloc::Global;
use std::mem::size_of;
use std::test::Fail;

#[test]
fn voltages_end_at_a_million_millivolts(rt: HostRuntime) {
    for (v, inside) in [
        (-1_000_001, false),
        (-1_000_000, true),
        (0, true),
        (1_000_000, true),
        (1_000_001, false),
        (i64::MIN, false),
        (i64::MAX, false),
    ] {
        assert_eq!(rt;
            Mv::new(v).map(|mv| mv.get()),
            if inside { Some(v) } else { None },
            "at {v}"
        );
    }
}

#[test]
fn a_list_keeps_its_items_in_order(rt: HostRuntime) -> Result<(), Fail> {
    let alloc = rt.alloc();
    let mut texts = Texts::new(alloc);
    for name in [b"vdd".as_slice(), b"out", b"vss"] {
        texts.push(Text::of(alloc, name)?)?;
    }
    assert_eq!(rt; texts.len(), 3);
    assert_eq!(rt; texts.get(1).bytes(), b"out".as_slice());
    let old = texts.replace(1, Text::of(alloc, b"in")?);
    assert_eq!(rt; old.bytes(), b"out".as_slice());
    assert_eq!(rt; texts.len(), 3);
    let first = texts.remove(0);
    assert_eq!(rt; first.bytes(), b"vdd".as_slice());
    assert_eq!(rt; texts.len(), 2);
    assert_eq!(rt; texts.get(0).bytes(), b"in".as_slice());
    Ok(())
}

#[test]
fn a_cause_prints_its_word(rt: HostRuntime) {
    assert_eq!(rt; Cause::SameNetTwice.word(), b"same-net-twice".as_slice());
}

#[test]
fn a_text_keeps_its_bytes(rt: HostRuntime) -> Result<(), Fail> {
    let alloc = rt.alloc();
    for bytes in [
        b"".as_slice(),
        b"vdd",
        b"exactly_16_bytes",
        b"seventeen_bytes_x",
    ] {
        assert_eq!(rt; Text::of(alloc, bytes)?.bytes(), bytes);
        let taken = Text::from_vec(bytes.to_vec(alloc)?);
        assert_eq!(rt; taken.bytes(), bytes);
    }
    // a file of 128 MiB has at most as many tokens as bytes
    assert!(rt; size_of::<Token>() <= 50);
    Ok(())
}

#[test]
fn a_list_hands_its_items_over(rt: HostRuntime) -> Result<(), Fail> {
    let mut list = ItemList::new(rt.alloc());
    list.reserve(3)?;
    for n in [3, 1, 2] {
        list.push(n)?;
    }
    assert_eq!(rt; list.into_vec().as_slice(), [3, 1, 2].as_slice());
    Ok(())
}

fn zero() -> Mv
    ensures { result ≡ pos 0 }
{
    Mv::ZERO
}

fn short_text(alloc: Global, bytes: &[u8]) -> Result<Text, Stop> {
    if bytes.len() > 16 {
        return Err(Stop::from(Cause::LongToken));
    }
    Ok(Text::of(alloc, bytes)?)
}

fn refused_text(alloc: Global, bytes: &[u8]) -> Result<Text, Refusal> {
    short_text(alloc, bytes).map_err(|stop| stop.on(FileKind::Power, 7))
}

#[test]
fn a_stop_becomes_a_refusal(rt: HostRuntime) {
    assert_eq!(rt; zero().get(), 0);
    let fault = Fault::at(FileKind::Power, 7, Cause::LongToken);
    assert_eq!(rt;
        refused_text(rt.alloc(), b"seventeen_bytes_x").err(),
        Some(Refusal::from(fault))
    );
    assert_eq!(rt;
        Stop::from(NoMemory).on(FileKind::Power, 7),
        Refusal::from(NoMemory)
    );
}
