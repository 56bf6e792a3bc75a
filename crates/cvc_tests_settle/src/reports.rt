//! Texts as they go to a sink: lines of refusals, and a summary.
ghost use Rattle.std.specs.Prelude.{None};

use crate::conduction::circuit;
use crate::rules::build::{UNKNOWN, at};
use cvc_base::{Cause, DevId, Fault, FileKind, Finding, Findings, NoMemory, Rule};
use cvc_io::{MemSink, Sink, WriteFailed};
use cvc_report::{write_refusal, write_summary, write_word_refusal};
use std::alloc::Global;
use std::test::Fail;

/// A sink that takes every piece whole, counts the calls, and keeps no byte.
#[derive(Drop)]
struct Calls {
    count: u64,
    bytes: usize,
}

impl Sink for Calls {
    ghost written = { λ _. None };

    ghost faults = { λ _. 0 };

    fn write(&mut self, piece: &[u8]) -> Result<usize, WriteFailed> {
        self.count = self.count.saturating_add(1);
        self.bytes = self.bytes.saturating_add(piece.len());
        Ok(piece.len())
    }
}

#[test]
fn a_refusal_is_one_line(rt: HostRuntime) -> Result<(), Fail> {
    for (refused, wanted) in [
        (
            Fault::at(FileKind::Netlist, 3, Cause::ShortCard),
            b"refused netlist line 3 short-card\n".as_slice(),
        ),
        (
            Fault::at(FileKind::Netlist, 0, Cause::NoTop),
            b"refused netlist line 0 no-top\n",
        ),
        (
            Fault::at(FileKind::Models, 16_777_217, Cause::FileTooLong),
            b"refused models line 16777217 file-too-long\n",
        ),
        (
            Fault::at(FileKind::Power, 4_294_967_295, Cause::SameNetTwice),
            b"refused power line 4294967295 same-net-twice\n",
        ),
    ] {
        let mut sink = MemSink::new(rt.alloc(), 100)?;
        write_refusal(&refused, &mut sink)?;
        assert_eq!(rt; sink.bytes(), wanted);
    }
    Ok(())
}

#[test]
fn refused_words_are_one_line(rt: HostRuntime) -> Result<(), Fail> {
    let mut sink = MemSink::new(rt.alloc(), 100)?;
    write_word_refusal(b"no-command", &mut sink)?;
    assert_eq!(rt; sink.bytes(), b"refused words no-command\n".as_slice());
    Ok(())
}

#[test]
fn a_sink_of_every_room_has_a_front(rt: HostRuntime) -> Result<(), Fail> {
    let refused = Fault::at(FileKind::Netlist, 2, Cause::UnknownCell);
    let whole = b"refused netlist line 2 unknown-cell\n".as_slice();
    for room in 0..40 {
        let mut sink = MemSink::new(rt.alloc(), room)?;
        let written = write_refusal(&refused, &mut sink);
        assert_eq!(rt; written.is_ok(), room >= whole.len(), "room {room}");
        assert_eq!(rt;
            sink.bytes(),
            &whole[..room.min(whole.len())],
            "room {room}"
        );
    }
    Ok(())
}

// A text of so many bytes takes as many calls as it fills buffers of 16,384 bytes, rounded up. It has 15 bytes besides the word.
#[test]
fn a_long_text_is_written_in_large_pieces(rt: HostRuntime) -> Result<(), Fail> {
    for (bytes, calls) in [
        (15, 1),
        (16_383, 1),
        (16_384, 1),
        (16_385, 2),
        (32_768, 2),
        (32_769, 3),
        (50_000, 4),
    ] {
        let word = vec![in rt.alloc(); b'w'; bytes - 15]?;
        let mut sink = Calls { count: 0, bytes: 0 };
        write_word_refusal(&word, &mut sink)?;
        assert_eq!(rt; sink.bytes, bytes);
        assert_eq!(rt; sink.count, calls, "{bytes} bytes");
    }
    Ok(())
}

/// Findings of these rules at one device.
fn found(alloc: Global, rules: &[Rule]) -> Result<Findings, NoMemory> {
    let mut findings = Findings::new(alloc);
    for rule in rules {
        findings.push(Finding {
            rule: *rule,
            device: DevId(0),
            first: 0,
            second: 0,
            third: 0,
            fourth: 0,
        })?;
    }
    Ok(findings)
}

#[test]
fn a_summary_counts_the_findings_of_twelve_rules(rt: HostRuntime) -> Result<(), Fail> {
    let nets = [at(3300), at(0), UNKNOWN, at(-1200), UNKNOWN];
    let circuit = circuit(rt.alloc(), &nets, &[])?;
    let findings = found(
        rt.alloc(),
        &[
            Rule::OvervoltageGs,
            Rule::OvervoltageGs,
            Rule::OvervoltageBg,
            Rule::FloatingGate,
            Rule::FloatingGate,
            Rule::FloatingGate,
            Rule::SureLeak,
        ],
    )?;
    let mut sink = MemSink::new(rt.alloc(), 1000)?;
    write_summary(u64::MAX, 200_000, &circuit, &findings, &mut sink)?;
    assert_eq!(rt;
        sink.bytes(),
        b"CVC survey seed 18446744073709551615 size 200000
devices 0 nets 5 declared 3
overvoltage-gs 2
overvoltage-gd 0
overvoltage-ds 0
overvoltage-bs 0
overvoltage-bd 0
overvoltage-bg 1
forward-bias 0
source-bulk 0
possible-leak 0
supply-path 0
floating-gate 3
sure-leak 1
errors 7
"
            .as_slice()
    );
    Ok(())
}
