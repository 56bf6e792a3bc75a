//! The text of a report.
ghost use Rattle.std.specs.Prelude.{◌≡◌, ◌<◌, All, length, map};
ghost use Rattle.cvc_io.specs.Causes.{HasCause};
ghost use Rattle.cvc_law.specs.Network.{nets, devices};
ghost use Rattle.cvc_law.specs.Bound.{IsBound};
ghost use Rattle.cvc_law.specs.Rules.{findings_of};
ghost use Rattle.cvc_text.specs.Putting.{Puts, stand};
ghost use Rattle.cvc_io.specs.Bytes.{WritesText};
ghost use Rattle.cvc_report.specs.Report.{top_word, top_line, report_with, report};

use crate::counts::count_declared;
use crate::findings::put_findings;
use crate::nets::put_nets;
use crate::summary::put_errors;
use cvc_base::{Finding, Findings};
use cvc_flat::Flat;
use cvc_io::{Sink, WriteFailed};
use cvc_law::{Circuit, Family};
use cvc_text::{TextBuffer, Word};

// The name of the top, or the sign of the main level.
fn word_for_top(flat: &Flat) -> &[u8]
    ensures { result.now ≡ top_word flat.now.list.top }
{
    match flat.top_name() {
        Some(name) => name,
        None => b"-",
    }
}

// The line of the top and the sizes.
fn put_top<K: Sink>(
    circuit: &Circuit,
    flat: &Flat,
    text: &mut TextBuffer,
    sink: &mut K,
) -> Result<(), WriteFailed>
    ensures { Puts result (stand (K.written sink.old) text.old (K.faults sink.old)) (stand (K.written sink.new) text.new (K.faults sink.new))
        (top_line circuit.now flat.now.list) }
{
    let words = [
        Word::Text(b"top"),
        Word::Text(word_for_top(flat)),
        Word::Text(b"devices"),
        Word::Number(u64::from(circuit.devices())),
        Word::Text(b"nets"),
        Word::Number(u64::from(circuit.nets())),
        Word::Text(b"declared"),
        Word::Number(u64::from(count_declared(circuit))),
    ];
    text.put_line(&words, sink)
}

// All lines.
fn put_report<K: Sink>(
    circuit: &Circuit,
    flat: &Flat,
    family: &Family,
    findings: &[Finding],
    with_nets: bool,
    text: &mut TextBuffer,
    sink: &mut K,
) -> Result<(), WriteFailed>
    requires bound { IsBound (length flat.now.list.nets) (map (λ d. d.pins) flat.now.list.devices) circuit.now }
    requires family { length family.now ≡ nets circuit.now }
    requires devices { All (λ x. x.device.0 < devices circuit.now) findings.now }
    ensures { Puts result (stand (K.written sink.old) text.old (K.faults sink.old)) (stand (K.written sink.new) text.new (K.faults sink.new))
        (report_with circuit.now flat.now.list family.now with_nets findings.now) }
{
    text.put_line(&[Word::Text(b"CVC report")], sink)?;
    put_top(circuit, flat, text, sink)?;
    put_nets(circuit, flat, family, with_nets, text, sink)?;
    put_findings(circuit, flat, findings, text, sink)?;
    put_errors(findings, text, sink)
}

/// Writes the report of a circuit under a family: its sizes, with `with_nets` a line for each net, a line for each finding, and how many findings there are.
/// The circuit is bound from the flat list, the family has an interval for each net, and the findings are all of them, by rule and then by device.
/// It takes no memory, and time linear in the text. A failed write leaves a prefix of the text in the sink, and comes only where the sink's count of
/// faults rose.
pub fn write_report<K: Sink>(
    circuit: &Circuit,
    flat: &Flat,
    family: &Family,
    findings: &Findings,
    with_nets: bool,
    sink: &mut K,
) -> Result<(), WriteFailed>
    requires bound { IsBound (length flat.now.list.nets) (map (λ d. d.pins) flat.now.list.devices) circuit.now }
    requires family { length family.now ≡ nets circuit.now }
    requires found { findings.now ≡ findings_of circuit.now family.now }
    ensures written { WritesText (K.written sink.old) (K.written sink.new) result (report circuit.now flat.now.list family.now with_nets) }
    ensures cause { HasCause (K.faults sink.old) (K.faults sink.new) result }
{
    let mut text = TextBuffer::new();
    put_report(
        circuit,
        flat,
        family,
        findings.as_slice(),
        with_nets,
        &mut text,
        sink,
    )?;
    text.flush(sink)
}
