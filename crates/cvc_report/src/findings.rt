//! The lines of findings.
ghost use Rattle.std.specs.Prelude.{◌≡◌, ◌<◌, ◌∷◌, length, map, All, slice_get};
ghost use Rattle.std.specs.List.{flat_map};
ghost use Rattle.cvc_law.specs.Network.{nets, devices};
ghost use Rattle.cvc_law.specs.Bound.{IsBound};
ghost use Rattle.cvc_text.specs.Putting.{Puts, stand};
ghost use Rattle.cvc_text.specs.Lines.{line};
ghost use Rattle.cvc_report.specs.Printed.{rule_word};
ghost use Rattle.cvc_report.specs.Report.{details, details_with, finding_line, gate_of};

use crate::printed::word_for_rule;
use cvc_base::{DevId, Finding, NetId, Rule};
use cvc_flat::{Flat, Pieces};
use cvc_io::{Sink, WriteFailed};
use cvc_law::Circuit;
use cvc_text::{TextBuffer, Word};

// The net at the second pin of a device, which is the gate of a MOS.
fn gate_at(circuit: &Circuit, d: DevId) -> NetId
    requires { d.0 < devices circuit.now }
    ensures gate { result.0 ≡ gate_of (slice_get circuit.now.devices d.0) }
    ensures net { result.0 < nets circuit.now }
{
    circuit.device(d).pins.as_slice()[1]
}

// The line of a finding, with the names of its device and of the net at its gate, which are given in pieces.
fn put_named<'a, K: Sink>(
    finding: &Finding,
    device: &'a [&'a [u8]],
    model: &'a [u8],
    gate: &'a [&'a [u8]],
    text: &mut TextBuffer,
    sink: &mut K,
) -> Result<(), WriteFailed>
    ensures { Puts result (stand (K.written sink.old) text.old (K.faults sink.old)) (stand (K.written sink.new) text.new (K.faults sink.new))
        (line (rule_word finding.now.rule ∷ flat_map (λ w. w.now) device.now ∷ model.now
        ∷ details_with (flat_map (λ w. w.now) gate.now) finding.now finding.now.rule)) }
{
    let rule = Word::Text(word_for_rule(finding.rule));
    let device = Word::Name(device);
    let model = Word::Text(model);
    let first = Word::Signed(finding.first);
    let second = Word::Signed(finding.second);
    let third = Word::Signed(finding.third);
    let fourth = Word::Signed(finding.fourth);
    match finding.rule {
        Rule::PossibleLeak | Rule::SureLeak => {
            let (gate, channel) = (Word::Text(b"gate"), Word::Text(b"channel"));
            let words = [
                rule, device, model, gate, first, second, channel, third, fourth,
            ];
            text.put_line(&words, sink)
        }
        Rule::SupplyPath => {
            let ends = Word::Text(b"ends");
            text.put_line(
                &[rule, device, model, ends, first, second, third, fourth],
                sink,
            )
        }
        Rule::FloatingGate => {
            let net = Word::Text(b"net");
            text.put_line(&[rule, device, model, net, Word::Name(gate)], sink)
        }
        _ => {
            let (limit, found) = (Word::Text(b"limit"), Word::Text(b"found"));
            text.put_line(&[rule, device, model, limit, first, found, second], sink)
        }
    }
}

// The name of the net at the gate of a finding's device, where the line of its rule has it.
fn gate_pieces<'f>(circuit: &Circuit, flat: &'f Flat, finding: &Finding, gate: &mut Pieces<'f>)
    requires listed { nets circuit.now ≡ length flat.now.list.nets }
    requires device { finding.now.device.0 < devices circuit.now }
    ensures { details_with (flat_map (λ w. w.now) gate.new.items) finding.now finding.now.rule
        ≡ details circuit.now flat.now.list finding.now finding.now.rule }
{
    match finding.rule {
        Rule::FloatingGate => flat.net_pieces(gate_at(circuit, finding.device), gate),
        _ => {}
    }
}

// The line of a finding.
fn put_finding<'f, K: Sink>(
    circuit: &Circuit,
    flat: &'f Flat,
    finding: &Finding,
    pieces: &mut Pieces<'f>,
    gate: &mut Pieces<'f>,
    text: &mut TextBuffer,
    sink: &mut K,
) -> Result<(), WriteFailed>
    requires bound { IsBound (length flat.now.list.nets) (map (λ d. d.pins) flat.now.list.devices) circuit.now }
    requires device { finding.now.device.0 < devices circuit.now }
    ensures { Puts result (stand (K.written sink.old) text.old (K.faults sink.old)) (stand (K.written sink.new) text.new (K.faults sink.new))
        (finding_line circuit.now flat.now.list finding.now) }
{
    flat.device_pieces(finding.device, pieces);
    gate_pieces(circuit, flat, finding, gate);
    put_named(
        finding,
        pieces.as_slice(),
        flat.model(finding.device),
        gate.as_slice(),
        text,
        sink,
    )
}

/// The lines of these findings.
pub(crate) fn put_findings<K: Sink>(
    circuit: &Circuit,
    flat: &Flat,
    findings: &[Finding],
    text: &mut TextBuffer,
    sink: &mut K,
) -> Result<(), WriteFailed>
    requires bound { IsBound (length flat.now.list.nets) (map (λ d. d.pins) flat.now.list.devices) circuit.now }
    requires devices { All (λ x. x.device.0 < devices circuit.now) findings.now }
    ensures { Puts result (stand (K.written sink.old) text.old (K.faults sink.old)) (stand (K.written sink.new) text.new (K.faults sink.new))
        (flat_map (finding_line circuit.now flat.now.list) findings.now) }
{
    let (mut pieces, mut gate) = (Pieces::new(), Pieces::new());
    for finding in findings {
        put_finding(circuit, flat, finding, &mut pieces, &mut gate, text, sink)?;
    }
    Ok(())
}
