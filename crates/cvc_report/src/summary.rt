//! The text of a survey.
ghost use Rattle.std.specs.Prelude.{◌≡◌};
ghost use Rattle.std.specs.List.{flat_map};
ghost use Rattle.cvc_io.specs.Causes.{HasCause};
ghost use Rattle.cvc_text.specs.Putting.{Puts, stand};
ghost use Rattle.cvc_io.specs.Bytes.{WritesText};
ghost use Rattle.cvc_text.specs.Lines.{line};
ghost use Rattle.cvc_report.specs.Counts.{size_words, count_line, errors_line};
ghost use Rattle.cvc_report.specs.Summary.{survey_line, summary};

use crate::counts::{count_declared, count_of_rule};
use crate::printed::word_for_rule;
use cvc_base::{Finding, Findings, Rule};
use cvc_io::{Sink, WriteFailed};
use cvc_law::Circuit;
use cvc_text::{TextBuffer, Word};

/// All rules, in the order of the report.
const RULES: [Rule; 12] = [
    Rule::OvervoltageGs,
    Rule::OvervoltageGd,
    Rule::OvervoltageDs,
    Rule::OvervoltageBs,
    Rule::OvervoltageBd,
    Rule::OvervoltageBg,
    Rule::ForwardBias,
    Rule::SourceBulk,
    Rule::PossibleLeak,
    Rule::SupplyPath,
    Rule::FloatingGate,
    Rule::SureLeak,
];

// The seed and the size of the circuit.
fn put_survey<K: Sink>(
    seed: u64,
    size: u32,
    text: &mut TextBuffer,
    sink: &mut K,
) -> Result<(), WriteFailed>
    ensures { Puts result (stand (K.written sink.old) text.old (K.faults sink.old)) (stand (K.written sink.new) text.new (K.faults sink.new))
        (survey_line seed size) }
{
    let words = [
        Word::Text(b"CVC"),
        Word::Text(b"survey"),
        Word::Text(b"seed"),
        Word::Number(seed),
        Word::Text(b"size"),
        Word::Number(u64::from(size)),
    ];
    text.put_line(&words, sink)
}

fn put_sizes<K: Sink>(
    circuit: &Circuit,
    text: &mut TextBuffer,
    sink: &mut K,
) -> Result<(), WriteFailed>
    ensures { Puts result (stand (K.written sink.old) text.old (K.faults sink.old)) (stand (K.written sink.new) text.new (K.faults sink.new))
        (line (size_words circuit.now)) }
{
    let words = [
        Word::Text(b"devices"),
        Word::Number(u64::from(circuit.devices())),
        Word::Text(b"nets"),
        Word::Number(u64::from(circuit.nets())),
        Word::Text(b"declared"),
        Word::Number(u64::from(count_declared(circuit))),
    ];
    text.put_line(&words, sink)
}

// The number of a rule's findings.
fn put_count<K: Sink>(
    findings: &[Finding],
    rule: Rule,
    text: &mut TextBuffer,
    sink: &mut K,
) -> Result<(), WriteFailed>
    ensures { Puts result (stand (K.written sink.old) text.old (K.faults sink.old)) (stand (K.written sink.new) text.new (K.faults sink.new))
        (count_line findings.now rule) }
{
    let count = count_of_rule(findings, rule) as u64;
    text.put_line(
        &[Word::Text(word_for_rule(rule)), Word::Number(count)],
        sink,
    )
}

// The numbers of these rules' findings.
fn put_counts<K: Sink>(
    findings: &[Finding],
    rules: &[Rule],
    text: &mut TextBuffer,
    sink: &mut K,
) -> Result<(), WriteFailed>
    ensures { Puts result (stand (K.written sink.old) text.old (K.faults sink.old)) (stand (K.written sink.new) text.new (K.faults sink.new))
        (flat_map (count_line findings.now) rules.now) }
{
    for rule in rules {
        put_count(findings, *rule, text, sink)?;
    }
    Ok(())
}

/// The last line of a text: the number of all findings.
pub(crate) fn put_errors<K: Sink>(
    findings: &[Finding],
    text: &mut TextBuffer,
    sink: &mut K,
) -> Result<(), WriteFailed>
    ensures { Puts result (stand (K.written sink.old) text.old (K.faults sink.old)) (stand (K.written sink.new) text.new (K.faults sink.new))
        (errors_line findings.now) }
{
    text.put_line(
        &[Word::Text(b"errors"), Word::Number(findings.len() as u64)],
        sink,
    )
}

fn put_summary<K: Sink>(
    seed: u64,
    size: u32,
    circuit: &Circuit,
    findings: &[Finding],
    text: &mut TextBuffer,
    sink: &mut K,
) -> Result<(), WriteFailed>
    ensures { Puts result (stand (K.written sink.old) text.old (K.faults sink.old)) (stand (K.written sink.new) text.new (K.faults sink.new))
        (summary seed size circuit.now findings.now) }
{
    put_survey(seed, size, text, sink)?;
    put_sizes(circuit, text, sink)?;
    put_counts(findings, &RULES, text, sink)?;
    put_errors(findings, text, sink)
}

/// Writes the summary of a generated circuit: its seed and size, the numbers of its devices, nets and declared nets, for each rule how many findings
/// it has, and how many there are. A failed write leaves a prefix of it in the sink, and comes only where the sink's count of faults rose.
#[tactic(auto, using(cvc_text::proofs::Putting::put_flushed))]
pub fn write_summary<K: Sink>(
    seed: u64,
    size: u32,
    circuit: &Circuit,
    findings: &Findings,
    sink: &mut K,
) -> Result<(), WriteFailed>
    ensures written { WritesText (K.written sink.old) (K.written sink.new) result (summary seed size circuit.now findings.now) }
    ensures cause { HasCause (K.faults sink.old) (K.faults sink.new) result }
{
    let mut text = TextBuffer::new();
    put_summary(seed, size, circuit, findings.as_slice(), &mut text, sink)?;
    text.flush(sink)
}
