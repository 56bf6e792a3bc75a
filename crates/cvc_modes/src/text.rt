//! The text of modes.
ghost use Rattle.std.specs.Prelude.{◌≡◌, ◌≤◌, ◌<◌, ◌^◌, [], All, false, length, map, zip};
ghost use Rattle.std.specs.List.{flat_map};
ghost use Rattle.cvc_io.specs.Bytes.{WritesText};
ghost use Rattle.cvc_io.specs.Causes.{HasCause};
ghost use Rattle.cvc_report.specs.Report.{report};
ghost use Rattle.cvc_text.specs.Lines.{line};
ghost use Rattle.cvc_text.specs.Printed.{word_text};
ghost use Rattle.cvc_text.specs.Putting.{Puts, stand};
ghost use Rattle.cvc_modes.specs.Checked.{HasAllFindings, IsOfFlat};
ghost use Rattle.cvc_modes.specs.Text.{mode_text, modes_text, total};

use crate::{ModeList, ModeResult, ModeResults, ModeRow};
use cvc_flat::Flat;
use cvc_io::{Sink, WriteFailed};
use cvc_report::write_report;
use cvc_text::{Word, write_line};

// How many findings a mode has: at most one of each rule at each device.
fn count_findings(mode: &ModeResult) -> u64
    requires { HasAllFindings mode.now }
    ensures count { result ≡ length mode.now.findings }
    ensures few { result ≤ 6000000 }
{
    let count = mode.findings.len() as u64;
    prove!(count <= 12 * u64::from(mode.circuit.devices()));
    count
}

// How many findings all modes have.
fn count_all(modes: &[ModeResult]) -> u64
    requires few { length modes.now < 2 ^ 32 }
    requires found { All HasAllFindings modes.now }
    ensures { result ≡ total modes.now }
{
    let mut count = 0;
    for mode in modes {
        count += count_findings(mode);
    }
    count
}

// Writes a line. Nothing waits before or after it, here and below.
#[tactic(auto, using(cvc_text::proofs::Putting::written_put))]
fn put_line<K: Sink>(words: &[Word], sink: &mut K) -> Result<(), WriteFailed>
    ensures { Puts result (stand (K.written sink.old) [] (K.faults sink.old)) (stand (K.written sink.new) [] (K.faults sink.new))
        (line (map word_text words.now)) }
{
    write_line(words, sink)
}

// Writes the report of a mode, without lines of nets.
#[tactic(auto, using(cvc_text::proofs::Putting::written_put))]
fn put_report<K: Sink>(flat: &Flat, mode: &ModeResult, sink: &mut K) -> Result<(), WriteFailed>
    requires { IsOfFlat flat.now.list mode.now }
    ensures { Puts result (stand (K.written sink.old) [] (K.faults sink.old)) (stand (K.written sink.new) [] (K.faults sink.new))
        (report mode.now.circuit flat.now.list mode.now.family false) }
{
    write_report(
        &mode.circuit,
        flat,
        &mode.family,
        &mode.findings,
        false,
        sink,
    )
}

// Writes the name of a mode and its report.
fn put_mode<K: Sink>(
    row: &ModeRow,
    flat: &Flat,
    mode: &ModeResult,
    sink: &mut K,
) -> Result<(), WriteFailed>
    requires { IsOfFlat flat.now.list mode.now }
    ensures { Puts result (stand (K.written sink.old) [] (K.faults sink.old)) (stand (K.written sink.new) [] (K.faults sink.new))
        (mode_text flat.now.list (row.now, mode.now)) }
{
    put_line(&[Word::Text(b"mode"), Word::Text(row.name.bytes())], sink)?;
    put_report(flat, mode, sink)
}

// Writes the names and the reports of these modes, one behind another.
fn put_each<K: Sink>(
    rows: &[ModeRow],
    flat: &Flat,
    modes: &[ModeResult],
    sink: &mut K,
) -> Result<(), WriteFailed>
    requires as_many { length modes.now ≡ length rows.now }
    requires of_flat { All (IsOfFlat flat.now.list) modes.now }
    ensures { Puts result (stand (K.written sink.old) [] (K.faults sink.old)) (stand (K.written sink.new) [] (K.faults sink.new))
        (flat_map (mode_text flat.now.list) (zip rows.now modes.now)) }
{
    for (place, row) in rows.iter().enumerate() {
        put_mode(row, flat, &modes[place], sink)?;
    }
    Ok(())
}

// Writes the whole text.
fn put_modes<K: Sink>(
    rows: &[ModeRow],
    flat: &Flat,
    modes: &[ModeResult],
    sink: &mut K,
) -> Result<(), WriteFailed>
    requires few { length modes.now < 2 ^ 32 }
    requires as_many { length modes.now ≡ length rows.now }
    requires of_flat { All (IsOfFlat flat.now.list) modes.now }
    ensures { Puts result (stand (K.written sink.old) [] (K.faults sink.old)) (stand (K.written sink.new) [] (K.faults sink.new))
        (modes_text flat.now.list rows.now modes.now) }
{
    let count = Word::Number(rows.len() as u64);
    put_line(&[Word::Text(b"CVC"), Word::Text(b"modes"), count], sink)?;
    put_each(rows, flat, modes, sink)?;
    let total = Word::Number(count_all(modes));
    put_line(&[Word::Text(b"total"), total], sink)
}

/// Writes what is found in all modes: `CVC modes` with their number, for each mode in the order of the list `mode` with its name and its report without
/// lines of nets, and `total` with the number of all findings. There are as many results as rows; each circuit is bound from the flat list, each family
/// is one of its circuit, and the findings are all there are. It takes no memory, and time linear in the text. A failed write leaves a prefix of the
/// text in the sink, and comes only where the sink's count of faults rose.
#[tactic(auto, using(crate::proofs::Writing::written_of))]
pub fn write_modes<K: Sink>(
    list: &ModeList,
    flat: &Flat,
    results: &ModeResults,
    sink: &mut K,
) -> Result<(), WriteFailed>
    requires few { length results.now < 2 ^ 32 }
    requires as_many { length results.now ≡ length list.now }
    requires of_flat { All (IsOfFlat flat.now.list) results.now }
    ensures written { WritesText (K.written sink.old) (K.written sink.new) result (modes_text flat.now.list list.now results.now) }
    ensures cause { HasCause (K.faults sink.old) (K.faults sink.new) result }
{
    put_modes(list.as_slice(), flat, results.as_slice(), sink)
}
