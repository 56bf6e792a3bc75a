//! Names printed by their parts.
ghost use Rattle.std.specs.Prelude.{◌≡◌, ◌<◌, ◌≤◌, ◌++◌, All, codes, length};
ghost use Rattle.cvc_io.specs.Causes.{HasCause};
ghost use Rattle.cvc_cdl.specs.Instances.{printed};
ghost use Rattle.cvc_plan.specs.Parts.{text};
ghost use Rattle.cvc_io.specs.Bytes.{WritesText};
ghost use Rattle.cvc_flat.specs.Tables.{IsTree, names_on, way_at, ways_of};

use crate::rows::InstanceRow;
use arrayvec::ArrayVec;
use cvc_io::{Sink, WriteFailed};
use cvc_names::Names;
use cvc_plan::InstancePart;

// Writes the whole text, as far as the sink takes it.
pub(crate) fn write_all<K: Sink>(sink: &mut K, text: &[u8]) -> Result<(), WriteFailed>
    ensures cause { HasCause (K.faults sink.old) (K.faults sink.new) result }
    ensures written { WritesText (K.written sink.old) (K.written sink.new) result text.now }
{
    let mut done = 0;
    while done < text.len() {
        done += sink.write(&text[done..])?;
    }
    Ok(())
}

// The cards on the way to an instance, its own first.
pub(crate) fn way_up(instances: &[InstanceRow], instance: u32) -> ArrayVec<u32, 64>
    requires tree { IsTree instances.now }
    requires inside { instance ≤ length instances.now }
    ensures { result.items ≡ way_at (ways_of instances.now) instance }
{
    let mut way = ArrayVec::new();
    let mut at = instance;
    while at > 0 {
        let row = instances[at as usize - 1];
        way.push(row.card);
        at = row.parent;
    }
    way
}

// Writes a name and a `/`.
#[tactic(auto, using(crate::proofs::Writing::front_part, crate::proofs::Writing::writes_last))]
fn write_step<K: Sink>(sink: &mut K, name: &[u8]) -> Result<(), WriteFailed>
    ensures cause { HasCause (K.faults sink.old) (K.faults sink.new) result }
    ensures written { WritesText (K.written sink.old) (K.written sink.new) result (name.now ++ codes "/") }
{
    write_all(sink, name)?;
    write_all(sink, b"/")
}

// Writes a name behind the names on the way to its instance, with `/` between.
pub(crate) fn write_path<K: Sink>(
    names: &Names,
    parts: &[InstancePart],
    instances: &[InstanceRow],
    instance: u32,
    name: u32,
    sink: &mut K,
) -> Result<(), WriteFailed>
    requires tree { IsTree instances.now }
    requires cards { All (λ r. r.card < length parts.now) instances.now }
    requires parts { All (λ p. p.name < length names.now) parts.now }
    requires inside { instance ≤ length instances.now }
    requires name { name < length names.now }
    ensures cause { HasCause (K.faults sink.old) (K.faults sink.new) result }
    ensures written { WritesText (K.written sink.old) (K.written sink.new) result
        (printed (names_on names.now parts.now (way_at (ways_of instances.now) instance)) (text names.now name)) }
{
    let mut way = way_up(instances, instance);
    while let Some(card) = way.pop() {
        let part = &parts[card as usize];
        write_step(sink, names.get(part.name as usize))?;
    }
    write_all(sink, names.get(name as usize))
}
