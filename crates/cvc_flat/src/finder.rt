//! Nets and instances by the hashes of their printed names.
ghost use Rattle.std.specs.Prelude.{◌≡◌, ◌<◌, ◌≤◌, All, IfOk, length, map, slice_index_or};
ghost use Rattle.cvc_plan.specs.Parts.{text};
ghost use Rattle.cvc_flat.specs.Finder.{IsFinder, way_hash};
ghost use Rattle.cvc_flat.specs.Hashes.{hash_on};
ghost use Rattle.cvc_flat.specs.Tables.{IsTree, ways_of};

use crate::hashes::{EMPTY, Hashes, hash_on};
use crate::rows::InstanceRow;
use cvc_base::NoMemory;
use cvc_names::Names;
use cvc_plan::{InstancePart, NetRow};
use std::alloc::Global;

// What nets are looked up by: for the top and each instance the hash of what is printed in front of a name there, and for each net that of its
// printed name.
#[derive(Drop)]
pub(crate) struct Finder {
    pub instances: Hashes,
    pub nets: Hashes,
}

// The hash of what is printed in front of a name, at the top and in each instance.
fn way_hashes(
    alloc: Global,
    names: &Names,
    parts: &[InstancePart],
    instances: &[InstanceRow],
) -> Result<Vec<u32>, NoMemory>
    requires tree { IsTree instances.now }
    requires cards { All (λ r. r.card < length parts.now) instances.now }
    requires parts { All (λ p. p.name < length names.now) parts.now }
    ensures { IfOk result (λ hashes. hashes.items ≡ map (way_hash names.now parts.now) (ways_of instances.now)) }
{
    let mut hashes = Vec::with_capacity(alloc, instances.len() + 1)?;
    hashes.push(EMPTY)?;
    for row in instances {
        let part = &parts[row.card as usize];
        let own = hash_on(hashes[row.parent as usize], names.get(part.name as usize));
        hashes.push(hash_on(own, b"/"))?;
    }
    Ok(hashes)
}

// The hash of a net's printed name.
pub(crate) fn net_hash(names: &Names, ways: &Hashes, row: NetRow) -> u32
    requires inside { row.instance < length ways.now }
    requires name { row.name < length names.now }
    ensures { result ≡ hash_on (slice_index_or ways.now row.instance 0) (text names.now row.name) }
{
    hash_on(
        ways.get(row.instance as usize),
        names.get(row.name as usize),
    )
}

impl Finder {
    // What these nets are looked up by.
    pub(crate) fn of(
        alloc: Global,
        names: &Names,
        parts: &[InstancePart],
        instances: &[InstanceRow],
        nets: &[NetRow],
    ) -> Result<Finder, NoMemory>
        requires tree { IsTree instances.now }
        requires cards { All (λ r. r.card < length parts.now) instances.now }
        requires parts { All (λ p. p.name < length names.now) parts.now }
        requires nets { All (λ r. (r.instance ≤ length instances.now) × (r.name < length names.now)) nets.now }
        requires instance_limit { length instances.now ≤ 1000000 }
        requires net_limit { length nets.now ≤ 1000000 }
        ensures { IfOk result (IsFinder names.now parts.now instances.now nets.now) }
    {
        let ways = Hashes::of(alloc, way_hashes(alloc, names, parts, instances)?)?;
        let mut hashes = Vec::with_capacity(alloc, nets.len())?;
        for net in nets {
            hashes.push(net_hash(names, &ways, *net))?;
        }
        let nets = Hashes::of(alloc, hashes)?;
        Ok(Finder {
            instances: ways,
            nets,
        })
    }
}
