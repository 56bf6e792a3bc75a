//! Nets by their printed names.
ghost use Rattle.std.specs.Prelude.{◌≡◌, ◌+◌, ◌<◌, ◌≤◌, ◌^◌, [], All, IfSome, drop, length, map, position, take, true};
ghost use Rattle.std.specs.Option.{option_and_then};
ghost use Rattle.std.specs.Str.{bytes_eq};
ghost use Rattle.cvc_flat.specs.FindNet.{is_slash, net_named, number_among, number_printed, pieces, printed_net};
ghost use Rattle.cvc_flat.specs.Finder.{IsFinder, way_hash};
ghost use Rattle.cvc_flat.specs.Flat.{FlatList};
ghost use Rattle.cvc_flat.specs.Resolving.{AreNames, ChildOf, IsChild};
ghost use Rattle.cvc_flat.specs.Tables.{AreWaysApart, IsTree, net_at, path_of, ways_of};

use crate::finder::{Finder, net_hash};
use crate::hashes::{EMPTY, Hashes, hash_on};
use crate::resolve::net_row;
use crate::rows::InstanceRow;
use cvc_names::Names;
use cvc_plan::{InstancePart, NetRow};

// Whether a net is printed so.
fn is_printed(
    names: &Names,
    parts: &[InstancePart],
    instances: &[InstanceRow],
    row: NetRow,
    text: &[u8],
) -> bool
    requires tree { IsTree instances.now }
    requires cards { All (λ r. r.card < length parts.now) instances.now }
    requires parts { All (λ p. p.name < length names.now) parts.now }
    requires inside { row.instance ≤ length instances.now }
    requires name { row.name < length names.now }
    ensures { result ≡ bytes_eq text.now (printed_net (net_at names.now parts.now (ways_of instances.now) row)) }
{
    let Some(front) = text.strip_suffix(names.get(row.name as usize)) else {
        return false;
    };
    let mut rest = front;
    let mut at = row.instance;
    while at > 0 {
        let above = instances[at as usize - 1];
        let part = &parts[above.card as usize];
        let Some(front) = rest.strip_suffix(b"/") else {
            return false;
        };
        let Some(front) = front.strip_suffix(names.get(part.name as usize)) else {
            return false;
        };
        rest = front;
        at = above.parent;
    }
    rest.is_empty()
}

// The first net that is printed so.
pub(crate) fn first_printed(
    names: &Names,
    parts: &[InstancePart],
    instances: &[InstanceRow],
    nets: &[NetRow],
    finder: &Finder,
    text: &[u8],
) -> Option<usize>
    requires tree { IsTree instances.now }
    requires cards { All (λ r. r.card < length parts.now) instances.now }
    requires parts { All (λ p. p.name < length names.now) parts.now }
    requires nets { All (λ r. (r.instance ≤ length instances.now) × (r.name < length names.now)) nets.now }
    requires finder { IsFinder names.now parts.now instances.now nets.now finder.now }
    ensures inside { IfSome result (λ k. k < length nets.now) }
    ensures place { result ≡ number_printed (map (net_at names.now parts.now (ways_of instances.now)) nets.now) text.now }
{
    let hash = hash_on(EMPTY, text);
    finder.nets.find(hash, |place| {
        is_printed(names, parts, instances, nets[place], text)
    })
}

// Whether an instance has this parent and this name. The top is instance 0.
fn is_child(
    names: &Names,
    parts: &[InstancePart],
    instances: &[InstanceRow],
    up: u32,
    name: &[u8],
    instance: usize,
) -> bool
    requires cards { All (λ r. r.card < length parts.now) instances.now }
    requires parts { All (λ p. p.name < length names.now) parts.now }
    requires inside { instance ≤ length instances.now }
    ensures yes { result ≡ true → IsChild names.now parts.now instances.now up name.now instance }
    ensures no { IsChild names.now parts.now instances.now up name.now instance → result ≡ true }
{
    if instance == 0 {
        return false;
    }
    let row = instances[instance - 1];
    let part = &parts[row.card as usize];
    row.parent == up && names.get(part.name as usize) == name
}

// The instance of a name in an instance.
fn child_of(
    names: &Names,
    parts: &[InstancePart],
    instances: &[InstanceRow],
    hashes: &Hashes,
    up: u32,
    name: &[u8],
) -> Option<u32>
    requires tree { IsTree instances.now }
    requires cards { All (λ r. r.card < length parts.now) instances.now }
    requires parts { All (λ p. p.name < length names.now) parts.now }
    requires limit { length instances.now ≤ 1000000 }
    requires hashes { hashes.now ≡ map (way_hash names.now parts.now) (ways_of instances.now) }
    requires inside { up ≤ length instances.now }
    ensures { ChildOf names.now parts.now instances.now up name.now result }
{
    let own = hash_on(hashes.get(up as usize), name);
    let hash = hash_on(own, b"/");
    let child = hashes.find(hash, |instance| {
        is_child(names, parts, instances, up, name, instance)
    })?;
    Some(child as u32)
}

// Where the first `/` stands.
fn first_slash(text: &[u8]) -> Option<usize>
    ensures inside { IfSome result (λ k. k < length text.now) }
    ensures room { IfSome result (λ k. k + 1 < 2 ^ 64) }
    ensures place { result ≡ position is_slash text.now }
{
    text.iter().position(|byte| *byte == b'/')
}

// The net that the pieces of a text name: instances from the top on, and a name there.
pub(crate) fn first_named(
    globals: usize,
    names: &Names,
    parts: &[InstancePart],
    instances: &[InstanceRow],
    nets: &[NetRow],
    finder: &Finder,
    text: &[u8],
) -> Option<usize>
    requires tree { IsTree instances.now }
    requires cards { All (λ r. r.card < length parts.now) instances.now }
    requires names { AreNames names.now globals parts.now }
    requires ways { AreWaysApart names.now parts.now instances.now }
    requires nets { All (λ r. (r.instance ≤ length instances.now) × (r.name < length names.now)) nets.now }
    requires limit { length instances.now ≤ 1000000 }
    requires name_limit { length names.now < 2 ^ 32 }
    requires finder { IsFinder names.now parts.now instances.now nets.now finder.now }
    ensures inside { IfSome result (λ k. k < length nets.now) }
    ensures place { (f : FlatList) → f.globals ≡ take globals names.now
        → f.instances ≡ map (path_of names.now parts.now) (drop 1 (ways_of instances.now))
        → result ≡ option_and_then (number_among (map (net_at names.now parts.now (ways_of instances.now)) nets.now))
        (net_named f [] (pieces text.now)) }
{
    let mut up = 0;
    let mut rest = text;
    while let Some(place) = first_slash(rest) {
        up = child_of(
            names,
            parts,
            instances,
            &finder.instances,
            up,
            &rest[..place],
        )?;
        rest = &rest[place + 1..];
    }
    let name = names.find(rest)?;
    let row = net_row(globals, parts, instances, up, name as u32);
    let hash = net_hash(names, &finder.instances, row);
    finder.nets.find(hash, |place| row == nets[place])
}
