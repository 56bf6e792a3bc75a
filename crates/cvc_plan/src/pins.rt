//! Names of cells, each found once for all instances of its cell.
ghost use Rattle.std.specs.Prelude.{◌≡◌, ◌≤◌, IfOk, None, false, find, length, map, take};
ghost use Rattle.std.specs.Option.{option_map};
ghost use Rattle.cvc_card.specs.Card.{has_twice};
ghost use Rattle.cvc_card.specs.Formed.{ConnectsOnce};
ghost use Rattle.cvc_cdl.specs.Ending.{ports_cause};
ghost use Rattle.cvc_plan.specs.Names.{Grows};
ghost use Rattle.cvc_plan.specs.Nets.{connections_of, paired};
ghost use Rattle.cvc_plan.specs.Pins.{ArePins, ArePortPlans, IsPin, IsPortPlan, name_of_pair, net_given};

use crate::names::{narrow, number};
use arrayvec::ArrayVec;
use cvc_base::{NoMemory, Pair, Text};
use cvc_card::Ports;
use cvc_names::Names;
use std::alloc::Global;

/// How an instance finds the net of a name of its cell: a global by the number of its name, the net of a port by the port's place among the cell's
/// ports, or a net of the instance itself by the number of its name.
#[derive(Clone, Copy, Debug)]
pub enum Pin {
    Global(u32),
    Port(u32),
    Own(u32),
}

// What an unused place of an array holds.
impl Default for Pin {
    fn default() -> Pin {
        Pin::Global(0)
    }
}

/// How an instance finds the net of a port of its cell: by a pin of the cell that it stands in, or, where its card leaves the port out, as a net of
/// its own by the number of the port's name.
#[derive(Clone, Copy, Debug)]
pub enum PortPlan {
    Joined(Pin),
    LeftOut(u32),
}

// The names of a cell's ports, by their places.
pub(crate) fn port_names(alloc: Global, ports: &[Text]) -> Result<Names, NoMemory>
    requires { has_twice ports.now ≡ false }
    ensures { IfOk result (λ names. names ≡ ports.now) }
{
    let mut names = Names::new(alloc);
    for port in ports {
        names.number(port.bytes())?;
    }
    Ok(names)
}

// The pin of a name in a cell of these ports. Names below `globals` are global.
fn pin_of(names: &mut Names, globals: usize, ports: &Names, name: &[u8]) -> Result<Pin, NoMemory>
    requires { globals ≤ length names.old }
    ensures grows { IfOk result (λ pin. Grows names.old names.new) }
    ensures pin { IfOk result (IsPin names.new (take globals names.old) ports.now name.now) }
{
    let own = number(names, name)?;
    if (own as usize) < globals {
        return Ok(Pin::Global(own));
    }
    match ports.find(name) {
        Some(place) => Ok(Pin::Port(narrow(place)?)),
        None => Ok(Pin::Own(own)),
    }
}

// The pins of a device of these nets.
pub(crate) fn device_pins(
    names: &mut Names,
    globals: usize,
    ports: &Names,
    nets: &[Text],
) -> Result<ArrayVec<Pin, 4>, NoMemory>
    requires few { length nets.now ≤ 4 }
    requires below { globals ≤ length names.old }
    ensures grows { IfOk result (λ pins. Grows names.old names.new) }
    ensures pins { IfOk result (λ pins. ArePins names.new (take globals names.old) ports.now nets.now pins.items) }
{
    let mut pins = ArrayVec::new();
    for net in nets {
        pins.push(pin_of(names, globals, ports, net.bytes())?);
    }
    Ok(pins)
}

// The plan of a port of a cell that is used in a cell of these ports, where it is connected to this net or left out.
fn port_plan(
    names: &mut Names,
    globals: usize,
    ports: &Names,
    port: &[u8],
    net: Option<&[u8]>,
) -> Result<PortPlan, NoMemory>
    requires { globals ≤ length names.old }
    ensures grows { IfOk result (λ plan. Grows names.old names.new) }
    ensures plan { IfOk result (IsPortPlan names.new (take globals names.old) ports.now (option_map (λ text. text.now) net.entry) port.now) }
{
    let name = number(names, port)?;
    if (name as usize) < globals {
        return Ok(PortPlan::Joined(Pin::Global(name)));
    }
    match net {
        Some(net) => Ok(PortPlan::Joined(pin_of(names, globals, ports, net)?)),
        None => Ok(PortPlan::LeftOut(name)),
    }
}

// The plans of ports that are connected to nets by order.
fn plans_by_order(
    alloc: Global,
    names: &mut Names,
    globals: usize,
    ports: &Names,
    used: &[Text],
    nets: &[Text],
) -> Result<Vec<PortPlan>, NoMemory>
    requires below { globals ≤ length names.old }
    requires once { has_twice used.now ≡ false }
    requires fits { length nets.now ≡ length used.now }
    ensures grows { IfOk result (λ plans. Grows names.old names.new) }
    ensures plans { IfOk result (λ plans. ArePortPlans names.new (take globals names.old) ports.now (paired used.now nets.now) used.now plans.items) }
{
    let mut plans = Vec::new(alloc);
    for (place, port) in used.iter().enumerate() {
        let net = Some(nets[place].bytes());
        plans.push(port_plan(names, globals, ports, port.bytes(), net)?)?;
    }
    Ok(plans)
}

// The names of pairs, by their places.
fn pair_names(alloc: Global, pairs: &[Pair]) -> Result<Names, NoMemory>
    requires { has_twice (map name_of_pair pairs.now) ≡ false }
    ensures { IfOk result (λ names. names ≡ map name_of_pair pairs.now) }
{
    let mut names = Names::new(alloc);
    for pair in pairs {
        names.number(pair.name.bytes())?;
    }
    Ok(names)
}

// The net that a port is connected to by pairs whose names have these places.
fn net_among<'p>(given: &Names, pairs: &'p [Pair], port: &[u8]) -> Option<&'p [u8]>
    requires { given.now ≡ map name_of_pair pairs.now }
    ensures { option_map (λ text. text.now) result ≡ net_given pairs.now port.now }
{
    let place = given.find(port)?;
    let pair = &pairs[place];
    Some(pair.value.bytes())
}

// The plans of ports that are connected to nets by name.
fn plans_by_name(
    alloc: Global,
    names: &mut Names,
    globals: usize,
    ports: &Names,
    used: &[Text],
    pairs: &[Pair],
) -> Result<Vec<PortPlan>, NoMemory>
    requires below { globals ≤ length names.old }
    requires once { has_twice (map name_of_pair pairs.now) ≡ false }
    ensures grows { IfOk result (λ plans. Grows names.old names.new) }
    ensures plans { IfOk result (λ plans. ArePortPlans names.new (take globals names.old) ports.now pairs.now used.now plans.items) }
{
    let given = pair_names(alloc, pairs)?;
    let mut plans = Vec::new(alloc);
    for port in used {
        let net = net_among(&given, pairs, port.bytes());
        plans.push(port_plan(names, globals, ports, port.bytes(), net)?)?;
    }
    Ok(plans)
}

// The plans of the ports of a cell that is used with these connections in a cell of these ports.
pub(crate) fn port_plans(
    alloc: Global,
    names: &mut Names,
    globals: usize,
    ports: &Names,
    used: &[Text],
    connections: &Ports,
) -> Result<Vec<PortPlan>, NoMemory>
    requires below { globals ≤ length names.old }
    requires once { has_twice used.now ≡ false }
    requires fits { ports_cause used.now connections.now ≡ None }
    requires given { ConnectsOnce connections.now }
    ensures grows { IfOk result (λ plans. Grows names.old names.new) }
    ensures plans { IfOk result (λ plans.
        ArePortPlans names.new (take globals names.old) ports.now (connections_of used.now connections.now) used.now plans.items) }
{
    match connections {
        Ports::ByOrder(nets) => plans_by_order(alloc, names, globals, ports, used, nets.as_slice()),
        Ports::ByName(pairs) => plans_by_name(alloc, names, globals, ports, used, pairs.as_slice()),
    }
}
