//! The cards of a netlist, with their names as numbers.
ghost use Rattle.std.specs.Prelude.{◌≡◌, ◌<◌, IfOk, None, length, map};
ghost use Rattle.cvc_cdl.specs.Ending.{ports_cause};
ghost use Rattle.cvc_plan.specs.Names.{Grows};
ghost use Rattle.cvc_plan.specs.Nets.{connections_of, paired};
ghost use Rattle.cvc_plan.specs.Parts.{AreConnections, IsPart, link_of, pair_of};

use crate::names::number;
use crate::pins::Pin;
use crate::rows::{Connection, InstancePart};
use arrayvec::ArrayVec;
use cvc_base::{NoMemory, Pair, Text};
use cvc_card::{InstCard, Ports};
use cvc_names::Names;
use std::alloc::Global;

// A port and what it is connected to.
fn connection(names: &mut Names, port: &[u8], net: &[u8]) -> Result<Connection, NoMemory>
    ensures grows { IfOk result (λ c. Grows names.old names.new) }
    ensures within { IfOk result (λ c. (c.port < length names.new) × (c.net < length names.new)) }
    ensures pair { IfOk result (λ c. pair_of names.new c ≡ record { name = port.now; value = net.now }) }
{
    let port = number(names, port)?;
    let net = number(names, net)?;
    Ok(Connection { port, net })
}

// The connections of ports to nets, in order.
fn connections_by_order(
    alloc: Global,
    names: &mut Names,
    ports: &[Text],
    nets: &[Text],
) -> Result<Vec<Connection>, NoMemory>
    requires { length nets.now ≡ length ports.now }
    ensures grows { IfOk result (λ cs. Grows names.old names.new) }
    ensures within { IfOk result (λ cs. AreConnections names.new cs.items) }
    ensures pairs { IfOk result (λ cs. map (pair_of names.new) cs.items ≡ paired ports.now nets.now) }
{
    let mut connections = Vec::new(alloc);
    for (place, port) in ports.iter().enumerate() {
        connections.push(connection(names, port.bytes(), nets[place].bytes())?)?;
    }
    Ok(connections)
}

// The connections of pairs of a port and a net.
fn connections_by_name(
    alloc: Global,
    names: &mut Names,
    pairs: &[Pair],
) -> Result<Vec<Connection>, NoMemory>
    ensures grows { IfOk result (λ cs. Grows names.old names.new) }
    ensures within { IfOk result (λ cs. AreConnections names.new cs.items) }
    ensures pairs { IfOk result (λ cs. map (pair_of names.new) cs.items ≡ pairs.now) }
{
    let mut connections = Vec::new(alloc);
    for pair in pairs {
        connections.push(connection(names, pair.name.bytes(), pair.value.bytes())?)?;
    }
    Ok(connections)
}

// What is kept of an instance's card, whose cell has these ports.
pub(crate) fn part_of(
    alloc: Global,
    names: &mut Names,
    ports: &[Text],
    card: &InstCard,
) -> Result<InstancePart, NoMemory>
    requires { ports_cause ports.now card.now.ports ≡ None }
    ensures grows { IfOk result (λ part. Grows names.old names.new) }
    ensures within { IfOk result (IsPart names.new) }
    ensures link { IfOk result (λ part. link_of names.new part ≡ record { name = card.now.name; connections = connections_of ports.now card.now.ports }) }
{
    let name = number(names, card.name.bytes())?;
    let connections = match &card.ports {
        Ports::ByOrder(nets) => connections_by_order(alloc, names, ports, nets.as_slice())?,
        Ports::ByName(pairs) => connections_by_name(alloc, names, pairs.as_slice())?,
    };
    Ok(InstancePart { name, connections })
}

/// What is kept of a device's card beside its part: its pins and the number of its model.
#[derive(Debug, Drop)]
pub struct DevicePlan {
    pub pins: ArrayVec<Pin, 4>,
    pub model: u32,
}
