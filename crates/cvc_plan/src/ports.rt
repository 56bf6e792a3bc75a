//! The nets of the ports of the instances that a walk is in.
ghost use Rattle.std.specs.Prelude.{◌≡◌, ◌≤◌, ◌++◌, All, IfOk, OnOk, drop, length, map};
ghost use Rattle.cvc_plan.specs.Pins.{IsPinWithin, IsPlanWithin, pin_row, port_row, row_of_opening};

use crate::cards::OpeningPlan;
use crate::pins::{Pin, PortPlan};
use crate::rows::NetRow;
use cvc_base::NoMemory;
use std::alloc::Global;

/// The net of a pin in an instance whose ports have these nets.
pub fn net_of_pin(instance: u32, ports: &[NetRow], pin: Pin) -> NetRow
    requires { IsPinWithin (length ports.now) pin }
    ensures { result ≡ pin_row instance ports.now pin }
{
    match pin {
        Pin::Global(name) => NetRow { instance: 0, name },
        Pin::Port(place) => ports[place as usize],
        Pin::Own(name) => NetRow { instance, name },
    }
}

// The net of a port of an instance in one whose own ports have these nets.
fn net_of_port(above: u32, ports: &[NetRow], instance: u32, plan: PortPlan) -> NetRow
    requires { IsPlanWithin (length ports.now) plan }
    ensures { result ≡ port_row above ports.now instance plan }
{
    match plan {
        PortPlan::Joined(pin) => net_of_pin(above, ports, pin),
        PortPlan::LeftOut(name) => NetRow { instance, name },
    }
}

/// The nets of ports from this place on.
pub fn ports_from(ports: &[NetRow], first: usize) -> &[NetRow]
    requires { first ≤ length ports.now }
    ensures { result.now ≡ drop first ports.now }
{
    &ports[first..]
}

/// The nets of the ports of the top, which is opened behind so many globals.
pub fn top_ports(
    alloc: Global,
    openings: &[OpeningPlan],
    globals: usize,
) -> Result<Vec<NetRow>, NoMemory>
    requires { globals ≤ length openings.now }
    ensures { IfOk result (λ rows. rows.items ≡ map row_of_opening (drop globals openings.now)) }
{
    let mut rows = Vec::new(alloc);
    for opening in &openings[globals..] {
        rows.push(NetRow {
            instance: 0,
            name: opening.name,
        })?;
    }
    Ok(rows)
}

/// Puts the nets of the ports of an instance behind those of the one above, which begin at `first`.
pub fn join(
    ports: &mut Vec<NetRow>,
    first: usize,
    above: u32,
    instance: u32,
    plans: &[PortPlan],
) -> Result<(), NoMemory>
    requires inside { first ≤ length ports.old.items }
    requires within { All (IsPlanWithin (length (drop first ports.old.items))) plans.now }
    ensures { OnOk result (ports.new.items ≡ ports.old.items ++ map (port_row above (drop first ports.old.items) instance) plans.now) }
{
    for plan in plans {
        let row = net_of_port(above, &ports[first..], instance, *plan);
        ports.push(row)?;
    }
    Ok(())
}
