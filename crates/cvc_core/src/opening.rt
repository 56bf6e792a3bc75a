//! The machine at the start.
ghost use Rattle.std.specs.Prelude.{◌≡◌, ◌-◌, ◌<◌, ◌≤◌, ◌∷◌, map, replicate, IfOk};
ghost use Rattle.cvc_law.specs.Network.{nets, fixed_at};
ghost use Rattle.cvc_law.specs.Reach.{bound_on, reach_on, declared_interval};
ghost use Rattle.cvc_law.specs.ReachLeast.{opening};
ghost use Rattle.cvc_core.specs.declared.actor.Actor.{Actor as At};
ghost use Rattle.cvc_core.specs.Start.{start};
ghost use Rattle.cvc_core.specs.Store.{mark_word};
ghost use Rattle.cvc_core.specs.Measured.{measured, IsSoundOn};

use crate::scale::{high_reach, low_reach};
use crate::store::{Mark, Store};
use crate::{Actor, State};
use cvc_base::{Mv, NetId, NoMemory};
use cvc_law::{Circuit, Fixed};
use std::alloc::Global;

/// The low that a net is declared at, if it is.
fn declared_low(declared: Option<Fixed>) -> Option<Mv>
    ensures { result ≡ bound_on 0 (declared_interval declared) }
{
    declared.map(|w| w.low)
}

/// The high that a net is declared at, if it is.
fn declared_high(declared: Option<Fixed>) -> Option<Mv>
    ensures { result ≡ bound_on 1 (declared_interval declared) }
{
    declared.map(|w| w.high)
}

/// The reach of a net's low by its declaration alone.
fn opening_low(circuit: &Circuit, n: NetId) -> u32
    requires { n.0 < nets circuit.now }
    ensures { result ≡ reach_on circuit.now 0 (declared_interval (fixed_at circuit.now n.0)) }
{
    let _circuit = circuit.nets();
    low_reach(circuit.ceiling(), declared_low(circuit.fixed(n)))
}

/// The reach of a net's high by its declaration alone.
fn opening_high(circuit: &Circuit, n: NetId) -> u32
    requires { n.0 < nets circuit.now }
    ensures { result ≡ reach_on circuit.now 1 (declared_interval (fixed_at circuit.now n.0)) }
{
    let _circuit = circuit.nets();
    high_reach(circuit.floor(), declared_high(circuit.fixed(n)))
}

/// The bounds by the declarations alone.
fn opening_bounds(alloc: Global, circuit: &Circuit) -> Result<Vec<u32>, NoMemory>
    ensures { IfOk result (λ f. f.items ≡ opening circuit.now) }
{
    let mut bounds = Vec::with_capacity(alloc, 2 * circuit.nets() as usize)?;
    for n in 0..circuit.nets() {
        bounds.push(opening_low(circuit, NetId(n)))?;
        bounds.push(opening_high(circuit, NetId(n)))?;
    }
    Ok(bounds)
}

/// That many devices queued.
fn queued_marks(alloc: Global, devices: u32) -> Result<Vec<Mark>, NoMemory>
    ensures { IfOk result (λ ms. map mark_word ms.items ≡ replicate devices 1) }
{
    let mut marks = Vec::with_capacity(alloc, devices as usize)?;
    for _ in 0..devices {
        marks.push(Mark {
            queued: true,
            running: false,
        })?;
    }
    Ok(marks)
}

/// That many actors, the first of which is idle and the others absent.
fn first_actor(alloc: Global, count: u8) -> Result<Vec<Actor>, NoMemory>
    requires { 1 ≤ count }
    ensures { IfOk result (λ xs. xs.items ≡ At.Idle 0 ∷ replicate (count - 1) At.Absent) }
{
    let mut actors = Vec::with_capacity(alloc, usize::from(count))?;
    actors.push(Actor::Idle(0))?;
    for _ in 0..count - 1 {
        actors.push(Actor::Absent)?;
    }
    Ok(actors)
}

/// The machine of a circuit at the start, with that many actors: the first is idle and the others are absent.
/// It takes all its memory here.
pub fn start(alloc: Global, circuit: &Circuit, actors: u8) -> Result<State, NoMemory>
    requires some { 1 ≤ actors }
    requires few { actors ≤ 64 }
    ensures start { IfOk result (λ s. s ≡ measured circuit.now (start circuit.now actors)) }
    ensures sound { IfOk result (IsSoundOn circuit.now) }
{
    let bounds = opening_bounds(alloc, circuit)?;
    let marks = queued_marks(alloc, circuit.devices())?;
    let actors = first_actor(alloc, actors)?;
    Ok(State {
        floor: circuit.floor(),
        ceiling: circuit.ceiling(),
        store: Store {
            bounds,
            marks,
            count: u64::from(circuit.devices()),
            actors,
        },
    })
}
