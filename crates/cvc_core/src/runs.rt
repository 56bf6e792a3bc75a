//! How the run of an actor goes on.
ghost use Rattle.std.specs.Prelude.{◌≡◌, ◌<◌, length, slice_set, slice_index, true, Some, None, nat_lt, if◌then◌else◌};
ghost use Rattle.cvc_law.specs.Network.{nets, fan_of};
ghost use Rattle.cvc_core.specs.Steps.{loaded, with_credits, begun, next_debt};

use crate::{Debt, Run};
use cvc_base::{DevId, NetId};
use cvc_law::Circuit;

/// A run that begins: nothing loaded, given or owed, and one credit.
pub(crate) fn begun(device: DevId) -> Run
    ensures { result ≡ begun device.0 }
{
    Run {
        device,
        reads: [None; 6],
        given: [false; 4],
        owes: None,
        credits: 1,
    }
}

/// The run with a read loaded.
pub(crate) fn loaded(run: Run, read: u8, reach: u32) -> Run
    requires { read < length run.reads }
    ensures { result ≡ loaded read reach run }
{
    let mut run = run;
    run.reads[usize::from(read)] = Some(reach);
    run
}

/// The run with a slot given, and what it owes then.
pub(crate) fn given(run: Run, slot: u8, owes: Option<Debt>) -> Run
    requires { slot < length run.given }
    ensures { result ≡ record { device = run.device; reads = run.reads; given = slice_set run.given slot true; owes = owes; credits = run.credits } }
{
    let mut run = run;
    run.given[usize::from(slot)] = true;
    run.owes = owes;
    run
}

/// What an actor owes when it found a bound at one reach and gave it another: the fan of the net, if that is wider.
pub(crate) fn new_debt(net: NetId, before: u32, reach: u32) -> Option<Debt>
    ensures { result ≡ (if nat_lt before reach then Some record { net = net; place = 0 } else None) }
{
    (before < reach).then_some(Debt { net, place: 0 })
}

/// The run with other credits.
pub(crate) fn with_credits(run: Run, credits: u8) -> Run
    ensures { result ≡ with_credits credits run }
{
    let mut run = run;
    run.credits = credits;
    run
}

/// The run after a mark: what it owes then, and its credits.
pub(crate) fn marked(run: Run, owes: Option<Debt>, credits: u8) -> Run
    ensures { result ≡ record { device = run.device; reads = run.reads; given = run.given; owes = owes; credits = credits } }
{
    let mut run = run;
    run.owes = owes;
    run.credits = credits;
    run
}

/// The device that a debt says is to be marked next.
pub(crate) fn next_device(circuit: &Circuit, debt: Debt) -> DevId
    requires net { debt.net.0 < nets circuit.now }
    requires place { debt.place < length (fan_of circuit.now debt.net.0) }
    ensures { result.0 ≡ slice_index (fan_of circuit.now debt.net.0) debt.place }
{
    circuit.fan(debt.net)[debt.place]
}

/// The debt one place on in the fan: none at its end.
pub(crate) fn next_debt(circuit: &Circuit, debt: Debt) -> Option<Debt>
    requires net { debt.net.0 < nets circuit.now }
    requires place { debt.place < length (fan_of circuit.now debt.net.0) }
    ensures { result ≡ next_debt circuit.now debt }
{
    let net = debt.net;
    let end = circuit.fan(net).len();
    let place = debt.place + 1;
    if place < end {
        Some(Debt { net, place })
    } else {
        None
    }
}
