//! The machine: one event, and a list of them.
ghost use Rattle.std.specs.Prelude.{◌≡◌, ◌<◌, ◌≤◌, ◌↔◌, Some, length, take, slice_get, IsOk, OnOk, OnErr};
ghost use Rattle.cvc_core.specs.declared.event.Event.{Event as Happening};
ghost use Rattle.cvc_core.specs.Events.{IsEnabled, after, AreEnabled, after_all};
ghost use Rattle.cvc_core.specs.Measured.{measured, IsSoundOn};

use crate::{Event, NotEnabled, State};
use cvc_law::Circuit;

/// Does an event. `NotEnabled` exactly where its guard doesn't hold; the state is then unchanged.
/// It takes no memory, and its time doesn't depend on the circuit.
pub fn step(circuit: &Circuit, state: &mut State, event: Event) -> Result<(), NotEnabled>
    requires { IsSoundOn circuit.now state.old }
    ensures enabled { IsOk result ↔ IsEnabled circuit.now state.old.machine event }
    ensures effect { OnOk result (state.new ≡ measured circuit.now (after circuit.now state.old.machine event)) }
    ensures unchanged { OnErr result (state.new ≡ state.old) }
    ensures sound { IsSoundOn circuit.now state.new }
{
    if state.store.try_event(circuit, event) {
        Ok(())
    } else {
        Err(NotEnabled)
    }
}

/// Does the events of a list up to the first whose guard doesn't hold, and says how many it did.
pub fn run(circuit: &Circuit, state: &mut State, events: &[Event]) -> usize
    requires { IsSoundOn circuit.now state.old }
    ensures some { result ≤ length events.now }
    ensures enabled { AreEnabled circuit.now state.old.machine (take result events.now) }
    ensures effect { state.new ≡ measured circuit.now (after_all circuit.now state.old.machine (take result events.now)) }
    ensures stopped { (e : Happening) → slice_get events.now result ≡ Some e → IsEnabled circuit.now state.new.machine e → ⊥ }
    ensures sound { IsSoundOn circuit.now state.new }
{
    for (i, event) in events.iter().enumerate() {
        if step(circuit, state, *event).is_err() {
            return i;
        }
    }
    events.len()
}
