//! What the guards of events ask of a run.
ghost use Rattle.std.specs.Prelude.{◌≡◌, ℕ, ◌<◌, None, true, IsTrue, ◌↔◌, length};
ghost use Rattle.cvc_law.specs.Network.{is_declared};
ghost use Rattle.cvc_law.specs.Conduction.{target};
ghost use Rattle.cvc_law.specs.Reach.{needs};
ghost use Rattle.cvc_core.specs.State.{device_of, read_at};
ghost use Rattle.cvc_core.specs.Steps.{NothingGiven, IsLoaded, IsSettled, IsUnsettled};
ghost use Rattle.cvc_core.specs.Store.{IsReady};

use crate::Run;
use crate::offers::offer;
use cvc_law::Circuit;

/// Whether no slot was given.
fn nothing_given(run: &Run) -> bool
    requires { length run.now.given ≡ 4 }
    ensures { IsTrue result ↔ NothingGiven run.now }
{
    for slot in 0..4 {
        if run.given[slot] {
            return false;
        }
    }
    true
}

/// Whether each needed read was loaded.
fn is_loaded(circuit: &Circuit, run: &Run) -> bool
    requires { IsReady circuit.now run.now }
    ensures { IsTrue result ↔ IsLoaded circuit.now run.now }
{
    let needed = circuit.device(run.device).read_count();
    for read in 0..usize::from(needed) {
        if run.reads[read].is_none() {
            return false;
        }
    }
    true
}

/// Whether the net that a slot gives to is declared.
fn is_target_declared(circuit: &Circuit, run: &Run, slot: u8) -> bool
    requires { IsReady circuit.now run.now }
    ensures { result ≡ is_declared circuit.now (target (device_of circuit.now run.now) slot) }
{
    let net = circuit.device(run.device).target(slot);
    circuit.fixed(net).is_some()
}

/// Whether a slot was given, or gives nothing, or has a declared target.
fn is_settled(circuit: &Circuit, run: &Run, slot: u8) -> bool
    requires ready { IsReady circuit.now run.now }
    requires slot { slot < 4 }
    ensures { IsTrue result ↔ IsSettled circuit.now run.now slot }
{
    run.given[usize::from(slot)]
        || offer(circuit, run, slot) == 0
        || is_target_declared(circuit, run, slot)
}

/// Whether every slot is settled.
fn all_settled(circuit: &Circuit, run: &Run) -> bool
    requires { IsReady circuit.now run.now }
    ensures { IsTrue result ↔ ((k : ℕ) → k < 4 → IsSettled circuit.now run.now k) }
{
    for slot in 0..4 {
        if !is_settled(circuit, run, slot) {
            return false;
        }
    }
    true
}

/// Whether the run has a credit more than it needs.
pub(crate) fn has_spare_credit(run: &Run) -> bool
    ensures { IsTrue result ↔ (run.now.credits ≡ 2) }
{
    run.credits == 2
}

/// Whether a read is one that is to be loaded now.
pub(crate) fn may_read(circuit: &Circuit, run: &Run, read: u8) -> bool
    requires { IsReady circuit.now run.now }
    ensures { IsTrue result ↔ ((needs (device_of circuit.now run.now).kind read ≡ true) × (read_at run.now read ≡ None) × NothingGiven run.now) }
{
    let needed = circuit.device(run.device).read_count();
    read < needed && run.reads[usize::from(read)].is_none() && nothing_given(run)
}

/// Whether a slot was not given, gives something and has no declared target.
fn is_unsettled(circuit: &Circuit, run: &Run, slot: u8) -> bool
    requires ready { IsReady circuit.now run.now }
    requires slot { slot < 4 }
    ensures { IsTrue result ↔ IsUnsettled circuit.now run.now slot }
{
    !run.given[usize::from(slot)]
        && offer(circuit, run, slot) > 0
        && !is_target_declared(circuit, run, slot)
}

/// Whether a slot may be given now.
pub(crate) fn may_widen(circuit: &Circuit, run: &Run, slot: u8) -> bool
    requires { IsReady circuit.now run.now }
    ensures { IsTrue result ↔ ((slot < 4) × IsLoaded circuit.now run.now × (run.now.owes ≡ None) × IsUnsettled circuit.now run.now slot) }
{
    slot < 4 && is_loaded(circuit, run) && run.owes.is_none() && is_unsettled(circuit, run, slot)
}

/// Whether the run may end.
pub(crate) fn may_release(circuit: &Circuit, run: &Run) -> bool
    requires { IsReady circuit.now run.now }
    ensures { IsTrue result ↔ (IsLoaded circuit.now run.now × (run.now.owes ≡ None) × ((k : ℕ) → k < 4 → IsSettled circuit.now run.now k)) }
{
    is_loaded(circuit, run) && run.owes.is_none() && all_settled(circuit, run)
}
