//! What a run holds of its device's nets, and what the device's slots give on that.
ghost use Rattle.std.specs.Prelude.{◌≡◌, ◌<◌, ◌+◌, ◌*◌, ◌%◌, length};
ghost use Rattle.cvc_law.specs.Reach.{device_at, reach_of};
ghost use Rattle.cvc_law.specs.Conduction.{given};
ghost use Rattle.cvc_core.specs.State.{held, offer, device_of};
ghost use Rattle.cvc_core.specs.Store.{IsReady, held_interval, held_reads};

use crate::Run;
use crate::scale::{high_of, high_reach, low_of, low_reach, voltage};
use cvc_base::Mv;
use cvc_law::{Circuit, Interval, Reads, gives};

/// The reach that a read found, or 0.
fn held(run: &Run, read: usize) -> u32
    requires { read < length run.now.reads }
    ensures { result ≡ held run.now read }
{
    run.reads[read].unwrap_or(0)
}

/// What the run holds of the net at an end of its device: 0 is a, 1 is b, 2 the gate.
fn held_interval(circuit: &Circuit, run: &Run, end: usize) -> Interval
    requires ready { IsReady circuit.now run.now }
    requires end { end < 3 }
    ensures { result ≡ held_interval circuit.now run.now end }
{
    let low = low_of(circuit.floor(), circuit.ceiling(), held(run, 2 * end));
    let high = high_of(circuit.floor(), circuit.ceiling(), held(run, 2 * end + 1));
    Interval { low, high }
}

/// What the run holds of all nets of its device.
fn held_reads(circuit: &Circuit, run: &Run) -> Reads
    requires { IsReady circuit.now run.now }
    ensures { result ≡ held_reads circuit.now run.now }
{
    Reads {
        a: held_interval(circuit, run, 0),
        b: held_interval(circuit, run, 1),
        g: held_interval(circuit, run, 2),
    }
}

/// The voltage that a slot gives on what the run holds.
fn given(circuit: &Circuit, run: &Run, slot: u8) -> Option<Mv>
    requires ready { IsReady circuit.now run.now }
    requires slot { slot < 4 }
    ensures { result ≡ given circuit.now (device_of circuit.now run.now) slot (held_reads circuit.now run.now) }
{
    let reads = held_reads(circuit, run);
    let value = gives(circuit, run.device, slot, &reads);
    voltage(circuit.floor(), circuit.ceiling(), value)
}

/// The reach of what a slot gives on what the run holds, or 0.
pub(crate) fn offer(circuit: &Circuit, run: &Run, slot: u8) -> u32
    requires ready { IsReady circuit.now run.now }
    requires slot { slot < 4 }
    ensures { result ≡ offer circuit.now run.now slot }
{
    let value = given(circuit, run, slot);
    if slot % 2 == 0 {
        low_reach(circuit.ceiling(), value)
    } else {
        high_reach(circuit.floor(), value)
    }
}
