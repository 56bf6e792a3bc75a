//! The words at the start.
ghost use Rattle.std.specs.Prelude.{◌≡◌, ◌<◌, IfOk};
ghost use Rattle.cvc_law.specs.Network.{nets, fixed_at, IsCircuit};
ghost use Rattle.cvc_law.specs.Reach.{bound_on, declared_interval};
ghost use Rattle.cvc_field.specs.Words.{start_words as words_of_start};

use crate::words::{high_word, low_word};
use cvc_base::{Mv, NetId, NoMemory};
use cvc_law::Circuit;
use std::alloc::Global;

/// The low that a net is declared at, if it is.
fn declared_low(circuit: &Circuit, n: NetId) -> Option<Mv>
    requires { n.0 < nets circuit.now }
    ensures { result ≡ bound_on 0 (declared_interval (fixed_at circuit.now n.0)) }
{
    circuit.fixed(n).map(|w| w.low)
}

/// The high that a net is declared at, if it is.
fn declared_high(circuit: &Circuit, n: NetId) -> Option<Mv>
    requires { n.0 < nets circuit.now }
    ensures { result ≡ bound_on 1 (declared_interval (fixed_at circuit.now n.0)) }
{
    circuit.fixed(n).map(|w| w.high)
}

/// The count, the bounds as declared or unknown, and each mark Queued.
pub(crate) fn start_words(alloc: Global, circuit: &Circuit) -> Result<Vec<u64>, NoMemory>
    ensures items { IfOk result (λ v. v.items ≡ words_of_start circuit.now) }
    ensures circuit { IsCircuit circuit.now.fixed circuit.now.devices }
{
    let devices = circuit.devices();
    let mut words = Vec::with_capacity(alloc, 1 + 2 * circuit.nets() as usize + devices as usize)?;
    words.push(u64::from(devices))?;
    for n in 0..circuit.nets() {
        words.push(low_word(declared_low(circuit, NetId(n))))?;
        words.push(high_word(declared_high(circuit, NetId(n))))?;
    }
    for _ in 0..devices {
        words.push(1)?;
    }
    Ok(words)
}
