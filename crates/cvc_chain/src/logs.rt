//! The log of a circuit's least family.
ghost use Rattle.std.specs.Prelude.{◌<◌, ◌^◌, IfOk, length};
ghost use Rattle.cvc_serial.specs.Derivation.{AllWiden, AreJustified, IsComplete, declared_family};

use crate::Log;
use cvc_base::NoMemory;
use cvc_law::Circuit;
use std::alloc::Global;

/// A log of the circuit: each line is justified and widens the family of the lines before it, and the log is complete, so that its family is the least one.
/// A log that would reach 2^32 lines counts as want of memory. It always returns.
pub fn prove(alloc: Global, circuit: &Circuit) -> Result<Log, NoMemory>
    ensures justified { IfOk result (λ log. AreJustified circuit.now (declared_family circuit.now) log) }
    ensures widen { IfOk result (λ log. AllWiden circuit.now (declared_family circuit.now) log) }
    ensures complete { IfOk result (λ log. IsComplete circuit.now log) }
    ensures few { IfOk result (λ log. length log < 2 ^ 32) }
{
    cvc_serial::derive(alloc, circuit)
}
