//! Settling on one thread.
ghost use Rattle.std.specs.Prelude.{◌≡◌, ◌<◌, ◌^◌, [], IfOk, IfSome, is_some, length};
ghost use Rattle.cvc_law.specs.Least.{IsLeast};
ghost use Rattle.cvc_serial.specs.Derivation.{AllWiden, AreJustified, IsComplete, declared_family};
ghost use Rattle.cvc_serial.specs.Settling.{IsSettling};
ghost use Rattle.cvc_serial.specs.Starting.{IsCovered, IsStart};

use crate::engine::Engine;
use crate::log::Log;
use crate::routes::Routes;
use crate::start::starting;
use crate::waiting::Waiting;
use cvc_base::NoMemory;
use cvc_law::{Circuit, Family};
use std::alloc::Global;

/// An engine that settled the circuit, from the declarations and a family of this many nets. It keeps a log where it is given one without lines, and then
/// starts from the declarations alone.
fn settled(
    alloc: Global,
    circuit: &Circuit,
    family: &Family,
    known: u32,
    log: Option<Log>,
) -> Result<Engine, NoMemory>
    requires known { known ≡ length family.now }
    requires covered { IsCovered circuit.now family.now }
    requires log { IfSome log (λ lines. (lines ≡ []) × (family.now ≡ [])) }
    ensures settling { IfOk result (λ e. IsSettling circuit.now e) }
    ensures least { IfOk result (λ e. IsLeast circuit.now e.bounds.items) }
    ensures log { IfOk result (λ e. is_some e.log ≡ is_some log) }
{
    let mut engine = Engine {
        bounds: starting(alloc, circuit, family, known)?,
        waiting: Waiting::new(alloc),
        routes: Routes::new(alloc, circuit)?,
        log,
    };
    engine.settle(circuit)?;
    Ok(engine)
}

/// The same from the declarations alone.
fn settled_anew(alloc: Global, circuit: &Circuit, log: Option<Log>) -> Result<Engine, NoMemory>
    requires { IfSome log (λ lines. lines ≡ []) }
    ensures settling { IfOk result (λ e. IsSettling circuit.now e) }
    ensures least { IfOk result (λ e. IsLeast circuit.now e.bounds.items) }
    ensures log { IfOk result (λ e. is_some e.log ≡ is_some log) }
{
    settled(alloc, circuit, &Family::new(Vec::new(alloc)), 0, log)
}

/// The least voltage family of the circuit. It always returns. It sweeps over the devices in order, which is all where each hands on to later ones. In between
/// it takes bounds in the order of how far out they lie, and tries the devices on their nets. Its memory is linear in the nets, and in the bounds that wait at
/// one time.
pub fn settle_serial(alloc: Global, circuit: &Circuit) -> Result<Family, NoMemory>
    ensures { IfOk result (λ f. IsLeast circuit.now f) }
{
    let engine = settled_anew(alloc, circuit, None)?;
    Ok(Family::new(engine.bounds))
}

/// The least voltage family of the circuit, found from one that it covers: each known bound that the given family has on an undeclared net. What the given
/// family says of declared nets isn't used. It always returns.
pub fn settle_from(alloc: Global, circuit: &Circuit, family: &Family) -> Result<Family, NoMemory>
    requires { IsStart circuit.now family.now }
    ensures { IfOk result (λ f. IsLeast circuit.now f) }
{
    let engine = settled(alloc, circuit, family, circuit.nets(), None)?;
    Ok(Family::new(engine.bounds))
}

/// How the least voltage family of the circuit is found: a line for each widening, of 12 bytes. Each line is justified and widens, and the log is complete.
/// A log that would reach 2^32 lines counts as want of memory. It always returns.
pub fn derive(alloc: Global, circuit: &Circuit) -> Result<Log, NoMemory>
    ensures justified { IfOk result (λ log. AreJustified circuit.now (declared_family circuit.now) log) }
    ensures widen { IfOk result (λ log. AllWiden circuit.now (declared_family circuit.now) log) }
    ensures complete { IfOk result (λ log. IsComplete circuit.now log) }
    ensures few { IfOk result (λ log. length log < 2 ^ 32) }
{
    let Engine {
        bounds: _,
        waiting: _,
        routes: _,
        log,
    } = settled_anew(alloc, circuit, Some(Log::new(alloc)))?;
    match log {
        Some(log) => Ok(log),
        None => unreachable!(),
    }
}
