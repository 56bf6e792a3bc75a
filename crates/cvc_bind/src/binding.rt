//! The circuit of a flat list and the rows.
ghost use Rattle.std.specs.Prelude.{All, IfOk, length, map};
ghost use Rattle.cvc_base.specs.Answers.{Gives};
ghost use Rattle.cvc_bind.specs.Bound.{circuit_of};
ghost use Rattle.cvc_law.specs.Bound.{IsBound};
ghost use Rattle.cvc_model.specs.Bindable.{AreBindable};
ghost use Rattle.cvc_power.specs.Power.{IsOrdered};

use crate::declared::declared;
use crate::devices::devices;
use cvc_base::Refusal;
use cvc_flat::Flat;
use cvc_law::Circuit;
use cvc_model::Models;
use cvc_power::Power;
use std::alloc::Global;

/// The circuit of a flat list: each device with the kind and the voltages of its chosen row, each net with the voltages that a power row
/// declares it at. Its nets and devices have the numbers of the flat list, and each device has the same pins.
///
/// It refuses with the first of these. In the order of the devices, at the line of the device's card: a device for which no row is
/// chosen (`NoModel`), or of which a test meets a word (`ParamText`), or whose letter the chosen kind doesn't fit (`WrongKind`). Then in
/// the order of the power rows, at the row's line: a name that finds no net (`UnknownNet`), or the net of an earlier row
/// (`SameNetTwice`). The time is linear in the devices and in the rows: one choice is made for all devices of a group, and one net is
/// looked up for a power row.
pub fn bind(alloc: Global, flat: &Flat, models: &Models, power: &Power) -> Result<Circuit, Refusal>
    // What `read_models` and `read_power` give meets both.
    requires models { AreBindable models.now }
    requires power { All IsOrdered power.now }
    ensures circuit { Gives (λ circuit. circuit) result (circuit_of flat.now.list models.now power.now) }

    // What `write_report` asks of a circuit.
    ensures bound { IfOk result (IsBound (length flat.now.list.nets) (map (λ d. d.pins) flat.now.list.devices)) }
{
    let devices = devices(alloc, flat, models)?;
    let fixed = declared(alloc, flat, power)?;
    Ok(Circuit::new(alloc, fixed, devices)?)
}
