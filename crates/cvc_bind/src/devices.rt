//! The devices of the circuit.
ghost use Rattle.std.specs.Prelude.{◌≡◌, ◌<◌, ◌≤◌, ◌^◌, length, All, IfOk};
ghost use Rattle.cvc_base.specs.Answers.{Gives};
ghost use Rattle.cvc_bind.specs.Choices.{AreChosen};
ghost use Rattle.cvc_bind.specs.Devices.{device_choice, device_of, devices_of, fits, with_choice};
ghost use Rattle.cvc_flat.specs.Held.{device};
ghost use Rattle.cvc_law.specs.Network.{IsDevice};
ghost use Rattle.cvc_model.specs.Bindable.{AreBindable};

use cvc_base::{Cause, DevId, Fault, FileKind, Kind, Refusal};
use cvc_card::Letter;
use cvc_flat::Flat;
use cvc_law::Device;
use cvc_model::{Choice, Models};
use std::alloc::Global;

// Whether a row of this kind serves a card of this letter.
fn fits(letter: Letter, kind: Kind) -> bool
    ensures { result ≡ fits letter kind }
{
    match letter {
        Letter::M => matches!(kind, Kind::Nmos | Kind::Pmos),
        Letter::D => matches!(kind, Kind::Diode),
        Letter::R => matches!(kind, Kind::Resistor),
        Letter::C => matches!(kind, Kind::Capacitor),
        Letter::L => matches!(kind, Kind::Inductor),
        Letter::Q => matches!(kind, Kind::Bipolar),
    }
}

// The device with what was chosen for it.
fn chosen_device(flat: &Flat, d: DevId, models: &Models, choice: Choice) -> Result<Device, Cause>
    requires device { d.0 < length flat.now.list.devices }
    requires models { AreBindable models.now }
    ensures chosen { result ≡ with_choice models.now (device flat.now.list d.0) choice }
    ensures sound { IfOk result (IsDevice (length flat.now.list.nets)) }
{
    let place = match choice {
        Choice::Chosen(place) => place as usize,
        Choice::Nothing => return Err(Cause::NoModel),
        Choice::WordMet => return Err(Cause::ParamText),
    };
    // no choice is past the rows
    if place >= models.len() {
        return Err(Cause::NoModel);
    }
    let row = models.get(place);
    if !fits(flat.letter(d), row.kind) {
        return Err(Cause::WrongKind);
    }
    Ok(Device {
        kind: row.kind,
        pins: flat.pins(d),
        volts: row.volts,
    })
}

// What is chosen for a device. The choice is made once for the devices of a group.
fn choice_for(flat: &Flat, d: DevId, models: &Models, chosen: &mut [Option<Choice>]) -> Choice
    requires device { d.0 < length flat.now.list.devices }
    requires few { length models.now < 2 ^ 32 }
    requires chosen { AreChosen flat.now models.now chosen.old }
    ensures choice { result ≡ device_choice models.now (device flat.now.list d.0) }
    ensures chosen { AreChosen flat.now models.now chosen.new }
{
    let group = flat.group(d) as usize;
    if let Some(choice) = chosen[group] {
        return choice;
    }
    let choice = models.choose(flat.model(d), flat.params(d));
    chosen[group] = Some(choice);
    choice
}

// The device of the circuit, or its fault.
#[tactic(auto, unfolding(crate::specs::Devices::device_of))]
fn device_for(
    flat: &Flat,
    d: DevId,
    models: &Models,
    chosen: &mut [Option<Choice>],
) -> Result<Device, Fault>
    requires device { d.0 < length flat.now.list.devices }
    requires models { AreBindable models.now }
    requires chosen { AreChosen flat.now models.now chosen.old }
    ensures device { result ≡ device_of models.now (device flat.now.list d.0) }
    ensures sound { IfOk result (IsDevice (length flat.now.list.nets)) }
    ensures chosen { AreChosen flat.now models.now chosen.new }
{
    let choice = choice_for(flat, d, models, chosen);
    match chosen_device(flat, d, models, choice) {
        Ok(device) => Ok(device),
        Err(cause) => Err(Fault::at(FileKind::Netlist, flat.line(d), cause)),
    }
}

/// The devices of the circuit, or the first fault among them.
pub(crate) fn devices(alloc: Global, flat: &Flat, models: &Models) -> Result<Vec<Device>, Refusal>
    requires { AreBindable models.now }
    ensures devices { Gives (λ devices. devices.items) result (devices_of flat.now.list models.now) }
    ensures few { IfOk result (λ devices. length devices.items ≤ 500000) }
    ensures sound { IfOk result (λ devices. All (IsDevice (length flat.now.list.nets)) devices.items) }
{
    let mut chosen = vec![in alloc; None; flat.groups() as usize]?;
    let mut devices = Vec::with_capacity(alloc, flat.devices() as usize)?;
    for d in 0..flat.devices() {
        match device_for(flat, DevId(d), models, &mut chosen) {
            Ok(device) => devices.push(device)?,
            Err(fault) => return Err(Refusal::At(fault)),
        }
    }
    Ok(devices)
}
