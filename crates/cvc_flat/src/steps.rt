//! The steps of a walk.
ghost use Rattle.std.specs.Prelude.{◌≡◌, ◌∷◌, ◌++◌, ◌+◌, ◌<◌, ◌≤◌, List, [], All, IfOk, IfSome, OnOk, length, map};
ghost use Rattle.std.specs.Option.{option_map};
ghost use Rattle.cvc_base.specs.Answers.{Refuses};
ghost use Rattle.cvc_base.specs.declared.fault.Refusal.TheVariants as refusals;
ghost use Rattle.cvc_card.specs.Card.{net_count};
ghost use Rattle.cvc_cdl.specs.Building.{fault_at};
ghost use Rattle.cvc_cdl.specs.Instances.{cell_at};
ghost use Rattle.cvc_params.specs.Levels.{instance_of};
ghost use Rattle.cvc_params.specs.Sights.{IsSight, SeesTheSame};
ghost use Rattle.cvc_plan.specs.Nets.{global_names};
ghost use Rattle.cvc_plan.specs.Pins.{ArePins, IsPinWithin, pin_row};
ghost use Rattle.cvc_plan.specs.Planning.{IsDevicePlan, IsPlan, opening_of};
ghost use Rattle.cvc_plan.specs.declared.cards.Plan.{Plan};
ghost use Rattle.cvc_flat.specs.Flat.{limits, nets_once, opening_fault};
ghost use Rattle.cvc_flat.specs.Joining.{IsHost};
ghost use Rattle.cvc_flat.specs.Making.{AddsDevice, AreNetsWithin, AreRows, device_cause_in, instance_cause_in, known_nets, net_of_opening, NumbersPins};
ghost use Rattle.cvc_names.specs.Names.{AreApart};
ghost use Rattle.cvc_flat.specs.Sharing.{IsShared};
ghost use Rattle.cvc_flat.specs.declared.rows.InstanceRow.{InstanceRow};

use crate::group_table::GroupTable;
use crate::nets::NetTable;
use crate::rows::{DeviceRow, InstanceRow};
use crate::shared::group_of;
use arrayvec::ArrayVec;
use cvc_base::{Cause, Fault, FileKind, NetId, NoMemory, Refusal};
use cvc_card::DeviceCard;
use cvc_cdl::{Cell, Netlist};
use cvc_params::{PairLists, Sight};
use cvc_plan::{DevicePlan, NetRow, Pin, Plan, net_of_pin};
use std::alloc::Global;

// What is walked: a netlist, the cell that is its top, and its lists of pairs.
#[derive(Clone, Copy)]
pub(crate) struct Source<'n> {
    pub netlist: &'n Netlist,
    pub top: &'n Cell,
    pub lists: &'n PairLists,
}

// The nets and devices of a walk so far.
#[derive(Drop)]
pub(crate) struct Made {
    pub nets: NetTable,
    pub devices: Vec<DeviceRow>,
    pub groups: GroupTable,
}

// The most instances, names on a path, devices and nets.
const INSTANCES: usize = 1_000_000;

const NAMES: usize = 64;

const DEVICES: usize = 500_000;

const NETS: usize = 1_000_000;

// A refusal at a line of the netlist.
fn refused(line: u32, cause: Cause) -> Refusal
    ensures { result ≡ refusals.At (fault_at line cause) }
{
    Refusal::At(Fault::at(FileKind::Netlist, line, cause))
}

// Goes into an instance, which is given the next number.
pub(crate) fn enter(
    instances: &mut Vec<InstanceRow>,
    depth: usize,
    row: InstanceRow,
    line: u32,
) -> Result<u32, Refusal>
    requires { depth ≤ 64 }
    ensures refused { Refuses (option_map (fault_at line) (instance_cause_in limits (length instances.old.items) (depth + 1))) result }
    ensures rows { OnOk result (instances.new.items ≡ instances.old.items ++ row ∷ []) }
    ensures number { IfOk result (λ i. i ≡ length instances.old.items + 1) }
    ensures room { OnOk result (length instances.old.items < 1000000) }
    ensures short { OnOk result (depth < 64) }
{
    if instances.len() >= INSTANCES {
        return Err(refused(line, Cause::TooManyInstances));
    }
    if depth >= NAMES {
        return Err(refused(line, Cause::TooDeep));
    }
    instances.push(row)?;
    Ok(instances.len() as u32)
}

// The nets of the globals and of the ports of the top.
pub(crate) fn opened(alloc: Global, plan: &Plan) -> Result<NetTable, Refusal>
    requires apart { AreApart plan.now.cards.names }
    requires opened { All (λ o. o.name < length plan.now.cards.names) plan.now.openings.items }
    ensures refused { Refuses (opening_fault limits [] (map (opening_of plan.now.cards.names) plan.now.openings.items)) result }
    ensures nets { IfOk result (λ nets. known_nets plan.now.cards [] nets
        ≡ nets_once [] (map net_of_opening (map (opening_of plan.now.cards.names) plan.now.openings.items))) }
    ensures within { IfOk result (λ nets. All (λ r. (r.instance ≤ 0) × (r.name < length plan.now.cards.names)) nets) }
    ensures room { IfOk result (λ nets. length nets ≤ 1000000) }
{
    let mut nets = NetTable::new(alloc);
    for opening in &plan.openings {
        nets.number(NetRow {
            instance: 0,
            name: opening.name,
        })?;
        if nets.len() > NETS {
            return Err(refused(opening.line, Cause::TooManyNets));
        }
    }
    Ok(nets)
}

// The numbers of the nets of pins in an instance whose ports have these nets. A net that is new is put last.
fn pins_of(
    nets: &mut NetTable,
    instance: u32,
    ports: &[NetRow],
    pins: &ArrayVec<Pin, 4>,
) -> Result<ArrayVec<NetId, 4>, NoMemory>
    requires { All (IsPinWithin (length ports.now)) pins.now.items }
    ensures { IfOk result (λ ids. (p : Plan) (rows : List InstanceRow) → AreRows p rows nets.old
        → AreNetsWithin p rows (map (pin_row instance ports.now) pins.now.items)
        → NumbersPins p rows nets.old nets.new (known_nets p.cards rows (map (pin_row instance ports.now) pins.now.items)) ids.items) }
{
    let mut ids = ArrayVec::new();
    for pin in pins.as_slice() {
        let place = nets.number(net_of_pin(instance, ports, *pin))?;
        match u32::try_from(place) {
            Ok(number) => ids.push(NetId(number)),
            Err(_) => return Err(NoMemory),
        }
    }
    Ok(ids)
}

// Puts a device into an instance.
pub(crate) fn place<'n>(
    alloc: Global,
    source: &Source<'n>,
    plan: &Plan,
    sight: &mut Sight<'n>,
    instance: u32,
    ports: &[NetRow],
    card: &'n DeviceCard,
    number: u32,
    device: &DevicePlan,
    shared: &mut Option<u32>,
    made: &mut Made,
) -> Result<(), Refusal>
    requires plan { IsPlan source.now.netlist.now plan.now }
    requires groups { length made.old.groups ≤ length made.old.devices.items }
    requires sight { IsSight sight.old }
    requires same { sight.old.netlist.now ≡ source.now.netlist.now }
    requires ports { length ports.now ≡ length (cell_at source.now.netlist.now (instance_of sight.old.levels.items)).ports }
    requires device { IsDevicePlan plan.now.cards card.now number device.now }
    requires pins { ArePins plan.now.cards.names (global_names source.now.netlist.now)
        (cell_at source.now.netlist.now (instance_of sight.old.levels.items)).ports card.now.nets device.now.pins.items }
    requires formed { length card.now.nets ≡ net_count card.now.letter }
    requires shared { IfSome shared.old (IsShared plan.now.cards.names made.old.groups card.now) }
    ensures refused { (rows : List InstanceRow)
        → IsHost source.now.netlist.now plan.now rows made.old (instance_of sight.old.levels.items) instance ports.now
        → Refuses (option_map (fault_at card.now.line) (device_cause_in limits source.now.netlist.now (length made.old.devices.items)
        (known_nets plan.now.cards rows made.old.nets) (instance_of sight.old.levels.items) card.now)) result }
    ensures added { (rows : List InstanceRow)
        → IsHost source.now.netlist.now plan.now rows made.old (instance_of sight.old.levels.items) instance ports.now
        → OnOk result (AddsDevice source.now.netlist.now plan.now rows made.old made.new (instance_of sight.old.levels.items) card.now) }
    ensures shared { OnOk result (IfSome shared.new (IsShared plan.now.cards.names made.new.groups card.now)) }
    ensures sight { OnOk result (IsSight sight.new) }
    ensures sees { OnOk result (SeesTheSame sight.old sight.new) }
{
    if made.devices.len() >= DEVICES {
        return Err(refused(card.line, Cause::TooManyDevices));
    }
    let pins = pins_of(&mut made.nets, instance, ports, &device.pins)?;
    if made.nets.len() > NETS {
        return Err(refused(card.line, Cause::TooManyNets));
    }
    let found = group_of(
        alloc,
        sight,
        &card.pairs,
        device.model,
        shared,
        &mut made.groups,
    )?;
    let Some(group) = found else {
        return Err(refused(card.line, Cause::ParamLoop));
    };
    made.devices.push(DeviceRow {
        instance,
        card: number,
        group,
        pins,
    })?;
    Ok(())
}
