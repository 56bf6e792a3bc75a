//! Flat lists in memory.
ghost use Rattle.std.specs.Prelude.{◌≡◌, ◌<◌, ◌≤◌, All, IfSome, length};
ghost use Rattle.std.specs.Option.{option_map};
ghost use Rattle.cvc_io.specs.Causes.{HasCause};
ghost use Rattle.cvc_card.specs.Card.{net_count};
ghost use Rattle.cvc_io.specs.Bytes.{WritesText};
ghost use Rattle.cvc_flat.specs.FindNet.{find_net, printed_net};
ghost use Rattle.cvc_flat.specs.Held.{device, net, IsGroup, printed_device};

use crate::find::{first_named, first_printed};
use crate::finder::Finder;
use crate::rows::{DeviceRow, Group, InstanceRow};
use crate::way::write_path;
use arrayvec::ArrayVec;
use cvc_base::{DevId, NetId, Params, Text};
use cvc_card::Letter;
use cvc_io::{Sink, WriteFailed};
use cvc_names::Names;
use cvc_plan::{DevicePart, InstancePart, NetRow};
use std::marker::Model;

/// The flat list of a netlist: its nets and its devices, by number, with their names as parts. It holds no netlist. Contracts see it as the
/// list alone, and a group for each device.
#[derive(Drop)]
pub struct Flat {
    pub(crate) top: Option<Text>,
    pub(crate) names: Names,
    pub(crate) globals: usize,
    pub(crate) parts: Vec<InstancePart>,
    pub(crate) cards: Vec<DevicePart>,
    pub(crate) groups: Vec<Group>,
    pub(crate) instances: Vec<InstanceRow>,
    pub(crate) devices: Vec<DeviceRow>,
    pub(crate) nets: Vec<NetRow>,
    pub(crate) finder: Finder,
}

impl Model for Flat {
    ghost use Rattle.cvc_flat.specs.Finder.{IsFinder};
    ghost use Rattle.cvc_flat.specs.Held.{Held};
    ghost use Rattle.cvc_flat.specs.Tables.{held_of, IsSound};

    ghost Value = { Held };

    ghost view = { λ f. held_of (record {
      top = f.top;
      names = f.names;
      globals = f.globals;
      parts = f.parts.items;
      cards = f.cards.items;
      groups = f.groups.items;
      instances = f.instances.items;
      devices = f.devices.items;
      nets = f.nets.items;
    }) };

    ghost invariant = { λ f. IsSound (record {
      top = f.top;
      names = f.names;
      globals = f.globals;
      parts = f.parts.items;
      cards = f.cards.items;
      groups = f.groups.items;
      instances = f.instances.items;
      devices = f.devices.items;
      nets = f.nets.items;
    })
        × IsFinder f.names f.parts.items f.instances.items f.nets.items f.finder };
}

impl Flat {
    /// How many devices there are, at most 500,000.
    pub fn devices(&self) -> u32
        ensures count { result ≡ length self.now.list.devices }
        ensures limit { result ≤ 500000 }
    {
        self.devices.len() as u32
    }

    /// How many nets there are, at most 1,000,000.
    pub fn nets(&self) -> u32
        ensures count { result ≡ length self.now.list.nets }
        ensures limit { result ≤ 1000000 }
    {
        self.nets.len() as u32
    }

    // What is kept of a device's card.
    fn part(&self, d: DevId) -> &DevicePart
        requires { d.0 < length self.now.list.devices }
        ensures letter { result.now.letter ≡ (device self.now.list d.0).letter }
        ensures line { result.now.line ≡ (device self.now.list d.0).line }
    {
        let row = &self.devices[d.0 as usize];
        &self.cards[row.card as usize]
    }

    /// The letter of a device.
    pub fn letter(&self, d: DevId) -> Letter
        requires { d.0 < length self.now.list.devices }
        ensures { result ≡ (device self.now.list d.0).letter }
    {
        self.part(d).letter
    }

    /// The first line of a device's card.
    pub fn line(&self, d: DevId) -> u32
        requires { d.0 < length self.now.list.devices }
        ensures { result ≡ (device self.now.list d.0).line }
    {
        self.part(d).line
    }

    /// The nets of a device's pins in card order, as many as its letter has.
    pub fn pins(&self, d: DevId) -> ArrayVec<NetId, 4>
        requires { d.0 < length self.now.list.devices }
        ensures pins { result.items ≡ (device self.now.list d.0).pins }
        ensures count { length result.items ≡ net_count (device self.now.list d.0).letter }
        ensures nets { All (λ n. n.0 < length self.now.list.nets) result.items }
    {
        let row = &self.devices[d.0 as usize];
        let mut pins = ArrayVec::new();
        for pin in row.pins.as_slice() {
            pins.push(*pin);
        }
        pins
    }

    /// The model that a device's card names.
    pub fn model(&self, d: DevId) -> &[u8]
        requires { d.0 < length self.now.list.devices }
        ensures { result.now ≡ (device self.now.list d.0).model }
    {
        let row = &self.devices[d.0 as usize];
        let group = &self.groups[row.group as usize];
        self.names.get(group.model as usize)
    }

    /// The parameters of a device: its card's pairs, in order, with their values.
    pub fn params(&self, d: DevId) -> &Params
        requires { d.0 < length self.now.list.devices }
        ensures { result.now ≡ (device self.now.list d.0).params }
    {
        let row = &self.devices[d.0 as usize];
        &self.groups[row.group as usize].params
    }

    /// How many groups of devices there are, at most 500,000.
    pub fn groups(&self) -> u32
        ensures count { result ≡ self.now.group_count }
        ensures limit { result ≤ 500000 }
    {
        self.groups.len() as u32
    }

    /// The group of a device. Devices of one group have the same model and the same parameters.
    pub fn group(&self, d: DevId) -> u32
        requires { d.0 < length self.now.list.devices }
        ensures { IsGroup self.now d.0 result }
    {
        self.devices[d.0 as usize].group
    }

    /// The name of the top; `None` is the main level.
    pub fn top_name(&self) -> Option<&[u8]>
        ensures { option_map (λ name. name.now) result ≡ self.now.list.top }
    {
        match &self.top {
            Some(name) => Some(name.bytes()),
            None => None,
        }
    }

    // The place of the net of this name.
    fn place_of_net(&self, name: &[u8]) -> Option<usize>
        ensures inside { IfSome result (λ k. k < 1000000) }
        ensures place { result ≡ find_net self.now.list name.now }
    {
        match first_printed(
            &self.names,
            &self.parts,
            &self.instances,
            &self.nets,
            &self.finder,
            name,
        ) {
            Some(place) => Some(place),
            None => first_named(
                self.globals,
                &self.names,
                &self.parts,
                &self.instances,
                &self.nets,
                &self.finder,
                name,
            ),
        }
    }

    /// The net of a name: the first net that is printed so; else the net that the pieces of the name between `/` lead to, instances from the top
    /// on and a name in the last of them. `None` exactly where an instance is missing or the net is not in the list. It is looked up by the hash of
    /// the name.
    pub fn find_net(&self, name: &[u8]) -> Option<NetId>
        ensures { option_map (λ n. n.0) result ≡ find_net self.now.list name.now }
    {
        let place = self.place_of_net(name)?;
        Some(NetId(place as u32))
    }

    /// Writes the printed name of a device: the names of the instances on the way to it and its own, joined by `/`. It takes no memory. Where
    /// the sink fails, a part of the name was written.
    pub fn path_of<K: Sink>(&self, d: DevId, sink: &mut K) -> Result<(), WriteFailed>
        requires { d.0 < length self.now.list.devices }
        ensures cause { HasCause (K.faults sink.old) (K.faults sink.new) result }
        ensures written { WritesText (K.written sink.old) (K.written sink.new) result (printed_device (device self.now.list d.0)) }
    {
        let row = &self.devices[d.0 as usize];
        let name = self.cards[row.card as usize].name;
        write_path(
            &self.names,
            &self.parts,
            &self.instances,
            row.instance,
            name,
            sink,
        )
    }

    /// Writes the printed name of a net: the names of the instances on the way to it and its own, joined by `/`. It takes no memory. Where
    /// the sink fails, a part of the name was written.
    pub fn net_path_of<K: Sink>(&self, n: NetId, sink: &mut K) -> Result<(), WriteFailed>
        requires { n.0 < length self.now.list.nets }
        ensures cause { HasCause (K.faults sink.old) (K.faults sink.new) result }
        ensures written { WritesText (K.written sink.old) (K.written sink.new) result (printed_net (net self.now.list n.0)) }
    {
        let row = &self.nets[n.0 as usize];
        write_path(
            &self.names,
            &self.parts,
            &self.instances,
            row.instance,
            row.name,
            sink,
        )
    }
}
