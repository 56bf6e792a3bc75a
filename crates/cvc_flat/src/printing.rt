//! Printed names in pieces.
ghost use Rattle.std.specs.Prelude.{◌≡◌, ◌<◌, ◌≤◌, All, length};
ghost use Rattle.std.specs.List.{flat_map};
ghost use Rattle.cvc_cdl.specs.Instances.{printed};
ghost use Rattle.cvc_plan.specs.Parts.{text};
ghost use Rattle.cvc_flat.specs.FindNet.{printed_net};
ghost use Rattle.cvc_flat.specs.Held.{device, net, printed_device};
ghost use Rattle.cvc_flat.specs.Tables.{IsTree, names_on, way_at, ways_of};

use crate::flat::Flat;
use crate::rows::InstanceRow;
use crate::way::way_up;
use arrayvec::ArrayVec;
use cvc_base::{DevId, NetId};
use cvc_names::Names;
use cvc_plan::InstancePart;

/// Room for the pieces of a printed name: two for each instance on the way to it, and its own.
pub type Pieces<'a> = ArrayVec<&'a [u8], 129>;

// The pieces of a name behind the names on the way to its instance, in place of those that were there.
fn set_pieces<'a>(
    names: &'a Names,
    parts: &[InstancePart],
    instances: &[InstanceRow],
    instance: u32,
    name: u32,
    pieces: &mut Pieces<'a>,
)
    requires tree { IsTree instances.now }
    requires cards { All (λ r. r.card < length parts.now) instances.now }
    requires parts { All (λ p. p.name < length names.now) parts.now }
    requires inside { instance ≤ length instances.now }
    requires name { name < length names.now }
    ensures { flat_map (λ w. w.now) pieces.new.items ≡ printed (names_on names.now parts.now (way_at (ways_of instances.now) instance)) (text names.now name) }
{
    pieces.clear();
    let mut way = way_up(instances, instance);
    while let Some(card) = way.pop() {
        let part = &parts[card as usize];
        pieces.push(names.get(part.name as usize));
        pieces.push(b"/".as_slice());
    }
    pieces.push(names.get(name as usize));
}

impl Flat {
    /// The printed name of a device in pieces, in place of those that were there: the names of the instances on the way to it, each with a slash
    /// behind it, and its own. The room is lent, so that it is made once for many names.
    pub fn device_pieces<'a>(&'a self, d: DevId, pieces: &mut Pieces<'a>)
        requires { d.0 < length self.now.list.devices }
        ensures { flat_map (λ w. w.now) pieces.new.items ≡ printed_device (device self.now.list d.0) }
    {
        let row = &self.devices[d.0 as usize];
        let name = self.cards[row.card as usize].name;
        set_pieces(
            &self.names,
            &self.parts,
            &self.instances,
            row.instance,
            name,
            pieces,
        );
    }

    /// The printed name of a net in pieces, in the same way.
    pub fn net_pieces<'a>(&'a self, n: NetId, pieces: &mut Pieces<'a>)
        requires { n.0 < length self.now.list.nets }
        ensures { flat_map (λ w. w.now) pieces.new.items ≡ printed_net (net self.now.list n.0) }
    {
        let row = &self.nets[n.0 as usize];
        set_pieces(
            &self.names,
            &self.parts,
            &self.instances,
            row.instance,
            row.name,
            pieces,
        );
    }
}
