//! The net of a name, found by walking up.
ghost use Rattle.std.specs.Prelude.{◌≡◌, ◌<◌, ◌≤◌, ℕ, List, All, length};
ghost use Rattle.cvc_flat.specs.Resolving.{AreNames, IsNetOf, net_beside};
ghost use Rattle.cvc_flat.specs.Tables.{IsTree};

use crate::rows::InstanceRow;
use cvc_plan::{Connection, InstancePart, NetRow};

// What a port is connected to.
fn connected(connections: &[Connection], name: u32) -> Option<u32>
    ensures { result ≡ net_beside connections.now name }
{
    connections
        .iter()
        .find(|connection| name == connection.port)
        .map(|connection| connection.net)
}

// The net of a name in an instance. Names below `globals` are global.
pub(crate) fn net_row(
    globals: usize,
    parts: &[InstancePart],
    instances: &[InstanceRow],
    instance: u32,
    name: u32,
) -> NetRow
    requires tree { IsTree instances.now }
    requires cards { All (λ r. r.card < length parts.now) instances.now }
    requires inside { instance ≤ length instances.now }
    ensures net { (names : List (List ℕ)) → AreNames names globals parts.now → name < length names
        → IsNetOf names globals parts.now instances.now instance name result }
    ensures inside { result.instance ≤ length instances.now }
{
    let mut at = instance;
    let mut name = name;
    while at > 0 {
        if (name as usize) < globals {
            return NetRow { instance: 0, name };
        }
        let row = instances[at as usize - 1];
        let part = &parts[row.card as usize];
        let Some(net) = connected(&part.connections, name) else {
            return NetRow { instance: at, name };
        };
        name = net;
        at = row.parent;
    }
    NetRow { instance: 0, name }
}
