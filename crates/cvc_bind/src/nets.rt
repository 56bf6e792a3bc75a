//! The nets that names find.
ghost use Rattle.std.specs.Prelude.{◌≡◌, ◌<◌, ◌++◌, [], ◌∷◌, ℕ, List, All, IfErr, IfOk, MatchResult, Ok, Err, length, map};
ghost use Rattle.cvc_flat.specs.FindNet.{find_net};
ghost use Rattle.cvc_bind.specs.Nets.{AreMarked, next_net, nets_of};

use cvc_base::{Cause, NetId, NoMemory};
use cvc_flat::Flat;
use std::alloc::Global;

/// What names a net: a row of a file that says something of it.
pub trait Named {
    /// The name.
    ghost net_name: { Self → List ℕ };

    /// The name, as it is looked up among the nets.
    fn net_name(&self) -> &[u8]
        ensures { result.now ≡ net_name self.now };
}

/// A name that is refused: its place in the list, from 0, and why.
#[derive(Clone, Copy, Debug, PartialEq, Eq)]
pub struct Misnamed {
    pub place: usize,
    pub cause: Cause,
}

// The net that the next name finds, behind names that found these nets. They are marked, and it is marked too.
#[tactic(auto, using(crate::proofs::Marks::found_nets))]
fn next_net(flat: &Flat, nets: &[NetId], marks: &mut [bool], name: &[u8]) -> Result<NetId, Misnamed>
    requires sized { length marks.old ≡ length flat.now.list.nets }
    requires marked { AreMarked marks.old nets.now }
    ensures net { result ≡ next_net nets.now (find_net flat.now.list name.now) }
    ensures marked { IfOk result (λ net. AreMarked marks.new (nets.now ++ net ∷ [])) }
    ensures inside { IfOk result (λ net. net.0 < length flat.now.list.nets) }
    ensures place { IfErr result (λ bad. bad.place ≡ length nets.now) }
{
    let place = nets.len();
    let Some(net) = flat.find_net(name) else {
        return Err(Misnamed {
            place,
            cause: Cause::UnknownNet,
        });
    };
    if marks[net.0 as usize] {
        return Err(Misnamed {
            place,
            cause: Cause::SameNetTwice,
        });
    }
    marks[net.0 as usize] = true;
    Ok(net)
}

/// The nets that the names of these rows find, in order, each with the number of the flat list. The first name is refused that finds no net
/// (`UnknownNet`), or that finds the net of an earlier row (`SameNetTwice`). Linear in the names and in the nets of the flat list.
pub fn nets_of<R: Named>(
    alloc: Global,
    flat: &Flat,
    rows: &[R],
) -> Result<Result<Vec<NetId>, Misnamed>, NoMemory>
    ensures nets { let wanted = nets_of flat.now.list (map R.net_name rows.now) in
        IfOk result (λ found. MatchResult found (λ nets. wanted ≡ Ok nets.items) (λ bad. wanted ≡ Err bad)) }

    // A net for each row, and each in the flat list.
    ensures each { IfOk result (λ found. IfOk found (λ nets. length nets.items ≡ length rows.now)) }
    ensures inside { IfOk result (λ found. IfOk found (λ nets. All (λ net. net.0 < length flat.now.list.nets) nets.items)) }
    ensures place { IfOk result (λ found. IfErr found (λ bad. bad.place < length rows.now)) }
{
    let mut marks = vec![in alloc; false; flat.nets() as usize]?;
    let mut nets = Vec::with_capacity(alloc, rows.len())?;
    for row in rows {
        match next_net(flat, &nets, &mut marks, row.net_name()) {
            Ok(net) => nets.push(net)?,
            Err(bad) => return Ok(Err(bad)),
        }
    }
    Ok(Ok(nets))
}
