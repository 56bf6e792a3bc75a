//! What the nets are declared at.
ghost use Rattle.std.specs.Prelude.{◌≡◌, ◌<◌, ◌≤◌, length, map, All, IfOk};
ghost use Rattle.std.specs.List.{range_with_len};
ghost use Rattle.cvc_base.specs.Answers.{Gives};
ghost use Rattle.cvc_bind.specs.DeclaredNets.{AreOrdered, declared, fault_of_name, fixed_of, span_of};
ghost use Rattle.cvc_power.specs.Power.{IsOrdered};

use crate::nets::{Misnamed, Named, nets_of};
use cvc_base::{Fault, FileKind, NetId, NoMemory, Refusal};
use cvc_flat::Flat;
use cvc_law::Fixed;
use cvc_power::{Power, PowerRow};
use std::alloc::Global;

impl Named for PowerRow {
    ghost net_name = { λ row. row.name };

    fn net_name(&self) -> &[u8] {
        self.name.bytes()
    }
}

fn span_of(row: &PowerRow) -> Fixed
    ensures { result ≡ span_of row.now }
{
    Fixed {
        low: row.low,
        high: row.high,
    }
}

fn fault_of_name(rows: &[PowerRow], bad: Misnamed) -> Fault
    requires { bad.place < length rows.now }
    ensures { result ≡ fault_of_name rows.now bad }
{
    Fault::at(FileKind::Power, rows[bad.place].line, bad.cause)
}

// What so many nets are declared at by rows that declare these nets. The first row of a net counts, so they are put from the last on.
fn spread(
    alloc: Global,
    count: usize,
    nets: &[NetId],
    rows: &[PowerRow],
) -> Result<Vec<Option<Fixed>>, NoMemory>
    requires each { length nets.now ≡ length rows.now }
    requires inside { All (λ net. net.0 < count) nets.now }
    requires ordered { All IsOrdered rows.now }
    ensures fixed { IfOk result (λ fixed. fixed.items ≡ map (declared nets.now rows.now) (range_with_len 0 count)) }
    ensures sized { IfOk result (λ fixed. length fixed.items ≡ count) }
    ensures ordered { IfOk result (λ fixed. AreOrdered fixed.items) }
{
    let mut fixed = vec![in alloc; None; count]?;
    for place in (0..rows.len()).rev() {
        let net = nets[place];
        fixed[net.0 as usize] = Some(span_of(&rows[place]));
    }
    Ok(fixed)
}

/// What each net is declared at, or the first fault among the rows.
pub(crate) fn declared(
    alloc: Global,
    flat: &Flat,
    power: &Power,
) -> Result<Vec<Option<Fixed>>, Refusal>
    requires { All IsOrdered power.now }
    ensures fixed { Gives (λ fixed. fixed.items) result (fixed_of flat.now.list power.now) }
    ensures few { IfOk result (λ fixed. length fixed.items ≤ 1000000) }
    ensures sized { IfOk result (λ fixed. length fixed.items ≡ length flat.now.list.nets) }
    ensures ordered { IfOk result (λ fixed. AreOrdered fixed.items) }
{
    let rows = power.as_slice();
    match nets_of(alloc, flat, rows)? {
        Ok(nets) => Ok(spread(alloc, flat.nets() as usize, &nets, rows)?),
        Err(bad) => Err(Refusal::At(fault_of_name(rows, bad))),
    }
}
