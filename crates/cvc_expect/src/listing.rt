//! What a family misses of all rows.
ghost use Rattle.std.specs.Prelude.{◌≡◌, ◌<◌, All, IfOk, length};
ghost use Rattle.cvc_expect.specs.Missed.{fault_of_name, missed_of};
ghost use Rattle.cvc_expect.specs.Text.{IsTellable};
ghost use Rattle.cvc_rows.specs.Refusing.{Answers};

use crate::missed::missed_on;
use crate::{ExpectFault, ExpectRefusal, ExpectRow, Expected, MissedList};
use cvc_bind::{Misnamed, Named, nets_of};
use cvc_flat::Flat;
use cvc_law::Family;
use std::alloc::Global;

impl Named for ExpectRow {
    ghost net_name = { λ row. row.name };

    fn net_name(&self) -> &[u8] {
        self.name.bytes()
    }
}

fn fault_of_name(rows: &[ExpectRow], bad: Misnamed) -> ExpectFault
    requires { bad.place < length rows.now }
    ensures { result ≡ fault_of_name rows.now bad }
{
    ExpectFault {
        line: rows[bad.place].line,
        cause: bad.cause,
    }
}

/// The bounds of a family that differ from what is expected of them, or the first fault in the order of the rows, at its row's line: a name that finds no net
/// (`UnknownNet`), or the net of an earlier row (`SameNetTwice`). The family is one of a circuit that is bound from the flat list. Linear in the rows and in
/// the nets of the flat list.
pub fn list_missed(
    alloc: Global,
    flat: &Flat,
    family: &Family,
    expected: &Expected,
) -> Result<MissedList, ExpectRefusal>
    requires { length family.now ≡ length flat.now.list.nets }
    ensures missed { Answers result (missed_of flat.now.list family.now expected.now) }
    ensures tellable { IfOk result (All (IsTellable expected.now)) }
{
    let rows = expected.as_slice();
    match nets_of(alloc, flat, rows)? {
        Ok(nets) => {
            // no two rows name one net, so there are few of them
            prove!(nets.len() <= flat.nets() as usize);
            Ok(missed_on(alloc, family, &nets, rows)?)
        }
        Err(bad) => Err(ExpectRefusal::At(fault_of_name(rows, bad))),
    }
}
