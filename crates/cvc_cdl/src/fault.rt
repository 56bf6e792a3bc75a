//! Faults of netlists.
ghost use Rattle.std.specs.Prelude.{◌≡◌};
ghost use Rattle.cvc_cdl.specs.Building.{fault_at};

use cvc_base::{Cause, Fault, FileKind};

/// The fault of this cause at a line of the netlist.
pub(crate) fn fault_at(line: u32, cause: Cause) -> Fault
    ensures { result ≡ fault_at line cause }
{
    Fault::at(FileKind::Netlist, line, cause)
}
