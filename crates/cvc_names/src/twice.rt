//! Whether a name stands twice in a list.
ghost use Rattle.std.specs.Prelude.{◌≡◌, IfOk};
ghost use Rattle.cvc_names.specs.Names.{has_twice};

use crate::BorrowedNames;
use cvc_base::{NoMemory, Text};
use std::alloc::Global;

/// Whether a name stands twice. No name is copied.
pub fn has_twice(alloc: Global, names: &[Text]) -> Result<bool, NoMemory>
    ensures { IfOk result (λ twice. twice ≡ has_twice names.now) }
{
    let mut seen = BorrowedNames::new(alloc);
    for name in names {
        if !seen.insert(name.bytes())? {
            return Ok(true);
        }
    }
    Ok(false)
}
