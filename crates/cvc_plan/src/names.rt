//! Names by numbers.
ghost use Rattle.std.specs.Prelude.{◌≡◌, ◌<◌, ◌^◌, length, IfOk, OnOk};
ghost use Rattle.cvc_names.specs.Names.{AreApart};
ghost use Rattle.cvc_plan.specs.Names.{Grows};
ghost use Rattle.cvc_plan.specs.Parts.{text};

use cvc_base::NoMemory;
use cvc_names::Names;

// A count as the number of what comes next.
pub(crate) fn narrow(count: usize) -> Result<u32, NoMemory>
    ensures { IfOk result (λ k. k ≡ count) }
{
    match u32::try_from(count) {
        Ok(number) => Ok(number),
        Err(_) => Err(NoMemory),
    }
}

// There are no more names than numbers.
pub(crate) fn check_count(names: &Names) -> Result<(), NoMemory>
    ensures count { OnOk result (length names.now < 2 ^ 32) }
    ensures apart { AreApart names.now }
{
    if names.len() > u32::MAX as usize {
        return Err(NoMemory);
    }
    Ok(())
}

// The number of a name.
pub(crate) fn number(names: &mut Names, name: &[u8]) -> Result<u32, NoMemory>
    ensures grows { IfOk result (λ k. Grows names.old names.new) }
    ensures within { IfOk result (λ k. k < length names.new) }
    ensures text { IfOk result (λ k. text names.new k ≡ name.now) }
    ensures apart { IfOk result (λ k. AreApart names.new) }
{
    let place = names.number(name)?;
    check_count(names)?;
    Ok(place as u32)
}
