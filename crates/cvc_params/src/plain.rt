//! Parameters that are numbers as they stand, and so the same in every instance.
ghost use Rattle.std.specs.Prelude.{◌≡◌, Some, false, IfOk, IfSome, is_some};
ghost use Rattle.cvc_cdl.specs.declared.netlist.Netlist.{Netlist};
ghost use Rattle.cvc_cdl.specs.Instances.{Instance};
ghost use Rattle.cvc_params.specs.Params.{params_in, value_of_text};
ghost use Rattle.cvc_card.specs.Words.{is_number};
ghost use Rattle.cvc_params.specs.Places.{has_loop};
ghost use Rattle.cvc_params.specs.Plain.{are_plain};

use cvc_base::{NoMemory, Pairs, Param, Params, Text, Value};
use cvc_units::read_number;
use std::alloc::Global;

// The value of a text that is a number.
fn number_in(text: &[u8]) -> Option<Value>
    ensures number { is_some result ≡ is_number text.now }
    ensures value { IfSome result (λ value. value ≡ value_of_text text.now) }
{
    match read_number(text) {
        Ok(number) => Some(Value::Number(number)),
        Err(_) => None,
    }
}

/// The parameters of a device whose values are all numbers, in any instance of any netlist; `None` where some value is no number.
#[tactic(auto, using(crate::proofs::Plainly::plain_loops, crate::proofs::Plainly::plain_not))]
pub fn plain_params(alloc: Global, pairs: &Pairs) -> Result<Option<Params>, NoMemory>
    ensures plain { IfOk result (λ found. is_some found ≡ are_plain pairs.now) }
    ensures found { IfOk result (λ found. IfSome found (λ params. (n : Netlist) (p : Instance) → params_in n p pairs.now ≡ Some params)) }
    ensures looped { IfOk result (λ found. IfSome found (λ params. (n : Netlist) (p : Instance) → has_loop n p pairs.now ≡ false)) }
{
    let mut params = Params::new(alloc);
    params.reserve(pairs.len())?;
    for pair in pairs.as_slice() {
        let Some(value) = number_in(pair.value.bytes()) else {
            return Ok(None);
        };
        let name = Text::of(alloc, pair.name.bytes())?;
        params.push(Param { name, value })?;
    }
    Ok(Some(params))
}
