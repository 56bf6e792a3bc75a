//! Laws of edits. Each is the contract of a function that does nothing.
ghost use Rattle.std.specs.Prelude.{◌≡◌, ℕ, List, Ok};
ghost use Rattle.cvc_power.specs.declared.row.PowerRow.{PowerRow};
ghost use Rattle.cvc_power.specs.Power.{power_of};
ghost use Rattle.cvc_delta.specs.Edits.{AreApart};
ghost use Rattle.cvc_delta.specs.Wider.{WideningKeepsABase};

use cvc_law::laws::there_is_exactly_one_least_family;
use cvc_serial::laws::wider_supplies_give_a_wider_least_family;

/// No two rows of a power file have one name.
pub fn rows_of_a_power_file_are_apart()
    ensures { (bytes : List ℕ) (rows : List PowerRow) → power_of bytes ≡ Ok rows → AreApart rows }
{}

/// What may be the start of a recheck may be it still where rows were widened.
pub fn widening_keeps_a_base()
    ensures { WideningKeepsABase }
{
    there_is_exactly_one_least_family();
    wider_supplies_give_a_wider_least_family();
}
