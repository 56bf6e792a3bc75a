//! What tokens of rows say.
ghost use Rattle.std.specs.Prelude.{◌≡◌};
ghost use Rattle.std.specs.Str.{str_eq_ignore_ascii_case};
ghost use Rattle.cvc_rows.specs.Tokens.{voltage_of};

use cvc_base::{Cause, Mv};
use cvc_units::read_mv;

/// Whether two texts are one word, without regard to case.
pub fn is_word(text: &[u8], word: &[u8]) -> bool
    ensures { result ≡ str_eq_ignore_ascii_case text.now word.now }
{
    text.eq_ignore_ascii_case(word)
}

/// The voltage that a text is. A text that is none is `BadVoltage`, whatever it lacks.
pub fn read_voltage(text: &[u8]) -> Result<Mv, Cause>
    ensures { result ≡ voltage_of text.now }
{
    match read_mv(text) {
        Ok(millivolts) => Mv::new(millivolts).ok_or(Cause::BadVoltage),
        Err(_) => Err(Cause::BadVoltage),
    }
}
