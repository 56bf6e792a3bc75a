//! The words of kinds.
ghost use Rattle.std.specs.Prelude.{◌≡◌, find};
ghost use Rattle.cvc_model.specs.Words.{word_of_kind, kinds, kind_of as kind_in};

use cvc_base::Kind;
use cvc_rows::is_word;

const KINDS: [Kind; 7] = [
    Kind::Nmos,
    Kind::Pmos,
    Kind::Resistor,
    Kind::Diode,
    Kind::Capacitor,
    Kind::Inductor,
    Kind::Bipolar,
];

fn kind_word(kind: Kind) -> &'static [u8]
    ensures { result.now ≡ word_of_kind kind }
{
    match kind {
        Kind::Nmos => b"nmos",
        Kind::Pmos => b"pmos",
        Kind::Resistor => b"resistor",
        Kind::Diode => b"diode",
        Kind::Capacitor => b"capacitor",
        Kind::Inductor => b"inductor",
        Kind::Bipolar => b"bipolar",
    }
}

// The kind that a word names.
pub(crate) fn kind_of(text: &[u8]) -> Option<Kind>
    ensures { result ≡ kind_in text.now }
{
    KINDS
        .iter()
        .copied()
        .find(|kind| is_word(text, kind_word(*kind)))
}
