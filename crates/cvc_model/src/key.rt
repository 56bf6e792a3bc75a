//! The keys of model rows.
ghost use Rattle.std.specs.Prelude.{◌≡◌, find, map, option_map};
ghost use Rattle.std.specs.Str.{str_eq_ignore_ascii_case};
ghost use Rattle.cvc_model.specs.Settings.{key_of as key_in, keys_of as keys_in};
ghost use Rattle.cvc_model.specs.Drafting.{word_of_key};

use cvc_base::Kind;
use cvc_rows::is_word;

/// What a voltage of a row is for.
#[derive(Clone, Copy, Debug, PartialEq, Eq)]
pub(crate) enum Key {
    Vth,
    Vj,
    Vgs,
    Vgd,
    Vds,
    Vbs,
    Vbd,
    Vbg,
    Vf,
}

const MOS_KEYS: [Key; 8] = [
    Key::Vth,
    Key::Vj,
    Key::Vgs,
    Key::Vgd,
    Key::Vds,
    Key::Vbs,
    Key::Vbd,
    Key::Vbg,
];

const DIODE_KEYS: [Key; 1] = [Key::Vf];

fn key_word(key: Key) -> &'static [u8]
    ensures { result.now ≡ word_of_key key }
{
    match key {
        Key::Vth => b"vth",
        Key::Vj => b"vj",
        Key::Vgs => b"vgs",
        Key::Vgd => b"vgd",
        Key::Vds => b"vds",
        Key::Vbs => b"vbs",
        Key::Vbd => b"vbd",
        Key::Vbg => b"vbg",
        Key::Vf => b"vf",
    }
}

fn key_among(keys: &[Key], text: &[u8]) -> Option<Key>
    ensures { result ≡ find (λ key. str_eq_ignore_ascii_case text.now (word_of_key key)) keys.now }
{
    keys.iter()
        .copied()
        .find(|key| is_word(text, key_word(*key)))
}

fn keys_of(kind: Kind) -> &'static [Key]
    ensures { map word_of_key result.now ≡ keys_in kind }
{
    match kind {
        Kind::Nmos | Kind::Pmos => &MOS_KEYS,
        Kind::Diode => &DIODE_KEYS,
        Kind::Resistor | Kind::Capacitor | Kind::Inductor | Kind::Bipolar => &[],
    }
}

// The key of this kind that a text names.
pub(crate) fn key_of(kind: Kind, text: &[u8]) -> Option<Key>
    ensures { option_map word_of_key result ≡ key_in kind text.now }
{
    key_among(keys_of(kind), text)
}
