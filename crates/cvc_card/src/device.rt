//! Device cards.
ghost use Rattle.std.specs.Prelude.{◌≡◌};
ghost use Rattle.std.specs.List.{filter, find};
ghost use Rattle.std.specs.Option.{option_map, option_to_list};
ghost use Rattle.cvc_card.specs.Words.{is_number};
ghost use Rattle.cvc_card.specs.Parts.{last_of, or_else};
ghost use Rattle.cvc_card.specs.Card.{device_of, has_value, is_word, letter_name, model_among, net_count, value_pairs};
ghost use Rattle.cvc_card.specs.Reading.{GivesCard, bytes_of, pair_of, parts_held, texts_held};

use crate::card::{Card, DeviceCard, Letter};
use crate::copies::{copied_pairs, copied_texts};
use crate::item::NamedValue;
use crate::parts::Parts;
use crate::words::{first_token, is_number};
use cvc_base::{Cause, Stop, Text};
use std::alloc::Global;

fn net_count(letter: Letter) -> usize
    ensures { result ≡ net_count letter }
{
    match letter {
        Letter::M => 4,
        Letter::Q => 3,
        Letter::D | Letter::R | Letter::C | Letter::L => 2,
    }
}

fn letter_name(letter: Letter) -> &'static [u8]
    ensures { result.now ≡ letter_name letter }
{
    match letter {
        Letter::M => b"M",
        Letter::D => b"D",
        Letter::R => b"R",
        Letter::C => b"C",
        Letter::L => b"L",
        Letter::Q => b"Q",
    }
}

fn has_value(letter: Letter) -> bool
    ensures { result ≡ has_value letter }
{
    matches!(letter, Letter::R | Letter::C | Letter::L)
}

/// The first number and the first word among tokens.
#[derive(Clone, Copy)]
struct Firsts<'a> {
    number: Option<&'a [u8]>,
    word: Option<&'a [u8]>,
}

fn firsts_of<'a>(tokens: &[&'a [u8]]) -> Firsts<'a>
    ensures number { option_map bytes_of result.number ≡ find is_number (texts_held tokens.now) }
    ensures word { option_map bytes_of result.word ≡ find is_word (texts_held tokens.now) }
{
    let mut number = None;
    let mut word = None;
    for token in tokens {
        if is_number(token) {
            number = number.or(Some(*token));
        } else {
            word = word.or(Some(*token));
        }
    }
    Firsts { number, word }
}

fn last_word<'a>(tokens: &[&'a [u8]]) -> Option<&'a [u8]>
    ensures { option_map bytes_of result ≡ last_of (filter is_word (texts_held tokens.now)) }
{
    let mut last = None;
    for token in tokens {
        if !is_number(token) {
            last = Some(*token);
        }
    }
    last
}

/// What the plain tokens after the nets say: the model, where the card names none, and the value of a resistor, a capacitor or an inductor.
#[derive(Drop)]
struct Tail<'a> {
    model: Option<&'a [u8]>,
    value: Option<NamedValue<'a>>,
}

/// The value of a device that may have one, under the letter's name.
fn named_value<'a>(letter: Letter, number: Option<&'a [u8]>) -> Option<NamedValue<'a>>
    ensures { option_map pair_of result ≡ option_map (λ value. record { name = letter_name letter; value = value.now }) number.entry }
{
    let value = number?;
    Some(NamedValue {
        name: letter_name(letter),
        value,
    })
}

fn tail_of<'a>(letter: Letter, more: &[&'a [u8]]) -> Tail<'a>
    ensures model { option_map bytes_of result.model ≡ model_among letter (texts_held more.now) }
    ensures value { option_to_list (option_map pair_of result.value) ≡ value_pairs letter (texts_held more.now) }
{
    if has_value(letter) {
        let firsts = firsts_of(more);
        return Tail {
            model: Some(firsts.word.unwrap_or(letter_name(letter))),
            value: named_value(letter, firsts.number),
        };
    }
    let model = match letter {
        Letter::Q => last_word(more),
        _ => first_token(more),
    };
    Tail { model, value: None }
}

/// The model that a card names, or else the one among its plain tokens.
fn chosen_model<'a>(named: Option<&'a [u8]>, among: Option<&'a [u8]>) -> Option<&'a [u8]>
    ensures { option_map bytes_of result ≡ or_else (option_map bytes_of named.entry) (option_map bytes_of among.entry) }
{
    match named {
        Some(model) => Some(model),
        None => among,
    }
}

/// The device of this letter, name and line that has these parts. It is short where a net or the model is missing.
#[tactic(auto, unfolding(crate::specs::Card::device_of))]
pub(crate) fn device_card(
    alloc: Global,
    letter: Letter,
    name: &[u8],
    line: u32,
    parts: &Parts<'_>,
) -> Result<Card, Stop>
    ensures { GivesCard result (device_of letter name.now line (parts_held parts.now)) }
{
    let plain = parts.plain.as_slice();
    let count = net_count(letter);
    if plain.len() < count {
        return Err(Stop::At(Cause::ShortCard));
    }
    let (nets, more) = plain.split_at(count);
    let tail = tail_of(letter, more);
    let Some(model) = chosen_model(parts.model, tail.model) else {
        return Err(Stop::At(Cause::ShortCard));
    };
    Ok(Card::Device(DeviceCard {
        letter,
        name: Text::of(alloc, name)?,
        nets: copied_texts(alloc, nets)?,
        model: Text::of(alloc, model)?,
        pairs: copied_pairs(alloc, tail.value, parts.pairs.as_slice())?,
        line,
    }))
}
