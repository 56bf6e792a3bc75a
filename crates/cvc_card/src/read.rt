//! Reading a card.
ghost use Rattle.std.specs.Prelude.{◌≡◌, ◌<◌, length, IfOk, IfErr, Ok};
ghost use Rattle.cvc_card.specs.Card.{card_from, card_of};
ghost use Rattle.cvc_card.specs.Formed.{IsFormed};
ghost use Rattle.cvc_card.specs.Refused.{IsRefused};
ghost use Rattle.cvc_card.specs.Reading.{GivesCard, parts_held};

use crate::card::Card;
use crate::copies::copied_pairs;
use crate::device::device_card;
use crate::dots::{cell_card, end_name, global_names};
use crate::form::{Form, form_of};
use crate::instance::instance_card;
use crate::parts::{Parts, parts_of};
use cvc_base::{Fault, FileKind, Line, Refusal, Stop};
use std::alloc::Global;

#[tactic(auto, unfolding(crate::specs::Card::card_from))]
fn card_from(
    alloc: Global,
    form: Form,
    name: &[u8],
    line: u32,
    parts: &Parts<'_>,
) -> Result<Card, Stop>
    ensures { GivesCard result (card_from form name.now line (parts_held parts.now)) }
{
    match form {
        Form::Device(letter) => device_card(alloc, letter, name, line, parts),
        Form::Inst => instance_card(alloc, name, line, parts),
        Form::Subckt => cell_card(alloc, line, parts),
        Form::Ends => Ok(Card::Ends(end_name(alloc, parts.plain.as_slice())?)),
        Form::Global => Ok(Card::Global(global_names(alloc, parts.plain.as_slice())?)),
        Form::Params => Ok(Card::Params(copied_pairs(alloc, None, parts.pairs.as_slice())?)),
    }
}

fn card(alloc: Global, line: &Line) -> Result<Card, Stop>
    requires { 0 < length line.now.tokens }
    ensures { GivesCard result (card_of line.now) }
{
    let tokens = line.tokens.as_slice();
    let name = tokens[0].text.bytes();
    let Some(form) = form_of(line.directive, name)? else {
        return Ok(Card::Ignored);
    };
    let parts = parts_of(alloc, form, &tokens[1..])?;
    card_from(alloc, form, name, line.first, &parts)
}

/// The card that a logical line of a netlist says. The line has a token.
///
/// It is refused, at its first physical line, with the first cause of these: its first token begins no known card (`UnknownCard`) or
/// one that the check gives no meaning to (`Unsupported`); the leftmost of the equals signs without name or value, the brackets
/// without end (`BadParam`) and the expressions (`Unsupported`); something beside connections by name, or a port connected twice
/// (`BadPins`); a net, a model, a cell or a cell's name that is missing (`ShortCard`). Without memory it answers `NoMemory`.
pub fn read_card(alloc: Global, line: &Line) -> Result<Card, Refusal>
    requires { 0 < length line.now.tokens }
    ensures card { IfOk result (λ card. card_of line.now ≡ Ok card) }
    ensures formed { IfOk result (IsFormed line.now.first) }
    ensures fault { IfErr result (IsRefused line.now) }
{
    match card(alloc, line) {
        Ok(card) => Ok(card),
        Err(Stop::NoMemory) => Err(Refusal::NoMemory),
        Err(Stop::At(cause)) => Err(Refusal::At(Fault::at(FileKind::Netlist, line.first, cause))),
    }
}
