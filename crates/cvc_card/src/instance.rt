//! Instance cards.
ghost use Rattle.std.specs.Prelude.{◌≡◌, ◌==◌, ◌&&◌, ◌||◌, not, IfOk, if◌then◌else◌, length, map};
ghost use Rattle.std.specs.List.{position_or_len};
ghost use Rattle.std.specs.Option.{option_map};
ghost use Rattle.cvc_card.specs.declared.card.Ports.TheVariants.{ByName, ByOrder};
ghost use Rattle.cvc_card.specs.Words.{is_slash};
ghost use Rattle.cvc_card.specs.Card.{cell_of, has_twice, instance_of, nets_of};
ghost use Rattle.cvc_card.specs.Reading.{GivesCard, bytes_of, name_of, pairs_held, parts_held, texts_held};

use crate::card::{Card, InstCard, Ports};
use crate::copies::{copied_pairs, copied_texts};
use crate::item::NamedValue;
use crate::parts::Parts;
use crate::words::{first_token, is_slash};
use cvc_base::{Cause, NoMemory, Stop, Text};
use cvc_names::BorrowedNames;
use std::alloc::Global;

/// The place of the first lone `/`, or the number of tokens.
fn slash_place(plain: &[&[u8]]) -> usize
    ensures { result ≡ position_or_len is_slash (texts_held plain.now) }
{
    for (i, token) in plain.iter().enumerate() {
        if is_slash(token) {
            return i;
        }
    }
    plain.len()
}

/// The nets and the cell among the plain tokens.
fn nets_and_cell<'p, 'a>(plain: &'p [&'a [u8]]) -> (&'p [&'a [u8]], Option<&'a [u8]>)
    ensures nets { texts_held result.0.now ≡ nets_of (texts_held plain.now) }
    ensures cell { option_map bytes_of result.1 ≡ cell_of (texts_held plain.now) }
{
    let slash = slash_place(plain);
    if slash < plain.len() {
        return (&plain[..slash], first_token(&plain[slash + 1..]));
    }
    match plain {
        [nets @ .., cell] => (nets, Some(*cell)),
        [] => (plain, None),
    }
}

/// Whether a name stands twice.
fn has_twice(alloc: Global, pairs: &[NamedValue<'_>]) -> Result<bool, NoMemory>
    ensures { IfOk result (λ twice. twice ≡ has_twice (map name_of pairs.now)) }
{
    let mut seen = BorrowedNames::new(alloc);
    for pair in pairs {
        if !seen.insert(pair.name)? {
            return Ok(true);
        }
    }
    Ok(false)
}

/// Whether something stands beside connections by name, or a port is connected twice.
fn are_bad_pins(alloc: Global, nets: &[&[u8]], parts: &Parts<'_>) -> Result<bool, NoMemory>
    ensures { IfOk result (λ bad. bad ≡ (parts.now.by_name
        && (not (length nets.now == 0) || parts.now.late_plain || has_twice (map name_of parts.now.connections.items)))) }
{
    if !parts.by_name {
        return Ok(false);
    }
    if !nets.is_empty() || parts.late_plain {
        return Ok(true);
    }
    has_twice(alloc, parts.connections.as_slice())
}

fn ports_of(alloc: Global, nets: &[&[u8]], parts: &Parts<'_>) -> Result<Ports, NoMemory>
    ensures { IfOk result (λ ports. ports ≡ (if parts.now.by_name then ByName (pairs_held parts.now.connections.items) else ByOrder (texts_held nets.now))) }
{
    if parts.by_name {
        return Ok(Ports::ByName(copied_pairs(alloc, None, parts.connections.as_slice())?));
    }
    Ok(Ports::ByOrder(copied_texts(alloc, nets)?))
}

/// The instance of this name and line that has these parts. Wrong connections by name come before a cell that is missing.
#[tactic(auto, unfolding(crate::specs::Card::instance_of))]
pub(crate) fn instance_card(
    alloc: Global,
    name: &[u8],
    line: u32,
    parts: &Parts<'_>,
) -> Result<Card, Stop>
    ensures { GivesCard result (instance_of name.now line (parts_held parts.now)) }
{
    let (nets, cell) = nets_and_cell(parts.plain.as_slice());
    if are_bad_pins(alloc, nets, parts)? {
        return Err(Stop::At(Cause::BadPins));
    }
    let Some(cell) = cell else {
        return Err(Stop::At(Cause::ShortCard));
    };
    Ok(Card::Inst(InstCard {
        name: Text::of(alloc, name)?,
        cell: Text::of(alloc, cell)?,
        ports: ports_of(alloc, nets, parts)?,
        pairs: copied_pairs(alloc, None, parts.pairs.as_slice())?,
        line,
    }))
}
