//! Dot cards.
ghost use Rattle.std.specs.Prelude.{◌≡◌, ◌==◌, IfOk};
ghost use Rattle.std.specs.List.{position_or_len};
ghost use Rattle.cvc_card.specs.Card.{before_colon, cell_card, first_of, globals_of};
ghost use Rattle.cvc_card.specs.Reading.{GivesCard, parts_held, texts_held};

use crate::card::{Card, CellCard};
use crate::copies::{copied_pairs, copied_texts};
use crate::parts::Parts;
use cvc_base::{Cause, NoMemory, Stop, Text, Texts};
use std::alloc::Global;

/// The begin of a cell. It is short where the cell has no name.
pub(crate) fn cell_card(alloc: Global, line: u32, parts: &Parts<'_>) -> Result<Card, Stop>
    ensures { GivesCard result (cell_card line (parts_held parts.now).plain (parts_held parts.now).pairs) }
{
    let [name, ports @ ..] = parts.plain.as_slice() else {
        return Err(Stop::At(Cause::ShortCard));
    };
    Ok(Card::Subckt(CellCard {
        name: Text::of(alloc, name)?,
        ports: copied_texts(alloc, ports)?,
        pairs: copied_pairs(alloc, None, parts.pairs.as_slice())?,
        line,
    }))
}

/// The name after `.ENDS`, if there is one.
pub(crate) fn end_name(alloc: Global, plain: &[&[u8]]) -> Result<Option<Text>, NoMemory>
    ensures { IfOk result (λ name. name ≡ first_of (texts_held plain.now)) }
{
    match plain {
        [name, ..] => Ok(Some(Text::of(alloc, name)?)),
        [] => Ok(None),
    }
}

/// The place of the first colon, or the token's length.
fn colon_place(token: &[u8]) -> usize
    ensures { result ≡ position_or_len (λ c. c == 58) token.now }
{
    for (i, c) in token.iter().enumerate() {
        if *c == b':' {
            return i;
        }
    }
    token.len()
}

fn before_colon(token: &[u8]) -> &[u8]
    ensures { result.now ≡ before_colon token.now }
{
    &token[..colon_place(token)]
}

/// The names of global nets, each cut before its first colon.
#[tactic(auto, unfolding(crate::specs::Card::globals_of))]
pub(crate) fn global_names(alloc: Global, plain: &[&[u8]]) -> Result<Texts, NoMemory>
    ensures { IfOk result (λ names. names ≡ globals_of (texts_held plain.now)) }
{
    let mut names = Texts::new(alloc);
    for token in plain {
        let name = before_colon(token);
        if !name.is_empty() {
            names.push(Text::of(alloc, name)?)?;
        }
    }
    Ok(names)
}
