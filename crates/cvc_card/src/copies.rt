//! Copies of the texts that a card keeps.
ghost use Rattle.std.specs.Prelude.{◌≡◌, ◌++◌, IfOk};
ghost use Rattle.std.specs.Option.{option_map, option_to_list};
ghost use Rattle.cvc_card.specs.Reading.{pair_of, pairs_held, texts_held};

use crate::item::NamedValue;
use cvc_base::{NoMemory, Pair, Pairs, Text, Texts};
use std::alloc::Global;

/// Copies of these texts, in order.
pub(crate) fn copied_texts(alloc: Global, texts: &[&[u8]]) -> Result<Texts, NoMemory>
    ensures { IfOk result (λ copies. copies ≡ texts_held texts.now) }
{
    let mut copies = Texts::new(alloc);
    copies.reserve(texts.len())?;
    for text in texts {
        copies.push(Text::of(alloc, text)?)?;
    }
    Ok(copies)
}

fn copied_pair(alloc: Global, pair: &NamedValue<'_>) -> Result<Pair, NoMemory>
    ensures { IfOk result (λ copy. copy ≡ pair_of pair.now) }
{
    Ok(Pair {
        name: Text::of(alloc, pair.name)?,
        value: Text::of(alloc, pair.value)?,
    })
}

/// Copies of a first pair, if there is one, and of these.
pub(crate) fn copied_pairs(
    alloc: Global,
    first: Option<NamedValue<'_>>,
    pairs: &[NamedValue<'_>],
) -> Result<Pairs, NoMemory>
    ensures { IfOk result (λ copies. copies ≡ option_to_list (option_map pair_of first.entry) ++ pairs_held pairs.now) }
{
    let mut copies = Pairs::new(alloc);
    copies.reserve(pairs.len() + usize::from(first.is_some()))?;
    if let Some(pair) = first {
        copies.push(copied_pair(alloc, &pair)?)?;
    }
    for pair in pairs {
        copies.push(copied_pair(alloc, pair)?)?;
    }
    Ok(copies)
}
