//! The tokens after a card's first, as pairs and single tokens.
ghost use Rattle.std.specs.Prelude.{◌≡◌, ◌<◌, length, MatchResult, Ok, Err};
ghost use Rattle.cvc_card.specs.Items.{alone, begins_with_equals, named};
ghost use Rattle.cvc_card.specs.Reading.{TakesItem, item_of, texts_of};

use crate::words::{is_broken_bracket, is_equals, is_expression, without_dollar};
use cvc_base::{Cause, Token};

/// A pair as the card writes it, but for one dollar sign at the front of its name.
#[derive(Clone, Copy)]
pub(crate) struct NamedValue<'a> {
    pub name: &'a [u8],
    pub value: &'a [u8],
}

/// A pair, or a token that is part of none.
#[derive(Clone, Copy)]
pub(crate) enum Item<'a> {
    Named(NamedValue<'a>),
    Alone(&'a [u8]),
}

fn named<'a>(name: &'a [u8], value: &'a [u8]) -> Result<Item<'a>, Cause>
    ensures { MatchResult result (λ item. named name.now value.now ≡ Ok (item_of item)) (λ e. named name.now value.now ≡ Err e) }
{
    let bare = without_dollar(name);
    if is_equals(name) || bare.is_empty() || is_equals(value) {
        return Err(Cause::BadParam);
    }
    if is_expression(value) {
        return Err(Cause::Unsupported);
    }
    Ok(Item::Named(NamedValue { name: bare, value }))
}

fn alone(token: &[u8]) -> Result<Item<'_>, Cause>
    ensures { MatchResult result (λ item. alone token.now ≡ Ok (item_of item)) (λ e. alone token.now ≡ Err e) }
{
    if is_equals(token) || is_broken_bracket(token) {
        return Err(Cause::BadParam);
    }
    if is_expression(token) {
        return Err(Cause::Unsupported);
    }
    Ok(Item::Alone(token))
}

fn begins_with_equals(tokens: &[Token]) -> bool
    ensures { result ≡ begins_with_equals (texts_of tokens.now) }
{
    match tokens {
        [first, ..] => is_equals(first.text.bytes()),
        [] => false,
    }
}

/// The item at the front of the tokens, and the tokens after it; or the fault there.
pub(crate) fn next_item(tokens: &[Token]) -> Result<(Item<'_>, &[Token]), Cause>
    requires { 0 < length tokens.now }
    ensures { TakesItem tokens.now result }
{
    let token = tokens[0].text.bytes();
    let rest = &tokens[1..];
    if !begins_with_equals(rest) {
        return Ok((alone(token)?, rest));
    }
    if rest.len() < 2 {
        return Err(Cause::BadParam);
    }
    Ok((named(token, rest[1].text.bytes())?, &rest[2..]))
}
