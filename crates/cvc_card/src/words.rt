//! Tests of one token.
ghost use Rattle.std.specs.Prelude.{◌≡◌, IsTrue};
ghost use Rattle.cvc_card.specs.Words.{between_brackets, is_bracket, is_broken_bracket, is_closed, is_dollar, is_equals, is_expression, is_keyword};
ghost use Rattle.cvc_card.specs.Words.{is_model_bracket, is_number, is_slash, without_dollar};
ghost use Rattle.std.specs.Option.{option_map};
ghost use Rattle.cvc_card.specs.Card.{first_of};
ghost use Rattle.cvc_card.specs.Reading.{bytes_of, texts_held};

use cvc_units::read_number;

/// Whether the text is this keyword, without regard to ASCII case.
pub(crate) fn is_keyword(word: &[u8], text: &[u8]) -> bool
    ensures { result ≡ is_keyword word.now text.now }
{
    text.eq_ignore_ascii_case(word)
}

pub(crate) fn is_equals(text: &[u8]) -> bool
    ensures { result ≡ is_equals text.now }
{
    text == b"=".as_slice()
}

pub(crate) fn is_slash(text: &[u8]) -> bool
    ensures { result ≡ is_slash text.now }
{
    text == b"/".as_slice()
}

/// Whether the text begins with a dollar sign.
pub(crate) fn is_dollar(text: &[u8]) -> bool
    ensures { result ≡ is_dollar text.now }
{
    match text {
        [first, ..] => *first == b'$',
        [] => false,
    }
}

/// The text without one dollar sign at its front.
pub(crate) fn without_dollar(text: &[u8]) -> &[u8]
    ensures { result.now ≡ without_dollar text.now }
{
    match text {
        [b'$', rest @ ..] => rest,
        _ => text,
    }
}

/// Whether the text begins a quoted text or an expression.
pub(crate) fn is_expression(text: &[u8]) -> bool
    ensures { result ≡ is_expression text.now }
{
    match text {
        [first, ..] => *first == b'\'' || *first == b'"' || *first == b'{' || *first == b'(',
        [] => false,
    }
}

fn is_bracket(text: &[u8]) -> bool
    ensures { result ≡ is_bracket text.now }
{
    text.starts_with(b"$[")
}

fn is_closed(text: &[u8]) -> bool
    ensures { result ≡ is_closed text.now }
{
    text.ends_with(b"]") && text.len() > 3
}

/// Whether the text is `$[m]`, with an `m` that is not empty.
pub(crate) fn is_model_bracket(text: &[u8]) -> bool
    ensures { result ≡ is_model_bracket text.now }
{
    is_bracket(text) && is_closed(text)
}

/// Whether the text is `$[]`, or `$[` without `]` at its end.
pub(crate) fn is_broken_bracket(text: &[u8]) -> bool
    ensures { result ≡ is_broken_bracket text.now }
{
    is_bracket(text) && !is_closed(text)
}

/// The `m` of `$[m]`.
pub(crate) fn between_brackets(text: &[u8]) -> &[u8]
    requires { IsTrue (is_model_bracket text.now) }
    ensures { result.now ≡ between_brackets text.now }
{
    &text[2..text.len() - 1]
}

/// The first of these tokens.
pub(crate) fn first_token<'a>(tokens: &[&'a [u8]]) -> Option<&'a [u8]>
    ensures { option_map bytes_of result ≡ first_of (texts_held tokens.now) }
{
    match tokens {
        [token, ..] => Some(*token),
        [] => None,
    }
}

pub(crate) fn is_number(text: &[u8]) -> bool
    ensures { result ≡ is_number text.now }
{
    read_number(text).is_ok()
}
