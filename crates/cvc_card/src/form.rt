//! The form of a card, by its first token.
ghost use Rattle.std.specs.Prelude.{◌≡◌};
ghost use Rattle.cvc_card.specs.Forms.{card_form, form_of, ignored_words, is_one_of, letter_form, unsupported_words};

use crate::card::Letter;
use crate::words::is_keyword;
use cvc_base::Cause;

/// How the tokens after the first are read.
#[derive(Clone, Copy)]
pub(crate) enum Form {
    Device(Letter),
    Inst,
    Subckt,
    Ends,
    Global,
    Params,
}

fn letter_form(token: &[u8]) -> Result<Option<Form>, Cause>
    ensures { result ≡ letter_form token.now }
{
    let [first, ..] = token else {
        return Err(Cause::UnknownCard);
    };
    let letter = match first.to_ascii_uppercase() {
        b'M' => Letter::M,
        b'D' => Letter::D,
        b'R' => Letter::R,
        b'C' => Letter::C,
        b'L' => Letter::L,
        b'Q' => Letter::Q,
        b'X' => return Ok(Some(Form::Inst)),
        b'V' | b'I' | b'J' => return Err(Cause::Unsupported),
        _ => return Err(Cause::UnknownCard),
    };
    Ok(Some(Form::Device(letter)))
}

fn is_ignored(token: &[u8]) -> bool
    ensures { result ≡ is_one_of ignored_words token.now }
{
    is_keyword(b".model", token)
        || is_keyword(b".option", token)
        || is_keyword(b".options", token)
        || is_keyword(b".temp", token)
        || is_keyword(b".end", token)
}

fn is_unsupported(token: &[u8]) -> bool
    ensures { result ≡ is_one_of unsupported_words token.now }
{
    is_keyword(b".include", token) || is_keyword(b".inc", token) || is_keyword(b".lib", token)
}

fn card_form(token: &[u8]) -> Result<Option<Form>, Cause>
    ensures { result ≡ card_form token.now }
{
    if is_ignored(token) {
        return Ok(None);
    }
    if is_unsupported(token) {
        return Err(Cause::Unsupported);
    }
    if is_keyword(b".subckt", token) {
        return Ok(Some(Form::Subckt));
    }
    if is_keyword(b".ends", token) {
        return Ok(Some(Form::Ends));
    }
    if is_keyword(b".global", token) {
        return Ok(Some(Form::Global));
    }
    if is_keyword(b".param", token) {
        return Ok(Some(Form::Params));
    }
    letter_form(token)
}

/// The form of a line with this first token, or `None` where the line is ignored.
#[tactic(auto, unfolding(crate::specs::Forms::form_of))]
pub(crate) fn form_of(directive: bool, token: &[u8]) -> Result<Option<Form>, Cause>
    ensures { result ≡ form_of directive token.now }
{
    if !directive {
        return card_form(token);
    }
    if is_keyword(b"*.global", token) {
        return Ok(Some(Form::Global));
    }
    Ok(None)
}
