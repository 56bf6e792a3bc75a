//! The parts of a card's items.
ghost use Rattle.std.specs.Prelude.{◌≡◌, [], OnOk};
ghost use Rattle.cvc_card.specs.Items.{Named, Alone, items_of};
ghost use Rattle.cvc_card.specs.Parts.{is_device, is_plain, is_pins, parts_of};
ghost use Rattle.cvc_card.specs.Reading.{GivesParts, added, item_of, pair_of, parts_held, texts_of};

use crate::form::Form;
use crate::item::{Item, NamedValue, next_item};
use crate::words::{between_brackets, is_dollar, is_keyword, is_model_bracket, is_slash};
use cvc_base::{NoMemory, Stop, Token};
use std::alloc::Global;

/// What the items of a card say.
#[derive(Drop)]
pub(crate) struct Parts<'a> {
    /// The plain tokens.
    pub plain: Vec<&'a [u8]>,
    /// The model that the card names.
    pub model: Option<&'a [u8]>,
    /// The parameters.
    pub pairs: Vec<NamedValue<'a>>,
    /// Whether `$PINS` stands.
    pub by_name: bool,
    /// Whether a plain token stands after `$PINS`.
    pub late_plain: bool,
    /// The pairs after `$PINS`.
    pub connections: Vec<NamedValue<'a>>,
}

fn is_device(form: Form) -> bool
    ensures { result ≡ is_device form }
{
    matches!(form, Form::Device(_))
}

fn is_plain(form: Form, token: &[u8]) -> bool
    ensures { result ≡ is_plain form token.now }
{
    let passes_slashes = !matches!(form, Form::Inst);
    let passes_params = matches!(form, Form::Inst | Form::Subckt);
    !(is_dollar(token)
        || (passes_slashes && is_slash(token))
        || (passes_params && is_keyword(b"params:", token)))
}

fn is_pins(form: Form, token: &[u8]) -> bool
    ensures { result ≡ is_pins form (Alone token.now) }
{
    matches!(form, Form::Inst) && is_keyword(b"$pins", token)
}

impl<'a> Parts<'a> {
    fn new(alloc: Global) -> Parts<'a>
        ensures { (form : Form) → parts_held result ≡ parts_of form [] }
    {
        Parts {
            plain: Vec::new(alloc),
            model: None,
            pairs: Vec::new(alloc),
            by_name: false,
            late_plain: false,
            connections: Vec::new(alloc),
        }
    }

    fn add_pair(&mut self, form: Form, pair: NamedValue<'a>) -> Result<(), NoMemory>
        ensures { OnOk result (parts_held self.new ≡ added form (parts_held self.old) (Named (pair_of pair.entry))) }
    {
        if is_device(form) && is_keyword(b".model", pair.name) {
            self.model = Some(pair.value);
        } else if self.by_name {
            self.connections.push(pair)?;
        } else {
            self.pairs.push(pair)?;
        }
        Ok(())
    }

    fn add_token(&mut self, form: Form, token: &'a [u8]) -> Result<(), NoMemory>
        ensures { OnOk result (parts_held self.new ≡ added form (parts_held self.old) (Alone token.now)) }
    {
        if is_plain(form, token) {
            self.late_plain = self.late_plain || self.by_name;
            self.plain.push(token)?;
        } else if is_device(form) && is_model_bracket(token) {
            self.model = Some(between_brackets(token));
        } else if is_pins(form, token) {
            self.by_name = true;
        }
        Ok(())
    }

    fn add(&mut self, form: Form, item: Item<'a>) -> Result<(), NoMemory>
        ensures { OnOk result (parts_held self.new ≡ added form (parts_held self.old) (item_of item.entry)) }
    {
        match item {
            Item::Named(pair) => self.add_pair(form, pair),
            Item::Alone(token) => self.add_token(form, token),
        }
    }
}

/// The parts of a card of this form, from the tokens after its first; or the fault that stands leftmost among them.
pub(crate) fn parts_of<'a>(
    alloc: Global,
    form: Form,
    tokens: &'a [Token],
) -> Result<Parts<'a>, Stop>
    ensures { GivesParts form result (items_of (texts_of tokens.now)) }
{
    let mut parts = Parts::new(alloc);
    let mut rest = tokens;
    while !rest.is_empty() {
        let (item, after) = next_item(rest)?;
        parts.add(form, item)?;
        rest = after;
    }
    Ok(parts)
}
