//! A row while its items are read, from the left.
ghost use Rattle.std.specs.Prelude.{◌≡◌, List, map, true, false, IfOk};
ghost use Rattle.cvc_units.specs.Number.{number_of};
ghost use Rattle.cvc_model.specs.Settings.{Setting, voltages_under as values_under, with_setting};
ghost use Rattle.cvc_model.specs.Rows.{Content, no_content, with_settings, with_test, with_text, with_texts};
ghost use Rattle.cvc_rows.specs.Tokens.{text_of};
ghost use Rattle.cvc_model.specs.Drafting.{AreVoltages, IsDraft, KeepsContent, KeepsDraft, KeepsSettings, MayHave, word_of_key};

use crate::item::{Sign, split_item};
use crate::key::{Key, key_of};
use crate::row::{Test, Tests};
use crate::value::{limit, thresholds};
use crate::voltages::Voltages;
use cvc_base::{Cause, Kind, Mv, Stop, Text, Token};
use cvc_units::read_number;
use std::alloc::Global;

/// What the items of a row gave so far.
#[derive(Drop)]
pub(crate) struct Draft {
    pub(crate) voltages: Voltages,
    pub(crate) tests: Tests,
}

// The voltages that a value gives a key.
fn voltages_under(key: Key, value: &[u8]) -> Result<(Mv, Mv), Cause>
    ensures voltages { result ≡ values_under (word_of_key key) value.now }
    ensures may { IfOk result (MayHave key) }
{
    if matches!(key, Key::Vth) {
        return thresholds(value);
    }
    let voltage = limit(value)?;
    Ok((voltage, voltage))
}

// The voltages with those of this item.
#[tactic(auto, unfolding(crate::specs::Settings::with_setting))]
fn with_item(kind: Kind, given: Voltages, key: &[u8], value: &[u8]) -> Result<Voltages, Cause>
    ensures { (settings : List Setting) → AreVoltages given settings → KeepsSettings result (with_setting kind settings key.now value.now) }
{
    let Some(key) = key_of(kind, key) else {
        return Err(Cause::UnknownKey);
    };
    if given.has(key) {
        return Err(Cause::BadRow);
    }
    let voltages = voltages_under(key, value)?;
    let mut with = given;
    with.set(key, voltages);
    Ok(with)
}

impl Draft {
    fn add_voltages(&mut self, kind: Kind, key: &[u8], value: &[u8]) -> Result<(), Stop>
        ensures { (content : Content) → IsDraft self.old content
            → KeepsContent self.new result (with_settings content (with_setting kind content.settings key.now value.now)) }
    {
        match with_item(kind, self.voltages, key, value) {
            Ok(voltages) => {
                self.voltages = voltages;
                Ok(())
            }
            Err(cause) => Err(Stop::At(cause)),
        }
    }

    fn add_test(
        &mut self,
        alloc: Global,
        param: &[u8],
        less: bool,
        number: &[u8],
    ) -> Result<(), Stop>
        ensures { (content : Content) → IsDraft self.old content
            → KeepsContent self.new result (with_test content param.now less (number_of number.now)) }
    {
        let Ok(number) = read_number(number) else {
            return Err(Stop::At(Cause::BadRow));
        };
        let param = Text::of(alloc, param)?;
        self.tests.push(Test {
            param,
            less,
            number,
        })?;
        Ok(())
    }

    #[tactic(auto, unfolding(crate::specs::Rows::with_text))]
    fn add_item(&mut self, alloc: Global, kind: Kind, text: &[u8]) -> Result<(), Stop>
        ensures { (content : Content) → IsDraft self.old content → KeepsContent self.new result (with_text kind content text.now) }
    {
        let Some(item) = split_item(text) else {
            return Err(Stop::At(Cause::BadRow));
        };
        match item.sign {
            Sign::Equals => self.add_voltages(kind, item.left, item.right),
            Sign::Less => self.add_test(alloc, item.left, true, item.right),
            Sign::AtLeast => self.add_test(alloc, item.left, false, item.right),
        }
    }
}

// What these items give together.
pub(crate) fn read_items(alloc: Global, kind: Kind, items: &[Token]) -> Result<Draft, Stop>
    ensures { KeepsDraft result (with_texts kind no_content (map text_of items.now)) }
{
    let mut draft = Draft {
        voltages: Voltages::none(),
        tests: Tests::new(alloc),
    };
    for item in items {
        draft.add_item(alloc, kind, item.text.bytes())?;
    }
    Ok(draft)
}
