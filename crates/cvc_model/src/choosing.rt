//! Whether a device's parameters pass the tests of a row.
ghost use Rattle.std.specs.Prelude.{◌≡◌, option_copied};
ghost use Rattle.cvc_model.specs.Chosen.{outcome_at as outcome_in, outcome_of as outcome_of_all, outcome_of_test as outcome_of_one};
ghost use Rattle.cvc_model.specs.Chosen.{last_named as last_of_name, passes as passes_at};

use crate::row::{Test, Tests};
use cvc_base::{Param, Params, Value};
use cvc_rows::is_word;

/// What a test says of a device's parameters.
#[derive(Clone, Copy, Debug, PartialEq, Eq)]
pub(crate) enum Outcome {
    Holds,
    Fails,
    /// The parameter is a word.
    Word,
}

fn passes(test: &Test, number: i128) -> bool
    ensures { result ≡ passes_at test.now number }
{
    if test.less {
        number < test.number
    } else {
        number >= test.number
    }
}

fn outcome_at(test: &Test, value: &Value) -> Outcome
    ensures { result ≡ outcome_in test.now value.now }
{
    match value {
        Value::Number(number) if passes(test, *number) => Outcome::Holds,
        Value::Number(_) => Outcome::Fails,
        Value::Word(_) => Outcome::Word,
    }
}

// The last parameter of this name, without regard to case.
fn last_named<'a>(params: &'a Params, name: &[u8]) -> Option<&'a Param>
    ensures { option_copied result ≡ last_of_name params.now name.now }
{
    params
        .as_slice()
        .iter()
        .rev()
        .find(|param| is_word(param.name.bytes(), name))
}

// What one test says. A missing parameter doesn't hold.
fn outcome_of_test(test: &Test, params: &Params) -> Outcome
    ensures { result ≡ outcome_of_one test.now params.now }
{
    match last_named(params, test.param.bytes()) {
        Some(param) => outcome_at(test, &param.value),
        None => Outcome::Fails,
    }
}

// What the tests say from the left, up to the first that doesn't hold.
pub(crate) fn outcome_of(tests: &Tests, params: &Params) -> Outcome
    ensures { result ≡ outcome_of_all tests.now params.now }
{
    for test in tests.as_slice() {
        match outcome_of_test(test, params) {
            Outcome::Holds => {}
            Outcome::Fails => return Outcome::Fails,
            Outcome::Word => return Outcome::Word,
        }
    }
    Outcome::Holds
}
