//! Parameters that are the same.
ghost use Rattle.std.specs.Prelude.{◌≡◌, true};

use cvc_base::{Param, Value};

// Whether two values are the same.
fn is_same_value(a: &Value, b: &Value) -> bool
    ensures yes { result ≡ true → a.now ≡ b.now }
    ensures no { a.now ≡ b.now → result ≡ true }
{
    match (a, b) {
        (Value::Number(x), Value::Number(y)) => *x == *y,
        (Value::Word(x), Value::Word(y)) => x.bytes() == y.bytes(),
        _ => false,
    }
}

// Whether two parameters are the same.
fn is_same_param(a: &Param, b: &Param) -> bool
    ensures yes { result ≡ true → a.now ≡ b.now }
    ensures no { a.now ≡ b.now → result ≡ true }
{
    a.name.bytes() == b.name.bytes() && is_same_value(&a.value, &b.value)
}

/// Whether two lists of parameters are the same, by the bytes of names and words.
pub fn are_same_params(a: &[Param], b: &[Param]) -> bool
    ensures yes { result ≡ true → a.now ≡ b.now }
    ensures no { a.now ≡ b.now → result ≡ true }
{
    if a.len() != b.len() {
        return false;
    }
    for (place, param) in a.iter().enumerate() {
        if !is_same_param(param, &b[place]) {
            return false;
        }
    }
    true
}
