ghost use Rattle.std.specs.Prelude.{◌≡◌, ◌<◌, ◌≤◌, ◌^◌, IfSome, IsTrue, length, option_map};
ghost use Rattle.std.specs.List.{prefix_len};
ghost use Rattle.std.specs.Char.{is_ascii_digit};
ghost use Rattle.cvc_units.specs.Split.{after, are_digits, are_letters, digits_at, exponent_at, exponent_text, point_at, sign_at, split_of};
ghost use Rattle.cvc_units.specs.Number.{is_minus};
ghost use Rattle.cvc_units.specs.Reading.{AreWellFormed, held, parts_of};

/// The exponent of a number: its sign and its digits, of which there are none where there is no exponent.
#[derive(Clone, Copy)]
pub(crate) struct Exponent<'a> {
    pub negative: bool,
    pub digits: &'a [u8],
}

/// What is kept of the pieces of a number.
#[derive(Clone, Copy)]
pub(crate) struct Pieces<'a> {
    pub negative: bool,
    pub digits: &'a [u8],
    pub fraction: &'a [u8],
    pub exponent: Exponent<'a>,
    pub letters: &'a [u8],
}

/// Whether a minus stands first, and what follows a sign.
fn split_sign(text: &[u8]) -> (bool, &[u8])
    ensures minus { result.0 ≡ is_minus (sign_at text.now) }
    ensures rest { result.1.now ≡ after (sign_at text.now) text.now }
{
    match text {
        [b'-', rest @ ..] => (true, rest),
        [b'+', rest @ ..] => (false, rest),
        _ => (false, text),
    }
}

/// The digits that stand first, and what follows them.
fn split_digits(text: &[u8]) -> (&[u8], &[u8])
    ensures digits { result.0.now ≡ digits_at text.now }
    ensures rest { result.1.now ≡ after (digits_at text.now) text.now }
    ensures are_digits { IsTrue (are_digits result.0.now) }
    ensures len { length result.0.now < 2 ^ 64 }
{
    text.split_at(digits_len(text))
}

/// How many digits stand first.
fn digits_len(text: &[u8]) -> usize
    ensures count { result ≡ prefix_len is_ascii_digit text.now }
    ensures within { result ≤ length text.now }
{
    text.iter().take_while(|byte| byte.is_ascii_digit()).count()
}

/// What follows a point.
fn skip_point(text: &[u8]) -> &[u8]
    ensures { result.now ≡ after (point_at text.now) text.now }
{
    match text {
        [b'.', rest @ ..] => rest,
        _ => text,
    }
}

/// The exponent that stands first, and what follows it. An `e` that no digits follow begins none.
#[tactic(auto, unfolding(crate::specs::Split::exponent_at))]
fn split_exponent(text: &[u8]) -> (Exponent<'_>, &[u8])
    ensures negative { result.0.negative ≡ is_minus (exponent_at text.now).sign }
    ensures digits { result.0.digits.now ≡ (exponent_at text.now).digits }
    ensures are_digits { IsTrue (are_digits result.0.digits.now) }
    ensures rest { result.1.now ≡ after (exponent_text (exponent_at text.now)) text.now }
{
    if let [b'e' | b'E', rest @ ..] = text {
        let (negative, unsigned) = split_sign(rest);
        let (digits, letters) = split_digits(unsigned);
        if !digits.is_empty() {
            return (Exponent { negative, digits }, letters);
        }
    }
    let exponent = Exponent {
        negative: false,
        digits: &text[..0],
    };
    (exponent, text)
}

/// Whether all bytes are ASCII letters.
fn is_letters(text: &[u8]) -> bool
    ensures { result ≡ are_letters text.now }
{
    text.iter().all(|byte| byte.is_ascii_alphabetic())
}

/// The pieces of a text, if it is a number.
#[tactic(auto, unfolding(crate::specs::Split::split_of))]
pub(crate) fn split(text: &[u8]) -> Option<Pieces<'_>>
    ensures parts { option_map held result ≡ option_map parts_of (split_of text.now) }
    ensures digits { IfSome result (λ p. AreWellFormed (held p)) }
{
    let (negative, unsigned) = split_sign(text);
    let (digits, at_point) = split_digits(unsigned);
    let (fraction, at_exponent) = split_digits(skip_point(at_point));
    let (exponent, letters) = split_exponent(at_exponent);
    if digits.is_empty() && fraction.is_empty() || !is_letters(letters) {
        return None;
    }
    Some(Pieces {
        negative,
        digits,
        fraction,
        exponent,
        letters,
    })
}
