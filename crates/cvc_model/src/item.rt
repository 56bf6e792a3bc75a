//! An item of a model row, by its first sign.
ghost use Rattle.std.specs.Prelude.{◌≡◌, ◌≤◌, length, not, option_map};
ghost use Rattle.std.specs.List.{prefix_len};
ghost use Rattle.cvc_model.specs.Items.{is_sign as sign_of, is_plain, item_in, of_sides as sides_of};
ghost use Rattle.cvc_model.specs.Drafting.{item_of, item_with};

/// What an item says: a voltage of a key, or what a parameter is less than, or at least.
#[derive(Clone, Copy, Debug, PartialEq, Eq)]
pub(crate) enum Sign {
    Equals,
    Less,
    AtLeast,
}

/// The two sides of an item, and the sign between them.
#[derive(Clone, Copy)]
pub(crate) struct Item<'a> {
    pub(crate) left: &'a [u8],
    pub(crate) sign: Sign,
    pub(crate) right: &'a [u8],
}

fn is_sign(byte: u8) -> bool
    ensures { result ≡ sign_of byte }
{
    byte == b'<' || byte == b'=' || byte == b'>'
}

// How many bytes stand before the first sign.
fn left_len(text: &[u8]) -> usize
    ensures place { result ≡ prefix_len is_plain text.now }
    ensures within { result ≤ length text.now }
{
    for (i, byte) in text.iter().enumerate() {
        if is_sign(*byte) {
            return i;
        }
    }
    text.len()
}

// The item of these sides, unless one is empty.
fn of_sides<'a>(left: &'a [u8], sign: Sign, right: &'a [u8]) -> Option<Item<'a>>
    ensures { option_map item_of result ≡ sides_of (item_with sign) left.now right.now }
{
    if left.is_empty() || right.is_empty() {
        return None;
    }
    Some(Item { left, sign, right })
}

// The item that a text is, if it is one.
#[tactic(auto, unfolding(crate::specs::Items::item_in))]
pub(crate) fn split_item(text: &[u8]) -> Option<Item<'_>>
    ensures { option_map item_of result ≡ item_in text.now }
{
    let place = left_len(text);
    let left = &text[..place];
    match &text[place..] {
        [b'=', right @ ..] => of_sides(left, Sign::Equals, right),
        [b'<', right @ ..] => of_sides(left, Sign::Less, right),
        [b'>', b'=', right @ ..] => of_sides(left, Sign::AtLeast, right),
        _ => None,
    }
}
