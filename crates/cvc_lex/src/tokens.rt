//! The tokens of a text.
ghost use Rattle.std.specs.Prelude.{◌≡◌, ◌+◌, ◌-◌, ◌<◌, ◌≤◌, ◌∷◌, ◌++◌, [], ℕ, length, drop, slice_index, slice_range, not, false, IfOk, MatchOption};
ghost use Rattle.std.specs.List.{list_all, list_any, prefix_len};
ghost use Rattle.cvc_lex.specs.Bytes.{is_alone as alone_in, is_word as word_in};
ghost use Rattle.cvc_lex.specs.Physical.{is_long, tokens_from};
ghost use Rattle.cvc_lex.specs.Skips.{SkipsTo};
ghost use Rattle.cvc_lex.specs.Stops.{StopsLong};

use crate::physical::{BLOCK, indent, is_blank, is_netlist};
use cvc_base::{Cause, FileKind, Stop, Text, Token, Tokens};
use std::alloc::Global;

// The most bytes of a token.
const TOKEN_LIMIT: usize = 1024;

// Whether the byte is a token of its own. The tests of bytes are without a branch, so that loops look at many bytes together.
fn is_alone(file: FileKind, byte: u8) -> bool
    ensures { result ≡ alone_in file byte }
{
    is_netlist(file) & (byte == b'=')
}

fn is_word(file: FileKind, byte: u8) -> bool
    ensures { result ≡ word_in file byte }
{
    !is_blank(byte) & !is_alone(file, byte)
}

// Whether all bytes of the block are bytes of words.
#[inline]
fn is_words(file: FileKind, block: &[u8]) -> bool
    ensures { result ≡ list_all (word_in file) block.now }
{
    let mut words = true;
    for byte in block {
        words &= is_word(file, *byte);
    }
    words
}

// How many bytes of words stand in front, of whole blocks alone.
fn word_blocks(file: FileKind, text: &[u8]) -> usize
    ensures { SkipsTo (word_in file) text.now result }
{
    let mut i = 0;
    while text.len() - i >= BLOCK && is_words(file, &text[i..i + BLOCK]) {
        i += BLOCK;
    }
    i
}

// How many bytes of words stand in front.
fn word_len(file: FileKind, text: &[u8]) -> usize
    ensures word { result ≡ prefix_len (word_in file) text.now }
    ensures within { result ≤ length text.now }
{
    let mut i = 0;
    while i < text.len() && is_word(file, text[i]) {
        i += 1;
        if i == BLOCK {
            i += word_blocks(file, &text[i..]);
        }
    }
    i
}

// How many tokens the text has.
fn token_count(file: FileKind, text: &[u8]) -> usize
    ensures { (number column : ℕ) → result ≡ length (tokens_from file number false column text.now) }
{
    let mut count = 0;
    let mut inside = false;
    for byte in text {
        let word = is_word(file, *byte);
        count += usize::from(is_alone(file, *byte) | (word & !inside));
        inside = word;
    }
    count
}

// The first place of the next token from `i` on, and the place after it.
fn next_token(file: FileKind, text: &[u8], i: usize) -> Option<(usize, usize)>
    requires { i ≤ length text.now }
    ensures range { MatchOption result (Unit {0}) (λ t. (i ≤ t.0) × (t.0 < t.1) × (t.1 ≤ length text.now)) }
    ensures token { MatchOption result
        ((number : ℕ) → tokens_from file number false (i + 1) (drop i text.now) ≡ [])
        (λ t. (number : ℕ) → tokens_from file number false (i + 1) (drop i text.now)
        ≡ record { text = slice_range text.now t.0 t.1; line = number; column = t.0 + 1 } ∷ tokens_from file number false (t.1 + 1) (drop t.1 text.now)) }
{
    let start = i + indent(&text[i..]);
    if start == text.len() {
        return None;
    }
    if is_alone(file, text[start]) {
        Some((start, start + 1))
    } else {
        Some((start, start + word_len(file, &text[start..])))
    }
}

// Puts the tokens of the text from `from` on behind the others, and stops at one that is too long.
pub(crate) fn add_tokens(
    alloc: Global,
    file: FileKind,
    number: u32,
    text: &[u8],
    from: usize,
    tokens: &mut Tokens,
) -> Result<(), Stop>
    requires from { from ≤ length text.now }
    requires short { length text.now ≤ 134217728 }
    ensures added { IfOk result (λ _. tokens.new ≡ tokens.old ++ tokens_from file number false (from + 1) (drop from text.now)) }
    ensures long { StopsLong (list_any is_long (tokens_from file number false (from + 1) (drop from text.now))) result }
{
    tokens.reserve(token_count(file, &text[from..]))?;
    let mut i = from;
    while let Some((start, end)) = next_token(file, text, i) {
        if end - start > TOKEN_LIMIT {
            return Err(Stop::At(Cause::LongToken));
        }
        tokens.push(Token {
            text: Text::of(alloc, &text[start..end])?,
            line: number,
            column: start as u32 + 1,
        })?;
        i = end;
    }
    Ok(())
}
