//! The text of a physical line, and what the line is.
ghost use Rattle.std.specs.Prelude.{◌≡◌, ◌+◌, ◌<◌, ◌≤◌, ◌==◌, IfSome, length, drop, not};
ghost use Rattle.std.specs.List.{list_all, list_any, position_or_len, prefix_len};
ghost use Rattle.cvc_lex.specs.Bytes.{is_netlist as netlist_of, is_blank as blank_of, is_bad as bad_of, file_limit as limit_of};
ghost use Rattle.cvc_lex.specs.Comments.{begins_comment as comment_in, card_comment as card_comment_in, row_comment as row_comment_in, IsShort};
ghost use Rattle.cvc_lex.specs.Lined.{IsFirstLine};
ghost use Rattle.cvc_lex.specs.Physical.{without_last as without_last_of, text_of as text_in, is_lone_dollar as lone_dollar_at, first_place};
ghost use Rattle.cvc_lex.specs.Physical.{cut as cut_of, unindented, card_shape as shape_of_card, shape_of as shape_in};
ghost use Rattle.cvc_lex.specs.Skips.{SkipsTo};

use crate::shape::Shape;
use cvc_base::FileKind;
use memchr::memchr;

// How many bytes a long scan looks at together.
pub(crate) const BLOCK: usize = 16;

// The length of the first physical line, with its LF, if it ends among these bytes.
pub(crate) fn line_len(bytes: &[u8]) -> Option<usize>
    ensures { IsFirstLine bytes.now result }
{
    match memchr(b'\n', bytes) {
        Some(place) => Some(place + 1),
        None => None,
    }
}

// Whether lines are cards; else they are rows.
pub(crate) fn is_netlist(file: FileKind) -> bool
    ensures { result ≡ netlist_of file }
{
    match file {
        FileKind::Netlist => true,
        FileKind::Models | FileKind::Power => false,
    }
}

// The most bytes of a file.
pub(crate) fn file_limit(file: FileKind) -> usize
    ensures limit { result ≡ limit_of file }
    ensures most { result ≤ 134217728 }
{
    match file {
        FileKind::Netlist => 134_217_728,
        FileKind::Models | FileKind::Power => 16_777_216,
    }
}

pub(crate) fn is_blank(byte: u8) -> bool
    ensures { result ≡ blank_of byte }
{
    (byte == b' ') | (byte == b'\t')
}

fn is_bad(byte: u8) -> bool
    ensures { result ≡ bad_of byte }
{
    (byte < 32 && byte != b'\t') || byte == 127
}

// Whether a byte stands in the text that none may have.
pub(crate) fn has_bad_byte(text: &[u8]) -> bool
    ensures { result ≡ list_any bad_of text.now }
{
    // without a branch, so that many bytes are looked at together
    let mut bad = false;
    for byte in text {
        bad |= is_bad(*byte);
    }
    bad
}

fn without_last(byte: u8, bytes: &[u8]) -> &[u8]
    ensures { result.now ≡ without_last_of byte bytes.now }
{
    match bytes {
        [front @ .., last] if *last == byte => front,
        _ => bytes,
    }
}

#[tactic(auto, unfolding(crate::specs::Physical::text_of))]
// A line's bytes without its LF, and without one CR.
pub(crate) fn text_of(line: &[u8]) -> &[u8]
    ensures text { result.now ≡ text_in line.now }
    ensures within { length result.now ≤ length line.now }
{
    without_last(b'\r', without_last(b'\n', line))
}

fn is_lone_dollar(text: &[u8], i: usize) -> bool
    requires { i < length text.now }
    ensures { result ≡ lone_dollar_at text.now i }
{
    text[i] == b'$'
        && (i == 0 || is_blank(text[i - 1]))
        && (i + 1 == text.len() || is_blank(text[i + 1]))
}

// The place of the first lone `$`, or the length.
fn lone_dollar(text: &[u8]) -> usize
    ensures place { result ≡ first_place (lone_dollar_at text.now) 0 (length text.now) }
    ensures within { result ≤ length text.now }
{
    let mut i = 0;
    while let Some(len) = memchr(b'$', &text[i..]) {
        let place = i + len;
        if is_lone_dollar(text, place) {
            return place;
        }
        i = place + 1;
    }
    text.len()
}

// The place of the first `#`, or the length.
fn hash(text: &[u8]) -> usize
    ensures place { result ≡ position_or_len (λ b. b == 35) text.now }
    ensures within { result ≤ length text.now }
{
    match memchr(b'#', text) {
        Some(place) => place,
        None => text.len(),
    }
}

#[tactic(auto, unfolding(crate::specs::Physical::cut))]
// The text before what the line rules cut off.
pub(crate) fn cut(file: FileKind, text: &[u8]) -> &[u8]
    ensures cut { result.now ≡ cut_of file text.now }
    ensures within { length result.now ≤ length text.now }
{
    if is_netlist(file) {
        &text[..lone_dollar(text)]
    } else {
        &text[..hash(text)]
    }
}

// Whether all bytes of the block are blanks.
#[inline]
fn is_blanks(block: &[u8]) -> bool
    ensures { result ≡ list_all blank_of block.now }
{
    let mut blanks = true;
    for byte in block {
        blanks &= is_blank(*byte);
    }
    blanks
}

// How many blanks stand in front, of whole blocks alone.
fn blank_blocks(text: &[u8]) -> usize
    ensures { SkipsTo blank_of text.now result }
{
    let mut i = 0;
    while text.len() - i >= BLOCK && is_blanks(&text[i..i + BLOCK]) {
        i += BLOCK;
    }
    i
}

// How many blanks stand in front.
pub(crate) fn indent(text: &[u8]) -> usize
    ensures place { result ≡ prefix_len blank_of text.now }
    ensures within { result ≤ length text.now }
{
    let mut i = 0;
    while i < text.len() && is_blank(text[i]) {
        i += 1;
        if i == BLOCK {
            i += blank_blocks(&text[i..]);
        }
    }
    i
}

// What a line of a netlist is, from its first byte on that is no blank.
fn card_shape(rest: &[u8]) -> Shape
    ensures { result ≡ shape_of_card rest.now }
{
    match rest {
        [] => Shape::Skipped,
        [b'*', b'.', ..] => Shape::Directive,
        [b'*', ..] => Shape::Skipped,
        [b'+', ..] => Shape::Continuation,
        [_, ..] => Shape::Card,
    }
}

// Whether a line of a netlist is a comment however it goes on, from its first byte on that is no blank.
fn card_comment(rest: &[u8]) -> bool
    ensures { result ≡ card_comment_in rest.now }
{
    match rest {
        [b'*', next, ..] => *next != b'.',
        _ => false,
    }
}

// The same of another file.
fn row_comment(rest: &[u8]) -> bool
    ensures { result ≡ row_comment_in rest.now }
{
    match rest {
        [b'#', ..] => true,
        _ => false,
    }
}

// Whether a line that begins so is a comment, however it goes on.
fn begins_comment(file: FileKind, line: &[u8]) -> bool
    ensures { result ≡ comment_in file line.now }
{
    let rest = &line[indent(line)..];
    if is_netlist(file) {
        card_comment(rest)
    } else {
        row_comment(rest)
    }
}

// A shorter line that reads the same as a comment that goes on: its mark, a bad byte if one came, and the last two bytes, since a CR and an LF
// at the end are no part of the text.
pub(crate) fn short_comment(file: FileKind, line: &[u8]) -> Option<[u8; 4]>
    ensures { IfSome result (λ short. IsShort file short line.now) }
{
    let [front @ .., before, last] = line else {
        return None;
    };
    if front.len() < 3 || !begins_comment(file, line) {
        return None;
    }
    let mark = if is_netlist(file) { b'*' } else { b'#' };
    let witness = if has_bad_byte(front) { 0 } else { b' ' };
    Some([mark, witness, *before, *last])
}

#[tactic(auto, unfolding(crate::specs::Physical::shape_of))]
// What a line is, by its text as cut.
pub(crate) fn shape_of(file: FileKind, text: &[u8]) -> Shape
    ensures { result ≡ shape_in file text.now }
{
    let rest = &text[indent(text)..];
    if is_netlist(file) {
        card_shape(rest)
    } else if rest.is_empty() {
        Shape::Skipped
    } else {
        Shape::Card
    }
}
