//! Words of printed lines.

use cvc_base::Mv;

/// A word of a line, as it is printed.
#[derive(Clone, Copy, Debug)]
pub enum Word<'a> {
    /// These bytes.
    Text(&'a [u8]),
    /// A name that is given in pieces, one behind another.
    Name(&'a [&'a [u8]]),
    /// A number in decimal.
    Number(u64),
    /// A number in decimal, behind `-` where it is negative.
    Signed(i64),
    /// A bound in millivolts, or `?` where it is unknown.
    Bound(Option<Mv>),
}
