use crate::NumFault::{Shape, TooFine, TooLarge};
use crate::{NumFault, read_mv, read_number};
use std::test::*;

const ONE: i128 = 1_000_000_000_000_000_000_000_000;

#[test]
fn numbers_and_voltages(rt: HostRuntime) {
    let numbers: [(&[u8], Result<i128, NumFault>); 53] = [
        (b"0.2u", Ok(200_000_000_000_000_000)),
        (b"10uF", Ok(10_000_000_000_000_000_000)),
        (b"-.5meg", Ok(-500_000_000_000_000_000_000_000_000_000)),
        (b"1e-25", Ok(0)),
        (b"1e12", Err(TooLarge)),
        (b"1mil", Err(Shape)),
        (b".", Err(Shape)),
        (b"", Err(Shape)),
        // Signs and points.
        (b"1", Ok(1_000_000_000_000_000_000_000_000)),
        (b"1.", Ok(1_000_000_000_000_000_000_000_000)),
        (b"+.5", Ok(500_000_000_000_000_000_000_000)),
        (b"-0", Ok(0)),
        (b"-0.0e5", Ok(0)),
        (b"+-1", Err(Shape)),
        (b"-", Err(Shape)),
        (b"1.2.3", Err(Shape)),
        (b" 1", Err(Shape)),
        // Exponents, and an `e` that begins the letters.
        (b"1E-3", Ok(1_000_000_000_000_000_000_000)),
        (b"1e+5", Ok(100_000_000_000_000_000_000_000_000_000)),
        (b"1e", Ok(1_000_000_000_000_000_000_000_000)),
        (b"1ek", Ok(1_000_000_000_000_000_000_000_000)),
        (b"1e+", Err(Shape)),
        (b"1ee5", Err(Shape)),
        (b"e5", Err(Shape)),
        (b"1e3k", Ok(1_000_000_000_000_000_000_000_000_000_000)),
        (b"1k5", Err(Shape)),
        // Letters.
        (b"1meg", Ok(1_000_000_000_000_000_000_000_000_000_000)),
        (b"1MEGohm", Ok(1_000_000_000_000_000_000_000_000_000_000)),
        (b"1M", Ok(1_000_000_000_000_000_000_000)),
        (b"1me", Ok(1_000_000_000_000_000_000_000)),
        (b"1mi", Ok(1_000_000_000_000_000_000_000)),
        (b"1milk", Err(Shape)),
        (b"1A", Err(Shape)),
        (b"1x", Err(Shape)),
        (b"1f", Ok(1_000_000_000)),
        (b"1p", Ok(1_000_000_000_000)),
        (b"1N", Ok(1_000_000_000_000_000)),
        (b"1k", Ok(1_000_000_000_000_000_000_000_000_000)),
        (b"1g", Ok(1_000_000_000_000_000_000_000_000_000_000_000)),
        (b"1V", Ok(1_000_000_000_000_000_000_000_000)),
        // The greatest number, and the first that is too large.
        (b"0.9t", Ok(900_000_000_000_000_000_000_000_000_000_000_000)),
        (b"1t", Err(TooLarge)),
        (b"-1e12", Err(TooLarge)),
        (
            b"999999999999.9999999999999999999999999",
            Ok(999_999_999_999_999_999_999_999_999_999_999_999),
        ),
        (b"1000000000000", Err(TooLarge)),
        (b"0.000001e18", Err(TooLarge)),
        // The least number, and what is dropped.
        (b"1e-24", Ok(1)),
        (b"-1.9e-24", Ok(-1)),
        (b"-1e-25", Ok(0)),
        // Long exponents.
        (b"1e99999", Err(TooLarge)),
        (b"0e99999", Ok(0)),
        (b"1e-99999999999999999999999999999999999999999999", Ok(0)),
        (
            b"1e99999999999999999999999999999999999999999999",
            Err(TooLarge),
        ),
    ];
    for (text, want) in numbers {
        assert_eq!(rt; read_number(text), want);
    }

    let voltages: [(&[u8], Result<i64, NumFault>); 25] = [
        (b"1200m", Ok(1_200)),
        (b"1000", Ok(1_000_000)),
        (b"1000.001", Err(TooLarge)),
        (b"1.2005", Err(TooFine)),
        (b"1.2V", Ok(1_200)),
        (b"-0.4", Ok(-400)),
        (b"-1000", Ok(-1_000_000)),
        (b"-1000.001", Err(TooLarge)),
        (b"1k", Ok(1_000_000)),
        (b"1.0001k", Err(TooLarge)),
        (b"1e12", Err(TooLarge)),
        (b"1m", Ok(1)),
        (b"0.5m", Err(TooFine)),
        (b"-0", Ok(0)),
        (b"-1e-25", Ok(0)),
        (b"1e-24", Err(TooFine)),
        (b"1mil", Err(Shape)),
        (b"", Err(Shape)),
        // More than 1000 volts goes before too fine.
        (b"2000.0005", Err(TooLarge)),
        // Only dropped digits make it more than 1000 volts, or less than a millivolt more.
        (b"1000.0000000000000000000000001", Err(TooLarge)),
        (b"-1000.0000000000000000000000001", Err(TooLarge)),
        (b"1000.0000000000000000000000000", Ok(1_000_000)),
        (b"1.2000000000000000000000001", Ok(1_200)),
        (b"1.200000000000000000000001", Err(TooFine)),
        (b"999.9999999999999999999999999", Err(TooFine)),
    ];
    for (text, want) in voltages {
        assert_eq!(rt; read_mv(text), want);
    }
}

#[test]
fn a_thousand_digits(rt: HostRuntime) {
    let mut text = [b'0'; 1102];
    assert_eq!(rt; read_number(&text), Ok(0));
    text[1000] = b'7';
    assert_eq!(rt; read_number(&text[..1001]), Ok(7 * ONE));
    assert_eq!(rt; read_number(&text), Err(TooLarge));
    text[1] = b'.';
    assert_eq!(rt; read_number(&text), Ok(0));
    text[1001] = b'e';
    for digit in &mut text[1002..] {
        *digit = b'9';
    }
    assert_eq!(rt; read_number(&text), Err(TooLarge));
    text[1002] = b'-';
    assert_eq!(rt; read_mv(&text), Ok(0));
}
