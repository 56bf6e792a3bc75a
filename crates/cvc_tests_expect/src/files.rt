//! Files of expected bounds: their refusals and their rows.

use cvc_base::Cause::{self, BadByte, BadRow, BadVoltage, LongToken, TwiceRow};
use cvc_base::Mv;
use cvc_expect::{Bound, ExpectFault, ExpectRefusal, read_expected};
use std::test::Fail;

fn refused(line: u32, cause: Cause) -> ExpectRefusal {
    ExpectRefusal::At(ExpectFault { line, cause })
}

#[test]
fn refusals_in_order(rt: HostRuntime) {
    let files: [(&[u8], u32, Cause); 25] = [
        // Two tokens, four, and one.
        (b"out 0", 1, BadRow),
        (b"out 0 1 2", 1, BadRow),
        (b"out", 1, BadRow),
        (b"out 0 # 1", 1, BadRow),
        // A bound is one sign or one voltage, which is not too fine and not too high.
        (b"out 1.0005 0", 1, BadVoltage),
        (b"out 0 1.0005", 1, BadVoltage),
        (b"out ** 0", 1, BadVoltage),
        (b"out 0 ??", 1, BadVoltage),
        (b"out 0 ?0", 1, BadVoltage),
        (b"out any 0", 1, BadVoltage),
        (b"out 0 1001", 1, BadVoltage),
        (b"out 0:1 2", 1, BadVoltage),
        // One name twice, whatever its rows say.
        (b"out * *\nout * *", 2, TwiceRow),
        (b"out 0 1\n\nb * *\nout ? ?", 4, TwiceRow),
        // The number of tokens goes before voltages, and they before a name that was there.
        (b"out x", 1, BadRow),
        (b"out 0 1\nout 0", 2, BadRow),
        (b"out 0 1\nout x 0", 2, BadVoltage),
        // A row that is refused says nothing of its name, and the first of two refused rows answers.
        (b"out x 0\nout 0 1", 1, BadVoltage),
        (b"# none\n\t\r\nout 0 1\r\nout 0 1", 4, TwiceRow),
        // By line, and on one line lexical faults first.
        (b"out 0\n\x01", 1, BadRow),
        (b"out 0 \x01", 1, BadByte),
        (b"out 0 1 # \x7f\nb", 1, BadByte),
        (b"out 0 1\nout 0 1\x01\nb", 2, BadByte),
        (b"\x01\nout", 1, BadByte),
        (b"out\n\x01", 1, BadRow),
    ];
    for (bytes, line, cause) in files {
        assert_eq!(rt;
            read_expected(rt.alloc(), bytes).err(),
            Some(refused(line, cause))
        );
    }
}

#[test]
fn long_token_after_a_short_row(rt: HostRuntime) {
    let mut bytes = [b'a'; 1030];
    bytes[1] = b'\n';
    assert_eq!(rt;
        read_expected(rt.alloc(), &bytes).err(),
        Some(refused(1, BadRow))
    );
    bytes[0] = b'#';
    assert_eq!(rt;
        read_expected(rt.alloc(), &bytes).err(),
        Some(refused(2, LongToken))
    );
}

#[test]
fn rows_in_order(rt: HostRuntime) -> Result<(), Fail> {
    let bytes = b"out ? 2.6\r\n\n# supplies\nen * * # any\nOUT -1m 0\nXI0/a * ?";
    let Ok(rows) = read_expected(rt.alloc(), bytes) else {
        return Err("refused".into());
    };
    let (Some(high), Some(low)) = (Mv::new(2600), Mv::new(-1)) else {
        return Err("out of range".into());
    };
    let want: [(&[u8], Bound, Bound, u32); 4] = [
        (b"out", Bound::Unknown, Bound::At(high), 1),
        (b"en", Bound::Any, Bound::Any, 4),
        (b"OUT", Bound::At(low), Bound::At(Mv::ZERO), 5),
        (b"XI0/a", Bound::Any, Bound::Unknown, 6),
    ];
    assert_eq!(rt; rows.len(), want.len());
    for (i, row) in rows.as_slice().iter().enumerate() {
        let (name, low, high, line) = want[i];
        assert_eq!(rt; row.name.bytes(), name);
        assert_eq!(rt; (row.low, row.high, row.line), (low, high, line));
    }
    Ok(())
}

#[test]
fn no_rows(rt: HostRuntime) {
    for bytes in [b"".as_slice(), b" \t\n#x\n"] {
        assert_eq!(rt;
            read_expected(rt.alloc(), bytes).map(|rows| rows.len()).ok(),
            Some(0)
        );
    }
}
