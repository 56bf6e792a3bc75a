//! Power files: their refusals and their rows.

use cvc_base::Cause::{self, BadByte, BadRow, BadVoltage, LongToken, MinAboveMax, TwiceRow};
use cvc_base::{Fault, FileKind, Refusal};
use cvc_power::read_power;
use std::test::Fail;

fn refused(line: u32, cause: Cause) -> Refusal {
    Refusal::At(Fault::at(FileKind::Power, line, cause))
}

#[test]
fn power_refusals_and_instance_names(rt: HostRuntime) {
    let files: [(&[u8], u32, Cause); 27] = [
        (b"VDD power 1.2005", 1, BadVoltage),
        (b"a input 1 0", 1, MinAboveMax),
        (b"a power 1\na power 2", 2, TwiceRow),
        // A wrong word and a wrong number of tokens.
        (b"a", 1, BadRow),
        (b"a power", 1, BadRow),
        (b"a power 1 2", 1, BadRow),
        (b"a input 1", 1, BadRow),
        (b"a input 1 2 3", 1, BadRow),
        (b"a ground 0", 1, BadRow),
        (b"a power=1", 1, BadRow),
        // They go before a bad voltage, which goes before the order, which goes before a name that was there.
        (b"a input x", 1, BadRow),
        (b"a power x y", 1, BadRow),
        (b"a input x 0", 1, BadVoltage),
        (b"a input 1 x", 1, BadVoltage),
        (b"a input 1 1:2", 1, BadVoltage),
        (b"a power 1001", 1, BadVoltage),
        (b"a power 1\na power x", 2, BadVoltage),
        (b"a power 1\na input 1 0", 2, MinAboveMax),
        (b"a power 1\na ground", 2, BadRow),
        // A row that is refused declares no name, and the first of two refused rows answers.
        (b"a power x\na power 1", 1, BadVoltage),
        (
            b"\n# none\n\t\na power 1\r\nb power 1\na power 1",
            6,
            TwiceRow,
        ),
        // By line, and on one line lexical faults first.
        (b"a power x\nb\x01", 1, BadVoltage),
        (b"a power x\x01", 1, BadByte),
        (b"a power 1\na power 1\x7f\nb", 2, BadByte),
        (b"a power 1\na power 1\n\x01", 2, TwiceRow),
        (b"a power 1 # \x01\nb", 1, BadByte),
        (b"a\x01\nb", 1, BadByte),
    ];
    for (bytes, line, cause) in files {
        assert_eq!(rt;
            read_power(rt.alloc(), bytes).err(),
            Some(refused(line, cause))
        );
    }
}

#[test]
fn long_token_after_a_bad_row(rt: HostRuntime) {
    let mut bytes = [b'a'; 1030];
    bytes[1] = b'\n';
    assert_eq!(rt;
        read_power(rt.alloc(), &bytes).err(),
        Some(refused(1, BadRow))
    );
    bytes[0] = b'#';
    assert_eq!(rt;
        read_power(rt.alloc(), &bytes).err(),
        Some(refused(2, LongToken))
    );
    assert_eq!(rt;
        read_power(rt.alloc(), &bytes[..1026]).err(),
        Some(refused(2, BadRow))
    );
}

#[test]
fn rows_in_order(rt: HostRuntime) -> Result<(), Fail> {
    let bytes = b"VDD power 1.2 # core\r\n\nvdd POWER -1m\n#\nn0 Input 0 1.2\nXI0/a input -0 0";
    let Ok(rows) = read_power(rt.alloc(), bytes) else {
        return Err("refused".into());
    };
    let want: [(&[u8], i64, i64, u32); 4] = [
        (b"VDD", 1200, 1200, 1),
        (b"vdd", -1, -1, 3),
        (b"n0", 0, 1200, 5),
        (b"XI0/a", 0, 0, 6),
    ];
    assert_eq!(rt; rows.len(), want.len());
    for (i, row) in rows.as_slice().iter().enumerate() {
        let (name, low, high, line) = want[i];
        assert_eq!(rt; row.name.bytes(), name);
        assert_eq!(rt;
            (row.low.get(), row.high.get(), row.line),
            (low, high, line)
        );
    }
    Ok(())
}

#[test]
fn no_rows(rt: HostRuntime) {
    assert_eq!(rt;
        read_power(rt.alloc(), b"").map(|rows| rows.len()).ok(),
        Some(0)
    );
    assert_eq!(rt;
        read_power(rt.alloc(), b" \t\n#x\n")
            .map(|rows| rows.len())
            .ok(),
        Some(0)
    );
}
