//! Lines of words: their commands, and their first faults.

use cvc_base::{Text, Texts};
use cvc_words::{Command, Job, WordRefusal, read_words};
use std::alloc::Global;
use std::test::Fail;

// The words of a line, with one blank between each two.
fn words_of(alloc: Global, line: &[u8]) -> Result<Texts, Fail> {
    let mut words = Texts::new(alloc);
    if line.is_empty() {
        return Ok(words);
    }
    for word in line.split(|byte| *byte == b' ') {
        words.push(Text::of(alloc, word)?)?;
    }
    Ok(words)
}

// Each fault alone, and of several the first by their order.
#[test]
fn refused_words(rt: HostRuntime) -> Result<(), Fail> {
    let alloc = rt.alloc();
    for (line, wanted) in [
        (b"".as_slice(), b"no-command".as_slice()),
        (b"lint a", b"unknown-command"),
        (b"--help", b"unknown-command"),
        (b"Check n m p", b"unknown-command"),
        (b"check a b", b"missing-word"),
        (b"serial", b"missing-word"),
        (b"gen x", b"missing-word"),
        (b"check a b c workers=65", b"bad-number"),
        (b"check a b c workers=01", b"bad-number"),
        (b"check a b c workers=0", b"bad-number"),
        (b"check a b c workers=", b"bad-number"),
        (b"check a b c workers=+1", b"bad-number"),
        (b"check a b c workers=18446744073709551617", b"bad-number"),
        (b"gen 18446744073709551616 1", b"bad-number"),
        (b"gen 00 1", b"bad-number"),
        (b"gen 0 0 frob", b"bad-number"),
        (b"gen 0 200001", b"bad-number"),
        (b"check a b c nets nets", b"twice-word"),
        (b"check a b c top=x top=", b"twice-word"),
        (b"check a b c workers=1 workers=65", b"twice-word"),
        (b"check a b c workers=65 workers=1", b"bad-number"),
        (b"check a b c frob nets nets", b"unknown-word"),
        (b"check a b c nets nets frob", b"twice-word"),
        (b"serial a b c workers=2", b"unknown-word"),
        (b"gen 0 3 nets", b"unknown-word"),
        (b"gen 0 3 top=x", b"unknown-word"),
        (b"check a b c nets=", b"unknown-word"),
        (b"check a b c top", b"unknown-word"),
        (b"check a b c NETS", b"unknown-word"),
        (b"check a b c ", b"unknown-word"),
        (b"check a b c top=", b"bad-name"),
        (b"check a b c top= frob", b"bad-name"),
    ] {
        let words = words_of(alloc, line)?;
        match read_words(alloc, &words) {
            Err(WordRefusal::At(fault)) => assert_eq!(rt; fault.word(), wanted, "{line:?}"),
            _ => assert!(rt; false, "accepted: {line:?}"),
        }
    }
    Ok(())
}

// The job of a command that has one.
fn job_of(found: &Result<Command, WordRefusal>) -> Option<&Job> {
    match found {
        Ok(Command::Check(job) | Command::Serial(job)) => Some(job),
        _ => None,
    }
}

#[test]
fn jobs(rt: HostRuntime) -> Result<(), Fail> {
    let alloc = rt.alloc();
    for (line, netlist, top, workers, nets) in [
        (
            b"check nets nets nets".as_slice(),
            b"nets".as_slice(),
            b"".as_slice(),
            4,
            false,
        ),
        (b"check n m p nets", b"n", b"", 4, true),
        (
            b"check n m p workers=64 nets top=a=b",
            b"n",
            b"a=b",
            64,
            true,
        ),
        (b"serial n m p top=c", b"n", b"c", 4, false),
        (b"check  m p workers=1", b"", b"", 1, false),
    ] {
        let words = words_of(alloc, line)?;
        let found = read_words(alloc, &words);
        match job_of(&found) {
            Some(job) => {
                assert_eq!(rt; job.netlist.bytes(), netlist);
                assert_eq!(rt;
                    job.top.as_ref().map_or(b"".as_slice(), |name| name.bytes()),
                    top
                );
                assert_eq!(rt; job.workers, workers);
                assert_eq!(rt; job.nets, nets);
            }
            None => assert!(rt; false, "no job: {line:?}"),
        }
    }
    Ok(())
}

#[test]
fn generated_netlists(rt: HostRuntime) -> Result<(), Fail> {
    let alloc = rt.alloc();
    for (line, wanted) in [
        (b"gen 0 1".as_slice(), (0, 1, 4)),
        (
            b"gen 18446744073709551615 200000 workers=8",
            (18_446_744_073_709_551_615, 200_000, 8),
        ),
    ] {
        let words = words_of(alloc, line)?;
        match read_words(alloc, &words) {
            Ok(
                Command::Gen {
                    seed,
                    size,
                    workers,
                },
            ) => {
                assert_eq!(rt; (seed, size, workers), wanted);
            }
            _ => assert!(rt; false, "no generated netlist: {line:?}"),
        }
    }
    Ok(())
}
