//! The shelves and sinks: those in memory, and the real files and standard output.
ghost use Rattle.std.specs.Prelude.{◌≡◌, None};

use cvc_base::NoMemory;
use cvc_io::{CountSink, FileShelf, MemShelf, MemSink, Shelf, Sink, StdSink, SureShelf};
use std::alloc::Global;
use std::test::Fail;
use std::{env, fs};

// The file's bytes by reads of three bytes each, and whether a call failed.
fn read_all<S: Shelf>(
    alloc: Global,
    shelf: &mut S,
    name: &[u8],
) -> Result<(Vec<u8>, bool), NoMemory>
    requires { S.standing shelf.old ≡ None }
    ensures { S.standing shelf.new ≡ None }
{
    let mut bytes = Vec::new(alloc);
    if shelf.open_file(name).is_err() {
        return Ok((bytes, true));
    }
    let mut buf = [0; 3];
    let mut failed = false;
    let mut full = false;
    for _ in 0..100u8 {
        match shelf.read(&mut buf) {
            Ok(0) => break,
            Ok(count) => full = full || bytes.extend_from_slice(&buf[..count]).is_err(),
            Err(_) => {
                failed = true;
                break;
            }
        }
    }
    shelf.close_file();
    if full {
        Err(NoMemory)
    } else {
        Ok((bytes, failed))
    }
}

#[test]
fn a_name_added_again_has_the_later_bytes(rt: HostRuntime) -> Result<(), Fail> {
    let alloc = rt.alloc();
    let mut shelf = MemShelf::new(alloc);
    shelf.add(b"n", b"early")?;
    shelf.add(b"m", b"models")?;
    shelf.add(b"n", b"late")?;
    let (bytes, failed) = read_all(alloc, &mut shelf, b"n")?;
    assert_eq!(rt; bytes.as_slice(), b"late".as_slice());
    assert!(rt; !failed);
    let (_, failed) = read_all(alloc, &mut shelf, b"p")?;
    assert!(rt; failed, "a name that the shelf lacks");
    Ok(())
}

// Opening is call 1, and the four reads are the calls 2 to 5.
#[test]
fn the_numbered_call_fails(rt: HostRuntime) -> Result<(), Fail> {
    let alloc = rt.alloc();
    for (call, wanted, fails) in [
        (1, b"".as_slice(), true),
        (2, b"", true),
        (3, b"abc", true),
        (5, b"abcdefg", true),
        (6, b"abcdefg", false),
    ] {
        let mut shelf = MemShelf::new(alloc);
        shelf.add(b"n", b"abcdefg")?;
        shelf.fail_at(call)?;
        let (bytes, failed) = read_all(alloc, &mut shelf, b"n")?;
        assert_eq!(rt; bytes.as_slice(), wanted, "call {call}");
        assert_eq!(rt; failed, fails, "call {call}");
    }
    Ok(())
}

#[test]
fn a_sink_takes_what_fits(rt: HostRuntime) -> Result<(), Fail> {
    let mut sink = MemSink::new(rt.alloc(), 5)?;
    assert_eq!(rt; sink.write(b"CVC").ok(), Some(3));
    assert_eq!(rt; sink.write(b"report").ok(), Some(2));
    assert!(rt; sink.write(b"port").is_err());
    assert_eq!(rt; sink.bytes(), b"CVCre".as_slice());
    Ok(())
}

#[test]
fn a_sure_shelf_opens_every_name(rt: HostRuntime) -> Result<(), Fail> {
    let alloc = rt.alloc();
    for (name, wanted) in [
        (b"n".as_slice(), b"late".as_slice()),
        (b"m", b"models"),
        (b"p", b""),
    ] {
        let mut shelf = SureShelf::new(alloc);
        shelf.add(b"n", b"early")?;
        shelf.add(b"m", b"models")?;
        shelf.add(b"n", b"late")?;
        let (bytes, failed) = read_all(alloc, &mut shelf, name)?;
        assert_eq!(rt; bytes.as_slice(), wanted);
        assert!(rt; !failed);
    }
    Ok(())
}

#[test]
fn a_count_sink_takes_pieces_whole(rt: HostRuntime) {
    let mut sink = CountSink::new();
    assert_eq!(rt; sink.write(b"CVC").ok(), Some(3));
    assert_eq!(rt; sink.write(b" report").ok(), Some(7));
    assert_eq!(rt; sink.count(), 10);
}

#[test]
fn a_real_file_is_read(rt: HostRuntime) -> Result<(), Fail> {
    let alloc = rt.alloc();
    let mut path = env::temp_dir(&rt)?;
    path.push("cvc_io_a_real_file_is_read")?;
    let name = path.to_str().ok_or("the path is text")?;
    fs::write(&rt, name, "R1 a b 1\n")?;
    let mut shelf = FileShelf::new(&rt);
    let (bytes, failed) = read_all(alloc, &mut shelf, name.as_bytes())?;
    fs::remove_file(&rt, name)?;
    assert_eq!(rt; bytes.as_slice(), b"R1 a b 1\n".as_slice());
    assert!(rt; !failed);
    let (_, failed) = read_all(alloc, &mut shelf, name.as_bytes())?;
    assert!(rt; failed, "a file that is gone");
    let (_, failed) = read_all(alloc, &mut shelf, b"\xff")?;
    assert!(rt; failed, "a name that is no text");
    Ok(())
}

#[test]
fn standard_output_takes_bytes(rt: HostRuntime) {
    let mut sink = StdSink::new(&rt);
    assert!(rt; matches!(sink.write(b"CVC report\n"), Ok(1..=11)));
}
