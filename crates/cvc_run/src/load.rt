//! Whole files from a shelf.
ghost use Rattle.std.specs.Prelude.{◌≡◌, ◌<◌, ◌≤◌, None, IfOk, IsSome, OnOk, length};
ghost use Rattle.cvc_io.specs.Causes.{Rose};
ghost use Rattle.cvc_io.specs.Files.{NoneFalls, RoseFor};
ghost use Rattle.cvc_run.specs.Loads.{OfContent, up_to};
ghost use Rattle.cvc_run.specs.Rests.{OfRest};
ghost use Rattle.cvc_run.specs.Shelves.{Leaves};
ghost use Rattle.cvc_run.specs.Stops.{IsNeverAt, ReadOnlyWhere};

use crate::{LoadFault, RunStop};
use cvc_base::Text;
use cvc_io::Shelf;
use std::alloc::Global;

/// How many bytes are asked of a shelf at a time.
pub(crate) const PIECE: usize = 65_536;

// The bytes that are left of the open file: all, or more than `limit`. They come through the buffer.
fn read_through<S: Shelf>(
    alloc: Global,
    limit: usize,
    shelf: &mut S,
    buf: &mut [u8],
) -> Result<Vec<u8>, LoadFault>
    requires limit { limit ≤ 134217728 }
    requires open { IsSome (S.standing shelf.old) }
    requires room { 0 < length buf.old }
    ensures still { IsSome (S.standing shelf.new) }
    ensures files { S.files shelf.new ≡ S.files shelf.old }
    ensures counts { NoneFalls (S.faults shelf.old) (S.faults shelf.new) }
    ensures bytes { IfOk result (λ bytes. OfRest (S.standing shelf.old) (λ rest. up_to limit rest ≡ up_to limit bytes.items)) }
    ensures never_at { IsNeverAt result }
    ensures cause { ReadOnlyWhere result (RoseFor (S.standing shelf.old) (S.faults shelf.old) (S.faults shelf.new)) }
{
    let mut bytes = Vec::new(alloc);
    'pieces: while bytes.len() <= limit {
        let Ok(count) = shelf.read(buf) else {
            return Err(LoadFault::Read);
        };
        if count == 0 {
            return Ok(bytes);
        }
        bytes.extend_from_slice(&buf[..count])?;
    }
    Ok(bytes)
}

// The bytes that are left of the open file: all, or more than `limit`.
fn read_rest<S: Shelf>(alloc: Global, limit: usize, shelf: &mut S) -> Result<Vec<u8>, LoadFault>
    requires limit { limit ≤ 134217728 }
    requires open { IsSome (S.standing shelf.old) }
    ensures still { IsSome (S.standing shelf.new) }
    ensures files { S.files shelf.new ≡ S.files shelf.old }
    ensures counts { NoneFalls (S.faults shelf.old) (S.faults shelf.new) }
    ensures bytes { IfOk result (λ bytes. OfRest (S.standing shelf.old) (λ rest. up_to limit rest ≡ up_to limit bytes.items)) }
    ensures never_at { IsNeverAt result }
    ensures cause { ReadOnlyWhere result (RoseFor (S.standing shelf.old) (S.faults shelf.old) (S.faults shelf.new)) }
{
    let mut buf = vec![in alloc; 0; PIECE]?;
    read_through(alloc, limit, shelf, buf.as_mut_slice())
}

// The bytes of the file of this name: all, or more than `limit`.
fn read_file<S: Shelf>(
    alloc: Global,
    name: &[u8],
    limit: usize,
    shelf: &mut S,
) -> Result<Vec<u8>, LoadFault>
    requires limit { limit ≤ 134217728 }
    requires closed { S.standing shelf.old ≡ None }
    ensures bytes { IfOk result (λ bytes. OfContent (S.files shelf.old) name.now (λ content. up_to limit content ≡ up_to limit bytes.items)) }
    ensures never_at { IsNeverAt result }
    ensures cause { ReadOnlyWhere result (Rose (S.faults shelf.old name.now) (S.faults shelf.new name.now)) }
    ensures shelf { Leaves (S.standing shelf.new) (S.files shelf.old) (S.files shelf.new) (S.faults shelf.old) (S.faults shelf.new) }
{
    if shelf.open_file(name).is_err() {
        return Err(LoadFault::Read);
    }
    let read = read_rest(alloc, limit, shelf);
    shelf.close_file();
    read
}

/// The bytes of the file of this name, or its first `limit + 1` bytes where it has more. It reads them in pieces of 65,536 bytes, and leaves no file
/// open.
///
/// `Read` comes only where the name has failed in this call, and `At` never.
pub fn load_file<S: Shelf>(
    alloc: Global,
    name: &Text,
    limit: u64,
    shelf: &mut S,
) -> Result<Text, LoadFault>
    requires limit { limit ≤ 134217728 }
    requires closed { S.standing shelf.old ≡ None }
    ensures bytes { IfOk result (λ text. OfContent (S.files shelf.old) name.now (λ content. text ≡ up_to limit content)) }
    ensures never_at { IsNeverAt result }
    ensures cause { ReadOnlyWhere result (Rose (S.faults shelf.old name.now) (S.faults shelf.new name.now)) }
    ensures shelf { Leaves (S.standing shelf.new) (S.files shelf.old) (S.files shelf.new) (S.faults shelf.old) (S.faults shelf.new) }
{
    let mut bytes = read_file(alloc, name.bytes(), limit as usize, shelf)?;
    bytes.truncate(limit as usize + 1);
    Ok(Text::from_vec(bytes))
}

/// The same for a step of any run, which it never refuses: `Read` comes only where the name has failed in this call.
pub fn load_text<F, S: Shelf>(
    alloc: Global,
    name: &Text,
    limit: u64,
    shelf: &mut S,
) -> Result<Text, RunStop<F>>
    requires limit { limit ≤ 134217728 }
    requires closed { S.standing shelf.old ≡ None }
    ensures bytes { IfOk result (λ text. OfContent (S.files shelf.old) name.now (λ content. text ≡ up_to limit content)) }
    ensures never_at { IsNeverAt result }
    ensures cause { ReadOnlyWhere result (Rose (S.faults shelf.old name.now) (S.faults shelf.new name.now)) }
    ensures shelf { Leaves (S.standing shelf.new) (S.files shelf.old) (S.files shelf.new) (S.faults shelf.old) (S.faults shelf.new) }
{
    match load_file(alloc, name, limit, shelf) {
        Ok(text) => Ok(text),
        Err(LoadFault::NoMemory) => Err(RunStop::NoMemory),
        Err(_) => Err(RunStop::Read),
    }
}
