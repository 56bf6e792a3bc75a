//! Files that a shelf in memory holds.
ghost use Rattle.std.specs.Prelude.{◌≡◌, ◌+◌, ◌-◌, ◌<◌, ◌≤◌, [], ◌++◌, IfSome, min, take, drop, length};
ghost use Rattle.cvc_io.specs.MemFiles.{IsFound, place_of};

use cvc_base::Text;

/// A file. The later of two files of one name counts.
#[derive(Drop)]
pub(crate) struct MemFile {
    pub(crate) name: Text,
    pub(crate) bytes: Text,
}

/// The file at `place` stands open, and `at` of its bytes were read.
#[derive(Clone, Copy)]
pub(crate) struct OpenFile {
    pub(crate) place: usize,
    pub(crate) at: usize,
}

/// The place of the last file of this name.
pub(crate) fn find(files: &[MemFile], name: &[u8]) -> Option<usize>
    ensures place { result ≡ place_of files.now name.now }
    ensures found { IfSome result (IsFound files.now name.now) }
{
    let mut place = None;
    for (i, file) in files.iter().enumerate() {
        if file.name.bytes() == name {
            place = Some(i);
        }
    }
    place
}

/// Copies the bytes from `at` on to the front of the buffer, as far as both go, and says how many.
pub(crate) fn copy_from(bytes: &[u8], at: usize, buf: &mut [u8]) -> usize
    requires start { at ≤ length bytes.now }
    requires room { 0 < length buf.old }
    ensures all { result ≡ min (length bytes.now - at) (length buf.old) }
    ensures bound { result ≤ length buf.new }
    ensures inside { at + result ≤ length bytes.now }
    ensures copied { drop at bytes.now ≡ take result buf.new ++ drop (at + result) bytes.now }
    ensures end { result ≡ 0 → drop (at + result) bytes.now ≡ [] }
{
    let rest = &bytes[at..];
    let taken = rest.len().min(buf.len());
    buf[..taken].copy_from_slice(&rest[..taken]);
    taken
}
