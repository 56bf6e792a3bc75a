//! Sessions of many lists of edits, each recheck of which is what `serial` says of the rows as they stand.
ghost use Rattle.std.specs.Prelude.{◌≡◌, ◌<◌, None, IfOk};
ghost use Rattle.cvc_io.specs.Memory.{standing_of};

use crate::runs::{HV, ROOM, expect_words, words_of};
use cvc_base::NoMemory;
use cvc_io::{MemShelf, MemSink};
use cvc_top::top;
use std::alloc::Global;
use std::process::Abort;
use std::sync::Wait;
use std::test::Fail;
use std::thread::Threads;

/// An inverter, a pass gate, a resistor and a diode.
const NETLIST: &[u8] =
    b"M1 out in VDD VDD phv\nM2 out in VSS VSS nhv\nR1 out mid 1k\nM3 mid en q VSS nlv\nD1 q VDD dp\n";

/// The names that edits declare. The last is no net's.
const NAMES: [&[u8]; 6] = [b"VDD", b"VSS", b"in", b"en", b"mid", b"zz"];

/// What edits make of a row.
const BOUNDS: [&[u8]; 5] = [
    b"power 0",
    b"power 0.8",
    b"power 1.2",
    b"power 3.3",
    b"input 0 1.2",
];

/// Numbers that look random, the same in each run.
#[derive(Drop)]
struct Dice {
    state: u64,
}

impl Dice {
    /// A number below this one, or 0.
    fn roll(&mut self, sides: usize) -> usize {
        self.state = self
            .state
            .wrapping_mul(6_364_136_223_846_793_005)
            .wrapping_add(1_442_695_040_888_963_407);
        match sides {
            0 => 0,
            _ => (self.state >> 33) as usize % sides,
        }
    }

    /// One of these texts.
    fn choose(&mut self, texts: &[&'static [u8]]) -> &'static [u8] {
        match texts.get(self.roll(texts.len())) {
            Some(text) => text,
            None => b"",
        }
    }
}

/// A row of a power file.
#[derive(Clone, Copy)]
struct Row {
    name: &'static [u8],
    bounds: &'static [u8],
}

/// Puts words into a line.
fn put_line(text: &mut Vec<u8>, words: &[&[u8]]) -> Result<(), NoMemory> {
    for (k, word) in words.iter().enumerate() {
        if k > 0 {
            text.push(b' ')?;
        }
        text.extend_from_slice(word)?;
    }
    text.push(b'\n')?;
    Ok(())
}

/// The power file of these rows.
fn power_of(alloc: Global, rows: &[Row]) -> Result<Vec<u8>, NoMemory> {
    let mut power = Vec::new(alloc);
    for row in rows {
        put_line(&mut power, &[row.name, row.bounds])?;
    }
    Ok(power)
}

/// Gives the row of this name these bounds. A new one stands behind the others.
fn set(rows: &mut Vec<Row>, row: Row) -> Result<(), NoMemory> {
    for old in rows.iter_mut() {
        if old.name == row.name {
            old.bounds = row.bounds;
            return Ok(());
        }
    }
    rows.push(row)?;
    Ok(())
}

/// The last line of a text, whose last byte is LF.
fn last_line(text: &[u8]) -> &[u8] {
    let mut start = 0;
    for (k, byte) in text.iter().enumerate() {
        let behind = k.saturating_add(1);
        if *byte == b'\n' && behind < text.len() {
            start = behind;
        }
    }
    text.get(start..).unwrap_or(text)
}

/// A session: the rows as its edits left them, the edits, what its rechecks are to write, and how many there were.
#[derive(Drop)]
struct Script {
    rows: Vec<Row>,
    edits: Vec<u8>,
    told: Vec<u8>,
    rechecks: u32,
}

/// A shelf with the circuit, and these rows as its power file.
fn shelf_of(alloc: Global, power: &[u8]) -> Result<MemShelf, NoMemory>
    ensures { IfOk result (λ shelf. standing_of shelf ≡ None) }
{
    let mut shelf = MemShelf::new(alloc);
    shelf.add(b"n", NETLIST)?;
    shelf.add(b"m", HV)?;
    shelf.add(b"p", power)?;
    Ok(shelf)
}

/// What `serial` writes of these rows, and its status.
fn checked<R: Threads + Wait + Sync>(
    rt: &R,
    alloc: Global,
    rows: &[Row],
) -> Result<(u8, MemSink), NoMemory> {
    let mut shelf = shelf_of(alloc, &power_of(alloc, rows)?)?;
    let words = words_of(alloc, b"serial", &[b"n", b"m", b"p"], &[b"nets"])?;
    let mut sink = MemSink::new(alloc, ROOM)?;
    let status = top(rt, alloc, &words, &mut shelf, &mut sink);
    Ok((status.code(), sink))
}

impl Script {
    /// A session that begins with two rows.
    fn begin(alloc: Global) -> Result<Script, NoMemory> {
        let mut rows = Vec::new(alloc);
        rows.push(Row {
            name: b"VDD",
            bounds: b"power 3.3",
        })?;
        rows.push(Row {
            name: b"VSS",
            bounds: b"power 0",
        })?;
        Ok(Script {
            rows,
            edits: Vec::new(alloc),
            told: Vec::new(alloc),
            rechecks: 0,
        })
    }

    /// A row is set.
    fn set(&mut self, name: &'static [u8], bounds: &'static [u8]) -> Result<(), NoMemory> {
        put_line(&mut self.edits, &[b"set", name, bounds])?;
        set(&mut self.rows, Row { name, bounds })
    }

    /// A row is taken away, if it is there.
    fn unset(&mut self, name: &'static [u8]) -> Result<(), NoMemory> {
        if self.rows.iter().any(|row| row.name == name) {
            put_line(&mut self.edits, &[b"unset", name])?;
            self.rows.retain(|row| row.name != name);
        }
        Ok(())
    }

    /// The rows are checked as they stand.
    fn recheck<R: Threads + Wait + Sync>(&mut self, rt: &R, alloc: Global) -> Result<(), NoMemory> {
        put_line(&mut self.edits, &[b"recheck"])?;
        self.rechecks = self.rechecks.saturating_add(1);
        let (_status, sink) = checked(rt, alloc, &self.rows)?;
        let number = self.rechecks;
        let head = format!(in alloc; "recheck {number} ")?;
        self.told.extend_from_slice(head.as_bytes())?;
        self.told.extend_from_slice(last_line(sink.bytes()))?;
        Ok(())
    }

    /// One more edit.
    fn extend<R: Threads + Wait + Sync>(
        &mut self,
        rt: &R,
        alloc: Global,
        dice: &mut Dice,
    ) -> Result<(), NoMemory> {
        let name = dice.choose(&NAMES);
        match dice.roll(4) {
            0 => self.unset(name),
            1 => self.recheck(rt, alloc),
            _ => self.set(name, dice.choose(&BOUNDS)),
        }
    }

    /// Runs the session, and compares all that it writes.
    fn expect<R: Abort + Threads + Wait + Sync>(
        &self,
        rt: &R,
        alloc: Global,
    ) -> Result<(), NoMemory> {
        let (status, report) = checked(rt, alloc, &self.rows)?;
        let mut text = Vec::new(alloc);
        text.extend_from_slice(b"CVC session\n")?;
        text.extend_from_slice(&self.told)?;
        text.extend_from_slice(report.bytes())?;
        let mut shelf = shelf_of(alloc, b"VDD power 3.3\nVSS power 0\n")?;
        shelf.add(b"e", &self.edits)?;
        let words = words_of(alloc, b"session", &[b"n", b"m", b"p", b"e"], &[b"nets"])?;
        expect_words(rt, alloc, &words, &mut shelf, ROOM, status, &text)
    }
}

#[test]
fn rechecks_are_checks_from_nothing(rt: HostRuntime) -> Result<(), Fail> {
    let alloc = rt.alloc();
    let mut dice = Dice { state: 1 };
    for _ in 0..100 {
        let mut script = Script::begin(alloc)?;
        for _ in 0..16 {
            script.extend(&rt, alloc, &mut dice)?;
        }
        script.expect(&rt, alloc)?;
    }
    Ok(())
}
