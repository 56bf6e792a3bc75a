//! Workers in whole runs: a gate holds one until the other has taken every device, which no run on one thread gets past.
ghost use Rattle.std.specs.Prelude.{◌≡◌, None, IfOk};
ghost use Rattle.cvc_io.specs.Memory.{standing_of};

use crate::crew::until_every_device;
use cvc_base::{NoMemory, Text};
use cvc_io::{MemShelf, MemSink};
use cvc_run::{check, survey};
use cvc_words::Job;
use std::alloc::Global;
use std::sync::atomic::Ordering;
use std::test::Fail;

// Room for both texts.
const ROOM: usize = 4096;

// What is told of the ring of pass gates.
const REPORT: &[u8] = b"CVC report\ntop - devices 5 nets 5 declared 2\n\
    net a 0 3300\nnet b 0 3300\nnet c 0 2600\nnet vss declared 0 0\nnet src declared 0 3300\nerrors 0\n";

// A shelf with the ring of pass gates.
fn ring(alloc: Global) -> Result<MemShelf, NoMemory>
    ensures { IfOk result (λ shelf. standing_of shelf ≡ None) }
{
    let mut shelf = MemShelf::new(alloc);
    shelf.add(
        b"n",
        b"M1 a b c vss nhv\nM2 b c a vss nhv\nM3 c a b vss nhv\nR1 src a 100\nR2 src b 100\n",
    )?;
    shelf.add(
        b"m",
        b"nhv nmos Vth=0.7\nphv pmos Vth=-0.7\nnlv nmos Vth=0.4 Vgs=1.32\ndp diode Vf=0.6\nR resistor\n",
    )?;
    shelf.add(b"p", b"src input 0 3.3\nvss power 0\n")?;
    Ok(shelf)
}

#[test]
fn workers_take_every_device_in_check(rt: HostRuntime) -> Result<(), Fail> {
    let alloc = rt.alloc();
    let job = Job {
        netlist: Text::of(alloc, b"n")?,
        models: Text::of(alloc, b"m")?,
        power: Text::of(alloc, b"p")?,
        top: None,
        workers: 2,
        nets: true,
    };
    let gate = until_every_device(5);
    let mut shelf = ring(alloc)?;
    let mut sink = MemSink::new(alloc, ROOM)?;
    let status = check(&rt, alloc, &job, &mut shelf, &mut sink, &gate);
    assert_eq!(rt; gate.ended.load(Ordering::SeqCst), 2);
    assert_eq!(rt; status.code(), 0);
    assert_eq!(rt; sink.bytes(), REPORT);
    Ok(())
}

#[test]
fn workers_take_every_device_in_survey(rt: HostRuntime) -> Result<(), Fail> {
    let alloc = rt.alloc();
    let gate = until_every_device(2);
    let mut sink = MemSink::new(alloc, ROOM)?;
    let status = survey(&rt, alloc, 4, 1, 2, &mut sink, &gate);
    assert_eq!(rt; gate.ended.load(Ordering::SeqCst), 2);
    assert_eq!(rt; status.code(), 1);
    Ok(())
}
