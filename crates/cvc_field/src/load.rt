//! The reads of a device that was taken are loaded.
ghost use Rattle.std.specs.Prelude.{◌≡◌, ◌+◌, ◌<◌, [], None, false};
ghost use Rattle.cvc_law.specs.Network.{devices};
ghost use Rattle.cvc_law.specs.Reach.{device_at, read_count as reads_of_kind};
ghost use Rattle.cvc_core.specs.declared.actor.Actor.TheVariants.{Running};
ghost use Rattle.cvc_core.specs.Steps.{begun};
ghost use Rattle.cvc_field.specs.Runs.{Goes, IsLoading, IsGiving, reads_in};
ghost use Rattle.cvc_field.specs.Seats.{IsSeatOf};

use crate::field::Field;
use crate::places::{read_count, read_place};
use crate::view::View;
use crate::words::bound_in;
use atomic_table::Seat;
use cvc_base::{DevId, Mv};
use cvc_law::{Interval, Reads};

/// The bounds of a, of b and of the gate, each a low and a high.
fn reads_of(bounds: [Option<Mv>; 6]) -> Reads
    ensures { result ≡ reads_in bounds }
{
    Reads {
        a: Interval {
            low: bounds[0],
            high: bounds[1],
        },
        b: Interval {
            low: bounds[2],
            high: bounds[3],
        },
        g: Interval {
            low: bounds[4],
            high: bounds[5],
        },
    }
}

impl<'c> Field<'c> {
    /// Loads a read that the device needs.
    fn load_one(&self, seat: &mut Seat<(), View>, d: DevId, read: u8, bounds: &mut [Option<Mv>; 6])
        requires seat { IsSeatOf self.now seat.old }
        requires device { d.0 < devices self.now.circuit.now }
        requires read { read < reads_of_kind (device_at self.now.circuit.now d.0).kind }
        requires few { read < 6 }
        requires loading { IsLoading self.now.circuit.now d read bounds.old seat.old.me.0.actor }
        ensures seat { IsSeatOf self.now seat.new }
        ensures loading { IsLoading self.now.circuit.now d (read + 1) bounds.new seat.new.me.0.actor }
        ensures goes { Goes seat.old.me.0 seat.new.me.0 [] }
    {
        let place = read_place(self.circuit, d, read);
        let word = self.load(seat, place, read);
        bounds[usize::from(read)] = bound_in(place, word);
    }

    /// Loads each read that the device needs.
    pub(crate) fn load_all(&self, seat: &mut Seat<(), View>, d: DevId) -> Reads
        requires seat { IsSeatOf self.now seat.old }
        requires device { d.0 < devices self.now.circuit.now }
        requires taken { seat.old.me.0.actor ≡ Running (begun d.0) }
        ensures seat { IsSeatOf self.now seat.new }
        ensures loaded { IsGiving self.now.circuit.now d result 0 None false seat.new.me.0.actor }
        ensures goes { Goes seat.old.me.0 seat.new.me.0 [] }
    {
        let _circuit = self.circuit.nets();
        let mut bounds = [None; 6];
        for read in 0..read_count(self.circuit, d) {
            self.load_one(seat, d, read, &mut bounds);
        }
        reads_of(bounds)
    }
}
