//! A device that was taken is run to its end.
ghost use Rattle.std.specs.Prelude.{◌≡◌, ◌<◌, ◌≤◌, [], None, length, if◌then◌else◌};
ghost use Rattle.cvc_law.specs.declared.interval.Reads.{Reads as Held};
ghost use Rattle.cvc_law.specs.Network.{devices};
ghost use Rattle.cvc_core.specs.declared.actor.Actor.TheVariants.{Idle, Running};
ghost use Rattle.cvc_core.specs.Steps.{begun};
ghost use Rattle.cvc_field.specs.Runs.{Goes, GoesNoting, IsGiving};
ghost use Rattle.cvc_field.specs.Seats.{IsSeatOf};

use crate::field::Field;
use crate::tray::Tray;
use crate::view::View;
use atomic_table::Seat;
use cvc_base::DevId;

impl<'c> Field<'c> {
    /// Gives back the credit that is to spare, if one is.
    fn give_spare(&self, seat: &mut Seat<(), View>, spare: bool)
        requires seat { IsSeatOf self.now seat.old }
        requires idle { seat.old.me.0.actor ≡ Idle (if spare then 2 else 1) }
        ensures seat { IsSeatOf self.now seat.new }
        ensures idle { seat.new.me.0.actor ≡ Idle 1 }
        ensures goes { Goes seat.old.me.0 seat.new.me.0 [] }
    {
        if !spare {
            return;
        }
        self.subtract(seat);
    }

    /// Gives back the last credit.
    fn give_last(&self, seat: &mut Seat<(), View>)
        requires seat { IsSeatOf self.now seat.old }
        requires idle { seat.old.me.0.actor ≡ Idle 1 }
        ensures seat { IsSeatOf self.now seat.new }
        ensures idle { seat.new.me.0.actor ≡ Idle 0 }
        ensures goes { Goes seat.old.me.0 seat.new.me.0 [] }
    {
        self.subtract(seat);
    }

    /// Leaves a device whose slots are all settled.
    fn leave(&self, seat: &mut Seat<(), View>, d: DevId, spare: bool)
        requires seat { IsSeatOf self.now seat.old }
        requires device { d.0 < devices self.now.circuit.now }
        requires giving { (reads : Held) × IsGiving self.now.circuit.now d reads 4 None spare seat.old.me.0.actor }
        ensures seat { IsSeatOf self.now seat.new }
        ensures idle { seat.new.me.0.actor ≡ Idle (if spare then 2 else 1) }
        ensures goes { Goes seat.old.me.0 seat.new.me.0 [] }
    {
        self.drop_running(seat, d);
    }

    /// Runs a device that was taken to its end: loads its reads, gives by its slots, leaves it and gives all credits back.
    pub(crate) fn run(&self, seat: &mut Seat<(), View>, d: DevId, tray: &mut Tray)
        requires seat { IsSeatOf self.now seat.old }
        requires device { d.0 < devices self.now.circuit.now }
        requires room { length tray.old.items ≤ 32 }
        requires taken { seat.old.me.0.actor ≡ Running (begun d.0) }
        ensures seat { IsSeatOf self.now seat.new }
        ensures idle { seat.new.me.0.actor ≡ Idle 0 }
        ensures goes { GoesNoting seat.old.me.0 seat.new.me.0 tray.old.items tray.new.items }
    {
        let reads = self.load_all(seat, d);
        let mut spare = false;
        for slot in 0..4 {
            spare = self.give_slot(seat, d, slot, &reads, spare, tray);
        }
        self.leave(seat, d, spare);
        self.give_spare(seat, spare);
        self.give_last(seat);
    }
}
