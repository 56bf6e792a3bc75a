//! Turns: a hand takes a device and runs it to its end, or learns that there is none to take.
ghost use Rattle.std.specs.Prelude.{◌≡◌, min, ◌+◌, ◌<◌, ◌≤◌, ◌++◌, [], List, true, false, ◌⊎◌};
ghost use Rattle.cvc_law.specs.Network.{devices};
ghost use Rattle.cvc_core.specs.declared.actor.Actor.TheVariants.{Idle as Resting};
ghost use Rattle.cvc_field.specs.declared.view.Entry.{Entry};
ghost use Rattle.cvc_field.specs.Turns.{IsExchange, IsScan, IsTurn, IsTurnOn, grown, quiet_of, tray_of};
ghost use Rattle.cvc_field.specs.Seats.{IsSeatOf, IsHandOf};

use crate::field::Field;
use crate::hand::Hand;
use crate::ranges::either;
use crate::tray::Tray;
use crate::view::View;
use atomic_table::Seat;
use cvc_base::DevId;

/// The mark of a device that is to be run and that nobody runs.
const PLAIN_QUEUED: u64 = 1;

/// What a turn came to.
#[derive(Clone, Copy, Debug, PartialEq, Eq)]
pub enum Turn {
    /// It took one device and ran it to its end.
    Worked,
    /// It found every device's mark other than plain Queued, and then a count above 0.
    Idle,
    /// It read a count of 0: the bounds are the least family.
    Quiet,
}

/// What a turn on one device came to.
#[derive(Clone, Copy, Debug, PartialEq, Eq)]
pub enum TurnOn {
    /// It took the device and ran it to its end.
    Worked,
    /// Its exchange found the device's mark other than plain Queued, and made no other step.
    Missed,
}

impl Turn {
    fn is_quiet(self) -> bool
        ensures { result ≡ quiet_of self }
    {
        match self {
            Turn::Quiet => true,
            Turn::Worked | Turn::Idle => false,
        }
    }
}

/// The lesser of two numbers.
fn lesser(a: u32, b: u32) -> u32
    ensures { result ≡ min a b }
{
    if a < b { a } else { b }
}

impl<'c> Field<'c> {
    /// Takes a device where its mark is plain Queued, and runs it to its end.
    fn exchange(&self, seat: &mut Seat<(), View>, d: DevId, tray: &mut Tray) -> bool
        requires seat { IsSeatOf self.now seat.old }
        requires device { d.0 < devices self.now.circuit.now }
        requires idle { seat.old.me.0.actor ≡ Resting 0 }
        requires empty { tray.old.items ≡ [] }
        ensures seat { IsSeatOf self.now seat.new }
        ensures done { (es : List Entry) × (seat.new.me.0 ≡ grown seat.old.me.0 es) × IsExchange self.now.circuit.now d result es
            × (tray.new.items ≡ tray_of es) }
    {
        let found = self.take(seat, d);
        if found != PLAIN_QUEUED {
            return false;
        }
        self.run(seat, d, tray);
        true
    }

    /// Looks at a device's mark, and takes the device only where the mark is plain Queued.
    fn try_one(&self, seat: &mut Seat<(), View>, d: DevId, tray: &mut Tray) -> bool
        requires seat { IsSeatOf self.now seat.old }
        requires device { d.0 < devices self.now.circuit.now }
        requires idle { seat.old.me.0.actor ≡ Resting 0 }
        requires empty { tray.old.items ≡ [] }
        ensures seat { IsSeatOf self.now seat.new }
        ensures done { (es : List Entry) × (seat.new.me.0 ≡ grown seat.old.me.0 es) × IsScan self.now.circuit.now d.0 (d.0 + 1) result es
            × (tray.new.items ≡ tray_of es) }
    {
        let mark = self.look(seat, d);
        if mark != PLAIN_QUEUED {
            return false;
        }
        self.exchange(seat, d, tray)
    }

    /// Tries the devices from one number up to another, until one was run.
    fn scan(&self, seat: &mut Seat<(), View>, from: u32, to: u32, tray: &mut Tray) -> bool
        requires seat { IsSeatOf self.now seat.old }
        requires devices { to ≤ devices self.now.circuit.now }
        requires idle { seat.old.me.0.actor ≡ Resting 0 }
        requires empty { tray.old.items ≡ [] }
        ensures seat { IsSeatOf self.now seat.new }
        ensures done { (es : List Entry) × (seat.new.me.0 ≡ grown seat.old.me.0 es) × IsScan self.now.circuit.now from to result es
            × (tray.new.items ≡ tray_of es) }
    {
        for d in from..to {
            if self.try_one(seat, DevId(d), tray) {
                return true;
            }
        }
        false
    }

    /// Tries each device once, from the first round, and reads the count where none was run.
    fn go_round(&self, seat: &mut Seat<(), View>, first: u32, tray: &mut Tray) -> Turn
        requires seat { IsSeatOf self.now seat.old }
        requires idle { seat.old.me.0.actor ≡ Resting 0 }
        requires empty { tray.old.items ≡ [] }
        ensures seat { IsSeatOf self.now seat.new }
        ensures done { (es : List Entry) × (seat.new.me.0 ≡ grown seat.old.me.0 es) × IsTurn self.now.circuit.now first result es
            × (tray.new.items ≡ tray_of es) }
    {
        let devices = self.circuit.devices();
        if self.scan(seat, first, devices, tray) {
            return Turn::Worked;
        }
        let stop = lesser(first, devices);
        if self.scan(seat, 0, stop, tray) {
            return Turn::Worked;
        }
        if self.read_count(seat) == 0 {
            return Turn::Quiet;
        }
        Turn::Idle
    }

    /// Takes one device if its mark is plain Queued, and runs it.
    fn go_on(&self, seat: &mut Seat<(), View>, d: DevId, tray: &mut Tray) -> TurnOn
        requires seat { IsSeatOf self.now seat.old }
        requires device { d.0 < devices self.now.circuit.now }
        requires idle { seat.old.me.0.actor ≡ Resting 0 }
        requires empty { tray.old.items ≡ [] }
        ensures seat { IsSeatOf self.now seat.new }
        ensures done { (es : List Entry) × (seat.new.me.0 ≡ grown seat.old.me.0 es) × IsTurnOn self.now.circuit.now d result es
            × (tray.new.items ≡ tray_of es) }
    {
        if self.exchange(seat, d, tray) {
            return TurnOn::Worked;
        }
        TurnOn::Missed
    }

    /// Tries each device once, from `first` round, until it can take one, and runs that one to its end.
    /// The tray then has the devices that the call newly queued, as far as there is room.
    /// It waits for nobody and takes no memory. One look at each device at most, and what the device that it runs needs.
    pub fn turn(&self, hand: &mut Hand, first: u32, tray: &mut Tray) -> Turn
        requires hand { IsHandOf self.now hand.old }
        requires first { (first < devices self.now.circuit.now) ⊎ (devices self.now.circuit.now ≡ 0) }
        ensures hand { IsHandOf self.now hand.new }
        ensures range { (hand.new.first ≡ hand.old.first) × (hand.new.numbers ≡ hand.old.numbers) }
        ensures turn { (es : List Entry) × (hand.new ≡ record hand.old { trail = hand.old.trail ++ es }) × IsTurn self.now.circuit.now first result es
            × (tray.new.items ≡ tray_of es) }
    {
        tray.clear();
        let answer = self.go_round(&mut hand.seat, first, tray);
        let quiet = either(hand.quiet, answer.is_quiet());
        hand.quiet = quiet;
        answer
    }

    /// Takes this device if its mark is plain Queued, and runs it to its end. One exchange decides it, and is never tried again.
    /// The tray then has the devices that the call newly queued, as far as there is room.
    /// It waits for nobody and takes no memory.
    pub fn turn_on(&self, hand: &mut Hand, d: DevId, tray: &mut Tray) -> TurnOn
        requires hand { IsHandOf self.now hand.old }
        requires device { d.0 < devices self.now.circuit.now }
        ensures hand { IsHandOf self.now hand.new }
        ensures range { (hand.new.first ≡ hand.old.first) × (hand.new.numbers ≡ hand.old.numbers) }
        ensures turn { (es : List Entry) × (hand.new ≡ record hand.old { trail = hand.old.trail ++ es }) × IsTurnOn self.now.circuit.now d result es
            × (tray.new.items ≡ tray_of es) }
    {
        tray.clear();
        self.go_on(&mut hand.seat, d, tray)
    }
}
