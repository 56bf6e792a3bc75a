//! What an actor is at, and what it may mean to do next. Both are plain data.

use cvc_base::{DevId, NetId};

/// A net that an actor has widened: the devices of its fan, from a place on, are still to be marked.
#[derive(Clone, Copy)]
pub struct Debt {
    pub net: NetId,
    pub place: usize,
}

/// How far an actor has come with a device.
#[derive(Clone, Copy)]
pub struct Run {
    pub device: DevId,
    /// The reach of the bound that each read found, where it was loaded: the low and high of a, of b and of the gate.
    pub reads: [Option<u32>; 6],
    /// The slots that were given.
    pub given: [bool; 4],
    pub owes: Option<Debt>,
    pub credits: u8,
}

/// What an actor number is at.
#[derive(Clone, Copy)]
pub enum Actor {
    Absent,
    /// With this many credits.
    Idle(u8),
    Running(Run),
}

/// One atomic step of one actor, on one shared word.
#[derive(Clone, Copy)]
pub enum Intent {
    /// Loads a read of its device.
    Read(u8),
    /// Lowers or raises the target of a slot of its device.
    Widen(u8),
    /// Takes a credit, by adding to the count.
    TakeCredit,
    /// Marks the next device that it owes.
    Queue,
    /// Takes a device to run.
    Claim(DevId),
    /// Ends the run of its device.
    Release,
    /// Gives a credit back, by subtracting from the count.
    GiveCredit,
    /// Reads the count.
    AskCount,
    /// Reads a device's mark.
    LookAt(DevId),
    /// Loads a bound by its index, beside any run. It is no event.
    Peek(u32),
}
