//! The events of the machine.

use cvc_base::DevId;

/// One atomic action of one actor. An actor, device, read or slot out of range is allowed, and is never enabled.
#[derive(Clone, Copy, Debug, PartialEq, Eq)]
pub enum Event {
    /// Loads a read of the device that the actor runs.
    Load { actor: u8, read: u8 },
    /// Lowers the low of the target of slot 0 or 2.
    Lower { actor: u8, slot: u8 },
    /// Raises the high of the target of slot 1 or 3.
    Raise { actor: u8, slot: u8 },
    /// Adds a unit to the count and a credit to the actor.
    Add { actor: u8 },
    /// Queues the next device of the fan that the actor owes.
    SetQueued { actor: u8 },
    /// Takes a queued device that nobody runs.
    Take { actor: u8, device: DevId },
    /// Ends the run of the actor's device.
    DropRunning { actor: u8 },
    /// Takes a unit from the count and a credit from the actor.
    Subtract { actor: u8 },
    /// Reads the count.
    ReadCount { actor: u8 },
    /// Looks at a device's mark.
    Look { actor: u8, device: DevId },
    /// An absent actor becomes idle.
    Split { actor: u8, other: u8 },
    /// Another idle actor becomes absent.
    Join { actor: u8, other: u8 },
}

/// The event's guard doesn't hold.
#[derive(Clone, Copy, Debug, PartialEq, Eq)]
pub struct NotEnabled;
