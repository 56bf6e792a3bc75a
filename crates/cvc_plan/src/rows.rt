//! What is kept of cards, and nets, with names by their numbers.
use cvc_card::Letter;

/// A port and the name in the parent that it is connected to, both by number.
#[derive(Clone, Copy, Debug)]
pub struct Connection {
    pub port: u32,
    pub net: u32,
}

/// What is kept of an instance's card.
#[derive(Debug, Drop)]
pub struct InstancePart {
    pub name: u32,
    pub connections: Vec<Connection>,
}

/// What is kept of a device's card.
#[derive(Clone, Copy, Debug)]
pub struct DevicePart {
    pub letter: Letter,
    pub name: u32,
    pub line: u32,
}

/// A net: an instance, and the number of a name there.
#[derive(Clone, Copy, Debug, PartialEq, Eq, Hash)]
pub struct NetRow {
    pub instance: u32,
    pub name: u32,
}
