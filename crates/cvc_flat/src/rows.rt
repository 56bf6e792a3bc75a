//! The rows of a flat list.
use arrayvec::ArrayVec;
use cvc_base::{NetId, Params};

// An instance: its parent and its card. The top is instance 0, and the first row is instance 1.
#[derive(Clone, Copy, Debug)]
pub(crate) struct InstanceRow {
    pub parent: u32,
    pub card: u32,
}

// A device: its instance, its card, the nets of its pins, and the group of devices that have one model and the same parameters.
#[derive(Debug, Drop)]
pub(crate) struct DeviceRow {
    pub instance: u32,
    pub card: u32,
    pub group: u32,
    pub pins: ArrayVec<NetId, 4>,
}

// A model by its name's number, and parameters.
#[derive(Debug, Drop)]
pub(crate) struct Group {
    pub model: u32,
    pub params: Params,
}
