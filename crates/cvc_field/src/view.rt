//! What a seat at the table knows. No value of a view is ever made: contracts alone see it.
use cvc_core::Actor;
use cvc_law::Circuit;
use std::collections::LinkedList;
use std::snapshot::Snapshot;

/// One atomic step, with the word that it returned, which is the last number. A bound is named by its index: twice its net for a low, and one more for a high.
#[derive(Clone, Copy)]
pub enum Entry {
    /// A bound was loaded.
    Loaded(u64, u64),
    /// A bound was lowered or raised by a fetch_min or fetch_max: the bound, and the reach of what was given to it.
    Gave(u64, u64, u64),
    /// A credit was taken: the count rose by 1.
    Added(u64),
    /// A device was marked Queued.
    Queued(u64, u64),
    /// A device was taken by a compare_exchange.
    Took(u64, u64),
    /// The Running of a device's mark was cleared.
    Dropped(u64, u64),
    /// A credit was given back: the count fell by 1.
    Subtracted(u64),
    /// The count was loaded.
    Counted(u64),
    /// A device's mark was loaded, or a compare_exchange found it other than plain Queued.
    Looked(u64, u64),
}

/// The view of a hand: the circuit, its actor numbers, what the first of them is at, and its trail.
/// A hand that was joined into another one leaves a spent view.
pub struct View {
    pub circuit: Circuit,
    pub spent: bool,
    pub first: u64,
    pub numbers: u64,
    pub actor: Actor,
    /// The hand's steps, in order.
    pub trail: LinkedList<Entry>,
}

/// What a field's table is made for.
#[derive(Drop)]
pub struct Plan {
    pub circuit: Snapshot<Circuit>,
    pub hands: u32,
}
