//! The way from the top to an instance.
use cvc_card::InstCard;
use cvc_cdl::Cell;

/// An instance on the way: its card, and the cell that the card names.
#[derive(Clone, Copy)]
pub struct Level<'n> {
    pub card: &'n InstCard,
    pub cell: &'n Cell,
}
