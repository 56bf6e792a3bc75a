//! What is left of a field that no hand steps on any more.
ghost use Rattle.std.specs.Prelude.{◌≡◌, ℕ, ◌+◌, ◌*◌, ◌%◌, ◌<◌, ◌≤◌, slice_index};
ghost use Rattle.std.specs.Slots.{slots_items, slots_len, IsFull};
ghost use Rattle.cvc_field.specs.Words.{IsStoredWord};

use std::alloc::Global;

/// The last bounds of a field that was closed.
pub struct Closed {
    pub(crate) table: atomic_table::Closed<(), Global>,
    pub(crate) nets: u32,
    ghost full: { IsFull table.words },
    ghost empty: { slots_len table.slots ≡ 0 },
    ghost few: { nets ≤ 1000000 },
    ghost sized: { 1 + 2 * nets ≤ slots_len table.words },
    ghost stored: { (b : ℕ) → b < 2 * nets → IsStoredWord (b % 2) (slice_index (slots_items table.words) (1 + b)) },
}

impl Drop for Closed {
    fn drop(self) {
        let Self { table, nets: _ } = self;
        table.free();
    }
}
