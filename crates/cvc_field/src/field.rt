//! The field: the words of a circuit.
ghost use Rattle.std.specs.Prelude.{◌≡◌, ◌+◌, ◌≤◌};
ghost use Rattle.cvc_law.specs.Network.{devices};
ghost use Rattle.cvc_law.specs.Reach.{width};

use crate::hand::Hand;
use crate::opening::start_words;
use crate::plays::FieldRule;
use crate::view::{Plan, View};
use atomic_table::Table;
use cvc_base::NoMemory;
use cvc_law::Circuit;
use std::alloc::Global;
use std::snapshot::Snapshot;

/// The count, the bounds and the marks of a circuit in shared words, on which hands step.
/// At every moment the words are a sound state of the machine. No call on it waits, and none but `new` takes memory.
pub struct Field<'c> {
    pub(crate) circuit: &'c Circuit,
    pub(crate) table: Table<(), View, Plan, FieldRule, Global>,
    ghost about: { table.shared.key.circuit.value ≡ circuit.now },
    ghost sized: { table.shared.table_id.words ≡ 1 + width circuit.now + devices circuit.now },
    ghost no_slots: { table.shared.table_id.slots ≡ 0 },
    ghost few_hands: { table.shared.key.hands ≤ 64 },
}

impl<'c> Field<'c> {
    ghost use Rattle.std.specs.Prelude.{◌<◌, [], IfOk};
    ghost use Rattle.cvc_field.specs.Seats.{IsHandOf, hands_of};

    /// A field of a circuit for that many hands, and its first hand, which has all the numbers from 0 on. It takes all its memory here.
    pub fn new(
        alloc: Global,
        circuit: &'c Circuit,
        hands: u32,
    ) -> Result<(Field<'c>, Hand), NoMemory>
        requires some { 0 < hands }
        requires few { hands ≤ 64 }
        ensures field { IfOk result (λ r. (r.0.circuit.now ≡ circuit.now) × (hands_of r.0 ≡ hands)) }
        ensures hand { IfOk result (λ r. IsHandOf r.0 r.1 × (r.1.first ≡ 0) × (r.1.numbers ≡ hands) × (r.1.trail ≡ [])) }
    {
        let _floor = circuit.floor();
        let words = start_words(alloc, circuit)?;
        let plan = Plan {
            circuit: Snapshot::of(circuit),
            hands,
        };
        let (table, seat) = Table::of_words(alloc, words.as_slice(), &plan)?;
        let field = Field { circuit, table };
        Ok((field, Hand::of(seat, hands, false)))
    }
}
