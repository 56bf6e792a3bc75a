//! Nets by numbers.
ghost use Rattle.std.specs.Prelude.{◌≡◌, ◌∷◌, ◌++◌, [], IfOk, None, OnOk, length, position, if◌then◌else◌};
ghost use Rattle.std.specs.List.{list_any, position_or_len};
ghost use Rattle.cvc_flat.specs.NetRows.{row_hash};
ghost use Rattle.cvc_flat.specs.Resolving.{is_row};

use cvc_base::NoMemory;
use cvc_names::Chains;
use cvc_plan::NetRow;
use std::alloc::Global;
use std::marker::Model;

// The factor of an instance: 2^32 divided by the golden ratio.
const FACTOR: u32 = 2_654_435_769;

// The hash of a net.
#[tactic(auto, using(crate::proofs::Tabled::wrapped), unfolding(crate::specs::NetRows::row_hash))]
fn hash_of(row: NetRow) -> u32
    ensures { result ≡ row_hash row }
{
    row.instance.wrapping_mul(FACTOR).wrapping_add(row.name)
}

// A table of nets, each once, by their places. Contracts see it as the nets in the order in which they came.
#[derive(Drop)]
pub(crate) struct NetTable {
    rows: Vec<NetRow>,
    // the places of the nets by their hashes
    chains: Chains,
}

impl Model for NetTable {
    ghost use Rattle.std.specs.Prelude.{List};
    ghost use Rattle.cvc_plan.specs.declared.rows.NetRow.{NetRow};
    ghost use Rattle.cvc_flat.specs.NetRows.{IsNetTable};

    ghost Value = { List NetRow };

    ghost view = { λ t. t.rows.items };

    ghost invariant = { λ t. IsNetTable t.rows.items t.chains };
}

impl NetTable {
    // No nets.
    #[tactic(auto, using(crate::proofs::Tabled::table_none))]
    pub(crate) fn new(alloc: Global) -> NetTable
        ensures { result ≡ [] }
    {
        NetTable {
            rows: Vec::new(alloc),
            chains: Chains::new(alloc),
        }
    }

    // How many nets there are.
    pub(crate) fn len(&self) -> usize
        ensures { result ≡ length self.now }
    {
        self.rows.len()
    }

    // Its nets, in order, without a copy.
    pub(crate) fn into_rows(self) -> Vec<NetRow>
        ensures { result.items ≡ self }
    {
        let NetTable { rows, chains: _ } = self;
        rows
    }

    // The number of a net that has this hash, if it is there.
    fn find_by(&self, hash: u32, row: NetRow) -> Option<usize>
        requires { hash ≡ row_hash row }
        ensures { result ≡ position (is_row row) self.now }
    {
        let rows = self.rows.as_slice();
        self.chains.find(hash, |place| row == rows[place])
    }

    // The number of a net, if it is there.
    pub(crate) fn find(&self, row: NetRow) -> Option<usize>
        ensures { result ≡ position (is_row row) self.now }
    {
        self.find_by(hash_of(row), row)
    }

    // Puts a new net last, which has this hash.
    fn push(&mut self, hash: u32, row: NetRow) -> Result<(), NoMemory>
        requires hash { hash ≡ row_hash row }
        requires new { position (is_row row) self.old ≡ None }
        ensures { OnOk result (self.new ≡ self.old ++ row ∷ []) }
    {
        self.rows.reserve(1)?;
        self.chains.push(hash)?;
        self.rows.push_reserved(row);
        Ok(())
    }

    // The number of a net, which is put last unless it is there.
    #[tactic(auto, using(crate::proofs::Tabled::at_first, crate::proofs::Tabled::at_last, crate::proofs::Tabled::rows_kept, crate::proofs::Tabled::rows_more))]
    pub(crate) fn number(&mut self, row: NetRow) -> Result<usize, NoMemory>
        ensures nets { IfOk result (λ k. self.new ≡ (if list_any (is_row row) self.old then self.old else self.old ++ row ∷ [])) }
        ensures place { IfOk result (λ k. k ≡ position_or_len (is_row row) self.old) }
    {
        let hash = hash_of(row);
        if let Some(place) = self.find_by(hash, row) {
            return Ok(place);
        }
        let place = self.len();
        self.push(hash, row)?;
        Ok(place)
    }
}
