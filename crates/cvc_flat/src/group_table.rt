//! Groups of devices by numbers.
ghost use Rattle.std.specs.Prelude.{◌≡◌, ◌<◌, ◌≤◌, [], IfOk, IfSome, OnOk, length, ◌++◌, ◌∷◌};
ghost use Rattle.cvc_flat.specs.Sharing.{IsNumbered};
ghost use Rattle.cvc_flat.specs.Tables.{group_at};

use crate::rows::Group;
use cvc_base::{NoMemory, Param, Params, Value};
use cvc_names::Chains;
use cvc_params::are_same_params;
use std::alloc::Global;
use std::hash::{FoldHasher, Hasher};
use std::marker::Model;

// A hash of a model and of parameters.
fn hash_of(model: u32, params: &[Param]) -> u32 {
    let mut hasher = FoldHasher::default();
    hasher.write(&model.to_le_bytes());
    for param in params {
        hasher.write(param.name.bytes());
        match &param.value {
            Value::Number(number) => hasher.write(&number.to_le_bytes()),
            Value::Word(word) => hasher.write(word.bytes()),
        }
    }
    (hasher.finish() & 0xffff_ffff) as u32
}

// Groups by their numbers. Contracts see it as the groups in the order in which they came.
#[derive(Drop)]
pub(crate) struct GroupTable {
    groups: Vec<Group>,
    // the places of the groups by their hashes
    chains: Chains,
}

impl Model for GroupTable {
    ghost use Rattle.std.specs.Prelude.{◌≡◌, List, length};
    ghost use Rattle.cvc_flat.specs.declared.rows.Group.{Group};

    ghost Value = { List Group };

    ghost view = { λ t. t.groups.items };

    ghost invariant = { λ t. length t.chains ≡ length t.groups.items };
}

impl GroupTable {
    // No groups.
    pub(crate) fn new(alloc: Global) -> GroupTable
        ensures { result ≡ [] }
    {
        GroupTable {
            groups: Vec::new(alloc),
            chains: Chains::new(alloc),
        }
    }

    // Its groups, in order, without a copy.
    pub(crate) fn into_vec(self) -> Vec<Group>
        ensures { result.items ≡ self }
    {
        let GroupTable { groups, chains: _ } = self;
        groups
    }

    // The number of a group of this model with these parameters that has this hash, if there is one.
    fn find(&self, hash: u32, model: u32, params: &[Param]) -> Option<usize>
        ensures inside { IfSome result (λ k. k < length self.now) }
        ensures group { IfSome result (λ k. group_at self.now k ≡ record { model = model; params = params.now }) }
    {
        let groups = self.groups.as_slice();
        self.chains.find(hash, |place| {
            let group = &groups[place];
            group.model == model && are_same_params(group.params.as_slice(), params)
        })
    }

    // Puts a group last.
    fn push(&mut self, hash: u32, group: Group) -> Result<(), NoMemory>
        ensures { OnOk result (self.new ≡ self.old ++ group ∷ []) }
    {
        self.groups.reserve(1)?;
        self.chains.push(hash)?;
        self.groups.push_reserved(group);
        Ok(())
    }

    // The number of a group of this model with these parameters. It is put last unless there is one.
    pub(crate) fn number(&mut self, model: u32, params: Params) -> Result<u32, NoMemory>
        requires { length self.old ≤ 500000 }
        ensures { IfOk result (IsNumbered model params self.old self.new) }
    {
        let hash = hash_of(model, params.as_slice());
        if let Some(place) = self.find(hash, model, params.as_slice()) {
            return Ok(place as u32);
        }
        let place = self.groups.len();
        self.push(hash, Group { model, params })?;
        Ok(place as u32)
    }
}
