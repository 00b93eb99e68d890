//! Names that differ, found by their hashes.

ghost use Rattle.std.specs.Prelude.{◌≡◌, ◌++◌, [], ◌∷◌, length, Contains, IfOk, OnOk};
ghost use Rattle.maid_model.specs.Names.{list_of};
ghost use Rattle.net_build.specs.NodeCalls.{IsPlaceAmong};

use indexmap::IndexSet;
use std::alloc::{AllocError, AllocFailed, Global};
use std::marker::Model;

/// Names that differ, in the order in which they were added. The hashes have no secret: names that
/// are made to have one hash are compared in order.
#[derive(Drop)]
pub struct DistinctNames {
    names: IndexSet<Vec<u8>>,
}

impl Model for DistinctNames {
    ghost use Rattle.std.specs.Prelude.{ℕ, List};
    ghost use Rattle.maid_model.specs.Names.{list_of};

    ghost Value = { List (List ℕ) };

    ghost view = { λ n. list_of n.names.keys };
}

impl DistinctNames {
    /// No names.
    pub fn new(alloc: Global) -> DistinctNames
        ensures { result ≡ [] }
    {
        DistinctNames {
            names: IndexSet::new(alloc),
        }
    }

    /// How many names there are.
    pub fn len(&self) -> usize
        ensures { result ≡ length self.now }
    {
        self.names.len()
    }

    /// The place of the name, if it is there.
    pub fn place(&self, name: &[u8]) -> Option<usize>
        ensures { IsPlaceAmong self.now name.now result }
    {
        self.names.get_index_of(name)
    }

    /// Adds a name that isn't there.
    pub fn add(&mut self, name: Vec<u8>) -> Result<(), AllocFailed<Vec<u8>>>
        requires { ¬ Contains self.old name.items }
        ensures { OnOk result (self.new ≡ self.old ++ name.items ∷ []) }
    {
        self.names.insert(name)?;
        Ok(())
    }

    /// The names as a list.
    pub fn into_list(self, alloc: Global) -> Result<Vec<Vec<u8>>, AllocError>
        ensures { IfOk result (λ list. list_of list.items ≡ self) }
    {
        // One allocation, whose refusal is the answer: collecting would ask again for less.
        let mut list = Vec::with_capacity(alloc, self.names.len())?;
        for name in self.names {
            list.push(name)?;
        }
        Ok(list)
    }
}
