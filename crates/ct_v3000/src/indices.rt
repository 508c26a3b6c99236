ghost use Rattle.std.specs.Prelude.{◌≡◌, ◌<◌, ◌≤◌, ◌+◌, ◌^◌, [], length, nat_eq, position, OnOk, OnErr, IfOk};
ghost use Rattle.ct_v3000.specs.Table.{is_given, with_index};

use indexmap::IndexSet;
use mc_base::NoMemory;
use std::alloc::Global;
use std::marker::Model;

/// The indices of the atoms so far, each once, in the order of their lines: an atom's number is the place of its index.
#[derive(Drop)]
pub struct AtomIndices {
    indices: IndexSet<u64>,
}

impl Model for AtomIndices {
    ghost use Rattle.std.specs.Prelude.{List, ℕ};

    ghost Value = { List ℕ };

    ghost view = { λ a. a.indices.keys };
}

impl AtomIndices {
    pub fn new(alloc: Global) -> AtomIndices
        ensures { result ≡ [] }
    {
        AtomIndices {
            indices: IndexSet::new(alloc),
        }
    }

    /// Adds an index where it isn't there. Answers whether it was.
    pub fn add(&mut self, index: u64) -> Result<bool, NoMemory>
        ensures ok { OnOk result (self.new ≡ with_index index self.old) }
        ensures given { IfOk result (λ given. given ≡ is_given index self.old) }
        ensures err { OnErr result (self.new ≡ self.old) }
        ensures count { OnOk result (length self.new ≤ length self.old + 1) }
    {
        let (_, added) = self.indices.insert_full(index)?;
        Ok(!added)
    }

    /// The number, from 0, of the atom with an index.
    pub fn number(&self, index: u64) -> Option<u32>
        requires { length self.now < 2 ^ 32 }
        ensures { result ≡ position (nat_eq index) self.now }
    {
        match self.indices.get_index_of(&index) {
            Some(number) => Some(number as u32),
            None => None,
        }
    }
}
