ghost use Rattle.std.specs.Prelude.{◌≡◌, ◌++◌, [], ◌∷◌, length, OnOk, OnErr};

use crate::{AtomId, NoMemory};
use std::alloc::Global;
use std::marker::Model;

/// A list of atoms: a map from written to read atoms, or the set of a refusal.
#[derive(Drop)]
pub struct AtomList {
    atoms: Vec<AtomId>,
}

impl Model for AtomList {
    ghost use Rattle.std.specs.Prelude.{List};
    ghost use Rattle.mc_base.specs.declared.ids.AtomId.{AtomId};

    ghost Value = { List AtomId };

    ghost view = { λ t. t.atoms.items };
}

impl AtomList {
    pub fn new(alloc: Global) -> AtomList
        ensures { result ≡ [] }
    {
        AtomList {
            atoms: Vec::new(alloc),
        }
    }

    pub fn from_vec(atoms: Vec<AtomId>) -> AtomList
        ensures { result ≡ atoms.items }
    {
        AtomList { atoms }
    }

    pub fn into_vec(self) -> Vec<AtomId>
        ensures { result.items ≡ self }
    {
        self.atoms
    }

    pub fn len(&self) -> usize
        ensures { result ≡ length self.now }
    {
        self.atoms.len()
    }

    pub fn push(&mut self, atom: AtomId) -> Result<(), NoMemory>
        ensures ok { OnOk result (self.new ≡ self.old ++ atom ∷ []) }
        ensures err { OnErr result (self.new ≡ self.old) }
    {
        self.atoms.push(atom)?;
        Ok(())
    }

    pub fn as_slice(&self) -> &[AtomId]
        ensures { result.now ≡ self.now }
    {
        self.atoms.as_slice()
    }
}
