ghost use Rattle.std.specs.Prelude.{◌≡◌, ◌++◌, [], ◌∷◌, length, OnOk, OnErr};

use crate::TableAtom;
use mc_base::NoMemory;
use std::alloc::Global;
use std::marker::Model;

/// The atoms of a table, in file order.
#[derive(Drop)]
pub struct TableAtoms {
    atoms: Vec<TableAtom>,
}

impl Model for TableAtoms {
    ghost use Rattle.std.specs.Prelude.{List};
    ghost use Rattle.ct_sd.specs.declared.table.TableAtom.{TableAtom};

    ghost Value = { List TableAtom };

    ghost view = { λ t. t.atoms.items };
}

impl TableAtoms {
    pub fn new(alloc: Global) -> TableAtoms
        ensures { result ≡ [] }
    {
        TableAtoms {
            atoms: Vec::new(alloc),
        }
    }

    pub fn from_vec(atoms: Vec<TableAtom>) -> TableAtoms
        ensures { result ≡ atoms.items }
    {
        TableAtoms { atoms }
    }

    pub fn into_vec(self) -> Vec<TableAtom>
        ensures { result.items ≡ self }
    {
        self.atoms
    }

    pub fn len(&self) -> usize
        ensures { result ≡ length self.now }
    {
        self.atoms.len()
    }

    pub fn push(&mut self, atom: TableAtom) -> Result<(), NoMemory>
        ensures ok { OnOk result (self.new ≡ self.old ++ atom ∷ []) }
        ensures err { OnErr result (self.new ≡ self.old) }
    {
        self.atoms.push(atom)?;
        Ok(())
    }

    pub fn as_slice(&self) -> &[TableAtom]
        ensures { result.now ≡ self.now }
    {
        self.atoms.as_slice()
    }
}
