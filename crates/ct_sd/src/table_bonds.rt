ghost use Rattle.std.specs.Prelude.{◌≡◌, ◌++◌, [], ◌∷◌, length, OnOk, OnErr};

use crate::TableBond;
use mc_base::NoMemory;
use std::alloc::Global;
use std::marker::Model;

/// The bonds of a table, in file order.
#[derive(Drop)]
pub struct TableBonds {
    bonds: Vec<TableBond>,
}

impl Model for TableBonds {
    ghost use Rattle.std.specs.Prelude.{List};
    ghost use Rattle.ct_sd.specs.declared.table.TableBond.{TableBond};

    ghost Value = { List TableBond };

    ghost view = { λ t. t.bonds.items };
}

impl TableBonds {
    pub fn new(alloc: Global) -> TableBonds
        ensures { result ≡ [] }
    {
        TableBonds {
            bonds: Vec::new(alloc),
        }
    }

    pub fn from_vec(bonds: Vec<TableBond>) -> TableBonds
        ensures { result ≡ bonds.items }
    {
        TableBonds { bonds }
    }

    pub fn into_vec(self) -> Vec<TableBond>
        ensures { result.items ≡ self }
    {
        self.bonds
    }

    pub fn len(&self) -> usize
        ensures { result ≡ length self.now }
    {
        self.bonds.len()
    }

    pub fn push(&mut self, bond: TableBond) -> Result<(), NoMemory>
        ensures ok { OnOk result (self.new ≡ self.old ++ bond ∷ []) }
        ensures err { OnErr result (self.new ≡ self.old) }
    {
        self.bonds.push(bond)?;
        Ok(())
    }

    pub fn as_slice(&self) -> &[TableBond]
        ensures { result.now ≡ self.now }
    {
        self.bonds.as_slice()
    }
}
