//! The mark of a centre, which is known before the centre is written.

ghost use Rattle.std.specs.Prelude.{◌≡◌, ◌<◌, IfOk, length};
ghost use Rattle.mc_mol.specs.WellFormed.{IsMolecule};
ghost use Rattle.smi_mean.specs.Order.{graph_of, at};
ghost use Rattle.smi_mean.specs.RingNumbers.{ending, numbers, sorted};
ghost use Rattle.smi_mean.specs.WrittenPlaces.{atom_mark};
ghost use Rattle.smi_write.specs.CentreMarks.{CentresFit};
ghost use Rattle.smi_write.specs.OpenRings.{Holds};
ghost use Rattle.smi_write.specs.Texts.{open_pairs};
ghost use Rattle.smi_write.specs.WrittenOrder.{IsWrittenOrder, LastChildren};

use crate::order::WrittenAtoms;
use crate::order_at::find_others;
use crate::ring_numbers::OpenRing;
use crate::written_places::{find_places, is_plain_mark};
use mc_base::NoMemory;
use mc_mol::{Mol, Slot};
use std::alloc::Global;

/// Lists to work with, which are kept for the next centre.
#[derive(Drop)]
pub struct MarkLists {
    others: Vec<u32>,
    places: Vec<Slot>,
}

impl MarkLists {
    pub fn new(alloc: Global) -> MarkLists {
        MarkLists {
            others: Vec::new(alloc),
            places: Vec::new(alloc),
        }
    }

    /// The mark of an atom, by its rank: whether a centre has `@`, and none where the atom is no centre.
    /// `closing` are the numbers that close at it, in increasing order.
    pub fn mark(
        &mut self,
        mol: &Mol,
        written: &WrittenAtoms,
        rings: &[OpenRing],
        closing: &[usize],
        last: &[u32],
        rank: u32,
    ) -> Result<Option<bool>, NoMemory>
        requires written { IsWrittenOrder mol.now written.now }
        requires molecule { IsMolecule mol.now }
        requires within { rank < length mol.now.atoms }
        requires last { LastChildren written.now.parents.items (length mol.now.atoms) last.now }
        requires rings { Holds rings.now (open_pairs mol.now rank) }
        requires closing { closing.now ≡ numbers (sorted (ending rank (open_pairs mol.now rank))) }
        ensures { IfOk result (λ mark. CentresFit mol.now → mark ≡ atom_mark mol.now (at (graph_of mol.now) rank)) }
    {
        let atom = written.atoms[rank as usize];
        let Some(centre) = mol.centre(atom) else {
            return Ok(None);
        };
        find_others(&mut self.others, mol, written, rings, closing, last, rank)?;
        let hydrogens = mol.atom(atom).hydrogens;
        find_places(
            &mut self.places,
            mol,
            written,
            &self.others,
            rank,
            hydrogens,
        )?;
        Ok(Some(is_plain_mark(&centre, &self.places)))
    }
}
