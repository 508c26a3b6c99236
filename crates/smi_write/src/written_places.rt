//! The places of an atom in their written order.

ghost use Rattle.std.specs.Option.{option_to_list};
ghost use Rattle.std.specs.Prelude.{◌≡◌, ◌++◌, ◌<◌, ℕ, OnOk, length, map, get_or};
ghost use Rattle.mc_mol.specs.WellFormed.{IsMolecule};
ghost use Rattle.smi_mean.specs.CentrePlaces.{atom_slot, has_rest, rest_if};
ghost use Rattle.smi_mean.specs.Order.{graph_of, at};
ghost use Rattle.mc_mol.specs.Permutations.{is_even_permutation as is_even};
ghost use Rattle.smi_mean.specs.WrittenPlaces.{atom_at as rank_atom, others as other_ranks, parent_of, written_places};
ghost use Rattle.smi_write.specs.WrittenOrder.{IsWrittenOrder};

use crate::order::WrittenAtoms;
use mc_base::NoMemory;
use mc_mol::{Mol, Slot, is_even_permutation};

/// The atom of a rank, as a place.
#[inline(always)]
fn atom_at(mol: &Mol, written: &WrittenAtoms, rank: u32) -> Slot
    requires written { IsWrittenOrder mol.now written.now }
    requires within { rank < length mol.now.atoms }
    ensures { result ≡ atom_slot (at (graph_of mol.now) rank) }
{
    Slot::At(written.atoms[rank as usize])
}

/// Adds the parent of an atom, where it has one.
fn push_parent(
    places: &mut Vec<Slot>,
    mol: &Mol,
    written: &WrittenAtoms,
    rank: u32,
) -> Result<(), NoMemory>
    requires written { IsWrittenOrder mol.now written.now }
    requires within { rank < length mol.now.atoms }
    ensures { OnOk result (places.new.items ≡ places.old.items ++ map atom_slot (option_to_list (rank_atom (graph_of mol.now) (parent_of (graph_of mol.now) rank)))) }
{
    let parent = written.parents[rank as usize];
    if parent != 0 {
        places.push(atom_at(mol, written, parent - 1))?;
    }
    Ok(())
}

/// Adds the rest, where an atom with so many hydrogens and neighbours has one.
fn push_rest(places: &mut Vec<Slot>, hydrogens: u8, neighbours: usize) -> Result<(), NoMemory>
    ensures { OnOk result (places.new.items ≡ places.old.items ++ rest_if (has_rest hydrogens neighbours)) }
{
    if hydrogens > 0 || neighbours == 3 {
        places.push(Slot::Rest)?;
    }
    Ok(())
}

/// Adds the atoms of these ranks.
fn push_atoms(
    places: &mut Vec<Slot>,
    mol: &Mol,
    written: &WrittenAtoms,
    ranks: &[u32],
) -> Result<(), NoMemory>
    requires written { IsWrittenOrder mol.now written.now }
    requires within { (k : ℕ) → k < length ranks.now → get_or ranks.now k 0 < length mol.now.atoms }
    ensures { OnOk result (places.new.items ≡ places.old.items ++ map atom_slot (map (λ l. at (graph_of mol.now) l) ranks.now)) }
{
    for rank in ranks {
        places.push(atom_at(mol, written, *rank))?;
    }
    Ok(())
}

/// The places of an atom with so many hydrogens in their written order, instead of what the list held. `others` are its
/// neighbours but its parent, by rank.
pub fn find_places(
    places: &mut Vec<Slot>,
    mol: &Mol,
    written: &WrittenAtoms,
    others: &[u32],
    rank: u32,
    hydrogens: u8,
) -> Result<(), NoMemory>
    requires written { IsWrittenOrder mol.now written.now }
    requires molecule { IsMolecule mol.now }
    requires within { rank < length mol.now.atoms }
    requires others { others.now ≡ other_ranks (graph_of mol.now) rank }
    ensures { OnOk result (places.new.items ≡ written_places (graph_of mol.now) rank hydrogens) }
{
    places.clear();
    push_parent(places, mol, written, rank)?;
    let neighbours = places.len() + others.len();
    push_rest(places, hydrogens, neighbours)?;
    push_atoms(places, mol, written, others)
}

/// Whether the mark of a centre is `@`, where the written order of its places has four.
pub fn is_plain_mark(centre: &[Slot; 4], places: &[Slot]) -> bool
    ensures { length places.now ≡ 4 → result ≡ is_even centre.now places.now }
{
    match places {
        [first, second, third, fourth] => {
            is_even_permutation(centre, &[*first, *second, *third, *fourth])
        }
        _ => false,
    }
}
