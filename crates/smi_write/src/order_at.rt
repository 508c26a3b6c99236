//! The neighbours of an atom in their written order.

ghost use Rattle.std.specs.Prelude.{◌≡◌, ◌++◌, ◌+◌, ◌<◌, ◌≤◌, ◌==◌, ℕ, List, OnOk, false, length, map, slice_index_or, suc};
ghost use Rattle.mc_mol.specs.declared.limits.TheConstants.{ATOM_LIMIT};
ghost use Rattle.smi_mean.specs.Order.{graph_of, has_ring};
ghost use Rattle.smi_mean.specs.RingNumbers.{Pair, ending, numbers, passing, partners, sorted};
ghost use Rattle.smi_write.specs.OpenRings.{Holds, opener_of};
ghost use Rattle.smi_write.specs.Texts.{open_pairs};
ghost use Rattle.smi_mean.specs.WrittenPlaces.{others};
ghost use Rattle.smi_write.specs.WrittenOrder.{IsWrittenOrder, LastChildren};

use crate::order::WrittenAtoms;
use crate::ring_numbers::{OpenRing, next_partner, opener_of};
use mc_base::NoMemory;
use mc_mol::Mol;

/// The atoms whose numbers close at an atom, in the order of the numbers.
pub fn push_openers(
    list: &mut Vec<u32>,
    rings: &[OpenRing],
    closing: &[usize],
) -> Result<(), NoMemory>
    ensures { OnOk result ((pairs : List Pair) → Holds rings.now pairs → list.new.items ≡ list.old.items ++ map (λ n. opener_of n pairs) closing.now) }
{
    for number in closing {
        list.push(opener_of(rings, *number))?;
    }
    Ok(())
}

/// The atoms behind an atom to which it has ring bonds, in the order in which they are written.
pub fn push_partners(
    list: &mut Vec<u32>,
    mol: &Mol,
    written: &WrittenAtoms,
    rank: u32,
) -> Result<(), NoMemory>
    requires written { IsWrittenOrder mol.now written.now }
    requires few { length mol.now.atoms ≤ ATOM_LIMIT }
    requires within { rank < length mol.now.atoms }
    ensures { OnOk result (list.new.items ≡ list.old.items ++ partners (λ j l. has_ring (graph_of mol.now) j l) (length mol.now.atoms) rank) }
{
    let mut above = rank;
    while let Some(partner) = next_partner(mol, written, rank, above) {
        list.push(partner)?;
        above = partner;
    }
    Ok(())
}

/// A rank behind the last child of an atom, and at most the number of atoms.
fn behind_children(last: &[u32], rank: u32, count: u32) -> u32
    requires within { rank + 1 < length last.now }
    ensures low { result ≤ count }
    ensures behind { (l : ℕ) → result ≤ l → l < count → slice_index_or last.now (rank + 1) 0 < l }
{
    let child = last[rank as usize + 1];
    if child < count { child + 1 } else { count }
}

/// The children of an atom, in the order in which they are written: they stand behind it, and before rank `end`.
pub fn push_children(
    list: &mut Vec<u32>,
    parents: &[u32],
    rank: u32,
    end: u32,
) -> Result<(), NoMemory>
    requires few { length parents.now ≤ ATOM_LIMIT }
    requires within { rank < length parents.now }
    requires end { end ≤ length parents.now }
    requires behind { (l : ℕ) → l ≤ rank → (slice_index_or parents.now l 0 == suc rank) ≡ false }
    requires before { (l : ℕ) → end ≤ l → (slice_index_or parents.now l 0 == suc rank) ≡ false }
    ensures { OnOk result (list.new.items ≡ list.old.items ++ passing (λ l. slice_index_or parents.now l 0 == suc rank) (length parents.now)) }
{
    for at in rank + 1..end {
        if parents[at as usize] as u64 == rank as u64 + 1 {
            list.push(at)?;
        }
    }
    Ok(())
}

/// The neighbours of an atom but its parent in their written order, by their ranks, instead of what the list held.
/// `closing` are the numbers that close at the atom, in increasing order.
pub fn find_others(
    list: &mut Vec<u32>,
    mol: &Mol,
    written: &WrittenAtoms,
    rings: &[OpenRing],
    closing: &[usize],
    last: &[u32],
    rank: u32,
) -> Result<(), NoMemory>
    requires written { IsWrittenOrder mol.now written.now }
    requires few { length mol.now.atoms ≤ ATOM_LIMIT }
    requires within { rank < length mol.now.atoms }
    requires last { LastChildren written.now.parents.items (length mol.now.atoms) last.now }
    requires rings { Holds rings.now (open_pairs mol.now rank) }
    requires closing { closing.now ≡ numbers (sorted (ending rank (open_pairs mol.now rank))) }
    ensures { OnOk result (list.new.items ≡ others (graph_of mol.now) rank) }
{
    list.clear();
    push_openers(list, rings, closing)?;
    push_partners(list, mol, written, rank)?;
    let end = behind_children(last, rank, mol.atom_count());
    push_children(list, &written.parents, rank, end)
}
