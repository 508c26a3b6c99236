//! The text of a molecule in its written order.

ghost use Rattle.std.specs.Prelude.{◌≡◌, ◌++◌, [], ◌∷◌, ◌+◌, ◌<◌, ◌≤◌, ℕ, IfOk, OnOk, length, drop, flat_map, get_or, slice_index_or, not, if◌then◌else◌};
ghost use Rattle.mc_mol.specs.declared.limits.TheConstants.{ATOM_LIMIT};
ghost use Rattle.mc_mol.specs.Molecule.{bond_sum};
ghost use Rattle.mc_mol.specs.WellFormed.{IsMolecule};
ghost use Rattle.smi_lex.specs.declared.token.TokenKind.TheVariants.{Enter, Leave};
ghost use Rattle.smi_mean.specs.Order.{graph_of, order, parents, at};
ghost use Rattle.smi_mean.specs.RingNumbers.{has};
ghost use Rattle.smi_mean.specs.Written.{bond_symbol, before_atom, spelling, written_text, if_not, mark_tokens, symbol_of};
ghost use Rattle.smi_write.specs.CentreMarks.{CentresFit, marked_token};
ghost use Rattle.smi_write.specs.WrittenOrder.{IsWrittenOrder, LastChildren};

use crate::atom_text::{push_atom, push_symbol};
use crate::mark::MarkLists;
use crate::order::WrittenAtoms;
use crate::ring_numbers::{find_closing, push_rings};
use mc_base::{NoMemory, Text};
use mc_mol::{Mol, bond_sums};
use std::alloc::Global;

/// By the rank of a parent, from 1, the rank, from 0, of its last child.
fn last_children(alloc: Global, parents: &[u32]) -> Result<Vec<u32>, NoMemory>
    requires few { length parents.now ≤ ATOM_LIMIT }
    requires within { (k : ℕ) → k < length parents.now → slice_index_or parents.now k 0 ≤ length parents.now }
    ensures { IfOk result (λ last. LastChildren parents.now (length parents.now) last.items) }
{
    let mut last = vec![in alloc; 0; parents.len() + 1]?;
    for rank in 0..parents.len() {
        last[parents[rank] as usize] = rank as u32;
    }
    Ok(last)
}

fn push_unless(text: &mut Text, holds: bool, byte: u8) -> Result<(), NoMemory>
    ensures { OnOk result (text.new ≡ text.old ++ (if holds then [] else byte ∷ [])) }
{
    if !holds {
        text.push(byte)?;
    }
    Ok(())
}

/// The branches and the bond of an atom that has a parent. `later` says whether a later atom has the same
/// parent.
fn push_bond(text: &mut Text, after_parent: bool, later: bool, order: u8) -> Result<(), NoMemory>
    ensures { OnOk result (text.new ≡ text.old ++ flat_map spelling (if_not after_parent Leave ++ (if_not (not later) Enter ++ mark_tokens (symbol_of order)))) }
{
    push_unless(text, after_parent, b')')?;
    push_unless(text, !later, b'(')?;
    push_symbol(text, order)
}

/// What stands before an atom.
fn push_before(
    text: &mut Text,
    mol: &Mol,
    written: &WrittenAtoms,
    last: &[u32],
    rank: u32,
) -> Result<(), NoMemory>
    requires written { IsWrittenOrder mol.now written.now }
    requires molecule { IsMolecule mol.now }
    requires last { LastChildren written.now.parents.items (length mol.now.atoms) last.now }
    requires within { rank < length mol.now.atoms }
    ensures { OnOk result (text.new ≡ text.old ++ flat_map spelling (before_atom (λ j l. bond_symbol (graph_of mol.now) j l) rank
        (slice_index_or written.now.parents.items rank 0) (drop (rank + 1) written.now.parents.items))) }
{
    let parent = written.parents[rank as usize];
    if parent == 0 {
        return push_unless(text, rank == 0, b'.');
    }
    let later = last[parent as usize] > rank;
    push_bond(text, parent == rank, later, written.orders[rank as usize])
}

/// An atom with what stands before it, and with this mark.
fn push_step(
    text: &mut Text,
    mol: &Mol,
    written: &WrittenAtoms,
    sums: &[u32],
    last: &[u32],
    rank: u32,
    mark: Option<bool>,
) -> Result<(), NoMemory>
    requires written { IsWrittenOrder mol.now written.now }
    requires molecule { IsMolecule mol.now }
    requires sum_count { length sums.now ≡ length mol.now.atoms }
    requires sums { (u : ℕ) → get_or sums.now u 0 ≡ bond_sum mol.now.bonds u }
    requires last { LastChildren written.now.parents.items (length mol.now.atoms) last.now }
    requires within { rank < length mol.now.atoms }
    ensures { OnOk result (text.new ≡ text.old ++ (flat_map spelling (before_atom (λ j l. bond_symbol (graph_of mol.now) j l) rank
        (slice_index_or written.now.parents.items rank 0) (drop (rank + 1) written.now.parents.items))
        ++ spelling (marked_token mol.now (at (graph_of mol.now) rank) mark))) }
{
    push_before(text, mol, written, last, rank)?;
    let id = written.atoms[rank as usize];
    push_atom(text, mol.atom(id), sums[id.0 as usize], mark)?;
    Ok(())
}

/// Room for the texts of most molecules with so many atoms. A longer text takes more as it grows.
fn usual_length(mol: &Mol) -> usize {
    4 * mol.atom_count() as usize + 16
}

/// The text of a molecule in its written order. Which ring numbers close at an atom is known before the atom
/// is written, since the mark of a centre depends on their order.
pub fn text_of(alloc: Global, mol: &Mol, written: &WrittenAtoms) -> Result<Text, NoMemory>
    requires written { IsWrittenOrder mol.now written.now }
    requires molecule { IsMolecule mol.now }
    ensures { IfOk result (λ text. CentresFit mol.now → text ≡ written_text mol.now) }
{
    let sums = bond_sums(alloc, mol.bonds(), mol.atom_count() as usize)?;
    let last = last_children(alloc, &written.parents)?;
    let mut rings = Vec::new(alloc);
    let mut closing = Vec::new(alloc);
    let mut lists = MarkLists::new(alloc);
    let mut text = Text::from_vec(Vec::with_capacity(alloc, usual_length(mol))?);
    for rank in 0..mol.atom_count() {
        find_closing(&mut closing, &rings, rank)?;
        let mark = lists.mark(mol, written, &rings, &closing, &last, rank)?;
        push_step(&mut text, mol, written, &sums, &last, rank, mark)?;
        push_rings(&mut text, mol, written, &mut rings, &closing, rank)?;
    }
    Ok(text)
}
