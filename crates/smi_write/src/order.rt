//! The order in which the atoms of a molecule are written: a walk with a stack, which goes on behind the
//! latest atom that has an unwritten neighbour. It finds by the way what the text asks for by rank.

ghost use Rattle.std.specs.List.{list_any};
ghost use Rattle.std.specs.Prelude.{◌≡◌, ◌++◌, [], ◌∷◌, ◌+◌, ◌-◌, ◌^◌, ◌<◌, ◌≤◌, ℕ, All, OnOk, IfOk, length, slice_set, slice_index_or, None, option_to_list, if◌then◌else◌};
ghost use Rattle.mc_mol.specs.WellFormed.{IsMolecule};
ghost use Rattle.smi_mean.specs.Order.{graph_of, steps};
ghost use Rattle.smi_write.specs.Progress.{HoldsMarks, IsWalkWith, left};
ghost use Rattle.smi_write.specs.WrittenOrder.{IsWrittenOrder};
ghost use Rattle.smi_write.specs.Seen.{Sees, leads_back, mark_all, nothing, see, see_all};

use mc_base::{AtomId, BondId, NoMemory};
use mc_mol::{HalfEdge, Mol};
use std::alloc::Global;

/// How far the atoms are written.
#[derive(Drop)]
struct Walk {
    /// the atoms by rank
    atoms: Vec<AtomId>,
    /// by rank, the rank of the atom's parent, from 1, or 0
    parents: Vec<u32>,
    /// by rank, the order of the bond to the atom's parent
    orders: Vec<u8>,
    /// the rank of each atom, from 1, or 0 where it isn't written
    ranks: Vec<u32>,
    /// by rank, whether a ring bond leads to a later atom
    opens: Vec<bool>,
    /// the written atoms that may have unwritten neighbours, the latest last
    stack: Vec<u32>,
}

impl Walk {
    /// Writes an atom behind the others.
    fn write(&mut self, atom: u32, parent: u32, order: u8) -> Result<(), NoMemory>
        requires within { atom < length self.old.ranks.items }
        requires few { length self.old.atoms.items < 2 ^ 32 - 1 }
        ensures atoms { OnOk result (self.new.atoms.items ≡ self.old.atoms.items ++ record { 0 = atom } ∷ []) }
        ensures parents { OnOk result (self.new.parents.items ≡ self.old.parents.items ++ parent ∷ []) }
        ensures orders { OnOk result (self.new.orders.items ≡ self.old.orders.items ++ order ∷ []) }
        ensures ranks { OnOk result (self.new.ranks.items ≡ slice_set self.old.ranks.items atom (length self.old.atoms.items + 1)) }
        ensures opens { OnOk result (self.new.opens.items ≡ self.old.opens.items) }
        ensures stack { OnOk result (self.new.stack.items ≡ self.old.stack.items) }
    {
        self.ranks[atom as usize] = self.atoms.len() as u32 + 1;
        self.atoms.push(AtomId(atom))?;
        self.parents.push(parent)?;
        self.orders.push(order)?;
        Ok(())
    }

    /// What is seen of the neighbours of the latest atom, or of the latest one of the stack.
    fn look(&mut self, mol: &Mol, atom: u32) -> Seen
        requires molecule { IsMolecule mol.now }
        requires walk { IsWalkWith mol.now self.old (atom ∷ []) }
        ensures walk { IsWalkWith mol.now self.new (atom ∷ []) }
        ensures seen { Sees mol.now (steps (graph_of mol.now) (length self.new.atoms.items)) atom result }
        ensures marks { HoldsMarks mol.now self.new.parents.items self.new.ranks.items [] self.new.opens.items }
        ensures left { left mol.now self.new (atom ∷ []) ≡ left mol.now self.old (atom ∷ []) }
        ensures kept { self.new.ranks ≡ self.old.ranks }
    {
        let halves = mol.bonds_of(AtomId(atom));
        let rank = self.ranks[atom as usize];
        let parent = self.parents[rank as usize - 1];
        let found = neighbours_seen(halves, &self.ranks, rank, parent);
        mark_if(
            found.back,
            &mut self.opens,
            halves,
            &self.ranks,
            rank,
            parent,
        );
        found
    }

    /// Goes on behind an atom: to its least unwritten neighbour, and where it has none to the latest atom of
    /// the stack. The atom stays on the stack only where it has another unwritten neighbour.
    fn visit(&mut self, mol: &Mol, atom: u32) -> Result<Option<u32>, NoMemory>
        requires molecule { IsMolecule mol.now }
        requires walk { IsWalkWith mol.now self.old (atom ∷ []) }
        ensures walk { IfOk result (λ next. IsWalkWith mol.now self.new (option_to_list next)) }
        ensures empty { IfOk result (λ next. next ≡ None → self.new.stack.items ≡ []) }
        ensures left { IfOk result (λ next. left mol.now self.new (option_to_list next) < left mol.now self.old (atom ∷ [])) }
        ensures kept { OnOk result ((v : ℕ) → 0 < slice_index_or self.old.ranks.items v 0 → 0 < slice_index_or self.new.ranks.items v 0) }
    {
        let found = self.look(mol, atom);
        if !found.some {
            return Ok(self.stack.pop());
        }
        let parent = self.ranks[atom as usize];
        push_if(&mut self.stack, found.more, atom)?;
        self.write(found.least, parent, mol.bond(found.bond).order)?;
        Ok(Some(found.least))
    }

    /// Writes all atoms that are reached from a root.
    fn finish(&mut self, mol: &Mol, root: u32) -> Result<(), NoMemory>
        requires molecule { IsMolecule mol.now }
        requires walk { IsWalkWith mol.now self.old (root ∷ []) }
        ensures walk { OnOk result (IsWalkWith mol.now self.new []) }
        ensures empty { OnOk result (self.new.stack.items ≡ []) }
        ensures kept { OnOk result ((v : ℕ) → 0 < slice_index_or self.old.ranks.items v 0 → 0 < slice_index_or self.new.ranks.items v 0) }
    {
        let mut next = Some(root);
        while let Some(atom) = next {
            next = self.visit(mol, atom)?;
        }
        Ok(())
    }
}

/// Puts an atom onto a stack where more is to be written behind it.
fn push_if(stack: &mut Vec<u32>, more: bool, atom: u32) -> Result<(), NoMemory>
    ensures { OnOk result (stack.new.items ≡ stack.old.items ++ (if more then atom ∷ [] else [])) }
{
    if more {
        stack.push(atom)?;
    }
    Ok(())
}

/// What one pass over the half-edges of an atom says of its neighbours.
#[derive(Clone, Copy)]
struct Seen {
    /// whether there is an unwritten one
    some: bool,
    /// whether there is another
    more: bool,
    /// whether a ring bond leads back to a written one
    back: bool,
    /// the least unwritten one
    least: u32,
    /// the bond to it
    bond: BondId,
}

impl Seen {
    /// One half-edge more, which leads to an unwritten atom or not, and back by a ring bond or not. There is no
    /// jump that the processor could guess wrong.
    fn see(self, half: HalfEdge, free: bool, back: bool) -> Seen
        ensures { result ≡ see self half free back }
    {
        let lower = free & (!self.some | (half.to.0 < self.least));
        Seen {
            some: self.some | free,
            more: self.more | (self.some & free),
            back: self.back | back,
            least: if lower { half.to.0 } else { self.least },
            bond: if lower { half.bond } else { self.bond },
        }
    }
}

/// Whether a ring bond leads from the atom of a rank, which has this parent, back to the atom at another
/// one. All are ranks from 1, and 0 is none.
fn leads_back(rank: u32, parent: u32, at: u32) -> bool
    ensures { result ≡ leads_back rank parent at }
{
    (at > 0) & (at < rank) & (at != parent)
}

/// The neighbours to which these half-edges of the atom of a rank lead.
fn neighbours_seen(halves: &[HalfEdge], ranks: &[u32], rank: u32, parent: u32) -> Seen
    requires { All (λ half. half.to.0 < length ranks.now) halves.now }
    ensures { result ≡ see_all rank parent ranks.now nothing halves.now }
{
    let mut found = Seen {
        some: false,
        more: false,
        back: false,
        least: 0,
        bond: BondId(0),
    };
    for half in halves {
        let at = ranks[half.to.0 as usize];
        found = found.see(*half, at == 0, leads_back(rank, parent, at));
    }
    found
}

/// Marks the atoms to which ring bonds lead back from the atom of a rank, if there are any.
fn mark_if(
    back: bool,
    opens: &mut Vec<bool>,
    halves: &[HalfEdge],
    ranks: &[u32],
    rank: u32,
    parent: u32,
)
    requires back { back ≡ list_any (λ half. leads_back rank parent (slice_index_or ranks.now half.to.0 0)) halves.now }
    requires within { All (λ half. half.to.0 < length ranks.now) halves.now }
    requires low { rank ≤ length opens.old.items }
    ensures { opens.new.items ≡ mark_all rank parent ranks.now opens.old.items halves.now }
{
    if !back {
        return;
    }
    for half in halves {
        let at = ranks[half.to.0 as usize];
        if leads_back(rank, parent, at) {
            opens[at as usize - 1] = true;
        }
    }
}

/// The atoms in the order in which they are written.
#[derive(Drop)]
pub struct WrittenAtoms {
    /// the atoms by rank
    pub atoms: Vec<AtomId>,
    /// by rank, the rank of the atom's parent, from 1, or 0 where it has none
    pub parents: Vec<u32>,
    /// by rank, the order of the bond to the atom's parent
    pub orders: Vec<u8>,
    /// the rank of each atom, from 1
    pub ranks: Vec<u32>,
    /// by rank, whether a ring bond leads to a later atom
    pub opens: Vec<bool>,
}

/// The order in which the atoms of a molecule are written.
pub fn order(alloc: Global, mol: &Mol) -> Result<WrittenAtoms, NoMemory>
    ensures written { IfOk result (λ found. IsWrittenOrder mol.now found) }
    ensures molecule { IsMolecule mol.now }
{
    let count = mol.atom_count();
    let mut walk = Walk {
        atoms: Vec::with_capacity(alloc, count as usize)?,
        parents: Vec::with_capacity(alloc, count as usize)?,
        orders: Vec::with_capacity(alloc, count as usize)?,
        ranks: vec![in alloc; 0; count as usize]?,
        opens: vec![in alloc; false; count as usize]?,
        stack: Vec::with_capacity(alloc, count as usize)?,
    };
    for root in 0..count {
        if walk.ranks[root as usize] == 0 {
            walk.write(root, 0, 1)?;
            walk.finish(mol, root)?;
        }
    }
    Ok(WrittenAtoms {
        atoms: walk.atoms,
        parents: walk.parents,
        orders: walk.orders,
        ranks: walk.ranks,
        opens: walk.opens,
    })
}
