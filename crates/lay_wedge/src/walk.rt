//! Each centre takes a free bond, and the walk goes on at the bond's other end.
ghost use Rattle.std.specs.Prelude.{◌≡◌, ◌<◌, List, true, length, map, IfOk};
ghost use Rattle.mc_mol.specs.declared.parts.Bond.{Bond as Joining};
ghost use Rattle.mc_mol.specs.declared.parts.Slot.{Slot as Place};
ghost use Rattle.mc_mol.specs.HalfEdges.{half_edges};
ghost use Rattle.mc_mol.specs.Permutations.{is_even_permutation};
ghost use Rattle.ct_geometry.specs.Drawn.{rays_from};
ghost use Rattle.ct_geometry.specs.Neighbours.{LeadTo};
ghost use Rattle.ct_geometry.specs.Wedges.{is_wedge, wedge_list};
ghost use Rattle.lay_wedge.specs.Plans.{IsCentre, plain};
ghost use Rattle.lay_wedge.specs.Underway.{IsPlannable};

use crate::bonds::{is_free, mark_of, may_serve};
use ct_geometry::Wedge;
use ct_sd::DrawMark;
use mc_base::{AtomId, NoMemory};
use mc_mol::{Bond, HalfEdge, Mol, Point};
use std::alloc::Global;

/// Wedges as far as they are planned, and which atoms are centres that have theirs.
#[derive(Drop)]
pub struct Walk {
    wedges: Vec<Wedge>,
    planned: Vec<bool>,
}

/// Without a wedge the end with the lesser number is written first.
fn plain(bond: Bond) -> Wedge
    ensures { result ≡ plain bond }
{
    Wedge {
        mark: DrawMark::Plain,
        narrow: if bond.second.0 < bond.first.0 {
            bond.second
        } else {
            bond.first
        },
    }
}

fn no_wedges(alloc: Global, mol: &Mol) -> Result<Vec<Wedge>, NoMemory>
    ensures { IfOk result (λ wedges. wedges.items ≡ map (λ (bond : Joining). plain bond) mol.now.bonds) }
{
    let bonds = mol.bonds();
    let mut wedges = Vec::with_capacity(alloc, bonds.len())?;
    for bond in bonds {
        wedges.push(plain(*bond))?;
    }
    Ok(wedges)
}

/// The mark by which the bond of a half-edge says the hand of a centre.
#[tactic(auto, using(crate::proofs::Started::among_of, crate::proofs::Started::of_some))]
fn mark_for(mol: &Mol, drawing: &[Point], a: AtomId, half: HalfEdge) -> DrawMark
    requires atom { a.0 < length mol.now.atoms }
    requires plannable { IsPlannable mol.now drawing.now }
    requires centre { (places : List Place) × IsCentre mol.now a.0 places }
    requires half { LeadTo (half_edges mol.now a.0) half.to }
    ensures marked { is_wedge result ≡ true }
    ensures even { (places : List Place) → IsCentre mol.now a.0 places → is_even_permutation places (wedge_list (half_edges mol.now a.0) (rays_from drawing.now a.0) half.to result) ≡ true }
{
    match mol.centre(a) {
        Some(places) => mark_of(drawing, a, mol.bonds_of(a), half.to, &places),
        None => unreachable!(),
    }
}

impl Walk {
    ghost use Rattle.std.specs.Prelude.{◌≡◌, ◌<◌, ℕ, List, true, length, slice_get, Some, None, IfOk};
    ghost use Rattle.mc_mol.specs.declared.parts.Slot.{Slot as Place};
    ghost use Rattle.lay_wedge.specs.Plans.{IsCentre, IsPlan};
    ghost use Rattle.lay_wedge.specs.Underway.{GoesOn, HasFree, IsPlannable, IsPlanned, KeepPlanned, Underway, is_open, number, waiting};

    /// No centre has a wedge yet.
    pub fn new(alloc: Global, mol: &Mol, atoms: usize, drawing: &[Point]) -> Result<Walk, NoMemory>
        requires atoms { atoms ≡ length mol.now.atoms }
        requires plannable { IsPlannable mol.now drawing.now }
        ensures { IfOk result (λ walk. Underway mol.now drawing.now walk.wedges.items walk.planned.items None) }
    {
        let wedges = no_wedges(alloc, mol)?;
        let planned = vec![in alloc; false; atoms]?;
        Ok(Walk { wedges, planned })
    }

    pub fn into_wedges(self) -> Vec<Wedge>
        ensures { result.items ≡ self.wedges.items }
    {
        self.wedges
    }

    /// Whether the atom is a centre that has no wedge yet.
    fn is_open(&self, mol: &Mol, a: AtomId) -> bool
        ensures { result ≡ is_open mol.now self.now.planned.items a.0 }
    {
        if a.0 < mol.atom_count() && mol.centre(a).is_some() {
            match self.planned.get(a.0 as usize) {
                Some(planned) => !*planned,
                None => false,
            }
        } else {
            false
        }
    }

    /// The atom, where it is a centre that has no wedge yet.
    #[tactic(auto, using(crate::proofs::Giving::goes_on, crate::proofs::Giving::stops))]
    fn next_of(&self, mol: &Mol, to: AtomId) -> Option<AtomId>
        ensures { GoesOn mol.now self.now.planned.items to.0 (number result) }
    {
        if self.is_open(mol, to) {
            Some(to)
        } else {
            None
        }
    }

    /// A free bond of the atom that may carry its wedge.
    #[tactic(auto, using(crate::proofs::Started::of_some, ct_geometry::proofs::Loops::one_of))]
    fn free_half(&self, mol: &Mol, drawing: &[Point], a: AtomId) -> HalfEdge
        requires atom { a.0 < length mol.now.atoms }
        requires plannable { IsPlannable mol.now drawing.now }
        requires centre { (places : List Place) × IsCentre mol.now a.0 places }
        requires some { (place : ℕ) × HasFree mol.now drawing.now self.now.wedges.items a.0 place }
        ensures { (place : ℕ) × (free : HasFree mol.now drawing.now self.now.wedges.items a.0 place) × (result ≡ free.half) }
    {
        let halves = mol.bonds_of(a);
        for half in halves {
            if is_free(&self.wedges, half.bond) && may_serve(mol, drawing, a, halves, *half) {
                return *half;
            }
        }
        unreachable!()
    }

    /// Gives a centre its wedge, and answers the atom at the other end of the bond where that is a centre without one.
    #[tactic(auto, using(crate::proofs::Changed::keep_planned, crate::proofs::Changed::waiting_less, crate::proofs::Giving::planned_here))]
    fn give(&mut self, mol: &Mol, drawing: &[Point], a: AtomId) -> Option<AtomId>
        requires plannable { IsPlannable mol.now drawing.now }
        requires underway { Underway mol.now drawing.now self.old.wedges.items self.old.planned.items (Some a.0) }
        ensures underway { Underway mol.now drawing.now self.new.wedges.items self.new.planned.items (number result) }
        ensures kept { KeepPlanned self.old.planned.items self.new.planned.items }
        ensures planned { slice_get self.new.planned.items a.0 ≡ Some true }
        ensures fewer { waiting self.new.planned.items < waiting self.old.planned.items }
    {
        let half = self.free_half(mol, drawing, a);
        let mark = mark_for(mol, drawing, a, half);
        self.wedges[half.bond.0 as usize] = Wedge { mark, narrow: a };
        self.planned[a.0 as usize] = true;
        self.next_of(mol, half.to)
    }

    /// Gives a centre its wedge, and then those that lose a bond by this, one after another.
    #[tactic(auto, using(crate::proofs::Changed::keep_on))]
    fn from(&mut self, mol: &Mol, drawing: &[Point], start: AtomId)
        requires plannable { IsPlannable mol.now drawing.now }
        requires underway { Underway mol.now drawing.now self.old.wedges.items self.old.planned.items (Some start.0) }
        ensures underway { Underway mol.now drawing.now self.new.wedges.items self.new.planned.items None }
        ensures kept { KeepPlanned self.old.planned.items self.new.planned.items }
        ensures start { slice_get self.new.planned.items start.0 ≡ Some true }
    {
        let mut next = self.give(mol, drawing, start);
        while let Some(a) = next {
            next = self.give(mol, drawing, a);
        }
    }

    /// Gives an atom its wedge where it is a centre without one.
    #[tactic(auto, using(crate::proofs::Giving::begun, crate::proofs::Giving::had))]
    fn settle(&mut self, mol: &Mol, drawing: &[Point], a: AtomId)
        requires atom { a.0 < length mol.now.atoms }
        requires plannable { IsPlannable mol.now drawing.now }
        requires underway { Underway mol.now drawing.now self.old.wedges.items self.old.planned.items None }
        ensures underway { Underway mol.now drawing.now self.new.wedges.items self.new.planned.items None }
        ensures kept { KeepPlanned self.old.planned.items self.new.planned.items }
        ensures planned { IsPlanned mol.now self.new.planned.items a.0 }
    {
        if self.is_open(mol, a) {
            self.from(mol, drawing, a);
        }
    }

    /// Gives each centre its wedge.
    #[tactic(auto, using(crate::proofs::Changed::planned_more))]
    pub fn all(&mut self, mol: &Mol, drawing: &[Point])
        requires plannable { IsPlannable mol.now drawing.now }
        requires underway { Underway mol.now drawing.now self.old.wedges.items self.old.planned.items None }
        ensures { IsPlan mol.now drawing.now self.new.wedges.items }
    {
        for k in 0..mol.atom_count() {
            self.settle(mol, drawing, AtomId(k));
        }
    }
}
