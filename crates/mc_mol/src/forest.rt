ghost use Rattle.std.specs.Prelude.{◌≤◌, length, IfOk};
ghost use Rattle.mc_mol.specs.declared.limits.TheConstants.{ATOM_LIMIT};
ghost use Rattle.mc_mol.specs.Forests.{IsForest};

use crate::Graph;
use mc_base::AtomId;
use std::alloc::{AllocError, Global};

/// The atoms as a depth-first search finds them.
#[derive(Drop)]
pub struct Forest {
    /// the atoms in the order in which they are found
    pub order: Vec<AtomId>,
    /// for each atom that is found its place in the order
    pub places: Vec<Option<u32>>,
    /// for each atom the one from which it was found; none at a root
    pub parents: Vec<Option<AtomId>>,
    /// the first atom of each connected part
    pub roots: Vec<AtomId>,
}

impl Forest {
    ghost use Rattle.std.specs.Prelude.{◌≡◌, ◌+◌, ◌++◌, ◌<◌, ◌≤◌, [], ◌∷◌, ℕ, true, length, slice_get, slice_set, replicate, None, Some, OnOk, IfOk, IfSome, IsTrue, ◌↔◌};
    ghost use Rattle.mc_mol.specs.declared.limits.TheConstants.{ATOM_LIMIT};
    ghost use Rattle.mc_mol.specs.Molecule.{are_joined};
    ghost use Rattle.mc_mol.specs.Numbered.{Mark, Keeps};
    ghost use Rattle.mc_mol.specs.Forests.{Parent, Searched, IsForest, with_root, still_to_go};
    ghost use Rattle.mc_mol.specs.Parts.{independent_rings};

    /// No atom is found yet.
    fn new(alloc: Global, count: usize) -> Result<Forest, AllocError>
        ensures order { IfOk result (λ forest. forest.order.items ≡ []) }
        ensures places { IfOk result (λ forest. forest.places.items ≡ replicate count None) }
        ensures parents { IfOk result (λ forest. forest.parents.items ≡ replicate count None) }
        ensures roots { IfOk result (λ forest. forest.roots.items ≡ []) }
    {
        let places = vec![in alloc; None; count]?;
        let parents = vec![in alloc; None; count]?;
        Ok(Forest {
            order: Vec::new(alloc),
            places,
            parents,
            roots: Vec::new(alloc),
        })
    }

    /// Gives an atom the next place.
    fn find(&mut self, atom: AtomId, parent: Option<AtomId>) -> Result<(), AllocError>
        requires places { atom.0 < length self.old.places.items }
        requires parents { atom.0 < length self.old.parents.items }
        requires few { length self.old.order.items ≤ ATOM_LIMIT }
        ensures order { OnOk result (self.new.order.items ≡ self.old.order.items ++ atom ∷ []) }
        ensures places { OnOk result (self.new.places.items ≡ slice_set self.old.places.items atom.0 (Some (length self.old.order.items))) }
        ensures parents { OnOk result (self.new.parents.items ≡ slice_set self.old.parents.items atom.0 parent) }
        ensures roots { OnOk result (self.new.roots.items ≡ with_root self.old.roots.items parent atom) }
    {
        let place = self.order.len() as u32;
        if let None = parent {
            self.roots.push(atom)?;
        }
        self.order.push(atom)?;
        self.places[atom.0 as usize] = Some(place);
        self.parents[atom.0 as usize] = parent;
        Ok(())
    }

    /// A neighbour that isn't found yet, if there is one.
    fn unfound_neighbour(&self, graph: &Graph<'_>, atom: AtomId) -> Option<AtomId>
        requires atom { atom.0 < graph.now.atoms }
        requires count { length self.now.places.items ≡ graph.now.atoms }
        requires found { (place : ℕ) × (Mark self.now.places.items atom.0 place) }
        ensures free { IfSome result (λ next. slice_get self.now.places.items next.0 ≡ Some None) }
        ensures joined { IfSome result (λ next. are_joined graph.now.bonds atom.0 next.0 ≡ true) }
        ensures none { result ≡ None → (y : ℕ) → are_joined graph.now.bonds atom.0 y ≡ true → slice_get self.now.places.items y ≡ Some None → ⊥ }
    {
        for half in graph.half_edges(atom) {
            if let None = self.places[half.to.0 as usize] {
                return Some(half.to);
            }
        }
        None
    }

    /// Finds an atom and all of its part, if it isn't found yet.
    fn visit(&mut self, graph: &Graph<'_>, atom: AtomId) -> Result<(), AllocError>
        requires few { graph.now.atoms ≤ ATOM_LIMIT }
        requires atom { atom.0 < graph.now.atoms }
        requires state { Searched graph.now.bonds graph.now.atoms self.old.order.items self.old.places.items self.old.parents.items self.old.roots.items None }
        ensures state { OnOk result (Searched graph.now.bonds graph.now.atoms self.new.order.items self.new.places.items self.new.parents.items self.new.roots.items None) }
        ensures found { OnOk result ((place : ℕ) × (Mark self.new.places.items atom.0 place)) }
        ensures kept { OnOk result (Keeps self.old.places.items self.new.places.items) }
    {
        match self.places[atom.0 as usize] {
            Some(_) => Ok(()),
            None => self.search(graph, atom),
        }
    }

    /// Finds all atoms of the part of an atom.
    fn search(&mut self, graph: &Graph<'_>, root: AtomId) -> Result<(), AllocError>
        requires few { graph.now.atoms ≤ ATOM_LIMIT }
        requires root { slice_get self.old.places.items root.0 ≡ Some None }
        requires state { Searched graph.now.bonds graph.now.atoms self.old.order.items self.old.places.items self.old.parents.items self.old.roots.items None }
        ensures state { OnOk result (Searched graph.now.bonds graph.now.atoms self.new.order.items self.new.places.items self.new.parents.items self.new.roots.items None) }
        ensures root { OnOk result ((place : ℕ) × (Mark self.new.places.items root.0 place)) }
        ensures kept { OnOk result (Keeps self.old.places.items self.new.places.items) }
    {
        self.find(root, None)?;
        let mut current = Some(root);
        'atoms: while let Some(atom) = current {
            current = self.step(graph, atom)?;
        }
        Ok(())
    }

    /// Finds a neighbour of the current atom, or leaves the atom for its parent: the new current atom.
    fn step(&mut self, graph: &Graph<'_>, atom: AtomId) -> Result<Option<AtomId>, AllocError>
        requires few { graph.now.atoms ≤ ATOM_LIMIT }
        requires state { Searched graph.now.bonds graph.now.atoms self.old.order.items self.old.places.items self.old.parents.items self.old.roots.items (Some atom) }
        ensures state { IfOk result (λ next. Searched graph.now.bonds graph.now.atoms self.new.order.items self.new.places.items self.new.parents.items self.new.roots.items next) }
        ensures smaller { IfOk result (λ next. still_to_go graph.now.atoms self.new.places.items next < still_to_go graph.now.atoms self.old.places.items (Some atom)) }
        ensures kept { OnOk result (Keeps self.old.places.items self.new.places.items) }
    {
        match self.unfound_neighbour(graph, atom) {
            Some(next) => {
                self.find(next, Some(atom))?;
                Ok(Some(next))
            }
            None => Ok(self.parent(atom)),
        }
    }

    /// The atom from which this one was found.
    pub fn parent(&self, atom: AtomId) -> Option<AtomId>
        requires { atom.0 < length self.now.parents.items }
        ensures { slice_get self.now.parents.items atom.0 ≡ Some result }
    {
        self.parents[atom.0 as usize]
    }

    /// The atom at a place of the order.
    pub fn atom_at(&self, place: usize) -> AtomId
        requires { place < length self.now.order.items }
        ensures { slice_get self.now.order.items place ≡ Some result }
    {
        self.order[place]
    }

    /// Whether an atom was found from this other one.
    pub fn is_child(&self, atom: AtomId, parent: AtomId) -> bool
        requires { atom.0 < length self.now.parents.items }
        ensures { IsTrue result ↔ Parent self.now.parents.items atom.0 parent.0 }
    {
        match self.parent(atom) {
            Some(found) => found.0 == parent.0,
            None => false,
        }
    }

    /// The number of bonds less the number of atoms plus the number of connected parts.
    pub fn independent_rings(&self, graph: &Graph<'_>) -> u32
        requires few { length self.now.roots.items ≤ ATOM_LIMIT }
        requires forest { IsForest graph.now.bonds graph.now.atoms self.now.order.items self.now.places.items self.now.parents.items self.now.roots.items }
        ensures { result ≡ independent_rings graph.now.bonds graph.now.atoms }
    {
        (graph.bond_count() + self.roots.len() as u32).saturating_sub(graph.atom_count())
    }

    /// The place of an atom that is found.
    pub fn place(&self, atom: AtomId) -> u32
        requires { atom.0 < length self.now.places.items }
        ensures { (i : ℕ) → Mark self.now.places.items atom.0 i → result ≡ i }
    {
        match self.places[atom.0 as usize] {
            Some(place) => place,
            None => 0,
        }
    }
}

/// A depth-first search of all atoms.
pub fn forest_of(alloc: Global, graph: &Graph<'_>) -> Result<Forest, AllocError>
    ensures forest { IfOk result (λ forest. IsForest graph.now.bonds graph.now.atoms forest.order.items forest.places.items forest.parents.items forest.roots.items) }
    ensures few { IfOk result (λ forest. length forest.roots.items ≤ ATOM_LIMIT) }
{
    let mut forest = Forest::new(alloc, graph.atom_count() as usize)?;
    for a in 0..graph.atom_count() {
        forest.visit(graph, AtomId(a))?;
    }
    Ok(forest)
}
