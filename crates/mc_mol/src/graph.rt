use crate::{Bond, HalfEdge};
use mc_base::{AtomId, BondId};
use smallvec::SmallVec;
use std::marker::Model;

/// Atoms and the bonds between them: what a search needs of a molecule, or of a text's bonds. The lists
/// are borrowed, so that they may stand in whatever holds them.
#[derive(Drop)]
pub struct Graph<'a> {
    bonds: &'a [Bond],
    half_edges: &'a [SmallVec<HalfEdge, 4>],
}

impl<'a> Model for Graph<'a> {
    ghost use Rattle.std.specs.Prelude.{length};
    ghost use Rattle.mc_mol.specs.Graphs.{BondGraph, IsGraph};
    ghost use Rattle.mc_mol.specs.Stored.{HoldsHalfEdges};

    ghost Value = { BondGraph };

    ghost view = { λ g. record { atoms = length g.half_edges.now; bonds = g.bonds.now } };

    ghost invariant = { λ g. IsGraph (record { atoms = length g.half_edges.now; bonds = g.bonds.now }) × HoldsHalfEdges (length g.half_edges.now) g.bonds.now g.half_edges.now };
}

impl<'a> Graph<'a> {
    ghost use Rattle.std.specs.Prelude.{◌≡◌, ◌<◌, ◌≤◌, length, All, Some, slice_get};
    ghost use Rattle.mc_mol.specs.declared.limits.TheConstants.{ATOM_LIMIT, BOND_LIMIT};
    ghost use Rattle.mc_mol.specs.Graphs.{IsGraph};
    ghost use Rattle.mc_mol.specs.HalfEdges.{half_edges_in, LeadToNeighbours};
    ghost use Rattle.mc_mol.specs.Stored.{HoldsHalfEdges};
    ghost use Rattle.mc_mol.specs.WellFormed.{IsBond};

    /// The graph of these bonds, with the half-edges of each atom.
    pub fn new(bonds: &'a [Bond], half_edges: &'a [SmallVec<HalfEdge, 4>]) -> Graph<'a>
        requires bonds { IsGraph (record { atoms = length half_edges.now; bonds = bonds.now }) }
        requires half_edges { HoldsHalfEdges (length half_edges.now) bonds.now half_edges.now }
        ensures { result ≡ record { atoms = length half_edges.now; bonds = bonds.now } }
    {
        Graph { bonds, half_edges }
    }

    pub fn atom_count(&self) -> u32
        ensures count { result ≡ self.now.atoms }
        ensures few { result ≤ ATOM_LIMIT }
        ensures well_formed { IsGraph self.now }
    {
        self.half_edges.len() as u32
    }

    pub fn bond_count(&self) -> u32
        ensures count { result ≡ length self.now.bonds }
        ensures few { result ≤ BOND_LIMIT }
    {
        self.bonds.len() as u32
    }

    pub fn bond(&self, b: BondId) -> Bond
        requires { b.0 < length self.now.bonds }
        ensures value { slice_get self.now.bonds b.0 ≡ Some result }
        ensures well_formed { IsBond self.now.atoms result }
    {
        self.bonds[b.0 as usize]
    }

    /// The bonds, in the order of their numbers.
    pub fn bonds(&self) -> &[Bond]
        ensures value { result.now ≡ self.now.bonds }
        ensures few { length result.now ≤ BOND_LIMIT }
        ensures well_formed { All (IsBond self.now.atoms) result.now }
    {
        self.bonds
    }

    /// The half-edges of an atom.
    pub fn half_edges(&self, a: AtomId) -> &[HalfEdge]
        requires { a.0 < self.now.atoms }
        ensures value { result.now ≡ half_edges_in self.now.bonds a.0 }
        ensures lead { LeadToNeighbours self.now.atoms self.now.bonds a.0 result.now }
    {
        self.half_edges[a.0 as usize].as_slice()
    }
}
