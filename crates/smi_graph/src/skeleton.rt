ghost use Rattle.std.specs.Prelude.{◌≡◌};
ghost use Rattle.smi_graph.specs.Skeletons.{link_of};

use crate::candidates::is_marked;
use crate::{SkelAtom, TextBond};
use mc_base::{AtomId, BondId};
use smallvec::SmallVec;
use std::marker::Model;

/// What is known of a bond before double bonds are placed.
#[derive(Clone, Copy, Debug, PartialEq, Eq)]
pub enum Link {
    Order(u8),
    /// a bond that is single or double
    Candidate,
}

/// A bond of a text. Its first atom is the predecessor, or that of the opening ring number.
#[derive(Clone, Copy, Debug, PartialEq, Eq)]
pub struct SkelBond {
    pub first: AtomId,
    pub second: AtomId,
    pub link: Link,
}

/// What is known of a bond that is a candidate or isn't.
fn link_of(is_candidate: bool, bond: TextBond) -> Link
    ensures { result ≡ link_of is_candidate bond }
{
    if is_candidate {
        Link::Candidate
    } else {
        Link::Order(bond.order())
    }
}

/// The atoms and bonds of a text. Atoms have the order of the text, bonds that of the tokens that complete them.
#[derive(Drop)]
pub struct Skeleton {
    atoms: Vec<SkelAtom>,
    bonds: Vec<TextBond>,
    /// for each bond whether it is a candidate; nothing where no atom is in lower case
    candidates: Vec<bool>,
    /// for each atom its neighbours, in the order in which they stand at it
    neighbours: Vec<SmallVec<AtomId, 4>>,
    /// for each atom whether the first of them is its predecessor
    led: Vec<bool>,
}

impl Model for Skeleton {
    ghost use Rattle.smi_graph.specs.RingSlots.{lists_in};
    ghost use Rattle.smi_graph.specs.Skeletons.{TextGraph, IsTextGraph};

    ghost Value = { TextGraph };

    ghost view = { λ s. record { atoms = s.atoms.items; bonds = s.bonds.items; candidates = s.candidates.items; neighbours = lists_in s.neighbours.items; led = s.led.items } };

    ghost invariant = { λ s. IsTextGraph (record { atoms = s.atoms.items; bonds = s.bonds.items; candidates = s.candidates.items; neighbours = lists_in s.neighbours.items; led = s.led.items }) };
}

impl Skeleton {
    ghost use Rattle.std.specs.Prelude.{◌≡◌, ◌<◌, ◌≤◌, length, slice_get, Some};
    ghost use Rattle.smi_graph.specs.Candidates.{marked};
    ghost use Rattle.smi_graph.specs.RingSlots.{lists_in};
    ghost use Rattle.smi_graph.specs.Skeletons.{linked_at, IsTextGraph};

    pub(crate) fn new(
        atoms: Vec<SkelAtom>,
        bonds: Vec<TextBond>,
        candidates: Vec<bool>,
        neighbours: Vec<SmallVec<AtomId, 4>>,
        led: Vec<bool>,
    ) -> Skeleton
        requires { IsTextGraph (record { atoms = atoms.items; bonds = bonds.items; candidates = candidates.items; neighbours = lists_in neighbours.items; led = led.items }) }
        ensures { result ≡ record { atoms = atoms.items; bonds = bonds.items; candidates = candidates.items; neighbours = lists_in neighbours.items; led = led.items } }
    {
        Skeleton {
            atoms,
            bonds,
            candidates,
            neighbours,
            led,
        }
    }

    pub fn atom_count(&self) -> u32
        ensures count { result ≡ length self.now.atoms }
        ensures few { result ≤ 999 }
    {
        self.atoms.len() as u32
    }

    pub fn bond_count(&self) -> u32
        ensures count { result ≡ length self.now.bonds }
        ensures few { result ≤ 999 }
    {
        self.bonds.len() as u32
    }

    pub fn atom(&self, a: AtomId) -> SkelAtom
        requires { a.0 < length self.now.atoms }
        ensures { Some result ≡ slice_get self.now.atoms a.0 }
    {
        self.atoms[a.0 as usize]
    }

    /// A bond; its first atom is the predecessor, or that of the opening ring number.
    pub fn bond(&self, b: BondId) -> SkelBond
        requires { b.0 < length self.now.bonds }
        ensures { Some result ≡ linked_at self.now b.0 }
    {
        let bond = self.bonds[b.0 as usize];
        SkelBond {
            first: bond.first,
            second: bond.second,
            link: link_of(self.is_candidate(b), bond),
        }
    }

    /// Whether a bond is single or double, and nothing in the text says which.
    pub fn is_candidate(&self, b: BondId) -> bool
        ensures { result ≡ marked self.now.candidates b.0 }
    {
        is_marked(&self.candidates, b.0 as usize)
    }

    /// The neighbours of an atom in the order in which they stand at it in the text: its predecessor, its ring partners
    /// in the order of their numbers there, its branches and the next atom.
    pub fn places(&self, a: AtomId) -> &[AtomId]
        requires { a.0 < length self.now.atoms }
        ensures { Some result.now ≡ slice_get self.now.neighbours a.0 }
    {
        self.neighbours[a.0 as usize].as_slice()
    }

    /// Whether an atom has a predecessor, which is then its first neighbour.
    pub fn before(&self, a: AtomId) -> bool
        requires { a.0 < length self.now.atoms }
        ensures { Some result ≡ slice_get self.now.led a.0 }
    {
        self.led[a.0 as usize]
    }

    /// All atoms, in the order of the text.
    pub fn atoms(&self) -> &[SkelAtom]
        ensures value { result.now ≡ self.now.atoms }
        ensures few { length result.now ≤ 999 }
    {
        &self.atoms
    }

    /// All bonds, with their symbols, in the order of the tokens that complete them.
    pub fn bonds(&self) -> &[TextBond]
        ensures value { result.now ≡ self.now.bonds }
        ensures well_formed { IsTextGraph self.now }
    {
        &self.bonds
    }
}
