use mc_base::{AtomId, BondId};
use mc_elements::Element;

/// An atom. Isotope 0 is none, and so is class 0; the charge is in elementary charges.
#[derive(Clone, Copy, Debug, PartialEq, Eq)]
pub struct Atom {
    pub element: Element,
    pub isotope: u16,
    pub charge: i8,
    pub hydrogens: u8,
    pub class: u16,
}

/// A bond between two different atoms, of order 1 to 4.
#[derive(Clone, Copy, Debug, PartialEq, Eq)]
pub struct Bond {
    pub first: AtomId,
    pub second: AtomId,
    pub order: u8,
}

impl Bond {
    ghost use Rattle.std.specs.Prelude.{◌≡◌};
    ghost use Rattle.mc_mol.specs.Molecule.{joins};

    /// Whether the bond is between these two atoms.
    pub fn joins(self, u: AtomId, v: AtomId) -> bool
        ensures { result ≡ joins self u.0 v.0 }
    {
        (self.first.0 == u.0 && self.second.0 == v.0)
            || (self.first.0 == v.0 && self.second.0 == u.0)
    }
}

/// A bond as one of its atoms sees it: the bond, the other atom, and the place of the same bond in
/// the list of the other atom.
#[derive(Clone, Copy, Debug, PartialEq, Eq)]
pub struct HalfEdge {
    pub bond: BondId,
    pub to: AtomId,
    pub twin: u32,
}

impl Default for HalfEdge {
    fn default() -> HalfEdge {
        HalfEdge {
            bond: BondId(0),
            to: AtomId(0),
            twin: 0,
        }
    }
}

/// A place round a stereocentre: a neighbour, or the rest, which is the hydrogen or the further place
/// of an atom with three neighbours.
#[derive(Clone, Copy, Debug, PartialEq, Eq)]
pub enum Slot {
    At(AtomId),
    Rest,
}

/// The geometry of a double bond: a neighbour of its first end, a neighbour of its second, and
/// whether the two stand together on one side.
#[derive(Clone, Copy, Debug, PartialEq, Eq)]
pub struct Sides {
    pub first: AtomId,
    pub second: AtomId,
    pub together: bool,
}
