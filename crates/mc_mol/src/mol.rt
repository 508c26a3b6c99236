ghost use Rattle.std.specs.Prelude.{◌≡◌, ◌==◌, IfOk, None, replicate};
ghost use Rattle.std.specs.List.{list_any};

use crate::adjacency::Adjacency;
use crate::centres::Centres;
use crate::limits::{ATOM_LIMIT, BOND_LIMIT};
use crate::{Atom, Bond, Graph, HalfEdge, Sides, Slot};
use mc_base::{AtomId, BondId, NoMemory};
use std::alloc::{AllocError, Global};
use std::marker::Model;

/// Why an atom isn't added.
#[derive(Clone, Copy, Debug, PartialEq, Eq)]
pub enum AddAtom {
    Limit,
    NoMemory,
}

impl From<AllocError> for AddAtom {
    ghost use Rattle.std.specs.Prelude.{◌≡◌};
    ghost use Rattle.mc_mol.specs.declared.mol.AddAtom.TheVariants.{NoMemory};

    ghost from_gives = { λ _ e. e ≡ NoMemory };

    fn from(_: AllocError) -> AddAtom {
        AddAtom::NoMemory
    }
}

/// Why a bond isn't added.
#[derive(Clone, Copy, Debug, PartialEq, Eq)]
pub enum AddBond {
    Same,
    Twice,
    Limit,
    NoMemory,
}

impl From<AllocError> for AddBond {
    ghost use Rattle.std.specs.Prelude.{◌≡◌};
    ghost use Rattle.mc_mol.specs.declared.mol.AddBond.TheVariants.{NoMemory};

    ghost from_gives = { λ _ e. e ≡ NoMemory };

    fn from(_: AllocError) -> AddBond {
        AddBond::NoMemory
    }
}

/// A molecule.
#[derive(Drop)]
pub struct Mol {
    atoms: Vec<Atom>,
    bonds: Vec<Bond>,
    centres: Centres,
    sides: Vec<Option<Sides>>,
    adjacency: Adjacency,
}

impl Model for Mol {
    ghost use Rattle.std.specs.Prelude.{length};
    ghost use Rattle.mc_mol.specs.Molecule.{Molecule};
    ghost use Rattle.mc_mol.specs.WellFormed.{IsMolecule};
    ghost use Rattle.mc_mol.specs.Stored.{HoldsHalfEdges};

    ghost Value = { Molecule };

    ghost view = { λ m. record { atoms = m.atoms.items; bonds = m.bonds.items; centres = m.centres; sides = m.sides.items } };

    ghost invariant = { λ m. IsMolecule (record { atoms = m.atoms.items; bonds = m.bonds.items; centres = m.centres; sides = m.sides.items }) × HoldsHalfEdges (length m.atoms.items) m.bonds.items m.adjacency.lists.items };
}

impl Mol {
    ghost use Rattle.std.specs.Prelude.{◌≡◌, ◌≢◌, ◌+◌, ◌<◌, ◌≤◌, ◌++◌, [], ◌∷◌, ◌↔◌, length, replicate, All, AllPairs, OnOk, OnErr, IfOk, Some, None, slice_get, slice_set, Err, true, false};
    ghost use Rattle.mc_mol.specs.declared.parts.Bond.{Bond as Joining};
    ghost use Rattle.mc_mol.specs.Molecule.{joins, are_joined};
    ghost use Rattle.mc_mol.specs.WellFormed.{IsBond, IsMolecule, IsPlaceList, SidesFit};
    ghost use Rattle.mc_mol.specs.HalfEdges.{half_edges, AllHaveTwins, LeadApart};

    /// The molecule with no atoms.
    pub fn new(alloc: Global) -> Mol
        ensures { result ≡ record { atoms = []; bonds = []; centres = []; sides = [] } }
    {
        Mol {
            atoms: Vec::new(alloc),
            bonds: Vec::new(alloc),
            centres: Centres::new(alloc),
            sides: Vec::new(alloc),
            adjacency: Adjacency::new(alloc),
        }
    }

    /// The molecule of these atoms and bonds, without stereo. It keeps the two lists, and fails only for want of memory.
    pub fn of(alloc: Global, atoms: Vec<Atom>, bonds: Vec<Bond>) -> Result<Mol, NoMemory>
        requires few_atoms { length atoms.items ≤ ATOM_LIMIT }
        requires few_bonds { length bonds.items ≤ BOND_LIMIT }
        requires bonds { All (IsBond (length atoms.items)) bonds.items }
        requires once { AllPairs (λ (b c : Joining). joins b c.first.0 c.second.0 ≡ false) bonds.items }
        ensures { IfOk result (λ mol. mol ≡ record { atoms = atoms.items; bonds = bonds.items; centres = replicate (length atoms.items) None; sides = replicate (length bonds.items) None }) }
    {
        let adjacency = Adjacency::of_bonds(alloc, atoms.len(), &bonds)?;
        let centres = Centres::none(alloc, atoms.len())?;
        let sides = nones(alloc, bonds.len())?;
        Ok(Mol {
            atoms,
            bonds,
            centres,
            sides,
            adjacency,
        })
    }

    pub fn atom_count(&self) -> u32
        ensures count { result ≡ length self.now.atoms }
        ensures few { result ≤ ATOM_LIMIT }
        ensures well_formed { IsMolecule self.now }
    {
        self.atoms.len() as u32
    }

    pub fn bond_count(&self) -> u32
        ensures count { result ≡ length self.now.bonds }
        ensures few { result ≤ BOND_LIMIT }
    {
        self.bonds.len() as u32
    }

    pub fn atom(&self, a: AtomId) -> Atom
        requires { a.0 < length self.now.atoms }
        ensures { slice_get self.now.atoms a.0 ≡ Some result }
    {
        self.atoms[a.0 as usize]
    }

    pub fn bond(&self, b: BondId) -> Bond
        requires { b.0 < length self.now.bonds }
        ensures value { slice_get self.now.bonds b.0 ≡ Some result }
        ensures well_formed { IsBond (length self.now.atoms) result }
    {
        self.bonds[b.0 as usize]
    }

    /// The atoms as far as they are joined.
    pub fn graph(&self) -> Graph<'_>
        ensures { result ≡ record { atoms = length self.now.atoms; bonds = self.now.bonds } }
    {
        Graph::new(&self.bonds, &self.adjacency.lists)
    }

    /// All bonds, in the order of their numbers.
    pub fn bonds(&self) -> &[Bond]
        ensures value { result.now ≡ self.now.bonds }
        ensures few { length result.now ≤ BOND_LIMIT }
        ensures well_formed { All (IsBond (length self.now.atoms)) result.now }
    {
        &self.bonds
    }

    pub fn bonds_of(&self, a: AtomId) -> &[HalfEdge]
        requires { a.0 < length self.now.atoms }
        ensures value { result.now ≡ half_edges self.now a.0 }
        ensures twins { AllHaveTwins self.now a }
        ensures apart { LeadApart result.now }
    {
        self.adjacency.of(a.0 as usize)
    }

    pub fn add_atom(&mut self, atom: Atom) -> Result<AtomId, AddAtom>
        ensures ok { IfOk result (λ id. (id.0 ≡ length self.old.atoms) × (self.new ≡ record self.old { atoms = self.old.atoms ++ atom ∷ []; centres = self.old.centres ++ None ∷ [] })) }
        ensures err { OnErr result (self.new ≡ self.old) }
        ensures limit { (result ≡ Err AddAtom.Limit) ↔ (length self.old.atoms ≡ ATOM_LIMIT) }
    {
        let count = self.atoms.len();
        if count == ATOM_LIMIT {
            return Err(AddAtom::Limit);
        }
        self.atoms.reserve(1)?;
        self.adjacency.reserve_atom()?;
        self.centres.push_none()?;
        let alloc = *self.atoms.allocator();
        self.atoms.push_reserved(atom);
        self.adjacency.push_atom(alloc);
        Ok(AtomId(count as u32))
    }

    /// Adds a bond of order 1 to 4. `Same`, `Twice`, `Limit` and `NoMemory` are tried in this order.
    pub fn add_bond(&mut self, first: AtomId, second: AtomId, order: u8) -> Result<BondId, AddBond>
        requires first { first.0 < length self.old.atoms }
        requires second { second.0 < length self.old.atoms }
        requires first_free { slice_get self.old.centres first.0 ≡ Some None }
        requires second_free { slice_get self.old.centres second.0 ≡ Some None }
        requires order_low { 1 ≤ order }
        requires order_high { order ≤ 4 }
        ensures ok { IfOk result (λ id. (id.0 ≡ length self.old.bonds) × (self.new ≡ record self.old { bonds = self.old.bonds ++ record { first = first; second = second; order = order } ∷ []; sides = self.old.sides ++ None ∷ [] })) }
        ensures err { OnErr result (self.new ≡ self.old) }
        ensures same { (result ≡ Err AddBond.Same) ↔ (first.0 ≡ second.0) }
        ensures twice { (result ≡ Err AddBond.Twice) ↔ ((first.0 ≢ second.0) × (are_joined self.old.bonds first.0 second.0 ≡ true)) }
        ensures limit { (result ≡ Err AddBond.Limit) ↔ ((first.0 ≢ second.0) × (are_joined self.old.bonds first.0 second.0 ≡ false) × (length self.old.bonds ≡ BOND_LIMIT)) }
    {
        if first.0 == second.0 {
            return Err(AddBond::Same);
        }
        if self.are_joined(first, second) {
            return Err(AddBond::Twice);
        }
        let count = self.bonds.len();
        if count == BOND_LIMIT {
            return Err(AddBond::Limit);
        }
        self.bonds.reserve(1)?;
        self.sides.reserve(1)?;
        self.adjacency.reserve_at(first.0 as usize)?;
        self.adjacency.reserve_at(second.0 as usize)?;
        let bond = BondId(count as u32);
        match self.adjacency.join(bond, first, second) {
            Ok(()) => {}
            Err(_) => unreachable!(),
        }
        self.bonds.push_reserved(Bond {
            first,
            second,
            order,
        });
        self.sides.push_reserved(None);
        Ok(bond)
    }

    /// The list of places of a stereocentre, or none.
    pub fn centre(&self, a: AtomId) -> Option<[Slot; 4]>
        requires { a.0 < length self.now.atoms }
        ensures { slice_get self.now.centres a.0 ≡ Some result }
    {
        self.centres.get(a.0 as usize)
    }

    /// The sides of a double bond whose geometry is specified, or none.
    pub fn sides(&self, b: BondId) -> Option<Sides>
        requires { b.0 < length self.now.bonds }
        ensures { slice_get self.now.sides b.0 ≡ Some result }
    {
        self.sides[b.0 as usize]
    }

    /// Makes an atom a stereocentre: seen from the first place, the others stand anticlockwise.
    pub fn set_centre(&mut self, atom: AtomId, places: [Slot; 4])
        requires atom { atom.0 < length self.old.atoms }
        requires places { IsPlaceList self.old.bonds atom.0 places }
        ensures { self.new ≡ record self.old { centres = slice_set self.old.centres atom.0 (Some places) } }
    {
        self.centres.set(atom.0 as usize, places);
    }

    /// Gives a double bond its geometry.
    pub fn set_sides(&mut self, bond: BondId, sides: Sides)
        requires bond { bond.0 < length self.old.bonds }
        requires sides { SidesFit self.old.bonds bond.0 sides }
        ensures { self.new ≡ record self.old { sides = slice_set self.old.sides bond.0 (Some sides) } }
    {
        self.sides[bond.0 as usize] = Some(sides);
    }

    /// Whether a bond joins two different atoms: only the bonds of the first are looked at.
    pub fn are_joined(&self, first: AtomId, second: AtomId) -> bool
        requires first { first.0 < length self.now.atoms }
        requires different { first.0 ≢ second.0 }
        ensures { result ≡ are_joined self.now.bonds first.0 second.0 }
    {
        finds(self.bonds_of(first), second)
    }
}

/// As many times none.
pub fn nones<T: Copy>(alloc: Global, count: usize) -> Result<Vec<Option<T>>, AllocError>
    ensures { IfOk result (λ list. list.items ≡ replicate count None) }
{
    vec![in alloc; None; count]
}

/// Whether one of the half-edges leads to this atom.
fn finds(halves: &[HalfEdge], atom: AtomId) -> bool
    ensures { result ≡ list_any (λ half. half.to.0 == atom.0) halves.now }
{
    halves.iter().any(|half| half.to.0 == atom.0)
}
