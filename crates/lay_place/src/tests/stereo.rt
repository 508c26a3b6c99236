//! Molecules with stereo, and whether they may be placed.
ghost use Rattle.std.specs.Prelude.{◌≡◌, ◌<◌, ℕ, length, true, IfSome};
ghost use Rattle.mc_mol.specs.WellFormed.{IsPlaceList, SidesFit};
ghost use Rattle.mc_rings.specs.Rings.{AreRingsOf};
ghost use Rattle.lay_place.specs.Wanted.{MayBePlaced};
ghost use Rattle.lay_place.specs.Fitting.{CentreFits, SideFits, IsNeighbourBut};

use crate::place;
use mc_base::{AtomId, BondId, NoMemory};
use mc_elements::Element;
use mc_mol::{Atom, Drawing, Mol, Sides, Slot};
use mc_rings::{Rings, may_be_centre, may_have_sides};
use std::alloc::Global;

/// A carbon, told from others by its isotope.
pub fn carbon(isotope: u16) -> Atom {
    Atom {
        element: Element::C,
        isotope,
        charge: 0,
        hydrogens: 0,
        class: 0,
    }
}

/// Carbons that all differ.
pub fn carbons(alloc: Global, count: u32) -> Result<Mol, NoMemory> {
    let mut mol = Mol::new(alloc);
    for a in 0..count {
        match mol.add_atom(carbon((a % 256) as u16)) {
            Ok(_) => {}
            Err(_) => return Err(NoMemory),
        }
    }
    Ok(mol)
}

/// Adds a bond where it can be.
pub fn join(mol: &mut Mol, u: u32, v: u32, order: u8) -> bool {
    if u >= mol.atom_count() || v >= mol.atom_count() || order < 1 || order > 4 {
        return false;
    }
    if let Some(_) = mol.centre(AtomId(u)) {
        return false;
    }
    if let Some(_) = mol.centre(AtomId(v)) {
        return false;
    }
    mol.add_bond(AtomId(u), AtomId(v), order).is_ok()
}

/// The neighbours of an atom in the order of their bonds, and the rest where there are three.
#[tactic(auto, using(crate::proofs::Fitted::three_places, crate::proofs::Fitted::four_places))]
fn places_of(mol: &Mol, a: AtomId) -> Option<[Slot; 4]>
    ensures { IfSome result (λ places. (a.0 < length mol.now.atoms) × (IsPlaceList mol.now.bonds a.0 places)) }
{
    if a.0 >= mol.atom_count() {
        return None;
    }
    let halves = mol.bonds_of(a);
    if halves.len() == 3 {
        let last = Slot::Rest;
        return Some([
            Slot::At(halves[0].to),
            Slot::At(halves[1].to),
            Slot::At(halves[2].to),
            last,
        ]);
    }
    if halves.len() == 4 {
        let last = Slot::At(halves[3].to);
        return Some([
            Slot::At(halves[0].to),
            Slot::At(halves[1].to),
            Slot::At(halves[2].to),
            last,
        ]);
    }
    None
}

/// Makes an atom with three or four neighbours a centre.
pub fn make_centre(mol: &mut Mol, a: AtomId) -> bool {
    match places_of(mol, a) {
        Some(places) => {
            mol.set_centre(a, places);
            true
        }
        None => false,
    }
}

/// A neighbour of u other than w.
#[tactic(auto, using(crate::proofs::Fitted::neighbour_but))]
fn other_than(mol: &Mol, u: AtomId, w: AtomId) -> Option<AtomId>
    requires { u.0 < length mol.now.atoms }
    ensures { IfSome result (λ c. IsNeighbourBut mol.now.bonds u.0 w.0 c.0) }
{
    let halves = mol.bonds_of(u);
    for half in halves {
        if half.to.0 != w.0 {
            return Some(half.to);
        }
    }
    None
}

#[tactic(auto, using(crate::proofs::Fitted::sides_fit_of))]
fn sides_of(mol: &Mol, k: BondId, together: bool) -> Option<Sides>
    requires { k.0 < length mol.now.bonds }
    ensures { IfSome result (λ sides. SidesFit mol.now.bonds k.0 sides) }
{
    let bond = mol.bond(k);
    if bond.order != 2 {
        return None;
    }
    match other_than(mol, bond.first, bond.second) {
        None => None,
        Some(first) => match other_than(mol, bond.second, bond.first) {
            None => None,
            Some(second) => Some(Sides {
                first,
                second,
                together,
            }),
        },
    }
}

/// Gives a double bond its sides.
pub fn specify(mol: &mut Mol, k: BondId, together: bool) -> bool {
    if k.0 >= mol.bond_count() {
        return false;
    }
    match sides_of(mol, k, together) {
        Some(sides) => {
            mol.set_sides(k, sides);
            true
        }
        None => false,
    }
}

/// Whether the atom may be a centre where it is one.
fn centre_fits(mol: &Mol, rings: &Rings, a: AtomId) -> bool
    requires rings { AreRingsOf mol.now rings.now }
    requires atom { a.0 < length mol.now.atoms }
    ensures { result ≡ true → CentreFits mol.now rings.now.sizes a.0 }
{
    match mol.centre(a) {
        None => true,
        Some(_) => may_be_centre(mol, rings, a),
    }
}

#[tactic(auto, using(ct_geometry::proofs::Loops::each_more))]
fn centres_fit(mol: &Mol, rings: &Rings) -> bool
    requires { AreRingsOf mol.now rings.now }
    ensures { result ≡ true → (a : ℕ) → a < length mol.now.atoms → CentreFits mol.now rings.now.sizes a }
{
    for a in 0..mol.atom_count() {
        if !centre_fits(mol, rings, AtomId(a)) {
            return false;
        }
    }
    true
}

/// Whether the bond may have sides, and lies in no ring, where it has them.
fn sides_fit_at(mol: &Mol, rings: &Rings, k: BondId) -> bool
    requires rings { AreRingsOf mol.now rings.now }
    requires bond { k.0 < length mol.now.bonds }
    ensures { result ≡ true → SideFits mol.now rings.now.sizes k.0 }
{
    match mol.sides(k) {
        None => true,
        Some(_) => may_have_sides(mol, rings, k) && rings.ring_size(k).is_none(),
    }
}

#[tactic(auto, using(ct_geometry::proofs::Loops::each_more))]
fn sides_fit(mol: &Mol, rings: &Rings) -> bool
    requires { AreRingsOf mol.now rings.now }
    ensures { result ≡ true → (k : ℕ) → k < length mol.now.bonds → SideFits mol.now rings.now.sizes k }
{
    for k in 0..mol.bond_count() {
        if !sides_fit_at(mol, rings, BondId(k)) {
            return false;
        }
    }
    true
}

/// Whether the condition of `place` holds.
#[tactic(auto, using(crate::proofs::Fitted::may_be))]
fn may_be_placed(mol: &Mol, rings: &Rings) -> bool
    requires { AreRingsOf mol.now rings.now }
    ensures { result ≡ true → MayBePlaced mol.now rings.now }
{
    let _count = mol.atom_count();
    if !centres_fit(mol, rings) {
        return false;
    }
    sides_fit(mol, rings)
}

/// The drawing of a molecule, or none where it may not be placed.
pub fn placed(alloc: Global, mol: &Mol, rings: &Rings) -> Result<Option<Drawing>, NoMemory>
    requires { AreRingsOf mol.now rings.now }
{
    if !may_be_placed(mol, rings) {
        return Ok(None);
    }
    let drawing = place(alloc, mol, rings)?;
    Ok(Some(drawing))
}

/// Gives a molecule the centres and sides that it may have, but for those that a pattern leaves out: a bit for each atom and
/// bond, round and round. Bonds in rings stay as they are.
pub fn dress_all(alloc: Global, mol: &mut Mol, pattern: u32) -> Result<(), NoMemory> {
    let mut centres = Vec::new(alloc);
    let mut bonds = Vec::new(alloc);
    chosen(mol, &Rings::of(alloc, mol)?, &mut centres, &mut bonds)?;
    for a in &centres {
        if pattern.rotate_right(*a) % 4 > 0 {
            let _ = make_centre(mol, AtomId(*a));
        }
    }
    for k in &bonds {
        if pattern.rotate_left(*k) % 4 > 0 {
            let _ = specify(mol, BondId(*k), pattern.rotate_left(*k) % 2 == 0);
        }
    }
    Ok(())
}

/// The atoms that may be centres and the bonds that may have sides.
fn chosen(
    mol: &Mol,
    rings: &Rings,
    centres: &mut Vec<u32>,
    bonds: &mut Vec<u32>,
) -> Result<(), NoMemory>
    requires { AreRingsOf mol.now rings.now }
{
    for a in 0..mol.atom_count() {
        if may_be_centre(mol, rings, AtomId(a)) {
            centres.push(a)?;
        }
    }
    for k in 0..mol.bond_count() {
        if may_have_sides(mol, rings, BondId(k)) && rings.ring_size(BondId(k)).is_none() {
            bonds.push(k)?;
        }
    }
    Ok(())
}
