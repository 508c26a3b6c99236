ghost use Rattle.std.specs.Prelude.{◌≡◌, ◌<◌, ◌&&◌, ◌==◌, not, length, nat_le, count_by, IsTrue};
ghost use Rattle.std.specs.List.{list_any};
ghost use Rattle.mc_rings.specs.SidePlaces.{are_equal_leaves, have_equal_leaves, is_leaf, is_side_end, leads_to_equal_leaves, may_have_sides, others_are_single, others_count, same_atom};
ghost use Rattle.mc_rings.specs.Rings.{AreRingsOf};

use crate::Rings;
use crate::centres::has_order;
use mc_base::{AtomId, BondId};
use mc_mol::{Atom, HalfEdge, Mol};

/// Whether a bond is a double bond whose two ends can have their neighbours on different sides.
pub fn may_have_sides(mol: &Mol, rings: &Rings, b: BondId) -> bool
    requires bond { b.0 < length mol.now.bonds }
    requires rings { AreRingsOf mol.now rings.now }
    ensures { result ≡ may_have_sides mol.now rings.now.sizes b.0 }
{
    let bond = mol.bond(b);
    bond.order == 2
        && rings.size_allows_sides(b)
        && is_side_end(mol, b, bond.first)
        && is_side_end(mol, b, bond.second)
}

fn is_side_end(mol: &Mol, b: BondId, a: AtomId) -> bool
    requires { a.0 < length mol.now.atoms }
    ensures { result ≡ is_side_end mol.now b.0 a.0 }
{
    let hydrogens = mol.atom(a).hydrogens;
    let halves = mol.bonds_of(a);
    let others = count_others(halves, b);
    1 <= others
        && others <= 2
        && hydrogens <= 1
        && others_are_single(mol, halves, b)
        && !have_equal_leaves(mol, halves, b)
}

/// How many of the half-edges are of other bonds.
fn count_others(halves: &[HalfEdge], b: BondId) -> usize
    ensures { result ≡ others_count halves.now b.0 }
{
    halves.iter().filter(|half| half.bond.0 != b.0).count()
}

fn others_are_single(mol: &Mol, halves: &[HalfEdge], b: BondId) -> bool
    ensures { result ≡ others_are_single mol.now.bonds halves.now b.0 }
{
    halves
        .iter()
        .all(|half| half.bond.0 == b.0 || has_order(mol, half.bond, 1))
}

fn have_equal_leaves(mol: &Mol, halves: &[HalfEdge], b: BondId) -> bool
    ensures { result ≡ have_equal_leaves mol.now halves.now b.0 }
{
    halves
        .iter()
        .any(|half| has_equal_leaf(mol, halves, b, *half))
}

fn has_equal_leaf(mol: &Mol, halves: &[HalfEdge], b: BondId, half: HalfEdge) -> bool
    ensures { result ≡ list_any (λ other. leads_to_equal_leaves mol.now b.0 half other) halves.now }
{
    halves
        .iter()
        .any(|other| leads_to_equal_leaves(mol, b, half, *other))
}

fn leads_to_equal_leaves(mol: &Mol, b: BondId, half: HalfEdge, other: HalfEdge) -> bool
    ensures { result ≡ leads_to_equal_leaves mol.now b.0 half other }
{
    half.bond.0 != b.0
        && other.bond.0 != b.0
        && half.bond.0 != other.bond.0
        && are_equal_leaves(mol, half.to, other.to)
}

fn are_equal_leaves(mol: &Mol, u: AtomId, v: AtomId) -> bool
    ensures { result ≡ are_equal_leaves mol.now u.0 v.0 }
{
    is_leaf(mol, u) && is_leaf(mol, v) && same_atom(mol.atom(u), mol.atom(v))
}

/// Whether an atom has one bond.
fn is_leaf(mol: &Mol, a: AtomId) -> bool
    ensures value { result ≡ is_leaf mol.now a.0 }
    ensures within { IsTrue result → a.0 < length mol.now.atoms }
{
    a.0 < mol.atom_count() && mol.bonds_of(a).len() == 1
}

fn same_atom(x: Atom, y: Atom) -> bool
    ensures { result ≡ same_atom x y }
{
    x.element.number() == y.element.number()
        && x.isotope == y.isotope
        && x.charge == y.charge
        && x.hydrogens == y.hydrogens
        && x.class == y.class
}
