ghost use Rattle.std.specs.Prelude.{◌≡◌, ◌<◌, ◌&&◌, length, count_by};
ghost use Rattle.mc_rings.specs.Centres.{centre_test, free_doubles_at, has_order, lies_in_no_ring, may_be_centre, singles_at};
ghost use Rattle.mc_rings.specs.Rings.{AreRingsOf};

use crate::Rings;
use mc_base::{AtomId, BondId};
use mc_mol::{HalfEdge, Mol};

/// Whether an atom may be a tetrahedral centre, whatever the case of its symbol.
pub fn may_be_centre(mol: &Mol, rings: &Rings, a: AtomId) -> bool
    requires atom { a.0 < length mol.now.atoms }
    requires rings { AreRingsOf mol.now rings.now }
    ensures { result ≡ may_be_centre mol.now rings.now.sizes a.0 }
{
    let hydrogens = mol.atom(a).hydrogens;
    let halves = mol.bonds_of(a);
    let singles = count_singles(mol, halves);
    let free_doubles = count_free_doubles(mol, rings, halves);
    passes(halves.len(), hydrogens, singles, free_doubles)
}

/// How many of the half-edges are of single bonds.
fn count_singles(mol: &Mol, halves: &[HalfEdge]) -> usize
    ensures { result ≡ count_by (λ half. has_order mol.now.bonds half.bond.0 1) halves.now }
{
    halves
        .iter()
        .filter(|half| has_order(mol, half.bond, 1))
        .count()
}

/// How many of the half-edges are of double bonds that lie in no ring.
fn count_free_doubles(mol: &Mol, rings: &Rings, halves: &[HalfEdge]) -> usize
    ensures { result ≡ count_by (λ half. has_order mol.now.bonds half.bond.0 2 && lies_in_no_ring rings.now.sizes half.bond.0) halves.now }
{
    halves
        .iter()
        .filter(|half| is_free_double(mol, rings, half.bond))
        .count()
}

fn is_free_double(mol: &Mol, rings: &Rings, b: BondId) -> bool
    ensures { result ≡ (has_order mol.now.bonds b.0 2 && lies_in_no_ring rings.now.sizes b.0) }
{
    has_order(mol, b, 2) && rings.lies_in_no_ring(b)
}

/// Whether there is such a bond, of this order.
pub(crate) fn has_order(mol: &Mol, b: BondId, order: u8) -> bool
    ensures { result ≡ has_order mol.now.bonds b.0 order }
{
    b.0 < mol.bond_count() && mol.bond(b).order == order
}

fn passes(neighbours: usize, hydrogens: u8, singles: usize, free_doubles: usize) -> bool
    ensures { result ≡ centre_test neighbours hydrogens singles free_doubles }
{
    match neighbours {
        4 => hydrogens == 0 && 2 <= singles,
        3 => hydrogens <= 1 && (singles == 3 || (singles == 2 && free_doubles == 1)),
        _ => false,
    }
}
