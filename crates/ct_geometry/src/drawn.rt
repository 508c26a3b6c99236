//! Whether a drawing gives what is needed to write a molecule's stereo and to read it back.
ghost use Rattle.std.specs.Prelude.{◌≡◌, ◌↔◌, ◌<◌, length, IsTrue};
ghost use Rattle.std.specs.List.{list_all, list_any};
ghost use Rattle.mc_mol.specs.WellFormed.{IsMolecule};
ghost use Rattle.ct_geometry.specs.Bounds.{ArePlaces};
ghost use Rattle.ct_geometry.specs.Drawn.{IsDrawn};
ghost use Rattle.ct_geometry.specs.DrawnTests.{AtomsRead, BondsRead, ReadsRight, atom_reads, has_nought_x, has_nought_y, has_noughts, is_placed, is_within, stands_right};

use crate::drawn_centres::centre_reads;
use crate::drawn_rays::rays_differ;
use crate::drawn_sides::bond_reads;
use mc_base::{AtomId, BondId};
use mc_mol::{Drawing, Mol, Point};

/// Whether the stereo of a molecule reads back from a drawing: rays at an atom differ, specified double bonds read right, and
/// each centre has two single bonds that may carry its wedge.
pub fn is_drawn(mol: &Mol, drawing: &Drawing) -> bool
    ensures { IsTrue result ↔ IsDrawn mol.now drawing.now }
{
    let points = drawing.as_slice();
    if !stands_right(mol, points) {
        return false;
    }
    reads_right(mol, points)
}

/// Whether there is a point for each atom, within the columns, and the least coordinates are 0.
#[tactic(auto, using(crate::proofs::DrawnWhole::drawn_places))]
fn stands_right(mol: &Mol, points: &[Point]) -> bool
    ensures value { result ≡ stands_right mol.now points.now }
    ensures places { IsTrue result → ArePlaces points.now }
    ensures well_formed { IsMolecule mol.now }
{
    if points.len() != mol.atom_count() as usize {
        return false;
    }
    are_placed(points) && has_noughts(points)
}

fn are_placed(points: &[Point]) -> bool
    ensures { result ≡ list_all is_placed points.now }
{
    points.iter().all(|p| is_placed(*p))
}

fn is_placed(p: Point) -> bool
    ensures { result ≡ is_placed p }
{
    is_within(p.x) && is_within(p.y)
}

fn is_within(z: i64) -> bool
    ensures { result ≡ is_within z }
{
    0 <= z && z <= 999_999_999
}

/// Whether the least x and the least y are 0, where there is a point.
fn has_noughts(points: &[Point]) -> bool
    ensures { result ≡ has_noughts points.now }
{
    points.is_empty() || (has_nought_x(points) && has_nought_y(points))
}

fn has_nought_x(points: &[Point]) -> bool
    ensures { result ≡ list_any has_nought_x points.now }
{
    points.iter().any(|p| p.x == 0)
}

fn has_nought_y(points: &[Point]) -> bool
    ensures { result ≡ list_any has_nought_y points.now }
{
    points.iter().any(|p| p.y == 0)
}

/// Whether each atom and each bond reads as in the molecule.
fn reads_right(mol: &Mol, points: &[Point]) -> bool
    requires { ArePlaces points.now }
    ensures { IsTrue result ↔ ReadsRight mol.now points.now }
{
    if !atoms_read(mol, points) {
        return false;
    }
    bonds_read(mol, points)
}

/// Whether at each atom rays differ, and a wedge may be drawn if it is a centre.
#[tactic(auto, using(crate::proofs::Loops::each_more))]
fn atoms_read(mol: &Mol, points: &[Point]) -> bool
    requires { ArePlaces points.now }
    ensures { IsTrue result ↔ AtomsRead mol.now points.now }
{
    for a in 0..mol.atom_count() {
        if !atom_reads(mol, points, AtomId(a)) {
            return false;
        }
    }
    true
}

fn atom_reads(mol: &Mol, points: &[Point], a: AtomId) -> bool
    requires atom { a.0 < length mol.now.atoms }
    requires places { ArePlaces points.now }
    ensures { result ≡ atom_reads mol.now points.now a.0 }
{
    rays_differ(points, a, mol.bonds_of(a)) && centre_reads(mol, points, a)
}

/// Whether each double bond that has sides reads as having them.
#[tactic(auto, using(crate::proofs::Loops::each_more))]
fn bonds_read(mol: &Mol, points: &[Point]) -> bool
    requires { ArePlaces points.now }
    ensures { IsTrue result ↔ BondsRead mol.now points.now }
{
    for k in 0..mol.bond_count() {
        if !bond_reads(mol, points, BondId(k)) {
            return false;
        }
    }
    true
}
