//! Whether a centre has two single bonds that may carry its wedge.
ghost use Rattle.std.specs.Prelude.{◌≡◌, ◌<◌, length, nat_le};
ghost use Rattle.std.specs.List.{list_any};
ghost use Rattle.mc_mol.specs.declared.parts.HalfEdge.{HalfEdge as Leading};
ghost use Rattle.mc_rings.specs.Centres.{has_order};
ghost use Rattle.ct_geometry.specs.Bounds.{ArePlaces};
ghost use Rattle.ct_geometry.specs.DrawnTests.{centre_reads, has_middle_ray, is_middle_of, is_usable, usable_count};

use crate::rays::ray_of;
use crate::turns::is_middle;
use mc_base::{AtomId, BondId};
use mc_mol::{HalfEdge, Mol, Point};

/// Whether two single bonds of the atom may carry a wedge, where it is a centre.
pub fn centre_reads(mol: &Mol, points: &[Point], a: AtomId) -> bool
    requires atom { a.0 < length mol.now.atoms }
    requires places { ArePlaces points.now }
    ensures { result ≡ centre_reads mol.now points.now a.0 }
{
    match mol.centre(a) {
        Some(_) => usable_count(mol, points, a, mol.bonds_of(a)) >= 2,
        None => true,
    }
}

fn usable_count(mol: &Mol, points: &[Point], a: AtomId, halves: &[HalfEdge]) -> usize
    requires { ArePlaces points.now }
    ensures { result ≡ usable_count mol.now.bonds points.now a.0 halves.now }
{
    halves
        .iter()
        .filter(|g| is_usable(mol, points, a, halves, **g))
        .count()
}

/// Whether a half-edge is of a single bond, and its ray isn't the middle one of three.
fn is_usable(mol: &Mol, points: &[Point], a: AtomId, halves: &[HalfEdge], g: HalfEdge) -> bool
    requires { ArePlaces points.now }
    ensures { result ≡ is_usable mol.now.bonds points.now a.0 halves.now g }
{
    is_single(mol, g.bond) && !(halves.len() == 3 && has_middle_ray(points, a, halves, g))
}

fn is_single(mol: &Mol, k: BondId) -> bool
    ensures { result ≡ has_order mol.now.bonds k.0 1 }
{
    match mol.bonds().get(k.0 as usize) {
        Some(bond) => bond.order == 1,
        None => false,
    }
}

/// Whether the half-edge's ray is the middle one between two others.
fn has_middle_ray(points: &[Point], a: AtomId, halves: &[HalfEdge], g: HalfEdge) -> bool
    requires { ArePlaces points.now }
    ensures { result ≡ has_middle_ray points.now a.0 halves.now g }
{
    halves
        .iter()
        .any(|b| is_middle_behind(points, a, halves, g, *b))
}

fn is_middle_behind(
    points: &[Point],
    a: AtomId,
    halves: &[HalfEdge],
    g: HalfEdge,
    b: HalfEdge,
) -> bool
    requires { ArePlaces points.now }
    ensures { result ≡ list_any (λ (d : Leading). is_middle_of points.now a.0 g b d) halves.now }
{
    halves.iter().any(|d| is_middle_of(points, a, g, b, *d))
}

fn is_middle_of(points: &[Point], a: AtomId, g: HalfEdge, b: HalfEdge, d: HalfEdge) -> bool
    requires { ArePlaces points.now }
    ensures { result ≡ is_middle_of points.now a.0 g b d }
{
    b.to.0 != g.to.0
        && d.to.0 != g.to.0
        && b.to.0 != d.to.0
        && is_middle(
            ray_of(points, a, b.to),
            ray_of(points, a, g.to),
            ray_of(points, a, d.to),
        )
}
