//! Whether rays at an atom differ.
ghost use Rattle.std.specs.Prelude.{◌≡◌};
ghost use Rattle.std.specs.List.{list_all};
ghost use Rattle.mc_mol.specs.declared.parts.HalfEdge.{HalfEdge as Leading};
ghost use Rattle.ct_geometry.specs.Bounds.{ArePlaces};
ghost use Rattle.ct_geometry.specs.DrawnTests.{goes_apart, ray_differs, rays_differ};

use crate::rays::ray_of;
use crate::turns::{have_one_direction, is_zero};
use mc_base::AtomId;
use mc_mol::{HalfEdge, Point};

/// Whether the rays of an atom are rays, in different directions.
pub fn rays_differ(points: &[Point], a: AtomId, halves: &[HalfEdge]) -> bool
    requires { ArePlaces points.now }
    ensures { result ≡ rays_differ points.now a.0 halves.now }
{
    halves.iter().all(|g| ray_differs(points, a, halves, *g))
}

fn ray_differs(points: &[Point], a: AtomId, halves: &[HalfEdge], g: HalfEdge) -> bool
    requires { ArePlaces points.now }
    ensures { result ≡ ray_differs points.now a.0 halves.now g }
{
    !is_zero(ray_of(points, a, g.to)) && goes_apart_from_all(points, a, g, halves)
}

fn goes_apart_from_all(points: &[Point], a: AtomId, g: HalfEdge, halves: &[HalfEdge]) -> bool
    requires { ArePlaces points.now }
    ensures { result ≡ list_all (λ (h : Leading). goes_apart points.now a.0 g h) halves.now }
{
    halves.iter().all(|h| goes_apart(points, a, g, *h))
}

/// Whether two half-edges lead to one atom, or in different directions.
fn goes_apart(points: &[Point], a: AtomId, g: HalfEdge, h: HalfEdge) -> bool
    requires { ArePlaces points.now }
    ensures { result ≡ goes_apart points.now a.0 g h }
{
    g.to.0 == h.to.0 || !have_one_direction(ray_of(points, a, g.to), ray_of(points, a, h.to))
}
