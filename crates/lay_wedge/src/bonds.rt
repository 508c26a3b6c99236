//! Bonds that may carry a wedge.
ghost use Rattle.std.specs.Prelude.{◌≡◌, ◌<◌, true, length, slice_get, Some};
ghost use Rattle.mc_mol.specs.HalfEdges.{half_edges};
ghost use Rattle.mc_mol.specs.Permutations.{is_even_permutation};
ghost use Rattle.mc_rings.specs.Centres.{has_order};
ghost use Rattle.ct_geometry.specs.Bounds.{ArePlaces};
ghost use Rattle.ct_geometry.specs.Drawn.{rays_from};
ghost use Rattle.ct_geometry.specs.Neighbours.{AreOfCentre, LeadTo};
ghost use Rattle.ct_geometry.specs.Wedges.{is_wedge, wedge_list};
ghost use Rattle.lay_wedge.specs.Underway.{AreAmong, is_free, is_plain, may_serve};

use ct_geometry::{Wedge, is_middle_one, wedge_list};
use ct_sd::DrawMark;
use mc_base::{AtomId, BondId};
use mc_mol::{HalfEdge, Mol, Point, Slot, is_even_permutation};

fn is_single(mol: &Mol, k: BondId) -> bool
    ensures { result ≡ has_order mol.now.bonds k.0 1 }
{
    k.0 < mol.bond_count() && mol.bond(k).order == 1
}

/// Whether the bond of one of an atom's half-edges may carry its wedge.
pub fn may_serve(
    mol: &Mol,
    drawing: &[Point],
    a: AtomId,
    halves: &[HalfEdge],
    half: HalfEdge,
) -> bool
    requires places { ArePlaces drawing.now }
    requires is { halves.now ≡ half_edges mol.now a.0 }
    requires halves { AreOfCentre halves.now }
    requires leads { LeadTo halves.now half.to }
    ensures { result ≡ may_serve mol.now drawing.now a.0 half }
{
    is_single(mol, half.bond) && !is_middle_one(drawing, a, halves, half.to)
}

fn is_plain(mark: DrawMark) -> bool
    ensures { result ≡ is_plain mark }
{
    match mark {
        DrawMark::Plain => true,
        _ => false,
    }
}

/// Whether no wedge lies on the bond yet.
pub fn is_free(wedges: &[Wedge], k: BondId) -> bool
    ensures { result ≡ is_free wedges.now k.0 }
{
    match wedges.get(k.0 as usize) {
        Some(wedge) => is_plain(wedge.mark),
        None => false,
    }
}

/// The mark by which a wedge to w says the hand of this list: up, or else down.
pub fn mark_of(
    drawing: &[Point],
    a: AtomId,
    halves: &[HalfEdge],
    w: AtomId,
    places: &[Slot; 4],
) -> DrawMark
    requires places { ArePlaces drawing.now }
    requires halves { AreOfCentre halves.now }
    requires leads { LeadTo halves.now w }
    requires among { AreAmong halves.now places.now }
    ensures marked { is_wedge result ≡ true }
    ensures even { is_even_permutation places.now (wedge_list halves.now (rays_from drawing.now a.0) w result) ≡ true }
{
    let up = wedge_list(drawing, a, halves, w, DrawMark::Up);
    if is_even_permutation(places, &up) {
        DrawMark::Up
    } else {
        DrawMark::Down
    }
}
