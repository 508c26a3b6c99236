//! The list of places that one wedge gives.
ghost use Rattle.std.specs.Prelude.{◌≡◌};
ghost use Rattle.ct_geometry.specs.Bounds.{ArePlaces};
ghost use Rattle.ct_geometry.specs.Drawn.{rays_from};
ghost use Rattle.ct_geometry.specs.Neighbours.{AreOfCentre, LeadTo};
ghost use Rattle.ct_geometry.specs.Turns.{is_wide};
ghost use Rattle.ct_geometry.specs.Wedges.{by_mark, is_middle_one, met_from, others, up_list, up_list_of_three, wedge_list};

use crate::neighbours::{met_of_three, met_of_two, others_of_four, others_of_three};
use crate::rays::ray_of;
use crate::turns::{is_middle, is_wide};
use ct_sd::DrawMark;
use mc_base::AtomId;
use mc_mol::{HalfEdge, Point, Slot};

/// Whether the gap behind p, where q is met next round a, is half a turn or more.
fn is_gap(drawing: &[Point], a: AtomId, p: AtomId, q: AtomId) -> bool
    requires { ArePlaces drawing.now }
    ensures { result ≡ is_wide (rays_from drawing.now a.0 p) (rays_from drawing.now a.0 q) }
{
    is_wide(ray_of(drawing, a, p), ray_of(drawing, a, q))
}

/// The list of an up wedge to w, where p and q are met in this order.
fn up_list_of_three(drawing: &[Point], a: AtomId, w: AtomId, p: AtomId, q: AtomId) -> [Slot; 4]
    requires { ArePlaces drawing.now }
    ensures { result ≡ up_list_of_three (rays_from drawing.now a.0) w p q }
{
    if is_gap(drawing, a, w, p) {
        [Slot::At(w), Slot::Rest, Slot::At(p), Slot::At(q)]
    } else if is_gap(drawing, a, q, w) {
        [Slot::At(w), Slot::At(p), Slot::At(q), Slot::Rest]
    } else {
        [Slot::Rest, Slot::At(w), Slot::At(q), Slot::At(p)]
    }
}

/// The list of an up wedge to w.
fn up_list(drawing: &[Point], a: AtomId, halves: &[HalfEdge], w: AtomId) -> [Slot; 4]
    requires places { ArePlaces drawing.now }
    requires halves { AreOfCentre halves.now }
    requires leads { LeadTo halves.now w }
    ensures { result ≡ up_list (rays_from drawing.now a.0) w (met_from (rays_from drawing.now a.0) (rays_from drawing.now a.0 w) (others halves.now w)) }
{
    if halves.len() == 3 {
        let [p, q] = met_of_two(drawing, a, w, others_of_three(halves, w));
        up_list_of_three(drawing, a, w, p, q)
    } else {
        let [p, q, s] = met_of_three(drawing, a, w, others_of_four(halves, w));
        [Slot::At(w), Slot::At(p), Slot::At(q), Slot::At(s)]
    }
}

/// The list of an up wedge as this mark says it.
fn by_mark(mark: DrawMark, places: [Slot; 4]) -> [Slot; 4]
    ensures { result ≡ by_mark mark places }
{
    let [p, q, r, s] = places;
    match mark {
        DrawMark::Down => [p, q, s, r],
        _ => [p, q, r, s],
    }
}

/// The list that a wedge from a to w gives.
#[tactic(auto, unfolding(crate::specs::Wedges::wedge_list))]
pub fn wedge_list(
    drawing: &[Point],
    a: AtomId,
    halves: &[HalfEdge],
    w: AtomId,
    mark: DrawMark,
) -> [Slot; 4]
    requires places { ArePlaces drawing.now }
    requires halves { AreOfCentre halves.now }
    requires leads { LeadTo halves.now w }
    ensures { result ≡ wedge_list halves.now (rays_from drawing.now a.0) w mark }
{
    by_mark(mark, up_list(drawing, a, halves, w))
}

/// Whether w is the middle one of three neighbours, opposite to a gap of half a turn or more.
#[tactic(auto, unfolding(crate::specs::Wedges::is_middle_one))]
pub fn is_middle_one(drawing: &[Point], a: AtomId, halves: &[HalfEdge], w: AtomId) -> bool
    requires places { ArePlaces drawing.now }
    requires halves { AreOfCentre halves.now }
    requires leads { LeadTo halves.now w }
    ensures { result ≡ is_middle_one halves.now (rays_from drawing.now a.0) w }
{
    if halves.len() != 3 {
        return false;
    }
    let [p, q] = others_of_three(halves, w);
    is_middle(
        ray_of(drawing, a, p),
        ray_of(drawing, a, w),
        ray_of(drawing, a, q),
    )
}
