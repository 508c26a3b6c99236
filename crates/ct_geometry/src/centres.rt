//! What the wedges of a drawing say of an atom.
ghost use Rattle.std.specs.Prelude.{◌≡◌, ◌<◌, ◌==◌, ◌&&◌, not, true, length};
ghost use Rattle.std.specs.List.{list_any};
ghost use Rattle.mc_mol.specs.Permutations.{is_even_permutation};
ghost use Rattle.mc_mol.specs.declared.parts.Slot.{Slot as Place};
ghost use Rattle.mc_rings.specs.Rings.{AreRingsOf};
ghost use Rattle.ct_geometry.specs.Bounds.{ArePlaces};
ghost use Rattle.ct_geometry.specs.Drawn.{rays_from};
ghost use Rattle.ct_geometry.specs.Neighbours.{AreOfCentre, LeadTo};
ghost use Rattle.ct_geometry.specs.Turns.{have_one_direction};
ghost use Rattle.ct_geometry.specs.Wedges.{begins, carries, coincide, coincides, contradict, contradicts, first_list, is_ambiguous, list_of, wedge_in_the_middle, read_wedges};

use crate::WedgeRead;
use crate::marks::{carries, is_drawn_as_centre, mark_at};
use crate::rays::ray_of;
use crate::turns::{have_one_direction, is_zero};
use crate::wedge_lists::{is_middle_one, wedge_list};
use ct_sd::DrawMark;
use mc_base::AtomId;
use mc_mol::{Drawing, HalfEdge, Mol, Point, Slot, is_even_permutation};
use mc_rings::{Rings, may_be_centre};

/// Whether another neighbour stands in the direction of this one, or this one in the atom's own place.
fn coincides(drawing: &[Point], a: AtomId, halves: &[HalfEdge], g: HalfEdge) -> bool
    requires { ArePlaces drawing.now }
    ensures { result ≡ coincides halves.now (rays_from drawing.now a.0) g }
{
    let own = ray_of(drawing, a, g.to);
    if is_zero(own) {
        return true;
    }
    for half in halves {
        if g.to.0 != half.to.0 && have_one_direction(own, ray_of(drawing, a, half.to)) {
            return true;
        }
    }
    false
}

#[tactic(auto, unfolding(crate::specs::Wedges::coincide))]
fn coincide(drawing: &[Point], a: AtomId, halves: &[HalfEdge]) -> bool
    requires { ArePlaces drawing.now }
    ensures { result ≡ coincide halves.now (rays_from drawing.now a.0) }
{
    for half in halves {
        if coincides(drawing, a, halves, *half) {
            return true;
        }
    }
    false
}

/// The list that the wedge of a half-edge gives.
fn list_of(
    mol: &Mol,
    drawing: &[Point],
    marks: &[DrawMark],
    a: AtomId,
    halves: &[HalfEdge],
    half: HalfEdge,
) -> [Slot; 4]
    requires places { ArePlaces drawing.now }
    requires halves { AreOfCentre halves.now }
    requires leads { LeadTo halves.now half.to }
    ensures { result ≡ list_of (begins mol.now.bonds marks.now a.0) halves.now (rays_from drawing.now a.0) half }
{
    wedge_list(drawing, a, halves, half.to, mark_at(mol, marks, a, half))
}

/// Whether a wedge stands at the middle one of three neighbours.
#[tactic(auto, using(crate::proofs::Loops::one_of), unfolding(crate::specs::Wedges::wedge_in_the_middle))]
fn wedge_in_the_middle(
    mol: &Mol,
    drawing: &[Point],
    marks: &[DrawMark],
    a: AtomId,
    halves: &[HalfEdge],
) -> bool
    requires places { ArePlaces drawing.now }
    requires halves { AreOfCentre halves.now }
    ensures { result ≡ wedge_in_the_middle (begins mol.now.bonds marks.now a.0) halves.now (rays_from drawing.now a.0) }
{
    for half in halves {
        if carries(mol, marks, a, *half) && is_middle_one(drawing, a, halves, half.to) {
            return true;
        }
    }
    false
}

/// Whether another wedge than that of half-edge g says another hand than its list.
#[tactic(auto, using(crate::proofs::Loops::one_of))]
fn contradicts(
    mol: &Mol,
    drawing: &[Point],
    marks: &[DrawMark],
    a: AtomId,
    halves: &[HalfEdge],
    g: HalfEdge,
    list: &[Slot; 4],
) -> bool
    requires places { ArePlaces drawing.now }
    requires halves { AreOfCentre halves.now }
    ensures { result ≡ contradicts (begins mol.now.bonds marks.now a.0) halves.now (rays_from drawing.now a.0) g list.now }
{
    for half in halves {
        if g.bond.0 != half.bond.0
            && carries(mol, marks, a, *half)
            && !is_even_permutation(list, &list_of(mol, drawing, marks, a, halves, *half))
        {
            return true;
        }
    }
    false
}

/// Whether two wedges say different hands.
#[tactic(auto, using(crate::proofs::Loops::one_of), unfolding(crate::specs::Wedges::contradict))]
fn contradict(
    mol: &Mol,
    drawing: &[Point],
    marks: &[DrawMark],
    a: AtomId,
    halves: &[HalfEdge],
) -> bool
    requires places { ArePlaces drawing.now }
    requires halves { AreOfCentre halves.now }
    ensures { result ≡ contradict (begins mol.now.bonds marks.now a.0) halves.now (rays_from drawing.now a.0) }
{
    for half in halves {
        if carries(mol, marks, a, *half) {
            let list = list_of(mol, drawing, marks, a, halves, *half);
            if contradicts(mol, drawing, marks, a, halves, *half, &list) {
                return true;
            }
        }
    }
    false
}

fn is_ambiguous(
    mol: &Mol,
    drawing: &[Point],
    marks: &[DrawMark],
    a: AtomId,
    halves: &[HalfEdge],
) -> bool
    requires places { ArePlaces drawing.now }
    requires halves { AreOfCentre halves.now }
    ensures { result ≡ is_ambiguous (begins mol.now.bonds marks.now a.0) halves.now (rays_from drawing.now a.0) }
{
    coincide(drawing, a, halves)
        || wedge_in_the_middle(mol, drawing, marks, a, halves)
        || contradict(mol, drawing, marks, a, halves)
}

/// The list of the first wedge.
#[tactic(auto, using(crate::proofs::Loops::one_of))]
fn first_list(
    mol: &Mol,
    drawing: &[Point],
    marks: &[DrawMark],
    a: AtomId,
    halves: &[HalfEdge],
) -> [Slot; 4]
    requires places { ArePlaces drawing.now }
    requires halves { AreOfCentre halves.now }
    requires some { list_any (λ half. carries (begins mol.now.bonds marks.now a.0) half) halves.now ≡ true }
    ensures { result ≡ first_list (begins mol.now.bonds marks.now a.0) halves.now (rays_from drawing.now a.0) halves.now }
{
    for half in halves {
        if carries(mol, marks, a, *half) {
            return list_of(mol, drawing, marks, a, halves, *half);
        }
    }
    unreachable!()
}

/// What the wedges that begin at an atom say of it. A bond's narrow end is its first atom.
pub fn centre_of_wedges(
    mol: &Mol,
    rings: &Rings,
    drawing: &Drawing,
    marks: &[DrawMark],
    a: AtomId,
) -> WedgeRead
    requires atom { a.0 < length mol.now.atoms }
    requires rings { AreRingsOf mol.now rings.now }
    requires places { ArePlaces drawing.now }
    ensures { result ≡ read_wedges mol.now rings.now.sizes drawing.now (begins mol.now.bonds marks.now a.0) a.0 }
{
    let halves = mol.bonds_of(a);
    if !may_be_centre(mol, rings, a) || !is_drawn_as_centre(mol, marks, a, halves) {
        return WedgeRead::None;
    }
    let drawing = drawing.as_slice();
    if is_ambiguous(mol, drawing, marks, a, halves) {
        WedgeRead::Ambiguous
    } else {
        WedgeRead::Centre(first_list(mol, drawing, marks, a, halves))
    }
}
