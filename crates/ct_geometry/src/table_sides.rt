//! What a drawing says of the double bonds of a table.
ghost use Rattle.std.specs.Prelude.{◌≡◌, ◌<◌, length};
ghost use Rattle.std.specs.List.{list_any};
ghost use Rattle.mc_mol.specs.declared.parts.HalfEdge.{HalfEdge as Leading};
ghost use Rattle.mc_rings.specs.Centres.{lies_in_no_ring};
ghost use Rattle.mc_rings.specs.Rings.{AreRingsOf};
ghost use Rattle.ct_geometry.specs.Bounds.{ArePlaces};
ghost use Rattle.ct_geometry.specs.Drawn.{side_at};
ghost use Rattle.ct_geometry.specs.TableSides.{are_parted, drawn_sides, ends_are_parted, first_other, has_wavy, is_either, is_left_open, is_specified, on_one_side, same_sign, share_a_side, sides_by, stands_alone};
ghost use Rattle.ct_geometry.specs.Turns.{is_null, sign};
ghost use Rattle.ct_geometry.specs.Wedges.{begins, is_wavy};

use crate::marks::{is_wavy, mark_at, mark_of};
use crate::rays::ray_of;
use crate::turns::cross;
use ct_sd::DrawMark;
use mc_base::{AtomId, BondId};
use mc_mol::{Bond, Drawing, HalfEdge, Mol, Point, Sides};
use mc_rings::{Rings, may_have_sides};

/// A bond and its ends, through which a line goes.
#[derive(Clone, Copy)]
struct Line {
    bond: BondId,
    first: AtomId,
    second: AtomId,
}

/// Above 0 where an atom stands to the left of the line, below 0 where it stands to the right.
fn side_at(points: &[Point], line: Line, c: AtomId) -> i64
    requires { ArePlaces points.now }
    ensures { sign result ≡ side_at points.now line.first.0 line.second.0 c.0 }
{
    let along = ray_of(points, line.first, line.second);
    cross(along, ray_of(points, line.first, c))
}

fn same_sign(s: i64, t: i64) -> bool
    ensures { result ≡ same_sign (sign s) (sign t) }
{
    s.signum() == t.signum()
}

fn is_on_the_line(points: &[Point], line: Line, c: AtomId) -> bool
    requires { ArePlaces points.now }
    ensures { result ≡ is_null (side_at points.now line.first.0 line.second.0 c.0) }
{
    side_at(points, line, c) == 0
}

/// Whether two atoms stand on one side of the line.
fn on_one_side(points: &[Point], line: Line, c: AtomId, d: AtomId) -> bool
    requires { ArePlaces points.now }
    ensures { result ≡ on_one_side points.now line.first.0 line.second.0 c.0 d.0 }
{
    same_sign(side_at(points, line, c), side_at(points, line, d))
}

/// Whether the atoms of two other bonds stand on one side.
fn share_a_side(points: &[Point], line: Line, g: HalfEdge, h: HalfEdge) -> bool
    requires { ArePlaces points.now }
    ensures { result ≡ share_a_side points.now line.bond.0 line.first.0 line.second.0 g h }
{
    g.bond.0 != line.bond.0
        && h.bond.0 != line.bond.0
        && g.bond.0 != h.bond.0
        && on_one_side(points, line, g.to, h.to)
}

fn shares_a_side(points: &[Point], line: Line, halves: &[HalfEdge], g: HalfEdge) -> bool
    requires { ArePlaces points.now }
    ensures { result ≡ list_any (λ (h : Leading). share_a_side points.now line.bond.0 line.first.0 line.second.0 g h) halves.now }
{
    halves.iter().any(|h| share_a_side(points, line, g, *h))
}

/// Whether a half-edge of another bond leads beside the line, to a side of its own.
fn stands_alone(points: &[Point], line: Line, halves: &[HalfEdge], g: HalfEdge) -> bool
    requires { ArePlaces points.now }
    ensures { result ≡ stands_alone points.now line.bond.0 line.first.0 line.second.0 halves.now g }
{
    g.bond.0 == line.bond.0
        || (!is_on_the_line(points, line, g.to) && !shares_a_side(points, line, halves, g))
}

/// Whether the line parts the other neighbours of an end.
#[tactic(auto, unfolding(crate::specs::TableSides::are_parted))]
fn are_parted(points: &[Point], line: Line, halves: &[HalfEdge]) -> bool
    requires { ArePlaces points.now }
    ensures { result ≡ are_parted points.now line.bond.0 line.first.0 line.second.0 halves.now }
{
    halves
        .iter()
        .all(|g| stands_alone(points, line, halves, *g))
}

/// Whether a wavy bond begins at an atom.
#[tactic(auto, unfolding(crate::specs::TableSides::has_wavy))]
fn has_wavy(mol: &Mol, marks: &[DrawMark], a: AtomId, halves: &[HalfEdge]) -> bool
    ensures { result ≡ has_wavy mol.now.bonds marks.now a.0 halves.now }
{
    halves
        .iter()
        .any(|half| is_wavy(mark_at(mol, marks, a, *half)))
}

pub fn is_either(mark: DrawMark) -> bool
    ensures { result ≡ is_either mark }
{
    match mark {
        DrawMark::Either => true,
        _ => false,
    }
}

/// Whether a drawn bond is marked as either, or a wavy bond begins at one of its ends.
fn is_left_open(mol: &Mol, marks: &[DrawMark], k: BondId, bond: Bond) -> bool
    requires first { bond.first.0 < length mol.now.atoms }
    requires second { bond.second.0 < length mol.now.atoms }
    ensures { result ≡ is_left_open mol.now marks.now k.0 bond }
{
    is_either(mark_of(marks, k))
        || has_wavy(mol, marks, bond.first, mol.bonds_of(bond.first))
        || has_wavy(mol, marks, bond.second, mol.bonds_of(bond.second))
}

/// Whether the other neighbours of both ends of a bond are parted by the line through the ends.
fn ends_are_parted(mol: &Mol, points: &[Point], k: BondId, bond: Bond) -> bool
    requires first { bond.first.0 < length mol.now.atoms }
    requires second { bond.second.0 < length mol.now.atoms }
    requires places { ArePlaces points.now }
    ensures { result ≡ ends_are_parted mol.now points.now k.0 bond }
{
    let line = Line {
        bond: k,
        first: bond.first,
        second: bond.second,
    };
    are_parted(points, line, mol.bonds_of(bond.first))
        && are_parted(points, line, mol.bonds_of(bond.second))
}

/// Whether a bond lies in no ring.
pub fn is_bridge(rings: &Rings, k: BondId) -> bool
    requires { k.0 < length rings.now.sizes }
    ensures { result ≡ lies_in_no_ring rings.now.sizes k.0 }
{
    rings.ring_size(k).is_none()
}

/// Whether a side place lies in no ring and the drawing says its sides.
fn is_specified(
    mol: &Mol,
    rings: &Rings,
    points: &[Point],
    marks: &[DrawMark],
    k: BondId,
    bond: Bond,
) -> bool
    requires bond { k.0 < length mol.now.bonds }
    requires first { bond.first.0 < length mol.now.atoms }
    requires second { bond.second.0 < length mol.now.atoms }
    requires rings { AreRingsOf mol.now rings.now }
    requires places { ArePlaces points.now }
    ensures { result ≡ is_specified mol.now rings.now.sizes points.now marks.now k.0 bond }
{
    may_have_sides(mol, rings, k)
        && is_bridge(rings, k)
        && !is_left_open(mol, marks, k, bond)
        && ends_are_parted(mol, points, k, bond)
}

/// The first neighbour of an end by another bond.
fn first_other(halves: &[HalfEdge], k: BondId) -> Option<AtomId>
    ensures { result ≡ first_other halves.now k.0 }
{
    for half in halves {
        if half.bond.0 != k.0 {
            return Some(half.to);
        }
    }
    None
}

fn sides_by(
    points: &[Point],
    line: Line,
    first: Option<AtomId>,
    second: Option<AtomId>,
) -> Option<Sides>
    requires { ArePlaces points.now }
    ensures { result ≡ sides_by points.now line.first.0 line.second.0 first second }
{
    match (first, second) {
        (Some(c), Some(d)) => Some(Sides {
            first: c,
            second: d,
            together: on_one_side(points, line, c, d),
        }),
        _ => None,
    }
}

/// The sides that a drawing gives a bond, or none.
pub fn drawn_sides(
    mol: &Mol,
    rings: &Rings,
    drawing: &Drawing,
    marks: &[DrawMark],
    k: BondId,
) -> Option<Sides>
    requires bond { k.0 < length mol.now.bonds }
    requires rings { AreRingsOf mol.now rings.now }
    requires places { ArePlaces drawing.now }
    ensures { result ≡ drawn_sides mol.now rings.now.sizes drawing.now marks.now k.0 }
{
    let bond = mol.bond(k);
    let points = drawing.as_slice();
    if !is_specified(mol, rings, points, marks, k, bond) {
        return None;
    }
    let line = Line {
        bond: k,
        first: bond.first,
        second: bond.second,
    };
    sides_by(
        points,
        line,
        first_other(mol.bonds_of(bond.first), k),
        first_other(mol.bonds_of(bond.second), k),
    )
}
