//! Whether a double bond reads as having its sides.
ghost use Rattle.std.specs.Prelude.{◌≡◌, ◌<◌, length};
ghost use Rattle.std.specs.List.{list_all};
ghost use Rattle.mc_mol.specs.declared.parts.HalfEdge.{HalfEdge as Leading};
ghost use Rattle.mc_mol.specs.Same.{stand_together};
ghost use Rattle.ct_geometry.specs.Bounds.{ArePlaces};
ghost use Rattle.ct_geometry.specs.Drawn.{side_at};
ghost use Rattle.ct_geometry.specs.DrawnTests.{are_opposite, are_parted, bond_reads, is_parted, is_told, same_sign, sides_read, tells};
ghost use Rattle.ct_geometry.specs.Turns.{flipped, is_null, sign};

use crate::rays::ray_of;
use crate::turns::cross;
use mc_base::{AtomId, BondId};
use mc_mol::{HalfEdge, Mol, Point, Sides};

/// A bond and its ends, through which the line goes.
#[derive(Clone, Copy)]
pub struct Line {
    pub bond: BondId,
    pub first: AtomId,
    pub second: AtomId,
}

/// Whether the bond of this number reads as its sides, where it has them.
pub fn bond_reads(mol: &Mol, points: &[Point], k: BondId) -> bool
    requires bond { k.0 < length mol.now.bonds }
    requires places { ArePlaces points.now }
    ensures { result ≡ bond_reads mol.now points.now k.0 }
{
    let bond = mol.bond(k);
    match mol.sides(k) {
        Some(sides) => {
            let line = Line {
                bond: k,
                first: bond.first,
                second: bond.second,
            };
            sides_read(mol, points, line, sides)
        }
        None => true,
    }
}

/// Whether other neighbours of each end stand on different sides, and those of both ends as the sides say.
fn sides_read(mol: &Mol, points: &[Point], line: Line, sides: Sides) -> bool
    requires first { line.first.0 < length mol.now.atoms }
    requires second { line.second.0 < length mol.now.atoms }
    requires places { ArePlaces points.now }
    ensures { result ≡ sides_read mol.now points.now line.bond.0 line.first.0 line.second.0 sides }
{
    let at_first = mol.bonds_of(line.first);
    let at_second = mol.bonds_of(line.second);
    are_parted(points, line, at_first)
        && are_parted(points, line, at_second)
        && all_tell(points, line, sides, at_second, at_first)
}

fn are_parted(points: &[Point], line: Line, halves: &[HalfEdge]) -> bool
    requires { ArePlaces points.now }
    ensures { result ≡ are_parted points.now line.bond.0 line.first.0 line.second.0 halves.now }
{
    halves.iter().all(|g| is_parted(points, line, halves, *g))
}

/// Whether a half-edge of another bond leads beside the line, and is opposite to all others.
fn is_parted(points: &[Point], line: Line, halves: &[HalfEdge], g: HalfEdge) -> bool
    requires { ArePlaces points.now }
    ensures { result ≡ is_parted points.now line.bond.0 line.first.0 line.second.0 halves.now g }
{
    g.bond.0 == line.bond.0
        || (side_at(points, line, g.to) != 0 && is_opposite_to_all(points, line, g, halves))
}

fn is_opposite_to_all(points: &[Point], line: Line, g: HalfEdge, halves: &[HalfEdge]) -> bool
    requires { ArePlaces points.now }
    ensures { result ≡ list_all (λ (h : Leading). are_opposite points.now line.bond.0 line.first.0 line.second.0 g h) halves.now }
{
    halves.iter().all(|h| are_opposite(points, line, g, *h))
}

fn are_opposite(points: &[Point], line: Line, g: HalfEdge, h: HalfEdge) -> bool
    requires { ArePlaces points.now }
    ensures { result ≡ are_opposite points.now line.bond.0 line.first.0 line.second.0 g h }
{
    h.bond.0 == line.bond.0
        || g.to.0 == h.to.0
        || opposite_sign(side_at(points, line, g.to), side_at(points, line, h.to))
}

fn all_tell(
    points: &[Point],
    line: Line,
    sides: Sides,
    others: &[HalfEdge],
    halves: &[HalfEdge],
) -> bool
    requires { ArePlaces points.now }
    ensures { result ≡ list_all (λ (g : Leading). tells points.now line.bond.0 line.first.0 line.second.0 sides others.now g) halves.now }
{
    halves
        .iter()
        .all(|g| tells(points, line, sides, others, *g))
}

/// Whether a half-edge of another bond at one end and those at the other end lead to one side exactly where the sides say so.
fn tells(points: &[Point], line: Line, sides: Sides, others: &[HalfEdge], g: HalfEdge) -> bool
    requires { ArePlaces points.now }
    ensures { result ≡ tells points.now line.bond.0 line.first.0 line.second.0 sides others.now g }
{
    g.bond.0 == line.bond.0 || is_told_by_all(points, line, sides, g, others)
}

fn is_told_by_all(
    points: &[Point],
    line: Line,
    sides: Sides,
    g: HalfEdge,
    others: &[HalfEdge],
) -> bool
    requires { ArePlaces points.now }
    ensures { result ≡ list_all (λ (h : Leading). is_told points.now line.bond.0 line.first.0 line.second.0 sides g h) others.now }
{
    others.iter().all(|h| is_told(points, line, sides, g, *h))
}

fn is_told(points: &[Point], line: Line, sides: Sides, g: HalfEdge, h: HalfEdge) -> bool
    requires { ArePlaces points.now }
    ensures { result ≡ is_told points.now line.bond.0 line.first.0 line.second.0 sides g h }
{
    if h.bond.0 == line.bond.0 {
        return true;
    }
    let on_one_side = same_sign(side_at(points, line, g.to), side_at(points, line, h.to));
    on_one_side == stand_together(sides, g.to, h.to)
}

/// Whether the sides say that neighbours of the first end and of the second stand together.
fn stand_together(sides: Sides, c: AtomId, d: AtomId) -> bool
    ensures { result ≡ stand_together sides c.0 d.0 }
{
    (sides.together == (sides.first.0 == c.0)) == (sides.second.0 == d.0)
}

/// Above 0 where an atom stands to the left of the line, below 0 where it stands to the right.
fn side_at(points: &[Point], line: Line, c: AtomId) -> i64
    requires { ArePlaces points.now }
    ensures { sign result ≡ side_at points.now line.first.0 line.second.0 c.0 }
{
    let along = ray_of(points, line.first, line.second);
    cross(along, ray_of(points, line.first, c))
}

fn same_sign(s: i64, t: i64) -> bool
    ensures { result ≡ same_sign (sign s) (sign t) }
{
    s.signum() == t.signum()
}

fn opposite_sign(s: i64, t: i64) -> bool
    ensures { result ≡ same_sign (sign s) (flipped (sign t)) }
{
    s.signum() == -t.signum()
}
