//! Drawings read back by another way than they are made: by cross products alone.
use mc_base::{AtomId, BondId};
use mc_mol::{Drawing, HalfEdge, Mol, Point, Sides};
use std::test::Fail;

const GREATEST: i64 = 999_999_999;

fn point(drawing: &Drawing, a: AtomId) -> Point {
    match drawing.as_slice().get(a.0 as usize) {
        Some(point) => *point,
        None => Point { x: 0, y: 0 },
    }
}

fn ray(drawing: &Drawing, a: AtomId, b: AtomId) -> Point {
    let from = point(drawing, a);
    let to = point(drawing, b);
    Point {
        x: to.x.wrapping_sub(from.x),
        y: to.y.wrapping_sub(from.y),
    }
}

fn cross(p: Point, q: Point) -> i64 {
    p.x.wrapping_mul(q.y)
        .wrapping_sub(q.x.wrapping_mul(p.y))
        .signum()
}

fn dot(p: Point, q: Point) -> i64 {
    p.x.wrapping_mul(q.x)
        .wrapping_add(p.y.wrapping_mul(q.y))
        .signum()
}

/// All points are within the columns, and the least x and y are 0.
fn is_within(drawing: &Drawing) -> bool {
    let mut zero_x = false;
    let mut zero_y = false;
    for p in drawing.as_slice() {
        if p.x < 0 || p.y < 0 || p.x > GREATEST || p.y > GREATEST {
            return false;
        }
        zero_x = zero_x || p.x == 0;
        zero_y = zero_y || p.y == 0;
    }
    (zero_x && zero_y) || drawing.as_slice().is_empty()
}

fn have_one_direction(p: Point, q: Point) -> bool {
    cross(p, q) == 0 && dot(p, q) > 0
}

/// No ray of the atom is zero, and no two have one direction.
fn rays_differ(drawing: &Drawing, a: AtomId, halves: &[HalfEdge]) -> bool {
    for half in halves {
        let p = ray(drawing, a, half.to);
        if p.x == 0 && p.y == 0 {
            return false;
        }
        for other in halves {
            if other.to.0 != half.to.0 && have_one_direction(p, ray(drawing, a, other.to)) {
                return false;
            }
        }
    }
    true
}

/// The side on which the named neighbour of an end stands, as each other neighbour of the end tells it; 0 where they don't
/// agree.
fn side_told(
    mol: &Mol,
    drawing: &Drawing,
    line: Point,
    k: BondId,
    end: AtomId,
    named: AtomId,
) -> i64 {
    if end.0 >= mol.atom_count() {
        return 0;
    }
    let mut told = 0;
    for half in mol.bonds_of(end) {
        if half.bond.0 != k.0 {
            let side = cross(line, ray(drawing, end, half.to));
            let own = if half.to.0 == named.0 {
                side
            } else {
                side.wrapping_neg()
            };
            if own == 0 || (told != 0 && told != own) {
                return 0;
            }
            told = own;
        }
    }
    told
}

fn reads_sides(mol: &Mol, drawing: &Drawing, k: BondId, sides: Sides) -> bool {
    if k.0 >= mol.bond_count() {
        return false;
    }
    let bond = mol.bond(k);
    let line = ray(drawing, bond.first, bond.second);
    let first = side_told(mol, drawing, line, k, bond.first, sides.first);
    let second = side_told(mol, drawing, line, k, bond.second, sides.second);
    first != 0 && second != 0 && (first == second) == sides.together
}

/// Whether q lies between p and r, which turn by half a turn or less over it.
fn lies_between(p: Point, q: Point, r: Point) -> bool {
    let first = cross(p, q);
    let second = cross(q, r);
    let over = cross(p, r);
    first != 0 && first == second && (over == first || over == 0)
}

/// How many single bonds of the atom may carry a wedge.
fn usable(mol: &Mol, drawing: &Drawing, a: AtomId, halves: &[HalfEdge]) -> u32 {
    let mut count: u32 = 0;
    for half in halves {
        let single = half.bond.0 < mol.bond_count() && mol.bond(half.bond).order == 1;
        if single && !(halves.len() == 3 && is_between_others(drawing, a, *half, halves)) {
            count = count.wrapping_add(1);
        }
    }
    count
}

fn is_between_others(drawing: &Drawing, a: AtomId, half: HalfEdge, halves: &[HalfEdge]) -> bool {
    let q = ray(drawing, a, half.to);
    for one in halves {
        for other in halves {
            if one.to.0 != half.to.0 && other.to.0 != half.to.0 && one.to.0 != other.to.0 {
                let p = ray(drawing, a, one.to);
                if lies_between(p, q, ray(drawing, a, other.to)) {
                    return true;
                }
            }
        }
    }
    false
}

/// Whether the drawing gives what is needed to write and read the molecule's stereo.
pub fn reads_back(mol: &Mol, drawing: &Drawing) -> bool {
    if drawing.len() != mol.atom_count() as usize || !is_within(drawing) {
        return false;
    }
    for a in 0..mol.atom_count() {
        let halves = mol.bonds_of(AtomId(a));
        if !rays_differ(drawing, AtomId(a), halves) {
            return false;
        }
        if mol.centre(AtomId(a)).is_some() && usable(mol, drawing, AtomId(a), halves) < 2 {
            return false;
        }
    }
    for k in 0..mol.bond_count() {
        if let Some(sides) = mol.sides(BondId(k)) {
            if !reads_sides(mol, drawing, BondId(k), sides) {
                return false;
            }
        }
    }
    true
}

#[test]
fn three_rays(rt: HostRuntime) -> Result<(), Fail> {
    let north = Point { x: 0, y: 1 };
    let east = Point { x: 1, y: 0 };
    let west = Point { x: -1, y: 0 };
    let south_west = Point { x: -1, y: -2 };
    assert!(rt; lies_between(east, north, west));
    assert!(rt; !lies_between(north, west, east));
    assert!(rt; !lies_between(north, east, south_west));
    assert!(rt; have_one_direction(north, Point { x: 0, y: 3 }));
    assert!(rt; !have_one_direction(east, west));
    Ok(())
}
