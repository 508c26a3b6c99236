//! Wedges read by a plain program: seen from the wedge's end, its other neighbours stand anticlockwise as they are drawn.
use ct_geometry::Wedge;
use ct_sd::DrawMark;
use mc_base::{AtomId, BondId};
use mc_mol::{Drawing, HalfEdge, Mol, Point, Slot, is_even_permutation};

#[derive(Clone, Copy)]
struct Ray {
    x: i64,
    y: i64,
    slot: Slot,
}

fn point(drawing: &Drawing, a: AtomId) -> Point {
    match drawing.as_slice().get(a.0 as usize) {
        Some(point) => *point,
        None => Point { x: 0, y: 0 },
    }
}

fn ray_to(drawing: &Drawing, a: AtomId, b: AtomId) -> Ray {
    let from = point(drawing, a);
    let to = point(drawing, b);
    Ray {
        x: to.x.wrapping_sub(from.x),
        y: to.y.wrapping_sub(from.y),
        slot: Slot::At(b),
    }
}

/// The rest stands opposite to the middle one of three.
fn rest_opposite(p: Ray) -> Ray {
    Ray {
        x: 0i64.wrapping_sub(p.x),
        y: 0i64.wrapping_sub(p.y),
        slot: Slot::Rest,
    }
}

/// 1 where q stands to the left of p, -1 where it stands to the right.
fn turn(p: Ray, q: Ray) -> i64 {
    p.x.wrapping_mul(q.y)
        .wrapping_sub(q.x.wrapping_mul(p.y))
        .signum()
}

/// Of three different rays at least two turn to the next one by less than half a turn.
fn are_anticlockwise(p: Ray, q: Ray, r: Ray) -> bool {
    turn(p, q).wrapping_add(turn(q, r)).wrapping_add(turn(r, p)) > 0
}

/// Whether q stands between p and r, which are no more than half a turn apart.
fn is_between(p: Ray, q: Ray, r: Ray) -> bool {
    let first = turn(p, q);
    first != 0 && first == turn(q, r) && (turn(p, r) == first || turn(p, r) == 0)
}

/// An up wedge to w, with three others in the plane.
fn seen_from(w: Ray, p: Ray, q: Ray, r: Ray) -> [Slot; 4] {
    if are_anticlockwise(p, q, r) {
        [w.slot, p.slot, q.slot, r.slot]
    } else {
        [w.slot, p.slot, r.slot, q.slot]
    }
}

/// An up wedge to w, with two others and the rest.
fn seen_of_three(w: Ray, p: Ray, q: Ray) -> Option<[Slot; 4]> {
    if is_between(p, w, q) {
        return None;
    }
    if is_between(w, p, q) {
        return Some(seen_from(w, p, q, rest_opposite(p)));
    }
    if is_between(w, q, p) {
        return Some(seen_from(w, p, q, rest_opposite(q)));
    }
    // the rest is behind the plane, and the three stand clockwise when they are seen from there
    if are_anticlockwise(w, p, q) {
        Some([Slot::Rest, w.slot, q.slot, p.slot])
    } else {
        Some([Slot::Rest, w.slot, p.slot, q.slot])
    }
}

/// The list of an up wedge to w.
fn seen(drawing: &Drawing, a: AtomId, halves: &[HalfEdge], w: AtomId) -> Option<[Slot; 4]> {
    let own = ray_to(drawing, a, w);
    match halves {
        [p, q, r] => {
            let (p, q) = if p.to.0 == w.0 {
                (q.to, r.to)
            } else if q.to.0 == w.0 {
                (p.to, r.to)
            } else {
                (p.to, q.to)
            };
            seen_of_three(own, ray_to(drawing, a, p), ray_to(drawing, a, q))
        }
        [p, q, r, s] => {
            let (p, q, r) = if p.to.0 == w.0 {
                (q.to, r.to, s.to)
            } else if q.to.0 == w.0 {
                (p.to, r.to, s.to)
            } else if r.to.0 == w.0 {
                (p.to, q.to, s.to)
            } else {
                (p.to, q.to, r.to)
            };
            Some(seen_from(
                own,
                ray_to(drawing, a, p),
                ray_to(drawing, a, q),
                ray_to(drawing, a, r),
            ))
        }
        _ => None,
    }
}

/// Whether this wedge says the hand of the centre at which it begins.
fn says_hand(mol: &Mol, drawing: &Drawing, a: AtomId, w: AtomId, is_up: bool) -> bool {
    if a.0 >= mol.atom_count() {
        return false;
    }
    match (mol.centre(a), seen(drawing, a, mol.bonds_of(a), w)) {
        (Some(places), Some(list)) => is_even_permutation(&places, &list) == is_up,
        _ => false,
    }
}

/// Whether the mark of a bond is right: none, or one that says the hand of one of its ends.
fn is_right_at(mol: &Mol, drawing: &Drawing, k: BondId, wedge: Wedge) -> bool {
    if k.0 >= mol.bond_count() {
        return false;
    }
    let bond = mol.bond(k);
    let wide = if wedge.narrow.0 == bond.first.0 {
        bond.second
    } else {
        bond.first
    };
    match wedge.mark {
        DrawMark::Plain => wedge.narrow.0 == bond.first.0.min(bond.second.0),
        DrawMark::Up => bond.order == 1 && says_hand(mol, drawing, wedge.narrow, wide, true),
        DrawMark::Down => bond.order == 1 && says_hand(mol, drawing, wedge.narrow, wide, false),
        _ => false,
    }
}

/// How many wedges begin at the atom.
fn count_at(wedges: &[Wedge], a: AtomId) -> usize {
    wedges
        .iter()
        .filter(|wedge| wedge.narrow.0 == a.0 && wedge.mark != DrawMark::Plain)
        .count()
}

/// Whether each mark is right, and one begins at each centre and at no other atom.
pub fn reads_plainly(mol: &Mol, drawing: &Drawing, wedges: &[Wedge]) -> bool {
    for k in 0..mol.bond_count() {
        match wedges.get(k as usize) {
            Some(wedge) => {
                if !is_right_at(mol, drawing, BondId(k), *wedge) {
                    return false;
                }
            }
            None => return false,
        }
    }
    for a in 0..mol.atom_count() {
        let wanted = if mol.centre(AtomId(a)).is_some() {
            1
        } else {
            0
        };
        if count_at(wedges, AtomId(a)) != wanted {
            return false;
        }
    }
    true
}
