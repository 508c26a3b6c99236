//! Placements and barriers once more, as a plain program for small texts: it tries each subset of the bonds, and follows each
//! bond as often as there are atoms. A set of atoms or bonds is a number, bit k of which is number k.

use crate::needs;
use mc_base::{AtomId, BondId};
use smi_graph::{SkelBond, Skeleton};

pub fn bit(k: u32) -> u64 {
    1u64.checked_shl(k).unwrap_or(0)
}

pub fn has(set: u64, k: u32) -> bool {
    set & bit(k) != 0
}

/// The atoms that need a double bond.
pub fn needing(skeleton: &Skeleton) -> u64 {
    let mut set = 0;
    for a in 0..skeleton.atom_count() {
        if needs(skeleton, AtomId(a)) {
            set |= bit(a);
        }
    }
    set
}

fn touches(bond: SkelBond, a: u32) -> bool {
    bond.first.0 == a || bond.second.0 == a
}

/// How many bonds of a set are at an atom.
fn bonds_at(skeleton: &Skeleton, placed: u64, a: u32) -> u32 {
    let mut count = 0u32;
    for k in 0..skeleton.bond_count() {
        if has(placed, k) && touches(skeleton.bond(BondId(k)), a) {
            count = count.saturating_add(1);
        }
    }
    count
}

/// Whether a set of bonds is of candidates, with one at each needing atom and none at another.
pub fn is_placement(skeleton: &Skeleton, placed: u64) -> bool {
    for k in 0..skeleton.bond_count() {
        if has(placed, k) && !skeleton.is_candidate(BondId(k)) {
            return false;
        }
    }
    for a in 0..skeleton.atom_count() {
        if bonds_at(skeleton, placed, a) != needs(skeleton, AtomId(a)) as u32 {
            return false;
        }
    }
    true
}

/// Whether some set of bonds is a placement.
pub fn has_placement(skeleton: &Skeleton) -> bool {
    for placed in 0..bit(skeleton.bond_count()) {
        if is_placement(skeleton, placed) {
            return true;
        }
    }
    false
}

/// The atoms that one bond more joins to a part, of those that are left.
fn grown(skeleton: &Skeleton, left: u64, part: u64) -> u64 {
    let mut more = part;
    for k in 0..skeleton.bond_count() {
        let bond = skeleton.bond(BondId(k));
        let (u, v) = (bond.first.0, bond.second.0);
        if skeleton.is_candidate(BondId(k))
            && has(left, u)
            && has(left, v)
            && (has(part, u) || has(part, v))
        {
            more |= bit(u) | bit(v);
        }
    }
    more
}

/// The atoms that candidates join to an atom, of those that are left.
fn part_of(skeleton: &Skeleton, left: u64, a: u32) -> u64 {
    let mut part = bit(a);
    for _ in 0..skeleton.atom_count() {
        part = grown(skeleton, left, part);
    }
    part
}

fn size(skeleton: &Skeleton, set: u64) -> u32 {
    let mut count = 0u32;
    for a in 0..skeleton.atom_count() {
        if has(set, a) {
            count = count.saturating_add(1);
        }
    }
    count
}

/// Whether an atom is the least of its part, of those that are left, and the part is odd.
fn names_odd_part(skeleton: &Skeleton, left: u64, a: u32) -> bool {
    let part = part_of(skeleton, left, a);
    for b in 0..a {
        if has(part, b) {
            return false;
        }
    }
    has(left, a) && size(skeleton, part) % 2 == 1
}

/// Whether a set of needing atoms leaves so many odd parts, and more than it has atoms.
pub fn is_barrier(skeleton: &Skeleton, set: u64, odd: u32) -> bool {
    let left = needing(skeleton) & !set;
    let mut count = 0u32;
    for a in 0..skeleton.atom_count() {
        if names_odd_part(skeleton, left, a) {
            count = count.saturating_add(1);
        }
    }
    set & !needing(skeleton) == 0 && count == odd && size(skeleton, set) < odd
}
