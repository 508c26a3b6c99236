ghost use Rattle.std.specs.Prelude.{◌≡◌, ◌<◌, ◌↔◌, IsTrue, None, Some, false, length, slice_get};
ghost use Rattle.mc_mol.specs.Molecule.{joins};
ghost use Rattle.mc_mol.specs.Same.{SameSides, entry, stand_together, together_at};
ghost use Rattle.mc_mol.specs.WellFormed.{IsMolecule, IsBond};
ghost use Rattle.mc_same.specs.Agreement.{AgreesAt, AgreesFrom, Agrees};
ghost use Rattle.mc_same.specs.Differences.{FirstFailure, Holds, InRange, IsNew, SameBond, SidesAgree};

use crate::bonds::bond_between;
use mc_base::{AtomId, BondId};
use mc_mol::{Bond, Mol, Sides};

/// Whether two neighbours stand on one side, where these are the neighbours that the sides name or the
/// other ones.
fn stand_together(sides: Sides, at_first: AtomId, at_second: AtomId) -> bool
    ensures { result ≡ stand_together sides at_first.0 at_second.0 }
{
    let turned = (sides.first.0 == at_first.0) == sides.together;
    (sides.second.0 == at_second.0) == turned
}

/// The same of neighbours of an end `u` and of the other end of a bond.
fn together_at(bond: Bond, sides: Sides, u: AtomId, at_u: AtomId, at_other: AtomId) -> bool
    ensures { result ≡ together_at bond sides u.0 at_u.0 at_other.0 }
{
    if bond.first.0 == u.0 {
        stand_together(sides, at_u, at_other)
    } else {
        stand_together(sides, at_other, at_u)
    }
}

/// A specified double bond of the output, and its bond of the input.
#[derive(Clone, Copy)]
struct Pair {
    bond: Bond,
    sides: Sides,
    counterpart: Bond,
    theirs: Sides,
}

fn agrees_at(map: &[AtomId], pair: Pair, c: AtomId, d: AtomId) -> bool
    requires bond { IsBond (length map.now) pair.bond }
    requires c { c.0 < length map.now }
    requires d { d.0 < length map.now }
    ensures { IsTrue result ↔ AgreesAt map.now pair.bond pair.sides pair.counterpart pair.theirs c.0 d.0 }
{
    let first = map[pair.bond.first.0 as usize];
    let ours = stand_together(pair.sides, c, d);
    let theirs = together_at(
        pair.counterpart,
        pair.theirs,
        first,
        map[c.0 as usize],
        map[d.0 as usize],
    );
    ours == theirs
}

fn agrees_from(output: &Mol, map: &[AtomId], pair: Pair, c: AtomId) -> bool
    requires well_formed { IsMolecule output.now }
    requires same_length { length map.now ≡ length output.now.atoms }
    requires bond { IsBond (length map.now) pair.bond }
    requires c { c.0 < length map.now }
    ensures { IsTrue result ↔ AgreesFrom map.now output.now.bonds pair.bond pair.sides pair.counterpart pair.theirs c.0 }
{
    for half in output.bonds_of(pair.bond.second) {
        if half.to.0 != pair.bond.first.0 {
            if !agrees_at(map, pair, c, half.to) {
                return false;
            }
        }
    }
    true
}

fn agrees(output: &Mol, map: &[AtomId], pair: Pair) -> bool
    requires well_formed { IsMolecule output.now }
    requires same_length { length map.now ≡ length output.now.atoms }
    requires bond { IsBond (length map.now) pair.bond }
    ensures { IsTrue result ↔ Agrees map.now output.now.bonds pair.bond pair.sides pair.counterpart pair.theirs }
{
    for half in output.bonds_of(pair.bond.first) {
        if half.to.0 != pair.bond.second.0 {
            if !agrees_from(output, map, pair, half.to) {
                return false;
            }
        }
    }
    true
}

/// Whether a bond of the output and its bond of the input are both unspecified, or have sides that agree.
fn same_sides(
    output: &Mol,
    map: &[AtomId],
    bond: Bond,
    ours: Option<Sides>,
    counterpart: Bond,
    theirs: Option<Sides>,
) -> bool
    requires well_formed { IsMolecule output.now }
    requires same_length { length map.now ≡ length output.now.atoms }
    requires bond { IsBond (length map.now) bond }
    ensures { IsTrue result ↔ SameSides map.now output.now.bonds bond ours counterpart theirs }
{
    match (ours, theirs) {
        (None, None) => true,
        (Some(sides), Some(theirs)) => agrees(
            output,
            map,
            Pair {
                bond,
                sides,
                counterpart,
                theirs,
            },
        ),
        (Some(_), None) => false,
        (None, Some(_)) => false,
    }
}

/// Whether bond `k` of the output has sides as its bond of the input has.
fn sides_agree(input: &Mol, output: &Mol, map: &[AtomId], k: BondId) -> bool
    requires input { IsMolecule input.now }
    requires output { IsMolecule output.now }
    requires same_length { length map.now ≡ length output.now.atoms }
    requires in_range { Holds (length map.now) (InRange input.now map.now) }
    requires new { Holds (length map.now) (IsNew map.now) }
    requires k { k.0 < length output.now.bonds }
    requires same_bond { SameBond input.now output.now map.now k.0 }
    ensures { IsTrue result ↔ SidesAgree input.now output.now map.now k.0 }
{
    let bond = output.bond(k);
    match bond_between(
        input,
        map[bond.first.0 as usize],
        map[bond.second.0 as usize],
    ) {
        Some(found) => same_sides(
            output,
            map,
            bond,
            output.sides(k),
            input.bond(found),
            input.sides(found),
        ),
        None => unreachable!(),
    }
}

/// Whether a bond has sides.
fn has_sides(mol: &Mol) -> bool
    ensures { result ≡ false → Holds (length mol.now.bonds) (λ k. slice_get mol.now.sides k ≡ Some None) }
{
    for k in 0..mol.bond_count() {
        if mol.sides(BondId(k)).is_some() {
            return true;
        }
    }
    false
}

/// The number of the first bond whose sides differ from those of its bond of the input.
pub fn first_other_sides(input: &Mol, output: &Mol, map: &[AtomId]) -> Option<u32>
    requires input { IsMolecule input.now }
    requires output { IsMolecule output.now }
    requires same_length { length map.now ≡ length output.now.atoms }
    requires in_range { Holds (length map.now) (InRange input.now map.now) }
    requires new { Holds (length map.now) (IsNew map.now) }
    requires bonds { Holds (length output.now.bonds) (SameBond input.now output.now map.now) }
    ensures { FirstFailure (length output.now.bonds) (SidesAgree input.now output.now map.now) result }
{
    if !has_sides(input) && !has_sides(output) {
        return None;
    }
    for k in 0..output.bond_count() {
        if !sides_agree(input, output, map, BondId(k)) {
            return Some(k + 1);
        }
    }
    None
}

#[cfg(test)]
mod tests {
    use super::*;
    use std::process::Abort;

    // A second neighbour of an end stands on the other side from the first.
    #[test]
    fn sides_of_other_neighbours(rt: HostRuntime) {
        let sides = Sides {
            first: AtomId(0),
            second: AtomId(3),
            together: true,
        };
        assert!(rt; stand_together(sides, AtomId(0), AtomId(3)));
        assert!(rt; !stand_together(sides, AtomId(4), AtomId(3)));
        assert!(rt; !stand_together(sides, AtomId(0), AtomId(5)));
        assert!(rt; stand_together(sides, AtomId(4), AtomId(5)));
        let bond = Bond {
            first: AtomId(1),
            second: AtomId(2),
            order: 2,
        };
        assert!(rt; !together_at(bond, sides, AtomId(2), AtomId(5), AtomId(0)));
        assert!(rt; together_at(bond, sides, AtomId(2), AtomId(5), AtomId(4)));
    }
}
