ghost use Rattle.std.specs.Prelude.{◌≡◌, ◌≢◌, ◌≤◌, ◌<◌, ◌↔◌, IfSome, IsSome, length};
ghost use Rattle.mc_mol.specs.declared.limits.TheConstants.{BOND_LIMIT};
ghost use Rattle.mc_mol.specs.Same.{HasBond, entry};
ghost use Rattle.mc_mol.specs.WellFormed.{IsMolecule, IsBond};
ghost use Rattle.mc_same.specs.Between.{FindsBond};
ghost use Rattle.mc_same.specs.Differences.{FirstFailure, Holds, InRange, IsNew, SameBond};

use mc_base::{AtomId, BondId};
use mc_mol::{Bond, Mol};

/// The bond between two atoms, if there is one. The bonds of the atom that has fewer are looked at.
pub fn bond_between(mol: &Mol, u: AtomId, v: AtomId) -> Option<BondId>
    requires first { u.0 < length mol.now.atoms }
    requires second { v.0 < length mol.now.atoms }
    requires different { u.0 ≢ v.0 }
    ensures { FindsBond mol.now u.0 v.0 result }
{
    if mol.bonds_of(u).len() <= mol.bonds_of(v).len() {
        bond_at(mol, u, v)
    } else {
        bond_at(mol, v, u)
    }
}

/// The bond of the first atom that leads to the second.
fn bond_at(mol: &Mol, u: AtomId, v: AtomId) -> Option<BondId>
    requires first { u.0 < length mol.now.atoms }
    requires different { u.0 ≢ v.0 }
    ensures { FindsBond mol.now u.0 v.0 result }
{
    for half in mol.bonds_of(u) {
        if half.to.0 == v.0 {
            return Some(half.bond);
        }
    }
    None
}

/// The same. The bond of a number that is at hand is looked at first.
fn bond_near(mol: &Mol, u: AtomId, v: AtomId, near: u32) -> Option<BondId>
    requires first { u.0 < length mol.now.atoms }
    requires second { v.0 < length mol.now.atoms }
    requires different { u.0 ≢ v.0 }
    ensures { FindsBond mol.now u.0 v.0 result }
{
    if near < mol.bond_count() && mol.bond(BondId(near)).joins(u, v) {
        return Some(BondId(near));
    }
    bond_between(mol, u, v)
}

/// The input's bond for a bond of the output, if it has one of its order.
pub fn counterpart(input: &Mol, map: &[AtomId], bond: Bond, near: u32) -> Option<BondId>
    requires well_formed { IsMolecule input.now }
    requires bond { IsBond (length map.now) bond }
    requires in_range { Holds (length map.now) (InRange input.now map.now) }
    requires new { Holds (length map.now) (IsNew map.now) }
    ensures found { IsSome result ↔ HasBond input.now.bonds (entry map.now bond.first.0) (entry map.now bond.second.0) bond.order }
    ensures within { IfSome result (λ found. found.0 < BOND_LIMIT) }
{
    let found = bond_near(
        input,
        map[bond.first.0 as usize],
        map[bond.second.0 as usize],
        near,
    )?;
    if input.bond(found).order == bond.order {
        Some(found)
    } else {
        None
    }
}

/// The number of the first bond that has no bond of the input of its order. Mostly the bonds of both follow one
/// another in one order, so that each is looked for behind the last one found.
pub fn first_other_bond(input: &Mol, output: &Mol, map: &[AtomId]) -> Option<u32>
    requires well_formed { IsMolecule input.now }
    requires same_length { length map.now ≡ length output.now.atoms }
    requires in_range { Holds (length map.now) (InRange input.now map.now) }
    requires new { Holds (length map.now) (IsNew map.now) }
    ensures { FirstFailure (length output.now.bonds) (SameBond input.now output.now map.now) result }
{
    let mut next = 0u32;
    for k in 0..output.bond_count() {
        match counterpart(input, map, output.bond(BondId(k)), next) {
            Some(found) => next = found.0 + 1,
            None => return Some(k + 1),
        }
    }
    None
}
