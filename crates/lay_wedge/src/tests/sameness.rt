//! The table of a drawn and planned molecule is read as the same molecule.
use crate::tests::tables::table_of;
use ct_geometry::{CtRead, Wedge, read_ct};
use mc_base::{AtomId, BondId, NoMemory, Stop};
use mc_mol::{Bond, Drawing, Mol, Sides, is_even_permutation};
use std::alloc::Global;

fn same_atom(mol: &Mol, other: &Mol, a: AtomId) -> bool {
    if a.0 >= mol.atom_count() || a.0 >= other.atom_count() || mol.atom(a) != other.atom(a) {
        return false;
    }
    match (mol.centre(a), other.centre(a)) {
        (None, None) => true,
        (Some(places), Some(list)) => is_even_permutation(&places, &list),
        _ => false,
    }
}

/// The neighbours named at the ends of a bond, first the one at this end.
fn named_from(bond: Bond, sides: Sides, end: AtomId) -> (AtomId, AtomId) {
    if bond.first.0 == end.0 {
        (sides.first, sides.second)
    } else {
        (sides.second, sides.first)
    }
}

/// Neighbours of one end stand on different sides, so naming the other one turns what is said round.
fn same_sides(bond: Bond, sides: Sides, other: Bond, read: Sides) -> bool {
    let (p, q) = named_from(bond, sides, bond.first);
    let (r, s) = named_from(other, read, bond.first);
    let turned = (p.0 == r.0) != (q.0 == s.0);
    (sides.together == read.together) != turned
}

fn same_bond(mol: &Mol, other: &Mol, k: BondId) -> bool {
    if k.0 >= mol.bond_count() || k.0 >= other.bond_count() {
        return false;
    }
    let bond = mol.bond(k);
    let written = other.bond(k);
    if !written.joins(bond.first, bond.second) || written.order != bond.order {
        return false;
    }
    match (mol.sides(k), other.sides(k)) {
        (None, None) => true,
        (Some(sides), Some(read)) => same_sides(bond, sides, written, read),
        _ => false,
    }
}

/// The same atoms and bonds, and the same stereo at each.
fn are_same(mol: &Mol, other: &Mol) -> bool {
    if mol.atom_count() != other.atom_count() || mol.bond_count() != other.bond_count() {
        return false;
    }
    for a in 0..mol.atom_count() {
        if !same_atom(mol, other, AtomId(a)) {
            return false;
        }
    }
    for k in 0..mol.bond_count() {
        if !same_bond(mol, other, BondId(k)) {
            return false;
        }
    }
    true
}

/// Whether the table of a drawn and planned molecule is read as this molecule, with no mark that says nothing.
pub fn reads_as_same(
    alloc: Global,
    mol: &Mol,
    drawing: &Drawing,
    wedges: &[Wedge],
) -> Result<bool, NoMemory> {
    let table = table_of(alloc, mol, drawing, wedges)?;
    match read_ct(alloc, &table) {
        Ok(read) => Ok(is_read(mol, drawing, &read) && read.wedges.as_slice() == wedges),
        Err(Stop::NoMemory) => Err(NoMemory),
        Err(Stop::Refused(_)) => Ok(false),
    }
}

fn is_read(mol: &Mol, drawing: &Drawing, read: &CtRead) -> bool {
    read.idle == 0 && read.drawing.as_slice() == drawing.as_slice() && are_same(mol, &read.mol)
}
