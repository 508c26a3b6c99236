//! The sentences of the block order, tested one by one.
ghost use Rattle.std.specs.Prelude.{◌<◌, length};
ghost use Rattle.mc_rings.specs.Rings.{AreRingsOf};

use crate::Rings;
use mc_base::{AtomId, BondId, NoMemory};
use mc_mol::Mol;
use std::alloc::Global;
use std::process::Abort;

/// No atom, and no block.
const NOTHING: u32 = 1000;

pub fn block(mol: &Mol, rings: &Rings, k: u32) -> u32
    requires { AreRingsOf mol.now rings.now }
{
    if k < mol.bond_count() {
        rings.block(BondId(k))
    } else {
        NOTHING
    }
}

pub fn above(mol: &Mol, rings: &Rings, a: u32) -> u32
    requires { AreRingsOf mol.now rings.now }
{
    if a < mol.atom_count() {
        rings.block_above(AtomId(a)).unwrap_or(NOTHING)
    } else {
        NOTHING
    }
}

fn first(rings: &Rings, block: u32) -> u32 {
    if block < rings.block_count() {
        rings.first_of(block).0
    } else {
        NOTHING
    }
}

pub fn ends(mol: &Mol, k: u32) -> (u32, u32) {
    if k < mol.bond_count() {
        let bond = mol.bond(BondId(k));
        (bond.first.0, bond.second.0)
    } else {
        (NOTHING, NOTHING)
    }
}

fn is_end(mol: &Mol, k: u32, a: u32) -> bool {
    ends(mol, k).0 == a || ends(mol, k).1 == a
}

/// Whether the atom is an end of one of the block's bonds.
fn is_end_of_block(mol: &Mol, rings: &Rings, number: u32, a: u32) -> bool
    requires { AreRingsOf mol.now rings.now }
{
    for k in 0..mol.bond_count() {
        if block(mol, rings, k) == number && is_end(mol, k, a) {
            return true;
        }
    }
    false
}

fn at(order: &[AtomId], i: usize) -> u32 {
    match order.get(i) {
        Some(a) => a.0,
        None => NOTHING,
    }
}

fn place(order: &[AtomId], a: u32) -> usize {
    for i in 0..order.len() {
        if at(order, i) == a {
            return i;
        }
    }
    order.len()
}

fn part(parts: &[u32], a: u32) -> u32 {
    match parts.get(a as usize) {
        Some(part) => *part,
        None => NOTHING,
    }
}

/// For each atom the least atom of its connected part.
fn parts_of(alloc: Global, mol: &Mol) -> Result<Vec<u32>, NoMemory> {
    let mut parts = Vec::new(alloc);
    for a in 0..mol.atom_count() {
        parts.push(a)?;
    }
    for _ in 0..mol.atom_count() {
        for k in 0..mol.bond_count() {
            let (u, v) = ends(mol, k);
            let least = part(&parts, u).min(part(&parts, v));
            lower(&mut parts, u, least);
            lower(&mut parts, v, least);
        }
    }
    Ok(parts)
}

fn lower(parts: &mut Vec<u32>, a: u32, least: u32) {
    if (a as usize) < parts.len() {
        parts[a as usize] = least;
    }
}

/// Whether no atom of its part stands before it.
fn is_first_of_part(parts: &[u32], order: &[AtomId], a: u32) -> bool {
    for i in 0..place(order, a) {
        if part(parts, at(order, i)) == part(parts, a) {
            return false;
        }
    }
    true
}

pub fn check_order(
    rt: &(impl Abort + AllocGlobal),
    mol: &Mol,
    rings: &Rings,
) -> Result<(), NoMemory>
    requires { AreRingsOf mol.now rings.now }
{
    let parts = parts_of(rt.alloc(), mol)?;
    let order = rings.order();
    assert_eq!(rt; order.len(), mol.atom_count() as usize);
    for a in 0..mol.atom_count() {
        assert!(rt; place(order, a) < order.len());
        let number = above(mol, rings, a);
        assert_eq!(rt; number == NOTHING, is_first_of_part(&parts, order, a));
        if number != NOTHING {
            assert!(rt; number < rings.block_count());
            assert!(rt; is_end_of_block(mol, rings, number, a));
            assert!(rt; place(order, first(rings, number)) < place(order, a));
        }
    }
    check_blocks(rt, mol, rings);
    check_together(rt, mol, rings);
    Ok(())
}

/// Each block has a first atom, and each end of its bonds is that atom or has the block above it.
fn check_blocks(rt: &impl Abort, mol: &Mol, rings: &Rings)
    requires { AreRingsOf mol.now rings.now }
{
    for number in 0..rings.block_count() {
        assert!(rt; is_end_of_block(mol, rings, number, first(rings, number)));
    }
    for k in 0..mol.bond_count() {
        let number = block(mol, rings, k);
        let (u, v) = ends(mol, k);
        assert!(rt; number < rings.block_count());
        assert!(rt; first(rings, number) == u || above(mol, rings, u) == number);
        assert!(rt; first(rings, number) == v || above(mol, rings, v) == number);
    }
}

/// The atoms that have the same block above them follow one another.
fn check_together(rt: &impl Abort, mol: &Mol, rings: &Rings)
    requires { AreRingsOf mol.now rings.now }
{
    let order = rings.order();
    for i in 0..order.len() {
        for j in 0..i {
            let number = above(mol, rings, at(order, j));
            if number != NOTHING && number == above(mol, rings, at(order, i)) {
                for k in j..i {
                    assert_eq!(rt; above(mol, rings, at(order, k)), number);
                }
            }
        }
    }
}
