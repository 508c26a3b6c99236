//! Molecules at the limits of atoms, bonds and rings: a search that takes too long doesn't end here.
use crate::Rings;
use crate::tests::{check_sizes, molecule};
use mc_base::{BondId, NoMemory};
use mc_mol::Mol;
use std::process::Abort;
use std::test::Fail;

type Pair = (u32, u32);

/// Joins each atom from the first to the last but one with the next.
fn add_chain(pairs: &mut Vec<Pair>, first: u32, last: u32) -> Result<(), NoMemory> {
    for u in first..last {
        pairs.push((u, u.wrapping_add(1)))?;
    }
    Ok(())
}

/// The same, and the last with the first.
fn add_ring(pairs: &mut Vec<Pair>, first: u32, last: u32) -> Result<(), NoMemory> {
    add_chain(pairs, first, last)?;
    pairs.push((last, first))?;
    Ok(())
}

/// Each bond has this ring size, 0 where it has none.
fn check_each_size(rt: &(impl Abort + AllocGlobal), mol: &Mol, size: u32) -> Result<(), NoMemory> {
    let rings = Rings::of(rt.alloc(), mol)?;
    for k in 0..mol.bond_count() {
        assert_eq!(rt; rings.ring_size(BondId(k)).unwrap_or(0), size);
    }
    Ok(())
}

fn check_counts(
    rt: &(impl Abort + AllocGlobal),
    mol: &Mol,
    blocks: u32,
    independent: u32,
) -> Result<(), NoMemory> {
    let rings = Rings::of(rt.alloc(), mol)?;
    assert_eq!(rt; rings.block_count(), blocks);
    assert_eq!(rt; rings.independent(), independent);
    assert_eq!(rt; rings.order().len(), mol.atom_count() as usize);
    Ok(())
}

#[test]
fn a_chain_of_999_atoms(rt: HostRuntime) -> Result<(), Fail> {
    let mut pairs = Vec::new(rt.alloc());
    add_chain(&mut pairs, 0, 998)?;
    let chain = molecule(&rt, 999, &pairs)?;
    check_each_size(&rt, &chain, 0)?;
    check_counts(&rt, &chain, 998, 0)?;
    Ok(())
}

#[test]
fn one_ring_of_999_atoms(rt: HostRuntime) -> Result<(), Fail> {
    let mut pairs = Vec::new(rt.alloc());
    add_ring(&mut pairs, 0, 998)?;
    let ring = molecule(&rt, 999, &pairs)?;
    check_each_size(&rt, &ring, 999)?;
    check_counts(&rt, &ring, 1, 1)?;
    Ok(())
}

// ninety rings of ten atoms and nine of eleven: 999 atoms and bonds
#[test]
fn ninety_nine_rings_apart(rt: HostRuntime) -> Result<(), Fail> {
    let mut pairs = Vec::new(rt.alloc());
    let mut sizes = Vec::new(rt.alloc());
    for k in 0..90u32 {
        add_ring(&mut pairs, k * 10, k * 10 + 9)?;
    }
    for k in 0..9u32 {
        add_ring(&mut pairs, 900 + k * 11, 910 + k * 11)?;
    }
    for k in 0..999 {
        sizes.push(if k < 900 { 10 } else { 11 })?;
    }
    let rings = molecule(&rt, 999, &pairs)?;
    check_sizes(&rt, &rings, &sizes)?;
    check_counts(&rt, &rings, 99, 99)?;
    Ok(())
}

// a chain of 901 atoms in which each ninth atom is joined with the eighth behind it: 999 bonds, of which 99 rings of nine
// leave out 108
#[test]
fn ninety_nine_rings_in_a_chain(rt: HostRuntime) -> Result<(), Fail> {
    let mut pairs = Vec::new(rt.alloc());
    let mut sizes = Vec::new(rt.alloc());
    add_chain(&mut pairs, 0, 900)?;
    for k in 0..900 {
        let in_ring = k < 891 && k % 9 < 8;
        sizes.push(if in_ring { 9 } else { 0 })?;
    }
    for k in 0..99u32 {
        pairs.push((k * 9, k * 9 + 8))?;
        sizes.push(9)?;
    }
    let rings = molecule(&rt, 901, &pairs)?;
    check_sizes(&rt, &rings, &sizes)?;
    check_counts(&rt, &rings, 207, 99)?;
    Ok(())
}
