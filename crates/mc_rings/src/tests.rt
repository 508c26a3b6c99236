use crate::order_checks::{block, check_order};
use crate::{Rings, may_be_centre};
use mc_base::{AtomId, BondId};
use mc_elements::Element;
use mc_mol::{AddAtom, Atom, Mol};
use std::alloc::Global;
use std::process::Abort;
use std::test::Fail;

fn carbon(hydrogens: u8) -> Atom {
    Atom {
        element: Element::C,
        isotope: 0,
        charge: 0,
        hydrogens,
        class: 0,
    }
}

fn atoms(alloc: Global, count: u32) -> Result<Mol, AddAtom> {
    let mut mol = Mol::new(alloc);
    for _ in 0..count {
        mol.add_atom(carbon(0))?;
    }
    Ok(mol)
}

/// Adds a bond, and says whether it is there now.
fn add(mol: &mut Mol, u: u32, v: u32, order: u8) -> bool {
    if u >= mol.atom_count() || v >= mol.atom_count() || order < 1 || order > 4 {
        return false;
    }
    if let Some(_) = mol.centre(AtomId(u)) {
        return false;
    }
    if let Some(_) = mol.centre(AtomId(v)) {
        return false;
    }
    mol.add_bond(AtomId(u), AtomId(v), order).is_ok()
}

/// The molecule with these single bonds.
pub fn molecule(
    rt: &(impl Abort + AllocGlobal),
    count: u32,
    pairs: &[(u32, u32)],
) -> Result<Mol, AddAtom> {
    let mut mol = atoms(rt.alloc(), count)?;
    for (u, v) in pairs {
        assert!(rt; add(&mut mol, *u, *v, 1));
    }
    Ok(mol)
}

/// The ring size of each bond, 0 where there is none, is as listed.
pub fn check_sizes(
    rt: &(impl Abort + AllocGlobal),
    mol: &Mol,
    sizes: &[u32],
) -> Result<(), mc_base::NoMemory> {
    let rings = Rings::of(rt.alloc(), mol)?;
    assert_eq!(rt; mol.bond_count() as usize, sizes.len());
    for (k, size) in sizes.iter().enumerate() {
        assert_eq!(rt; rings.ring_size(BondId(k as u32)).unwrap_or(0), *size);
        assert_eq!(rt; rings.is_bridge(BondId(k as u32)), *size == 0);
    }
    Ok(())
}

fn check_independent(
    rt: &(impl Abort + AllocGlobal),
    mol: &Mol,
    count: u32,
) -> Result<(), mc_base::NoMemory> {
    let rings = Rings::of(rt.alloc(), mol)?;
    assert_eq!(rt; rings.independent(), count);
    Ok(())
}

/// The molecule with these single bonds has these ring sizes, and so many independent rings.
fn has_sizes(
    rt: &(impl Abort + AllocGlobal),
    count: u32,
    pairs: &[(u32, u32)],
    sizes: &[u32],
    independent: u32,
) -> Result<(), Fail> {
    let mol = molecule(rt, count, pairs)?;
    check_sizes(rt, &mol, sizes)?;
    check_independent(rt, &mol, independent)?;
    Ok(())
}

#[test]
fn ring_sizes(rt: HostRuntime) -> Result<(), Fail> {
    // two rings of three, joined by a bond
    let joined = [(0, 1), (1, 2), (0, 2), (2, 3), (3, 4), (4, 5), (3, 5)];
    has_sizes(&rt, 6, &joined, &[3, 3, 3, 0, 3, 3, 3], 2)?;
    // two rings of five that share a bond
    let shared = [
        (0, 1),
        (1, 2),
        (2, 3),
        (3, 4),
        (0, 4),
        (4, 5),
        (5, 6),
        (6, 7),
        (3, 7),
    ];
    has_sizes(&rt, 8, &shared, &[5, 5, 5, 5, 5, 5, 5, 5, 5], 2)?;
    // a ring of six with a bond across
    let across = [(0, 1), (1, 2), (2, 3), (3, 4), (4, 5), (0, 5), (0, 3)];
    has_sizes(&rt, 6, &across, &[4, 4, 4, 4, 4, 4, 4], 2)?;
    // a cube
    let cube = [
        (0, 1),
        (1, 3),
        (3, 2),
        (2, 0),
        (4, 5),
        (5, 7),
        (7, 6),
        (6, 4),
        (0, 4),
        (1, 5),
        (2, 6),
        (3, 7),
    ];
    has_sizes(&rt, 8, &cube, &[4, 4, 4, 4, 4, 4, 4, 4, 4, 4, 4, 4], 5)?;
    // three parts, one of them a single atom
    has_sizes(&rt, 6, &[(0, 1), (2, 3), (3, 4), (4, 2)], &[0, 3, 3, 3], 1)?;
    has_sizes(&rt, 0, &[], &[], 0)?;
    Ok(())
}

/// Bonds have equal block numbers exactly where the listed ones are equal, and the block order is one.
fn check_blocks(
    rt: &(impl Abort + AllocGlobal),
    mol: &Mol,
    count: u32,
    numbers: &[u32],
) -> Result<(), mc_base::NoMemory> {
    let rings = Rings::of(rt.alloc(), mol)?;
    assert_eq!(rt; mol.bond_count() as usize, numbers.len());
    assert_eq!(rt; rings.block_count(), count);
    for (i, number) in numbers.iter().enumerate() {
        for (j, other) in numbers.iter().enumerate() {
            let same = block(mol, &rings, i as u32) == block(mol, &rings, j as u32);
            assert_eq!(rt; same, *number == *other);
        }
    }
    check_order(rt, mol, &rings)
}

/// The molecule with these single bonds has so many blocks, with these numbers but for their names.
fn has_blocks(
    rt: &(impl Abort + AllocGlobal),
    count: u32,
    pairs: &[(u32, u32)],
    blocks: u32,
    numbers: &[u32],
) -> Result<(), Fail> {
    let mol = molecule(rt, count, pairs)?;
    check_blocks(rt, &mol, blocks, numbers)?;
    Ok(())
}

#[test]
fn blocks(rt: HostRuntime) -> Result<(), Fail> {
    // two rings of three, joined by a bond: C1CC1C1CC1
    let joined = [(0, 1), (1, 2), (0, 2), (2, 3), (3, 4), (4, 5), (3, 5)];
    has_blocks(&rt, 6, &joined, 3, &[0, 0, 0, 1, 2, 2, 2])?;
    // two rings that share a bond
    let fused = [(0, 1), (1, 2), (2, 3), (3, 0), (0, 2)];
    has_blocks(&rt, 4, &fused, 1, &[0, 0, 0, 0, 0])?;
    // two rings that share an atom
    let spiro = [(0, 1), (1, 2), (2, 0), (2, 3), (3, 4), (4, 2)];
    has_blocks(&rt, 5, &spiro, 2, &[0, 0, 0, 1, 1, 1])?;
    // a ring of three rings
    let ring_of_rings = [
        (0, 1),
        (1, 2),
        (2, 0),
        (2, 3),
        (3, 4),
        (4, 2),
        (4, 5),
        (5, 0),
        (0, 4),
    ];
    has_blocks(&rt, 6, &ring_of_rings, 1, &[0, 0, 0, 0, 0, 0, 0, 0, 0])?;
    // three parts, one of them a single atom
    has_blocks(&rt, 6, &[(0, 1), (2, 3), (3, 4), (4, 2)], 2, &[0, 1, 1, 1])?;
    // a triangle with a tail at each atom
    let tails = [(3, 0), (0, 1), (4, 1), (1, 2), (5, 2), (2, 0)];
    has_blocks(&rt, 6, &tails, 4, &[1, 0, 2, 0, 3, 0])?;
    has_sizes(&rt, 6, &tails, &[0, 3, 0, 3, 0, 3], 1)?;
    has_blocks(&rt, 0, &[], 0, &[])?;
    Ok(())
}

#[test]
fn centres(rt: HostRuntime) -> Result<(), Fail> {
    let star = molecule(&rt, 5, &[(0, 1), (0, 2), (0, 3), (0, 4)])?;
    let rings = Rings::of(rt.alloc(), &star)?;
    assert_eq!(rt; star.atom_count(), 5);
    assert!(rt; may_be_centre(&star, &rings, AtomId(0)));
    assert!(rt; !may_be_centre(&star, &rings, AtomId(1)));
    Ok(())
}
