//! Molecules as chemists know them, with all their centres and sides.
use crate::tests::read_back::reads_back;
use crate::tests::stereo::{carbons, dress_all, join, placed};
use mc_base::NoMemory;
use mc_mol::Mol;
use mc_rings::Rings;
use std::process::Abort;
use std::test::Fail;

/// Two atoms and the order of their bond.
type Joined = (u32, u32, u8);

/// A chain through these atoms, by single bonds.
fn chain(bonds: &mut Vec<Joined>, first: u32, last: u32) -> Result<(), NoMemory> {
    for u in first..last {
        bonds.push((u, u.wrapping_add(1), 1))?;
    }
    Ok(())
}

/// A ring of these atoms, by single bonds.
fn ring(bonds: &mut Vec<Joined>, first: u32, last: u32) -> Result<(), NoMemory> {
    chain(bonds, first, last)?;
    bonds.push((last, first, 1))?;
    Ok(())
}

fn joined(bonds: &mut Vec<Joined>, more: &[Joined]) -> Result<(), NoMemory> {
    for bond in more {
        bonds.push(*bond)?;
    }
    Ok(())
}

/// The molecule with these bonds is drawn and reads back, whatever part of its stereo is specified.
fn check(rt: &(impl Abort + AllocGlobal), count: u32, bonds: &[Joined]) -> Result<(), NoMemory> {
    for pattern in 0..4u32 {
        let mut mol = carbons(rt.alloc(), count)?;
        for (u, v, order) in bonds {
            assert!(rt; join(&mut mol, *u, *v, *order));
        }
        dress_all(
            rt.alloc(),
            &mut mol,
            u32::MAX.wrapping_sub(pattern.wrapping_mul(0x1357_9BDF)),
        )?;
        check_drawn(rt, &mol)?;
    }
    Ok(())
}

fn check_drawn(rt: &(impl Abort + AllocGlobal), mol: &Mol) -> Result<(), NoMemory> {
    let rings = Rings::of(rt.alloc(), mol)?;
    match placed(rt.alloc(), mol, &rings)? {
        Some(drawing) => assert!(rt; reads_back(mol, &drawing)),
        None => assert!(rt; false),
    }
    Ok(())
}

#[test]
fn steroid(rt: HostRuntime) -> Result<(), Fail> {
    // cholesterol's rings, methyl groups and side chain
    let mut bonds = Vec::new(rt.alloc());
    ring(&mut bonds, 0, 5)?;
    joined(
        &mut bonds,
        &[
            (4, 6, 1),
            (6, 7, 1),
            (7, 8, 1),
            (8, 9, 1),
            (9, 5, 1),
            (8, 10, 1),
            (10, 11, 1),
            (11, 12, 1),
            (12, 13, 1),
            (13, 9, 1),
        ],
    )?;
    joined(
        &mut bonds,
        &[
            (12, 14, 1),
            (14, 15, 1),
            (15, 16, 1),
            (16, 11, 1),
            (5, 17, 1),
            (12, 18, 1),
            (2, 19, 1),
            (14, 20, 1),
            (20, 21, 1),
            (20, 22, 1),
        ],
    )?;
    chain(&mut bonds, 22, 26)?;
    bonds.push((25, 27, 1))?;
    check(&rt, 28, &bonds)?;
    Ok(())
}

#[test]
fn morphine(rt: HostRuntime) -> Result<(), Fail> {
    let mut bonds = Vec::new(rt.alloc());
    joined(
        &mut bonds,
        &[
            (0, 1, 1),
            (1, 2, 1),
            (2, 3, 1),
            (3, 4, 1),
            (4, 5, 1),
            (5, 6, 2),
            (6, 7, 1),
            (7, 8, 1),
            (8, 9, 1),
            (9, 10, 2),
        ],
    )?;
    joined(
        &mut bonds,
        &[
            (10, 11, 1),
            (11, 12, 2),
            (12, 13, 1),
            (13, 14, 2),
            (14, 9, 1),
            (14, 15, 1),
            (15, 8, 1),
            (15, 3, 1),
            (3, 16, 1),
            (16, 1, 1),
        ],
    )?;
    joined(
        &mut bonds,
        &[
            (15, 17, 1),
            (17, 18, 1),
            (18, 1, 1),
            (13, 19, 1),
            (7, 19, 1),
            (12, 20, 1),
            (7, 4, 1),
        ],
    )?;
    check(&rt, 21, &bonds)?;
    Ok(())
}

#[test]
fn cubane(rt: HostRuntime) -> Result<(), Fail> {
    let mut bonds = Vec::new(rt.alloc());
    ring(&mut bonds, 0, 3)?;
    ring(&mut bonds, 4, 7)?;
    joined(
        &mut bonds,
        &[
            (0, 4, 1),
            (1, 5, 1),
            (2, 6, 1),
            (3, 7, 1),
            (0, 8, 1),
            (1, 9, 1),
            (5, 10, 1),
        ],
    )?;
    check(&rt, 11, &bonds)?;
    Ok(())
}

#[test]
fn crown_with_double_bonds_outside(rt: HostRuntime) -> Result<(), Fail> {
    // a ring of 18 atoms, and at each third one a chain with a double bond that is specified
    let mut bonds = Vec::new(rt.alloc());
    ring(&mut bonds, 0, 17)?;
    for k in 0..6u32 {
        let first = k.wrapping_mul(3).wrapping_add(18);
        joined(
            &mut bonds,
            &[
                (k.wrapping_mul(3), first, 1),
                (first, first.wrapping_add(1), 2),
                (first.wrapping_add(1), first.wrapping_add(2), 1),
            ],
        )?;
    }
    check(&rt, 36, &bonds)?;
    Ok(())
}

#[test]
fn spiro_chain(rt: HostRuntime) -> Result<(), Fail> {
    // rings of four, each sharing one atom with the next
    let mut bonds = Vec::new(rt.alloc());
    for k in 0..30u32 {
        let first = k.wrapping_mul(3);
        joined(
            &mut bonds,
            &[
                (first, first.wrapping_add(1), 1),
                (first.wrapping_add(1), first.wrapping_add(3), 1),
            ],
        )?;
        joined(
            &mut bonds,
            &[
                (first, first.wrapping_add(2), 1),
                (first.wrapping_add(2), first.wrapping_add(3), 1),
            ],
        )?;
    }
    check(&rt, 91, &bonds)?;
    Ok(())
}

#[test]
fn dendrimer(rt: HostRuntime) -> Result<(), Fail> {
    // each atom but the last ones has two more behind it, and is a centre
    let mut bonds = Vec::new(rt.alloc());
    for v in 1..511u32 {
        bonds.push((v.wrapping_sub(1) / 2, v, 1))?;
    }
    check(&rt, 511, &bonds)?;
    Ok(())
}

#[test]
fn chain_of_333_centres(rt: HostRuntime) -> Result<(), Fail> {
    // each atom of the chain has two neighbours more
    let mut bonds = Vec::new(rt.alloc());
    chain(&mut bonds, 0, 332)?;
    for a in 0..333u32 {
        joined(
            &mut bonds,
            &[(a, a.wrapping_add(333), 1), (a, a.wrapping_add(666), 1)],
        )?;
    }
    check(&rt, 999, &bonds)?;
    Ok(())
}

#[test]
fn chain_of_double_bonds(rt: HostRuntime) -> Result<(), Fail> {
    // a polyene of 100 double bonds that are all specified
    let mut bonds = Vec::new(rt.alloc());
    for u in 0..201u32 {
        let order = if u % 2 == 1 { 2 } else { 1 };
        bonds.push((u, u.wrapping_add(1), order))?;
    }
    check(&rt, 202, &bonds)?;
    Ok(())
}

#[test]
fn sulfoxide(rt: HostRuntime) -> Result<(), Fail> {
    // a centre with a double bond: S in C[S@](=O)CC
    let mut bonds = Vec::new(rt.alloc());
    joined(&mut bonds, &[(0, 1, 1), (1, 2, 2), (1, 3, 1), (3, 4, 1)])?;
    check(&rt, 5, &bonds)?;
    Ok(())
}
