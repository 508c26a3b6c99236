//! Molecules as chemists know them, with their double bonds, in rows.
use crate::tests::choices::sites_of;
use crate::tests::molecules::{Hand, Joined, drawn_in_row, dress, molecule};
use crate::tests::planned::is_right;
use crate::tests::sides::specify_in_row;
use crate::tests::skeletons::row_of;
use mc_base::{BondId, NoMemory};
use mc_mol::Mol;
use std::alloc::Global;
use std::process::Abort;
use std::test::Fail;

/// Gives double bonds the sides that the row draws; answers how many.
fn specify_all(alloc: Global, mol: &mut Mol, row: &[u32]) -> Result<u32, NoMemory> {
    let sites = sites_of(alloc, mol)?;
    let mut count: u32 = 0;
    for k in &sites.sides {
        if specify_in_row(mol, BondId(*k), row) {
            count = count.wrapping_add(1);
        }
    }
    Ok(count)
}

const HANDS: [Hand; 3] = [Hand::InBondOrder, Hand::Mirrored, Hand::InBondOrder];

/// The molecule with all its centres is planned and read back in each of these rows; answers how many sides the rows drew.
fn check(
    rt: &(impl Abort + AllocGlobal),
    count: u32,
    bonds: &[Joined],
    steps: &[u32],
) -> Result<u32, NoMemory> {
    let mut drawn: u32 = 0;
    for step in steps {
        let row = row_of(rt.alloc(), count, *step)?;
        let mut mol = molecule(rt.alloc(), count, bonds)?;
        dress(rt.alloc(), &mut mol, &HANDS)?;
        drawn = drawn.wrapping_add(specify_all(rt.alloc(), &mut mol, &row)?);
        let drawing = drawn_in_row(rt.alloc(), &row)?;
        assert_eq!(rt; is_right(rt.alloc(), &mol, &drawing)?, Some(true));
    }
    Ok(drawn)
}

/// Cholesterol: its rings, with the double bond in the second one, and the chains at them.
const CHOLESTEROL: [Joined; 31] = [
    (0, 1, 1),
    (1, 2, 1),
    (2, 3, 1),
    (3, 4, 1),
    (4, 5, 1),
    (5, 0, 1),
    (4, 6, 2),
    (6, 7, 1),
    (7, 8, 1),
    (8, 9, 1),
    (9, 5, 1),
    (8, 10, 1),
    (10, 11, 1),
    (11, 12, 1),
    (12, 13, 1),
    (13, 9, 1),
    (12, 14, 1),
    (14, 15, 1),
    (15, 16, 1),
    (16, 11, 1),
    (5, 17, 1),
    (12, 18, 1),
    (2, 19, 1),
    (14, 20, 1),
    (20, 21, 1),
    (20, 22, 1),
    (22, 23, 1),
    (23, 24, 1),
    (24, 25, 1),
    (25, 26, 1),
    (25, 27, 1),
];

#[test]
fn steroid(rt: HostRuntime) -> Result<(), Fail> {
    assert_eq!(rt; check(&rt, 28, &CHOLESTEROL, &[1, 3, 5, 9, 11, 13, 27])?, 0);
    Ok(())
}

const MORPHINE: [Joined; 27] = [
    (0, 1, 1),
    (1, 2, 1),
    (2, 3, 1),
    (3, 4, 1),
    (4, 5, 1),
    (5, 6, 2),
    (6, 7, 1),
    (7, 8, 1),
    (8, 9, 1),
    (9, 10, 2),
    (10, 11, 1),
    (11, 12, 2),
    (12, 13, 1),
    (13, 14, 2),
    (14, 9, 1),
    (14, 15, 1),
    (15, 8, 1),
    (15, 3, 1),
    (3, 16, 1),
    (16, 1, 1),
    (15, 17, 1),
    (17, 18, 1),
    (18, 1, 1),
    (13, 19, 1),
    (7, 19, 1),
    (12, 20, 1),
    (7, 4, 1),
];

#[test]
fn morphine(rt: HostRuntime) -> Result<(), Fail> {
    assert_eq!(rt; check(&rt, 21, &MORPHINE, &[1, 2, 4, 5, 8, 10, 20])?, 0);
    Ok(())
}

#[test]
fn crown_with_double_bonds_outside(rt: HostRuntime) -> Result<(), Fail> {
    // a ring of 18 atoms, and at each third one a chain with a double bond
    let mut bonds = Vec::new(rt.alloc());
    for a in 0..18u32 {
        bonds.push((a, a.wrapping_add(1) % 18, 1))?;
    }
    for k in 0..6u32 {
        let first = k.wrapping_mul(3).wrapping_add(18);
        bonds.push((k.wrapping_mul(3), first, 1))?;
        bonds.push((first, first.wrapping_add(1), 2))?;
        bonds.push((first.wrapping_add(1), first.wrapping_add(2), 1))?;
    }
    assert_eq!(rt; check(&rt, 36, &bonds, &[1, 5, 7, 11, 13, 35])?, 36);
    Ok(())
}

#[test]
fn chain_of_double_bonds(rt: HostRuntime) -> Result<(), Fail> {
    // each second bond is double, but for the last ones
    let mut bonds = Vec::new(rt.alloc());
    for a in 0..102u32 {
        let order = if a % 2 == 1 && a < 101 { 2 } else { 1 };
        bonds.push((a, a.wrapping_add(1), order))?;
    }
    assert_eq!(rt; check(&rt, 103, &bonds, &[1, 2, 5, 51, 102])?, 250);
    Ok(())
}
