//! Molecules in which many centres share their bonds.
use crate::tests::molecules::{Hand, Joined, drawn, drawn_in_row, dress, molecule};
use crate::tests::planned::is_right;
use mc_base::NoMemory;
use mc_mol::Drawing;
use std::alloc::Global;
use std::process::Abort;
use std::test::Fail;

/// Atom a stands at place a * step of the row, round and round.
pub fn row_of(alloc: Global, count: u32, step: u32) -> Result<Vec<u32>, NoMemory> {
    let mut row = Vec::new(alloc);
    for a in 0..count {
        row.push(a.wrapping_mul(step) % count.max(1))?;
    }
    Ok(row)
}

fn reads_dressed(
    alloc: Global,
    count: u32,
    bonds: &[Joined],
    hands: &[Hand],
    drawing: &Drawing,
) -> Result<Option<bool>, NoMemory> {
    let mut mol = molecule(alloc, count, bonds)?;
    dress(alloc, &mut mol, hands)?;
    is_right(alloc, &mol, drawing)
}

const ALL: [Hand; 1] = [Hand::InBondOrder];

const MIRRORED: [Hand; 1] = [Hand::Mirrored];

const IN_TURN: [Hand; 2] = [Hand::Mirrored, Hand::InBondOrder];

const SOME: [Hand; 5] = [
    Hand::InBondOrder,
    Hand::None,
    Hand::Mirrored,
    Hand::Mirrored,
    Hand::None,
];

/// The drawn molecule is planned and read back, with centres of one hand, of the other, of both in turn, and with some left out.
fn check_drawn(
    rt: &(impl Abort + AllocGlobal),
    count: u32,
    bonds: &[Joined],
    drawing: &Drawing,
) -> Result<(), NoMemory> {
    assert_eq!(rt;
        reads_dressed(rt.alloc(), count, bonds, &ALL, drawing)?,
        Some(true)
    );
    assert_eq!(rt;
        reads_dressed(rt.alloc(), count, bonds, &MIRRORED, drawing)?,
        Some(true)
    );
    assert_eq!(rt;
        reads_dressed(rt.alloc(), count, bonds, &IN_TURN, drawing)?,
        Some(true)
    );
    assert_eq!(rt;
        reads_dressed(rt.alloc(), count, bonds, &SOME, drawing)?,
        Some(true)
    );
    Ok(())
}

/// The same with the atoms in a row by each of these steps.
fn check(
    rt: &(impl Abort + AllocGlobal),
    count: u32,
    bonds: &[Joined],
    steps: &[u32],
) -> Result<(), NoMemory> {
    for step in steps {
        let row = row_of(rt.alloc(), count, *step)?;
        let drawing = drawn_in_row(rt.alloc(), &row)?;
        check_drawn(rt, count, bonds, &drawing)?;
    }
    Ok(())
}

/// Bonds from each of these atoms to those that stand so much behind it.
fn join_behind(
    bonds: &mut Vec<Joined>,
    first: u32,
    last: u32,
    behind: &[u32],
) -> Result<(), NoMemory> {
    for u in first..last {
        for more in behind {
            bonds.push((u, u.wrapping_add(*more), 1))?;
        }
    }
    Ok(())
}

#[test]
fn chain_of_333_centres(rt: HostRuntime) -> Result<(), Fail> {
    // each atom of the chain has two neighbours more
    let mut bonds = Vec::new(rt.alloc());
    join_behind(&mut bonds, 0, 332, &[1])?;
    join_behind(&mut bonds, 0, 333, &[333, 666])?;
    check(&rt, 999, &bonds, &[1, 2, 500])?;
    Ok(())
}

#[test]
fn spiro_chain(rt: HostRuntime) -> Result<(), Fail> {
    // rings of four, each sharing one atom with the next
    let mut bonds = Vec::new(rt.alloc());
    for k in 0..30u32 {
        let first = k.wrapping_mul(3);
        let last = first.wrapping_add(3);
        for middle in [first.wrapping_add(1), first.wrapping_add(2)] {
            bonds.push((first, middle, 1))?;
            bonds.push((middle, last, 1))?;
        }
    }
    check(&rt, 91, &bonds, &[1, 2, 5, 10, 45])?;
    Ok(())
}

#[test]
fn spiro_atoms_in_a_ring(rt: HostRuntime) -> Result<(), Fail> {
    // five centres without another neighbour: each has four bonds to others of them
    let bonds = [
        (0, 1, 1),
        (1, 2, 1),
        (2, 3, 1),
        (3, 4, 1),
        (4, 0, 1),
        (0, 2, 1),
        (2, 4, 1),
        (4, 1, 1),
        (1, 3, 1),
        (3, 0, 1),
    ];
    check(&rt, 5, &bonds, &[1, 2, 3, 4])?;
    Ok(())
}

#[test]
fn ring_of_centres(rt: HostRuntime) -> Result<(), Fail> {
    // at each atom of the ring one more, so that of three bonds two may carry the wedge
    let mut bonds = Vec::new(rt.alloc());
    join_behind(&mut bonds, 0, 19, &[1])?;
    bonds.push((19, 0, 1))?;
    join_behind(&mut bonds, 0, 20, &[20])?;
    check(&rt, 40, &bonds, &[1, 3, 7, 9, 11, 13, 17, 19, 21, 39])?;
    Ok(())
}

/// A cube: twelve bonds for eight centres.
const CUBE: [Joined; 12] = [
    (0, 1, 1),
    (1, 2, 1),
    (2, 3, 1),
    (3, 0, 1),
    (4, 5, 1),
    (5, 6, 1),
    (6, 7, 1),
    (7, 4, 1),
    (0, 4, 1),
    (1, 5, 1),
    (2, 6, 1),
    (3, 7, 1),
];

#[test]
fn cube_in_rows(rt: HostRuntime) -> Result<(), Fail> {
    check(&rt, 8, &CUBE, &[1, 3, 5, 7])?;
    Ok(())
}

#[test]
fn cube_by_hand(rt: HostRuntime) -> Result<(), Fail> {
    // a square in a square: round the atoms of the inner one no gap is as wide as half a turn
    let points = [
        (0, 0),
        (90, 0),
        (90, 90),
        (0, 90),
        (30, 30),
        (60, 30),
        (60, 60),
        (30, 60),
    ];
    let drawing = drawn(rt.alloc(), &points)?;
    check_drawn(&rt, 8, &CUBE, &drawing)?;
    Ok(())
}

#[test]
fn dendrimer(rt: HostRuntime) -> Result<(), Fail> {
    // each atom but the last ones has two more behind it, and is a centre
    let mut bonds = Vec::new(rt.alloc());
    for v in 1..511u32 {
        bonds.push((v.wrapping_sub(1) / 2, v, 1))?;
    }
    check(&rt, 511, &bonds, &[1, 2, 100])?;
    Ok(())
}

/// S in C[S@](=O)CC
const SULFOXIDE: [Joined; 4] = [(0, 1, 1), (1, 2, 2), (1, 3, 1), (3, 4, 1)];

#[test]
fn sulfoxide_in_rows(rt: HostRuntime) -> Result<(), Fail> {
    // only where the oxygen stands between the carbons both single bonds may carry the wedge
    for (row, wanted) in [
        ([0, 1, 2, 3, 4], None),
        ([2, 1, 3, 0, 4], Some(true)),
        ([1, 0, 2, 3, 4], Some(true)),
        ([1, 4, 2, 3, 0], Some(true)),
        ([4, 2, 0, 1, 3], Some(true)),
    ] {
        let drawing = drawn_in_row(rt.alloc(), &row)?;
        assert_eq!(rt;
            reads_dressed(rt.alloc(), 5, &SULFOXIDE, &ALL, &drawing)?,
            wanted
        );
        assert_eq!(rt;
            reads_dressed(rt.alloc(), 5, &SULFOXIDE, &MIRRORED, &drawing)?,
            wanted
        );
    }
    Ok(())
}

#[test]
fn sulfoxide_by_hand(rt: HostRuntime) -> Result<(), Fail> {
    // three neighbours all round the sulphur
    let points = [(0, 0), (10, 5), (10, 20), (20, 0), (30, 5)];
    let drawing = drawn(rt.alloc(), &points)?;
    check_drawn(&rt, 5, &SULFOXIDE, &drawing)?;
    Ok(())
}
