//! Drawings that weren't made by placing: what the exact test says of them.
use crate::tests::read_back::reads_back;
use crate::tests::stereo::{carbons, dress_all, join, make_centre, specify};
use crate::tests::thrown::{Dice, thrown};
use ct_geometry::is_drawn;
use mc_base::{AtomId, BondId, NoMemory};
use mc_mol::{Drawing, Mol, Point};
use std::alloc::Global;
use std::test::Fail;

fn drawing(alloc: Global, places: &[(i64, i64)]) -> Result<Drawing, NoMemory> {
    let mut drawing = Drawing::new(alloc);
    for place in places {
        drawing.push(Point {
            x: place.0,
            y: place.1,
        })?;
    }
    Ok(drawing)
}

/// An atom with three neighbours, the first by a double bond: a sulfoxide's centre.
fn centre_of_three(alloc: Global) -> Result<Mol, NoMemory> {
    let mut mol = carbons(alloc, 4)?;
    let _ = join(&mut mol, 0, 1, 2);
    let _ = join(&mut mol, 0, 2, 1);
    let _ = join(&mut mol, 0, 3, 1);
    let _ = make_centre(&mut mol, AtomId(0));
    Ok(mol)
}

#[test]
fn centres_by_hand(rt: HostRuntime) -> Result<(), Fail> {
    let mol = centre_of_three(rt.alloc())?;
    // The middle ray, opposite to a gap of more than half a turn, is the double bond's: both single bonds may carry the wedge.
    let beside_gap = drawing(rt.alloc(), &[(2, 0), (2, 2), (0, 2), (4, 2)])?;
    assert_eq!(rt; is_drawn(&mol, &beside_gap), true);
    // It is a single bond's: one is left.
    let single_middle = drawing(rt.alloc(), &[(2, 0), (0, 2), (2, 2), (4, 2)])?;
    assert_eq!(rt; is_drawn(&mol, &single_middle), false);
    // A gap of exactly half a turn counts.
    let half_turn = drawing(rt.alloc(), &[(2, 0), (0, 0), (2, 2), (4, 0)])?;
    assert_eq!(rt; is_drawn(&mol, &half_turn), false);
    // There is no such gap.
    let round = drawing(rt.alloc(), &[(2, 2), (2, 4), (0, 0), (4, 0)])?;
    assert_eq!(rt; is_drawn(&mol, &round), true);
    Ok(())
}

/// Two atoms at a double bond with a neighbour each, which stand together or not.
fn pair(alloc: Global, together: bool) -> Result<Mol, NoMemory> {
    let mut mol = carbons(alloc, 4)?;
    let _ = join(&mut mol, 0, 1, 1);
    let _ = join(&mut mol, 1, 2, 2);
    let _ = join(&mut mol, 2, 3, 1);
    let _ = specify(&mut mol, BondId(1), together);
    Ok(mol)
}

#[test]
fn sides_by_hand(rt: HostRuntime) -> Result<(), Fail> {
    for (places, same, opposite) in [
        ([(0, 2), (1, 0), (3, 0), (4, 2)], true, false),
        ([(0, 2), (1, 1), (3, 1), (4, 0)], false, true),
        // An end's neighbour on the line of the bond says nothing.
        ([(0, 0), (1, 0), (3, 0), (4, 2)], false, false),
        ([(0, 2), (1, 0), (3, 0), (4, 0)], false, false),
    ] {
        let places = drawing(rt.alloc(), &places)?;
        assert_eq!(rt; is_drawn(&pair(rt.alloc(), true)?, &places), same);
        assert_eq!(rt; is_drawn(&pair(rt.alloc(), false)?, &places), opposite);
    }
    Ok(())
}

/// Points of a small grid, one for each atom.
fn thrown_drawing(alloc: Global, dice: &mut Dice, count: u32) -> Result<Drawing, NoMemory> {
    let mut drawing = Drawing::new(alloc);
    for _ in 0..count {
        let x = dice.roll(6) as i64;
        let y = dice.roll(6) as i64;
        drawing.push(Point { x, y })?;
    }
    Ok(drawing)
}

/// Whether a thrown drawing of a thrown molecule gives what it must, where both ways of reading it agree.
fn answer(alloc: Global, dice: &mut Dice) -> Result<Option<bool>, NoMemory> {
    let mut mol = thrown(alloc, dice)?;
    dress_all(alloc, &mut mol, dice.roll(16_777_216))?;
    let drawing = thrown_drawing(alloc, dice, mol.atom_count())?;
    let answer = is_drawn(&mol, &drawing);
    Ok(if answer == reads_back(&mol, &drawing) {
        Some(answer)
    } else {
        None
    })
}

#[test]
fn thrown_drawings(rt: HostRuntime) -> Result<(), Fail> {
    let mut dice = Dice::new(20_261_202);
    let mut right: u32 = 0;
    for _ in 0..20_000 {
        let answer = answer(rt.alloc(), &mut dice)?;
        assert!(rt; answer.is_some());
        if answer == Some(true) {
            right = right.wrapping_add(1);
        }
    }
    assert!(rt; right > 500);
    assert!(rt; right < 19_500);
    Ok(())
}
