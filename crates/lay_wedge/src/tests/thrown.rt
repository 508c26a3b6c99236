//! Molecules by dice: trees of 2 to 12 atoms, some with rings, with some of their centres and sides, in rows by dice.
use crate::tests::choices::{Sites, sites_of};
use crate::tests::molecules::{Hand, carbons, drawn_in_row, join, make_centre_at};
use crate::tests::planned::is_right;
use crate::tests::sides::specify_in_row;
use mc_base::{AtomId, BondId, NoMemory};
use mc_mol::Mol;
use std::alloc::Global;
use std::test::Fail;

#[derive(Drop)]
struct Dice {
    state: u32,
}

impl Dice {
    /// A number below the number of sides.
    fn roll(&mut self, sides: u32) -> u32 {
        self.state = self
            .state
            .wrapping_mul(1_664_525)
            .wrapping_add(1_013_904_223);
        (self.state / 256) % sides.max(1)
    }
}

/// A tree, each atom joined to the one before it or to any earlier one, and up to three bonds that close rings.
fn thrown(alloc: Global, dice: &mut Dice) -> Result<Mol, NoMemory> {
    let count = dice.roll(11).wrapping_add(2);
    let mut mol = carbons(alloc, count)?;
    for v in 1..count {
        let near = dice.roll(2) == 0;
        let back = if near {
            v.wrapping_sub(1)
        } else {
            dice.roll(v)
        };
        let order = if dice.roll(4) == 0 { 2 } else { 1 };
        let _ = join(&mut mol, back, v, order);
    }
    for _ in 0..dice.roll(4) {
        let u = dice.roll(count);
        let v = dice.roll(count);
        let _ = join(&mut mol, u, v, 1);
    }
    Ok(mol)
}

/// Each atom is put in at a place by dice.
fn thrown_row(alloc: Global, dice: &mut Dice, count: u32) -> Result<Vec<u32>, NoMemory> {
    let mut row = Vec::new(alloc);
    for a in 0..count {
        let places = row.len() + 1;
        row.insert(dice.roll(count) as usize % places, a)?;
    }
    Ok(row)
}

/// Some centres of either hand, and some double bonds with the sides that the row draws.
fn dress(mol: &mut Mol, sites: &Sites, row: &[u32], dice: &mut Dice) {
    for a in &sites.centres {
        let hand = match dice.roll(3) {
            0 => Hand::None,
            1 => Hand::InBondOrder,
            _ => Hand::Mirrored,
        };
        make_centre_at(mol, AtomId(*a), hand);
    }
    for k in &sites.sides {
        if dice.roll(4) > 0 {
            let _ = specify_in_row(mol, BondId(*k), row);
        }
    }
}

/// Whether a molecule in a row is planned and read back; none where the row doesn't serve.
fn reads_thrown(alloc: Global, dice: &mut Dice) -> Result<Option<bool>, NoMemory> {
    let mut mol = thrown(alloc, dice)?;
    let row = thrown_row(alloc, dice, mol.atom_count())?;
    let sites = sites_of(alloc, &mol)?;
    dress(&mut mol, &sites, &row, dice);
    is_right(alloc, &mol, &drawn_in_row(alloc, &row)?)
}

#[test]
fn many_molecules(rt: HostRuntime) -> Result<(), Fail> {
    let mut dice = Dice { state: 20_261_203 };
    let mut planned: u32 = 0;
    for _ in 0..4_000 {
        if let Some(right) = reads_thrown(rt.alloc(), &mut dice)? {
            assert!(rt; right);
            planned = planned.wrapping_add(1);
        }
    }
    assert!(rt; planned > 2_000);
    Ok(())
}
