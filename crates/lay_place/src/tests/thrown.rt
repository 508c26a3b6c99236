//! Molecules by dice: trees of 2 to 12 atoms, some with rings, and most of their centres and sides.
use crate::tests::read_back::reads_back;
use crate::tests::stereo::{carbons, dress_all, join, placed};
use mc_base::NoMemory;
use mc_mol::Mol;
use mc_rings::Rings;
use std::alloc::Global;
use std::process::Abort;
use std::test::Fail;

#[derive(Drop)]
pub struct Dice {
    state: u32,
}

impl Dice {
    pub fn new(state: u32) -> Dice {
        Dice { state }
    }

    /// A number below the number of sides.
    pub fn roll(&mut self, sides: u32) -> u32 {
        self.state = self
            .state
            .wrapping_mul(1_664_525)
            .wrapping_add(1_013_904_223);
        (self.state / 256) % sides.max(1)
    }
}

pub fn thrown(alloc: Global, dice: &mut Dice) -> Result<Mol, NoMemory> {
    let count = dice.roll(11).wrapping_add(2);
    let mut mol = carbons(alloc, count)?;
    for v in 1..count {
        let near = dice.roll(2) == 0;
        let back = if near {
            v.wrapping_sub(1)
        } else {
            dice.roll(v)
        };
        let order = if dice.roll(4) == 0 { 2 } else { 1 };
        let _ = join(&mut mol, back, v, order);
    }
    for _ in 0..dice.roll(4) {
        let u = dice.roll(count);
        let v = dice.roll(count);
        let _ = join(&mut mol, u, v, 1);
    }
    Ok(mol)
}

/// Whether the molecule with centres and sides is drawn so that it reads back.
fn is_right(alloc: Global, mol: &mut Mol, pattern: u32) -> Result<bool, NoMemory> {
    dress_all(alloc, mol, pattern)?;
    let rings = Rings::of(alloc, mol)?;
    match placed(alloc, mol, &rings)? {
        Some(drawing) => Ok(reads_back(mol, &drawing)),
        None => Ok(false),
    }
}

#[test]
fn many_molecules(rt: HostRuntime) -> Result<(), Fail> {
    let mut dice = Dice::new(20_261_201);
    for _ in 0..20_000 {
        let mut mol = thrown(rt.alloc(), &mut dice)?;
        let pattern = dice.roll(16_777_216);
        assert!(rt; is_right(rt.alloc(), &mut mol, pattern)?);
    }
    Ok(())
}
