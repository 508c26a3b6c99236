//! Which atoms are centres and which double bonds have sides, by choice.
ghost use Rattle.mc_rings.specs.Rings.{AreRingsOf};

use crate::tests::molecules::{Hand, make_centre_at};
use crate::tests::sides::specify;
use mc_base::{AtomId, BondId, NoMemory};
use mc_mol::Mol;
use mc_rings::{Rings, may_be_centre, may_have_sides};
use std::alloc::Global;

/// The atoms that may be centres, and the bonds outside rings that may have sides.
#[derive(Drop)]
pub struct Sites {
    pub centres: Vec<u32>,
    pub sides: Vec<u32>,
}

fn note_centres(mol: &Mol, rings: &Rings, found: &mut Vec<u32>) -> Result<(), NoMemory>
    requires { AreRingsOf mol.now rings.now }
{
    for a in 0..mol.atom_count() {
        if may_be_centre(mol, rings, AtomId(a)) {
            found.push(a)?;
        }
    }
    Ok(())
}

fn note_sides(mol: &Mol, rings: &Rings, found: &mut Vec<u32>) -> Result<(), NoMemory>
    requires { AreRingsOf mol.now rings.now }
{
    for k in 0..mol.bond_count() {
        if may_have_sides(mol, rings, BondId(k)) && rings.ring_size(BondId(k)).is_none() {
            found.push(k)?;
        }
    }
    Ok(())
}

pub fn sites_of(alloc: Global, mol: &Mol) -> Result<Sites, NoMemory> {
    let rings = Rings::of(alloc, mol)?;
    let mut centres = Vec::new(alloc);
    note_centres(mol, &rings, &mut centres)?;
    let mut sides = Vec::new(alloc);
    note_sides(mol, &rings, &mut sides)?;
    Ok(Sites { centres, sides })
}

/// Three choices for each atom and each bond.
pub fn choices(sites: &Sites) -> u32 {
    let mut choices: u32 = 1;
    for _ in &sites.centres {
        choices = choices.wrapping_mul(3);
    }
    for _ in &sites.sides {
        choices = choices.wrapping_mul(3);
    }
    choices
}

/// Makes centres and sides as the digits of a choice say.
pub fn choose(mol: &mut Mol, sites: &Sites, choice: u32) {
    let mut rest = choice;
    for a in &sites.centres {
        make_centre_at(mol, AtomId(*a), hand_of(rest));
        rest = rest / 3;
    }
    for k in &sites.sides {
        if rest % 3 > 0 {
            let _ = specify(mol, BondId(*k), rest % 3 == 1);
        }
        rest = rest / 3;
    }
}

fn hand_of(digit: u32) -> Hand {
    match digit % 3 {
        0 => Hand::None,
        1 => Hand::InBondOrder,
        _ => Hand::Mirrored,
    }
}
