//! Every molecule of up to five atoms with single and double bonds, with each choice of centres and specified bonds.
use crate::tests::read_back::reads_back;
use crate::tests::stereo::{carbons, join, make_centre, placed, specify};
use mc_base::{AtomId, BondId, NoMemory};
use mc_mol::Mol;
use mc_rings::{Rings, may_be_centre, may_have_sides};
use std::alloc::Global;
use std::process::Abort;
use std::test::Fail;

/// The molecule of a pattern: for each pair of atoms a digit of three, the order of its bond.
fn molecule(alloc: Global, count: u32, pattern: u32) -> Result<Mol, NoMemory> {
    let mut mol = carbons(alloc, count)?;
    let mut rest = pattern;
    for v in 0..count {
        for u in 0..v {
            let order = rest % 3;
            rest = rest / 3;
            if order > 0 {
                let _ = join(&mut mol, u, v, order as u8);
            }
        }
    }
    Ok(mol)
}

/// A bit for each atom that may be a centre, and for each bond that may have sides.
#[derive(Clone, Copy)]
struct Sites {
    centres: u32,
    sides: u32,
}

fn bit(k: u32) -> u32 {
    1u32.wrapping_shl(k)
}

fn sites_of(alloc: Global, mol: &Mol) -> Result<Sites, NoMemory> {
    let rings = Rings::of(alloc, mol)?;
    let mut centres: u32 = 0;
    for a in 0..mol.atom_count() {
        if may_be_centre(mol, &rings, AtomId(a)) {
            centres = centres | bit(a);
        }
    }
    let mut sides: u32 = 0;
    for k in 0..mol.bond_count() {
        if may_have_sides(mol, &rings, BondId(k)) {
            sides = sides | bit(k);
        }
    }
    Ok(Sites { centres, sides })
}

/// How many choices there are: two for each centre, three for each bond.
fn choices(sites: Sites) -> u32 {
    2u32.wrapping_pow(sites.centres.count_ones())
        .wrapping_mul(3u32.wrapping_pow(sites.sides.count_ones()))
}

fn dress(mol: &mut Mol, sites: Sites, choice: u32) {
    let mut rest = choice;
    for a in 0..mol.atom_count() {
        if sites.centres & bit(a) != 0 {
            if rest % 2 == 1 {
                let _ = make_centre(mol, AtomId(a));
            }
            rest = rest / 2;
        }
    }
    for k in 0..mol.bond_count() {
        if sites.sides & bit(k) != 0 {
            if rest % 3 > 0 {
                let _ = specify(mol, BondId(k), rest % 3 == 1);
            }
            rest = rest / 3;
        }
    }
}

/// Whether a molecule with a choice of centres and sides is drawn so that it reads back.
fn is_right(
    alloc: Global,
    count: u32,
    pattern: u32,
    sites: Sites,
    choice: u32,
) -> Result<bool, NoMemory> {
    let mut mol = molecule(alloc, count, pattern)?;
    dress(&mut mol, sites, choice);
    let rings = Rings::of(alloc, &mol)?;
    match placed(alloc, &mol, &rings)? {
        Some(drawing) => Ok(reads_back(&mol, &drawing)),
        None => Ok(false),
    }
}

/// Each choice for a molecule; answers how many there are.
fn check_one(rt: &(impl Abort + AllocGlobal), mol: &Mol, pattern: u32) -> Result<u32, NoMemory> {
    let sites = sites_of(rt.alloc(), mol)?;
    for choice in 0..choices(sites) {
        assert!(rt; is_right(rt.alloc(), mol.atom_count(), pattern, sites, choice)?);
    }
    Ok(choices(sites))
}

/// All molecules of so many atoms; answers how many drawings were read.
fn check_all(rt: &(impl Abort + AllocGlobal), count: u32, patterns: u32) -> Result<u32, NoMemory> {
    let mut read: u32 = 0;
    for pattern in 0..patterns {
        let mol = molecule(rt.alloc(), count, pattern)?;
        read = read.wrapping_add(check_one(rt, &mol, pattern)?);
    }
    Ok(read)
}

/// Whether each atom has at least as many bonds as the next one, or each at most as many, and none has none.
fn is_in_order(mol: &Mol, falling: bool) -> bool {
    let mut last: usize = if falling { 4 } else { 1 };
    for a in 0..mol.atom_count() {
        let here = mol.bonds_of(AtomId(a)).len();
        if here == 0 || (falling && here > last) || (!falling && here < last) {
            return false;
        }
        last = here;
    }
    true
}

#[test]
fn up_to_four_atoms(rt: HostRuntime) -> Result<(), Fail> {
    assert_eq!(rt; check_all(&rt, 0, 1)?, 1);
    assert_eq!(rt; check_all(&rt, 1, 1)?, 1);
    assert_eq!(rt; check_all(&rt, 2, 3)?, 3);
    assert!(rt; check_all(&rt, 3, 27)? >= 27);
    assert!(rt; check_all(&rt, 4, 729)? > 729);
    Ok(())
}

/// The molecules of five atoms by falling or by rising numbers of bonds.
fn check_five(rt: &(impl Abort + AllocGlobal), falling: bool) -> Result<u32, NoMemory> {
    let mut read: u32 = 0;
    for pattern in 0..59_049 {
        let mol = molecule(rt.alloc(), 5, pattern)?;
        if is_in_order(&mol, falling) {
            read = read.wrapping_add(check_one(rt, &mol, pattern)?);
        }
    }
    Ok(read)
}

#[test]
fn five_atoms_by_falling_degree(rt: HostRuntime) -> Result<(), Fail> {
    assert!(rt; check_five(&rt, true)? > 1_000);
    Ok(())
}

#[test]
fn five_atoms_by_rising_degree(rt: HostRuntime) -> Result<(), Fail> {
    assert!(rt; check_five(&rt, false)? > 1_000);
    Ok(())
}
