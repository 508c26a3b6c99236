ghost use Rattle.std.specs.Prelude.{ℕ, ◌<◌, ◌^◌, ◌-◌, IfOk, length};
ghost use Rattle.smi_mean.specs.MeantCentres.{MarkFits};

use super::check_stands;
use crate::check::tests::{atom, join};
use mc_base::{AtomId, BondId, Verdict};
use mc_elements::Element;
use mc_mol::Mol;
use smi_graph::Skeleton;
use smi_mean::{is_placement, molecule_with, read_named};
use std::alloc::Global;
use std::process::Abort;
use std::test::Fail;

/// Six CH in a ring with bonds of these orders, each from 1 to 4.
fn ring(alloc: Global, orders: [u8; 6]) -> Result<Mol, Fail> {
    let mut mol = Mol::new(alloc);
    for _ in 0..6 {
        mol.add_atom(atom(Element::C, 1)).ok().ok_or("memory")?;
    }
    for (k, order) in orders.iter().enumerate() {
        let k = k as u32;
        join(&mut mol, k, (k + 1) % 6, *order)?;
    }
    Ok(mol)
}

/// The skeleton of a text that stands for a molecule.
fn skeleton_of(alloc: Global, text: &[u8]) -> Result<Skeleton, Fail>
    requires { length text.now < 2 ^ 32 - 1 }
    ensures { IfOk result (λ skeleton. (k : ℕ) → k < length skeleton.atoms → MarkFits skeleton k) }
{
    match read_named(alloc, text) {
        Ok(read) => Ok(read.skeleton),
        Err(_) => Err("refused".into()),
    }
}

/// The verdict on benzene in lower case and such a ring, under a map.
fn verdict(alloc: Global, orders: [u8; 6], map: &[AtomId]) -> Result<Verdict, Fail> {
    let input = skeleton_of(alloc, b"c1ccccc1")?;
    let output = ring(alloc, orders)?;
    Ok(check_stands(alloc, &input, &output, map)?)
}

#[test]
fn a_molecule_is_one_of_a_text(rt: HostRuntime) -> Result<(), Fail> {
    let alloc = rt.alloc();
    let own = [
        AtomId(0),
        AtomId(1),
        AtomId(2),
        AtomId(3),
        AtomId(4),
        AtomId(5),
    ];
    let turned = [
        AtomId(1),
        AtomId(2),
        AtomId(3),
        AtomId(4),
        AtomId(5),
        AtomId(0),
    ];
    for (orders, verdict_is) in [
        ([2, 1, 2, 1, 2, 1], Verdict::True),
        ([1, 2, 1, 2, 1, 2], Verdict::True),
        ([1, 1, 1, 1, 1, 1], Verdict::Bond(1)),
        ([2, 1, 2, 1, 1, 1], Verdict::Bond(4)),
        ([1, 2, 2, 1, 2, 1], Verdict::Bond(1)),
        ([2, 1, 2, 1, 3, 1], Verdict::Bond(4)),
    ] {
        assert_eq!(rt; verdict(alloc, orders, &own)?, verdict_is);
        assert_eq!(rt; verdict(alloc, orders, &turned)?, verdict_is);
    }
    Ok(())
}

#[test]
fn a_map_of_a_text_is_checked(rt: HostRuntime) -> Result<(), Fail> {
    let alloc = rt.alloc();
    let orders = [2, 1, 2, 1, 2, 1];
    let short = [AtomId(0), AtomId(1), AtomId(2), AtomId(3), AtomId(4)];
    assert_eq!(rt; verdict(alloc, orders, &short)?, Verdict::Length);
    let far = [
        AtomId(0),
        AtomId(1),
        AtomId(2),
        AtomId(3),
        AtomId(4),
        AtomId(6),
    ];
    assert_eq!(rt; verdict(alloc, orders, &far)?, Verdict::Range(6));
    let twice = [
        AtomId(0),
        AtomId(1),
        AtomId(2),
        AtomId(3),
        AtomId(4),
        AtomId(0),
    ];
    assert_eq!(rt; verdict(alloc, orders, &twice)?, Verdict::Repeat(6));
    let crossed = [
        AtomId(0),
        AtomId(2),
        AtomId(1),
        AtomId(3),
        AtomId(4),
        AtomId(5),
    ];
    assert_eq!(rt; verdict(alloc, orders, &crossed)?, Verdict::Bond(1));
    Ok(())
}

fn bit(k: u32) -> u64 {
    if k < 64 { 1u64 << k } else { 0 }
}

/// The first of the numbers, as a map that carries each atom to itself.
fn own_map(alloc: Global, atoms: u32) -> Result<Vec<AtomId>, Fail> {
    let mut map = Vec::new(alloc);
    for a in 0..atoms {
        map.push(AtomId(a))?;
    }
    Ok(map)
}

/// Of each bond whether its bit is in the set.
fn in_set(alloc: Global, bonds: u32, set: u64) -> Result<Vec<bool>, Fail> {
    let mut marks = Vec::new(alloc);
    for k in 0..bonds {
        marks.push(set & bit(k) != 0)?;
    }
    Ok(marks)
}

/// Whether the molecule of a text in which these bonds are double is one that the text stands for, by the checker.
fn is_one_of(alloc: Global, text: &Skeleton, double: &[bool]) -> Result<bool, Fail>
    requires { (k : ℕ) → k < length text.now.atoms → MarkFits text.now k }
{
    if double.len() != text.bonds().len() {
        return Ok(false);
    }
    let mol = molecule_with(alloc, text, double)?;
    let map = own_map(alloc, text.atom_count())?;
    Ok(check_stands(alloc, text, &mol, &map)? == Verdict::True)
}

/// Every placement of a text is accepted, and none of them with one candidate changed. How many there are.
fn placements(rt: &(impl Abort + AllocGlobal), text: &[u8]) -> Result<u32, Fail>
    requires { length text.now < 2 ^ 32 - 1 }
{
    let alloc = rt.alloc();
    let skeleton = skeleton_of(alloc, text)?;
    let bonds = skeleton.bond_count();
    let mut found = 0u32;
    for set in 0..bit(bonds) {
        let double = in_set(alloc, bonds, set)?;
        if is_placement(&skeleton, &double) {
            assert!(rt; is_one_of(alloc, &skeleton, &double)?);
            for k in 0..bonds {
                if skeleton.is_candidate(BondId(k)) {
                    let changed = in_set(alloc, bonds, set ^ bit(k))?;
                    assert!(rt; !is_one_of(alloc, &skeleton, &changed)?);
                }
            }
            found = found.saturating_add(1);
        }
    }
    Ok(found)
}

#[test]
fn placements_of_small_rings(rt: HostRuntime) -> Result<(), Fail> {
    for (text, count) in [
        ("c1ccc1", 2),
        ("c1ccccc1", 2),
        ("c1ccccccc1", 2),
        ("n1ccccc1", 2),
        ("n1cnccc1", 2),
        ("n1ncncc1", 2),
        ("p1ccccc1", 2),
        ("[o+]1ccccc1", 2),
        ("C[n+]1ccccc1", 2),
        ("o1cccc1", 1),
        ("s1cccc1", 1),
        ("[nH]1cccc1", 1),
        ("[cH-]1cccc1", 1),
        ("c1ccoc1", 1),
        ("c1c[se]cc1", 1),
        ("c1cocn1", 1),
        ("c1cscn1", 1),
        ("c1cnc[nH]1", 1),
        ("O=c1ccocc1", 1),
        ("O=c1cccccc1", 1),
        ("c1ccc2occc2c1", 2),
        ("c1ccc2[nH]ccc2c1", 2),
        ("c1ccc2ccccc2c1", 3),
    ] {
        let text = text.as_bytes();
        assert!(&rt; text.len() < 100);
        assert_eq!(&rt; placements(&rt, text)?, count);
    }
    Ok(())
}
