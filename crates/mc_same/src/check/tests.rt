use super::check_map;
use mc_base::{AtomId, Verdict};
use mc_elements::Element;
use mc_mol::{Atom, Mol};
use std::alloc::Global;
use std::process::Abort;
use std::test::Fail;

pub(crate) fn atom(element: Element, hydrogens: u8) -> Atom {
    Atom {
        element,
        isotope: 0,
        charge: 0,
        hydrogens,
        class: 0,
    }
}

/// Adds a bond of the order 1 to 4 between two atoms that are there and are no stereocentres.
pub(crate) fn join(mol: &mut Mol, u: u32, v: u32, order: u8) -> Result<(), Fail> {
    if u >= mol.atom_count() || v >= mol.atom_count() || order < 1 || order > 4 {
        return Err("no such bond".into());
    }
    if let Some(_) = mol.centre(AtomId(u)) {
        return Err("a stereocentre".into());
    }
    if let Some(_) = mol.centre(AtomId(v)) {
        return Err("a stereocentre".into());
    }
    mol.add_bond(AtomId(u), AtomId(v), order)
        .ok()
        .ok_or("memory")?;
    Ok(())
}

/// Glycine as it is written `NCC(=O)O`, with this order of its third bond.
fn glycine(alloc: Global, order: u8) -> Result<Mol, Fail> {
    let mut mol = Mol::new(alloc);
    for (element, hydrogens) in [
        (Element::N, 2),
        (Element::C, 2),
        (Element::C, 0),
        (Element::O, 0),
        (Element::O, 1),
    ] {
        mol.add_atom(atom(element, hydrogens)).ok().ok_or("memory")?;
    }
    for (u, v, order) in [(0, 1, 1), (1, 2, 1), (2, 3, order), (2, 4, 1)] {
        join(&mut mol, u, v, order)?;
    }
    Ok(mol)
}

/// The verdict on glycine and a molecule with this order of its third bond, under a map.
fn verdict(alloc: Global, order: u8, map: &[AtomId]) -> Result<Verdict, Fail> {
    let input = glycine(alloc, 2)?;
    let output = glycine(alloc, order)?;
    Ok(check_map(alloc, &input, &output, map)?)
}

#[test]
fn a_map_is_checked(rt: HostRuntime) -> Result<(), Fail> {
    let alloc = rt.alloc();
    let same = [AtomId(0), AtomId(1), AtomId(2), AtomId(3), AtomId(4)];
    assert_eq!(rt; verdict(alloc, 2, &same)?, Verdict::True);
    assert_eq!(rt; verdict(alloc, 1, &same)?, Verdict::Bond(3));
    let twice = [AtomId(0), AtomId(1), AtomId(2), AtomId(3), AtomId(3)];
    assert_eq!(rt; verdict(alloc, 2, &twice)?, Verdict::Repeat(5));
    let exchanged = [AtomId(0), AtomId(1), AtomId(2), AtomId(4), AtomId(3)];
    assert_eq!(rt; verdict(alloc, 2, &exchanged)?, Verdict::Atom(4));
    let short = [AtomId(0), AtomId(1), AtomId(2), AtomId(3)];
    assert_eq!(rt; verdict(alloc, 2, &short)?, Verdict::Length);
    let far = [AtomId(0), AtomId(1), AtomId(5), AtomId(9), AtomId(3)];
    assert_eq!(rt; verdict(alloc, 2, &far)?, Verdict::Range(3));
    Ok(())
}
