mod centres;
mod plain_places;

use crate::write::written_form;
use mc_base::{AtomId, Text};
use mc_elements::Element;
use mc_mol::{AddAtom, AddBond, Atom, Mol};
use std::alloc::Global;
use std::test::Fail;

/// An atom that has only these hydrogens.
fn plain(element: Element, hydrogens: u8) -> Atom {
    Atom {
        element,
        isotope: 0,
        charge: 0,
        hydrogens,
        class: 0,
    }
}

/// A molecule of these atoms, with no bonds.
fn atoms(alloc: Global, list: &[Atom]) -> Result<Mol, AddAtom> {
    let mut mol = Mol::new(alloc);
    for atom in list {
        mol.add_atom(*atom)?;
    }
    Ok(mol)
}

/// Adds a bond between two atoms that are there.
fn bond(mol: &mut Mol, u: u32, v: u32, order: u8) -> bool {
    if u >= mol.atom_count() || v >= mol.atom_count() || order < 1 || order > 4 {
        return false;
    }
    if mol.centre(AtomId(u)).is_some() || mol.centre(AtomId(v)).is_some() {
        return false;
    }
    mol.add_bond(AtomId(u), AtomId(v), order).is_ok()
}

/// Carbons with so many hydrogens each, joined by bonds (first, second, order).
fn carbons(alloc: Global, hydrogens: &[u8], bonds: &[(u32, u32, u8)]) -> Result<Mol, AddAtom> {
    let mut mol = Mol::new(alloc);
    for count in hydrogens {
        mol.add_atom(plain(Element::C, *count))?;
    }
    for (u, v, order) in bonds {
        bond(&mut mol, *u, *v, *order);
    }
    Ok(mol)
}

#[test]
fn one_atom(rt: HostRuntime) -> Result<(), Fail> {
    let methane = atoms(rt.alloc(), &[plain(Element::C, 4)])?;
    let bare = written_form(rt.alloc(), &methane)?;
    assert_eq!(rt; bare.text.as_slice(), b"C".as_slice());
    assert_eq!(rt; bare.order.len(), 1);
    let radical = atoms(rt.alloc(), &[plain(Element::C, 3)])?;
    let bracket = written_form(rt.alloc(), &radical)?;
    assert_eq!(rt; bracket.text.as_slice(), b"[CH3]".as_slice());
    Ok(())
}

#[test]
fn atoms_in_brackets(rt: HostRuntime) -> Result<(), Fail> {
    let mut isotope = plain(Element::C, 4);
    isotope.isotope = 13;
    let mut ammonium = plain(Element::N, 4);
    ammonium.charge = 1;
    let mut oxide = plain(Element::O, 0);
    oxide.charge = -1;
    let mut class = plain(Element::C, 3);
    class.class = 7;
    let mut iron = plain(Element::Fe, 0);
    iron.charge = 2;
    let mut hydride = plain(Element::H, 0);
    hydride.charge = -1;
    hydride.isotope = 2;
    let list = [isotope, ammonium, oxide, class, iron, hydride];
    let written = written_form(rt.alloc(), &atoms(rt.alloc(), &list)?)?;
    assert_eq!(rt;
        written.text.as_slice(),
        b"[13CH4].[NH4+].[O-].[CH3:7].[Fe+2].[2H-]".as_slice()
    );
    Ok(())
}

#[test]
fn nothing(rt: HostRuntime) -> Result<(), Fail> {
    let written = written_form(rt.alloc(), &Mol::new(rt.alloc()))?;
    assert_eq!(rt; written.text.as_slice(), b"".as_slice());
    assert_eq!(rt; written.order.len(), 0);
    Ok(())
}

/// The text that is written of carbons with so many hydrogens each and these bonds.
fn text_of_carbons(
    alloc: Global,
    hydrogens: &[u8],
    bonds: &[(u32, u32, u8)],
) -> Result<Text, Fail> {
    let written = written_form(alloc, &carbons(alloc, hydrogens, bonds)?)?;
    Ok(written.text)
}

#[test]
fn branches_and_bonds(rt: HostRuntime) -> Result<(), Fail> {
    let isobutane = [(0, 1, 1), (1, 2, 1), (1, 3, 1)];
    let branched = text_of_carbons(rt.alloc(), &[3, 1, 3, 3], &isobutane)?;
    assert_eq!(rt; branched.as_slice(), b"CC(C)C".as_slice());
    let isobutene = [(0, 1, 1), (1, 2, 2), (1, 3, 1)];
    let symbol = text_of_carbons(rt.alloc(), &[3, 0, 2, 3], &isobutene)?;
    assert_eq!(rt; symbol.as_slice(), b"CC(=C)C".as_slice());
    Ok(())
}

#[test]
fn bonds_of_each_order(rt: HostRuntime) -> Result<(), Fail> {
    let allene = text_of_carbons(rt.alloc(), &[2, 0, 2], &[(0, 1, 2), (1, 2, 2)])?;
    assert_eq!(rt; allene.as_slice(), b"C=C=C".as_slice());
    let pair = text_of_carbons(rt.alloc(), &[0, 0, 1, 1], &[(0, 1, 4), (2, 3, 3)])?;
    assert_eq!(rt; pair.as_slice(), b"C$C.C#C".as_slice());
    Ok(())
}

#[test]
fn order_of_the_atoms(rt: HostRuntime) -> Result<(), Fail> {
    let list = [
        plain(Element::C, 3),
        plain(Element::O, 1),
        plain(Element::C, 2),
    ];
    let mut ethanol = atoms(rt.alloc(), &list)?;
    bond(&mut ethanol, 0, 2, 1);
    bond(&mut ethanol, 2, 1, 1);
    let written = written_form(rt.alloc(), &ethanol)?;
    assert_eq!(rt; written.text.as_slice(), b"CCO".as_slice());
    let order = [AtomId(0), AtomId(2), AtomId(1)];
    assert_eq!(rt; written.order.as_slice(), order.as_slice());
    Ok(())
}

#[test]
fn rings(rt: HostRuntime) -> Result<(), Fail> {
    let three = [(0, 1, 1), (1, 2, 1), (0, 2, 1)];
    let ring = text_of_carbons(rt.alloc(), &[2, 2, 2], &three)?;
    assert_eq!(rt; ring.as_slice(), b"C1CC1".as_slice());
    let double = [(0, 1, 1), (1, 2, 1), (0, 2, 2)];
    let symbol = text_of_carbons(rt.alloc(), &[1, 2, 1], &double)?;
    assert_eq!(rt; symbol.as_slice(), b"C=1CC1".as_slice());
    Ok(())
}

#[test]
fn two_rings_with_an_atom_in_common(rt: HostRuntime) -> Result<(), Fail> {
    let fused = [(0, 1, 1), (1, 2, 1), (0, 2, 1), (2, 3, 1), (0, 3, 1)];
    let bond = text_of_carbons(rt.alloc(), &[1, 2, 1, 2], &fused)?;
    assert_eq!(rt; bond.as_slice(), b"C12CC1C2".as_slice());
    let spiro = [
        (0, 1, 1),
        (1, 2, 1),
        (0, 2, 1),
        (2, 3, 1),
        (3, 4, 1),
        (2, 4, 1),
    ];
    let atom = text_of_carbons(rt.alloc(), &[2, 2, 0, 2, 2], &spiro)?;
    assert_eq!(rt; atom.as_slice(), b"C1CC12CC2".as_slice());
    Ok(())
}

#[test]
fn two_rings_apart(rt: HostRuntime) -> Result<(), Fail> {
    let apart = [
        (0, 1, 1),
        (1, 2, 1),
        (0, 2, 1),
        (2, 3, 1),
        (3, 4, 1),
        (4, 5, 1),
        (3, 5, 1),
    ];
    let again = text_of_carbons(rt.alloc(), &[2, 2, 1, 1, 2, 2], &apart)?;
    assert_eq!(rt; again.as_slice(), b"C1CC1C1CC1".as_slice());
    Ok(())
}

/// A chain of 22 atoms, with ring bonds from each of the first ten to its counterpart at the end.
#[test]
fn ten_open_rings(rt: HostRuntime) -> Result<(), Fail> {
    let hydrogens = [
        2, 1, 1, 1, 1, 1, 1, 1, 1, 1, 2, 2, 1, 1, 1, 1, 1, 1, 1, 1, 1, 2,
    ];
    let mut ladder = carbons(rt.alloc(), &hydrogens, &[])?;
    for k in 0..21 {
        bond(&mut ladder, k, k + 1, 1);
    }
    for k in 0..10 {
        bond(&mut ladder, k, 21 - k, 1);
    }
    let written = written_form(rt.alloc(), &ladder)?;
    assert_eq!(rt;
        written.text.as_slice(),
        b"C1C2C3C4C5C6C7C8C9C%10CCC%10C9C8C7C6C5C4C3C2C1".as_slice()
    );
    Ok(())
}
