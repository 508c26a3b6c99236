ghost use Rattle.std.specs.Prelude.{◌≡◌};

use crate::*;
use mc_base::{AtomId, BondId};
use mc_elements::Element;
use std::alloc::Global;
use std::test::Fail;

fn carbon() -> Atom {
    Atom {
        element: Element::C,
        isotope: 0,
        charge: 0,
        hydrogens: 0,
        class: 0,
    }
}

fn atoms(alloc: Global, count: u32) -> Result<Mol, AddAtom> {
    let mut mol = Mol::new(alloc);
    for _ in 0..count {
        mol.add_atom(carbon())?;
    }
    Ok(mol)
}

/// Adds a bond, or says that there is no such atom.
fn add(mol: &mut Mol, u: u32, v: u32, order: u8) -> Option<Result<BondId, AddBond>> {
    if u >= mol.atom_count() || v >= mol.atom_count() || order < 1 || order > 4 {
        return None;
    }
    if let Some(_) = mol.centre(AtomId(u)) {
        return None;
    }
    if let Some(_) = mol.centre(AtomId(v)) {
        return None;
    }
    Some(mol.add_bond(AtomId(u), AtomId(v), order))
}

#[test]
fn a_ring_of_three_with_a_tail(rt: HostRuntime) -> Result<(), Fail> {
    let mut mol = atoms(rt.alloc(), 4)?;
    assert_eq!(rt; add(&mut mol, 0, 1, 1), Some(Ok(BondId(0))));
    assert_eq!(rt; add(&mut mol, 1, 2, 2), Some(Ok(BondId(1))));
    assert_eq!(rt; add(&mut mol, 0, 2, 1), Some(Ok(BondId(2))));
    assert_eq!(rt; add(&mut mol, 1, 3, 1), Some(Ok(BondId(3))));
    assert_eq!(rt; add(&mut mol, 2, 2, 1), Some(Err(AddBond::Same)));
    assert_eq!(rt; add(&mut mol, 3, 1, 3), Some(Err(AddBond::Twice)));
    assert_eq!(rt; mol.bond_count(), 4);
    assert_eq!(rt; mol.atom_count(), 4);
    let halves = mol.bonds_of(AtomId(1));
    assert_eq!(rt; halves.len(), 3);
    assert_eq!(rt; halves[1].bond, BondId(1));
    assert_eq!(rt; halves[1].to, AtomId(2));
    assert_eq!(rt; halves[1].twin, 0);
    Ok(())
}

#[test]
fn a_molecule_has_at_most_999_atoms(rt: HostRuntime) -> Result<(), Fail> {
    let mut mol = atoms(rt.alloc(), 999)?;
    assert_eq!(rt; mol.add_atom(carbon()), Err(AddAtom::Limit));
    assert_eq!(rt; mol.atom_count(), 999);
    Ok(())
}

#[test]
fn parity_counts_the_rest_as_a_place(rt: HostRuntime) -> Result<(), Fail> {
    let at = |a: u32| Slot::At(AtomId(a));
    let list = [at(1), Slot::Rest, at(2), at(3)];
    let turned = [Slot::Rest, at(1), at(2), at(3)];
    let even = [Slot::Rest, at(1), at(3), at(2)];
    let other = [at(1), Slot::Rest, at(2), at(4)];
    assert_eq!(rt; parity(&list, &turned), Some(false));
    assert_eq!(rt; parity(&list, &even), Some(true));
    assert_eq!(rt; parity(&list, &other), None);
    Ok(())
}

// The rest counts as a place like any other.
#[test]
fn an_exchange_is_odd(rt: HostRuntime) -> Result<(), Fail> {
    let at = |a: u32| Slot::At(AtomId(a));
    let places = [at(0), Slot::Rest, at(1), at(2)];
    let exchanged = [Slot::Rest, at(0), at(1), at(2)];
    let turned = [at(0), at(1), at(2), Slot::Rest];
    assert!(rt; is_even_permutation(&places, &places));
    assert!(rt; !is_even_permutation(&places, &exchanged));
    assert!(rt; is_even_permutation(&places, &turned));
    Ok(())
}

fn bond(first: u32, second: u32) -> Bond
    ensures first { result.first.0 ≡ first }
    ensures second { result.second.0 ≡ second }
    ensures order { result.order ≡ 1 }
{
    Bond {
        first: AtomId(first),
        second: AtomId(second),
        order: 1,
    }
}

// Atom 0 has one bond more than a list keeps in place.
#[test]
fn a_molecule_of_atoms_and_bonds(rt: HostRuntime) -> Result<(), Fail> {
    let carbons = vec![in rt.alloc(); carbon(); 6]?;
    let star = [bond(0, 1), bond(2, 0), bond(0, 3), bond(4, 0), bond(0, 5)];
    let bonds = Vec::from_slice(rt.alloc(), &star)?;
    let mol = Mol::of(rt.alloc(), carbons, bonds)?;
    assert_eq!(rt; mol.atom_count(), 6);
    assert_eq!(rt; mol.bond_count(), 5);
    assert_eq!(rt; mol.bond(BondId(3)), bond(4, 0));
    let halves = mol.bonds_of(AtomId(0));
    assert_eq!(rt; halves.len(), 5);
    for k in 0..5 {
        assert_eq!(rt; halves[k].bond, BondId(k as u32));
        assert_eq!(rt; halves[k].to, AtomId(k as u32 + 1));
        assert_eq!(rt; halves[k].twin, 0);
        let back = mol.bonds_of(AtomId(k as u32 + 1));
        assert_eq!(rt; back.len(), 1);
        assert_eq!(rt; back[0].to, AtomId(0));
        assert_eq!(rt; back[0].twin, k as u32);
        assert_eq!(rt; mol.sides(BondId(k as u32)), None);
    }
    for a in 0..6 {
        assert_eq!(rt; mol.atom(AtomId(a)), carbon());
        assert_eq!(rt; mol.centre(AtomId(a)), None);
    }
    Ok(())
}

/// A molecule of so many carbons with single bonds between these.
fn molecule(alloc: Global, count: u32, ends: &[(u32, u32)]) -> Result<Mol, AddAtom> {
    let mut mol = atoms(alloc, count)?;
    for (u, v) in ends {
        let _ = add(&mut mol, *u, *v, 1);
    }
    Ok(mol)
}

/// The numbers of connected parts and of independent rings, and which bonds lie on a closed path.
fn rings(alloc: Global, count: u32, ends: &[(u32, u32)]) -> Result<(u32, u32, Vec<bool>), AddAtom> {
    let mol = molecule(alloc, count, ends)?;
    let parts = part_count(alloc, &mol.graph())?;
    let rings = independent_rings(alloc, mol.bonds(), mol.atom_count())?;
    let marks = bonds_on_closed_paths(alloc, &mol.graph())?;
    Ok((parts, rings, marks))
}

// Bond 3 joins the two rings.
#[test]
fn two_rings_joined_by_a_bond(rt: HostRuntime) -> Result<(), Fail> {
    let ends = [(0, 1), (1, 2), (2, 0), (2, 3), (3, 4), (4, 5), (5, 3)];
    let (parts, rings, marks) = rings(rt.alloc(), 6, &ends)?;
    assert_eq!(rt; parts, 1);
    assert_eq!(rt; rings, 2);
    assert!(rt; marks.as_slice() == [true, true, true, false, true, true, true].as_slice());
    Ok(())
}

#[test]
fn a_ring_and_a_chain_apart(rt: HostRuntime) -> Result<(), Fail> {
    let ends = [(5, 3), (1, 2), (0, 1), (0, 2)];
    let (parts, rings, marks) = rings(rt.alloc(), 6, &ends)?;
    assert_eq!(rt; parts, 3);
    assert_eq!(rt; rings, 1);
    assert!(rt; marks.as_slice() == [false, true, true, true].as_slice());
    Ok(())
}

// A ring with a bond across, and a tail that leads from a ring into nothing.
#[test]
fn a_bond_across_a_ring_and_a_tail(rt: HostRuntime) -> Result<(), Fail> {
    let ends = [(0, 1), (1, 2), (2, 3), (3, 0), (0, 2), (3, 4), (4, 5)];
    let (parts, rings, marks) = rings(rt.alloc(), 6, &ends)?;
    assert_eq!(rt; parts, 1);
    assert_eq!(rt; rings, 2);
    assert!(rt; marks.as_slice() == [true, true, true, true, true, false, false].as_slice());
    Ok(())
}

#[test]
fn no_atoms_have_no_rings(rt: HostRuntime) -> Result<(), Fail> {
    let (parts, rings, marks) = rings(rt.alloc(), 0, &[])?;
    assert_eq!(rt; parts, 0);
    assert_eq!(rt; rings, 0);
    assert_eq!(rt; marks.len(), 0);
    Ok(())
}

#[test]
fn limits_of_an_atom(rt: HostRuntime) -> Result<(), Fail> {
    let methane = Atom {
        hydrogens: 4,
        ..carbon()
    };
    assert!(rt; !methane.is_over(10));
    assert!(rt; methane.is_over(11));
    assert!(rt; !methane.is_hydrogen_with_more());
    let hydrogen = Atom {
        element: Element::H,
        hydrogens: 1,
        ..carbon()
    };
    assert!(rt; hydrogen.is_hydrogen_with_more());
    Ok(())
}

#[test]
fn drawings_and_marks_hold_what_is_added(rt: HostRuntime) -> Result<(), Fail> {
    let alloc = rt.alloc();
    let origin = Point { x: 0, y: 0 };
    let beside = Point { x: -15000, y: 8660 };
    let mut drawing = Drawing::new(alloc);
    drawing.push(origin).ok().ok_or("memory")?;
    drawing.push(beside).ok().ok_or("memory")?;
    assert_eq!(rt; drawing.len(), 2);
    assert!(rt; drawing.as_slice() == [origin, beside].as_slice());
    let points = drawing.into_vec();
    assert!(rt; Drawing::from_vec(points).as_slice() == [origin, beside].as_slice());
    let mut marks = Marks::new(alloc);
    marks.push(None).ok().ok_or("memory")?;
    marks.push(Some(true)).ok().ok_or("memory")?;
    assert_eq!(rt; marks.len(), 2);
    assert!(rt; marks.as_slice() == [None, Some(true)].as_slice());
    let list = marks.into_vec();
    assert!(rt; Marks::from_vec(list).as_slice() == [None, Some(true)].as_slice());
    Ok(())
}
