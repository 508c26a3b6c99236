//! Centres of texts, by lists that were worked by hand. A place is the number of an atom, counted from 1, or 0 for the rest.

ghost use Rattle.std.specs.Prelude.{◌<◌, ◌-◌, ◌^◌, length};

use super::is_refused;
use crate::read_smiles;
use mc_base::{AtomId, Kind};
use mc_mol::Slot;
use std::process::Abort;
use std::test::Fail;

fn number(slot: Slot) -> u32 {
    match slot {
        Slot::At(a) => a.0.saturating_add(1),
        Slot::Rest => 0,
    }
}

fn numbers(places: [Slot; 4]) -> [u32; 4] {
    [
        number(places[0]),
        number(places[1]),
        number(places[2]),
        number(places[3]),
    ]
}

/// A text is read with these lists for its centres, in the order of its atoms.
fn has_lists(
    rt: &(impl Abort + AllocGlobal),
    line: &[u8],
    lists: &[(u32, [u32; 4])],
) -> Result<(), Fail>
    requires { length line.now < 2 ^ 32 - 1 }
{
    match read_smiles(rt.alloc(), line) {
        Ok(read) => {
            let mut found = Vec::new(rt.alloc());
            for a in 0..read.mol.atom_count() {
                if let Some(places) = read.mol.centre(AtomId(a)) {
                    found.push((a.saturating_add(1), numbers(places)))?;
                }
            }
            assert_eq!(rt; found.as_slice(), lists);
        }
        Err(_) => assert!(rt; false),
    }
    Ok(())
}

#[test]
fn hydrogen_behind_the_predecessor(rt: HostRuntime) -> Result<(), Fail> {
    has_lists(&rt, b"N[C@@H](C)C(=O)O", &[(2, [1, 0, 4, 3])])?;
    has_lists(&rt, b"N[C@H](C)C(=O)O", &[(2, [1, 0, 3, 4])])?;
    // without a predecessor it stands first
    has_lists(&rt, b"[C@@H](N)(C)C(=O)O", &[(1, [0, 2, 4, 3])])?;
    has_lists(&rt, b"[C@H](N)(C)C(=O)O", &[(1, [0, 2, 3, 4])])?;
    // behind a dot there is none
    has_lists(&rt, b"O.[C@H](N)(C)F", &[(2, [0, 3, 4, 5])])
}

#[test]
fn four_neighbours(rt: HostRuntime) -> Result<(), Fail> {
    has_lists(&rt, b"N[C@](F)(Cl)Br", &[(2, [1, 3, 4, 5])])?;
    has_lists(&rt, b"N[C@@](F)(Cl)Br", &[(2, [1, 3, 5, 4])])?;
    // the names of the two orders
    has_lists(&rt, b"N[C@TH1](F)(Cl)Br", &[(2, [1, 3, 4, 5])])?;
    has_lists(&rt, b"N[C@TH2](F)(Cl)Br", &[(2, [1, 3, 5, 4])])?;
    has_lists(&rt, b"[Si@](F)(Cl)(Br)I", &[(1, [2, 3, 4, 5])])?;
    has_lists(&rt, b"C[N@+](CC)(CCC)O", &[(2, [1, 3, 5, 8])])?;
    // two of its bonds may be double
    has_lists(&rt, b"C[S@](=O)(=N)O", &[(2, [1, 3, 4, 5])])
}

#[test]
fn three_neighbours_and_the_rest(rt: HostRuntime) -> Result<(), Fail> {
    has_lists(&rt, b"C[S@](=O)CC", &[(2, [1, 0, 3, 4])])?;
    has_lists(&rt, b"C[S@@](=O)CC", &[(2, [1, 0, 4, 3])])?;
    has_lists(&rt, b"[P@](C)(CC)CCC", &[(1, [0, 2, 3, 5])])?;
    has_lists(&rt, b"C[N@]1CO1", &[(2, [1, 0, 4, 3])])
}

#[test]
fn ring_partners_by_their_numbers(rt: HostRuntime) -> Result<(), Fail> {
    has_lists(&rt, b"C1.[C@H]1(F)Cl", &[(2, [0, 1, 3, 4])])?;
    // in the order in which the numbers stand at the atom, not in that in which they are closed
    has_lists(&rt, b"[C@]21(F)CCC1CC2", &[(1, [7, 5, 2, 3])])?;
    has_lists(&rt, b"[C@]12(F)CCC1CC2", &[(1, [5, 7, 2, 3])])?;
    has_lists(&rt, b"[C@@]%12%21(F)CCC%12CC%21", &[(1, [5, 7, 3, 2])])?;
    // closed at the centre, and between the branches of another atom
    has_lists(&rt, b"C1CC2CC[C@]21F", &[(6, [5, 3, 1, 7])])?;
    has_lists(&rt, b"C1CC2CC[C@]12F", &[(6, [5, 1, 3, 7])])?;
    // a dot between the ends
    has_lists(&rt, b"F[C@]1(Cl)Br.O1", &[(2, [1, 5, 3, 4])])
}

#[test]
fn two_centres(rt: HostRuntime) -> Result<(), Fail> {
    has_lists(
        &rt,
        b"C[C@H](O)[C@@H](N)F",
        &[(2, [1, 0, 3, 4]), (4, [2, 0, 6, 5])],
    )?;
    // beside a ring in lower case
    has_lists(&rt, b"c1ccccc1[C@H](F)Cl", &[(7, [6, 0, 8, 9])])?;
    has_lists(&rt, b"C(N)(F)Cl", &[])
}

#[test]
fn no_centres(rt: HostRuntime) -> Result<(), Fail> {
    // two hydrogens
    is_refused(&rt, b"C[C@H2]F", Kind::NotACentre, 2)?;
    is_refused(&rt, b"C[C@@H2](O)F", Kind::NotACentre, 2)?;
    // four neighbours and a hydrogen, too few neighbours, too many
    is_refused(&rt, b"C[N@H](F)(Cl)Br", Kind::NotACentre, 2)?;
    is_refused(&rt, b"CC[C@]", Kind::NotACentre, 3)?;
    is_refused(&rt, b"C[C@H]F", Kind::NotACentre, 2)?;
    is_refused(&rt, b"C[P@](F)(F)(F)F", Kind::NotACentre, 2)?;
    // one single bond, and two double bonds beside three neighbours
    is_refused(&rt, b"C[S@](=O)(=N)=N", Kind::NotACentre, 2)?;
    is_refused(&rt, b"C[S@](=O)=N", Kind::NotACentre, 2)?;
    is_refused(&rt, b"C[P@](#N)C", Kind::NotACentre, 2)?;
    // a double bond in a ring
    is_refused(&rt, b"C[S@]1=NCC1", Kind::NotACentre, 2)?;
    // the first of two
    is_refused(&rt, b"C[C@H](F)C[C@H2]C[C@H2]F", Kind::NotACentre, 5)
}

#[test]
fn no_centres_in_lower_case(rt: HostRuntime) -> Result<(), Fail> {
    is_refused(&rt, b"C[c@]1ccccc1", Kind::NotACentre, 2)?;
    is_refused(&rt, b"C[n@]1cccc1", Kind::NotACentre, 2)?;
    // in no ring either
    is_refused(&rt, b"N[n@](F)Cl", Kind::NotACentre, 2)?;
    // where there is no placement, this is said
    is_refused(&rt, b"[c@]1ccccc1", Kind::NoPlacement, 0)?;
    // and what is wrong with an atom before
    is_refused(&rt, b"C[C@H2]F.[HH]", Kind::HydrogenOnHydrogen, 4)
}
