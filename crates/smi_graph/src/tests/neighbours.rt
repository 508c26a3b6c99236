//! The order in which the neighbours of an atom stand in a text.

use super::{LONGEST, plain, skeleton_of};
use crate::read_skeleton;
use mc_base::AtomId;
use std::process::Abort;
use std::test::Fail;

/// Some texts, an atom of each, whether it has a predecessor, and its neighbours.
fn stand(rt: &(impl Abort + AllocGlobal), rows: &[(&str, u32, bool, &[u32])]) {
    for (text, atom, before, neighbours) in rows {
        let skeleton = skeleton_of(rt, text);
        let atom = AtomId(*atom);
        assert!(rt; atom.0 < skeleton.atom_count());
        assert_eq!(rt; skeleton.before(atom), *before, "{text}");
        let places = skeleton.places(atom);
        assert_eq!(rt; places.len(), neighbours.len(), "{text}");
        for (place, neighbour) in places.iter().zip(*neighbours) {
            assert_eq!(rt; place.0, *neighbour, "{text}");
        }
    }
}

#[test]
fn neighbours_of_one_atom(rt: HostRuntime) {
    stand(
        &rt,
        &[
            ("C", 0, false, &[]),
            ("CC", 0, false, &[1]),
            ("CC", 1, true, &[0]),
            ("NC(C)C(=O)O", 1, true, &[0, 2, 3]),
            ("NC(C)C(=O)O", 3, true, &[1, 4, 5]),
            // ring numbers in the order in which they stand at the atom
            ("C21(F)CCC1CC2", 0, false, &[6, 4, 1, 2]),
            ("C12(F)CCC1CC2", 0, false, &[4, 6, 1, 2]),
            ("C%12C3(F)CC%12CC3", 1, true, &[0, 6, 2, 3]),
            // a number that closes stands where it does, as one that opens
            ("C1.C1(F)Cl", 1, false, &[0, 2, 3]),
            ("C1CC2CC1C2", 4, true, &[3, 0, 5]),
            ("C1CC2CC1C2", 5, true, &[4, 2]),
            ("C1.O.C1", 0, false, &[2]),
            ("C1.O.C1", 1, false, &[]),
            ("C(.O)N", 0, false, &[2]),
            ("C(.O)N", 1, false, &[]),
        ],
    );
}

/// The reader gives the neighbours that the plain program finds, where the text is read.
fn agrees(rt: &(impl Abort + AllocGlobal), text: &[u8]) -> Result<(), Fail> {
    assert!(rt; text.len() < LONGEST);
    let skeleton = match read_skeleton(rt.alloc(), text) {
        Ok(skeleton) => skeleton,
        Err(_) => return Ok(()),
    };
    for atom in 0..skeleton.atom_count() {
        let found = plain::neighbours(rt.alloc(), text, atom as usize)?;
        let places = skeleton.places(AtomId(atom));
        assert_eq!(rt; places.len(), found.len(), "{text:?}");
        for (place, neighbour) in places.iter().zip(&found) {
            assert_eq!(rt; place.0 as usize, *neighbour, "{text:?}");
        }
        let first = plain::predecessor_of(text, atom as usize);
        assert_eq!(rt; skeleton.before(AtomId(atom)), first.is_some(), "{text:?}");
    }
    Ok(())
}

const ALPHABET: [u8; 5] = *b"C1().";

#[test]
fn neighbours_in_all_short_texts(rt: HostRuntime) -> Result<(), Fail> {
    let mut texts = 1u64;
    for length in 0..8 {
        for number in 0..texts {
            let mut text = Vec::new(rt.alloc());
            text.push(b'C')?;
            let mut rest = number;
            for _ in 0..length {
                text.push(ALPHABET[(rest % 5) as usize])?;
                rest /= 5;
            }
            agrees(&rt, &text)?;
        }
        texts = texts.saturating_mul(5);
    }
    Ok(())
}
