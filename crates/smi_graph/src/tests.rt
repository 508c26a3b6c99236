mod lower_case;
mod neighbours;
mod plain;

use crate::{Link, SkelAtom, SkelBond, Skeleton, bonds_with_orders, read_skeleton};
use mc_base::{AtomId, BondId, Kind, Span, Stop};
use mc_elements::Element;
use smi_lex::BondMark;
use std::alloc::Global;
use std::process::Abort;
use std::test::Fail;

const LONGEST: usize = 2_000_000;

/// Some texts, each read as a kind at a place.
fn refuses(rt: &(impl Abort + AllocGlobal), rows: &[(&str, Kind, u32)]) {
    for (text, kind, place) in rows {
        assert!(rt; text.len() < LONGEST);
        match read_skeleton(rt.alloc(), text.as_bytes()) {
            Err(Stop::Refused(refusal)) => {
                assert_eq!(rt; refusal.kind, *kind, "{text}");
                assert_eq!(rt; refusal.place, *place, "{text}");
                assert!(rt; refusal.barrier.len() == 0, "{text}");
                assert_eq!(rt; refusal.odd, 0, "{text}");
            }
            Ok(_) | Err(Stop::NoMemory) => panic!(rt; "{text} isn't refused"),
        }
    }
}

/// The skeleton of a text that is read.
fn skeleton_of(rt: &(impl Abort + AllocGlobal), text: &str) -> Skeleton {
    assert!(rt; text.len() < LONGEST);
    match read_skeleton(rt.alloc(), text.as_bytes()) {
        Ok(skeleton) => skeleton,
        Err(Stop::Refused(refusal)) => panic!(rt; "{text}: {}", refusal.place),
        Err(Stop::NoMemory) => panic!(rt; "no memory"),
    }
}

/// A text is read, and has so many atoms and these bonds; an atom is named by its number from 0.
fn joins(rt: &(impl Abort + AllocGlobal), text: &str, atoms: usize, bonds: &[(u32, u32, u8)]) {
    let skeleton = skeleton_of(rt, text);
    assert_eq!(rt; skeleton.atoms().len(), atoms, "{text}");
    assert_eq!(rt; skeleton.bonds().len(), bonds.len(), "{text}");
    for (bond, (first, second, order)) in skeleton.bonds().iter().zip(bonds) {
        assert_eq!(rt; bond.first, AtomId(*first), "{text}");
        assert_eq!(rt; bond.second, AtomId(*second), "{text}");
        assert_eq!(rt; bond.order(), *order, "{text}");
    }
}

/// One text, so many times another, and one more text.
fn repeated(
    alloc: Global,
    front: &str,
    piece: &str,
    times: usize,
    back: &str,
) -> Result<String, Fail> {
    let mut text = String::from_str(alloc, front)?;
    for _ in 0..times {
        text.push_str(piece)?;
    }
    text.push_str(back)?;
    Ok(text)
}

#[test]
fn no_token_begins(rt: HostRuntime) {
    refuses(
        &rt,
        &[
            ("CX", Kind::BadToken, 2),
            ("C[", Kind::BadToken, 2),
            ("CC[CH", Kind::BadToken, 3),
            ("C%1", Kind::BadToken, 2),
            ("C C", Kind::BadToken, 2),
            ("C*", Kind::Wildcard, 2),
            ("C[13*]", Kind::Wildcard, 2),
            ("F[C@TB1]", Kind::OtherChirality, 2),
            // the text isn't read up to its end, so nothing else is said of it
            ("c1ccccc1*", Kind::Wildcard, 9),
            ("C))X", Kind::BadToken, 4),
            ("C1=[13CX]", Kind::BadToken, 4),
        ],
    );
}

#[test]
fn what_is_not_read_yet(rt: HostRuntime) {
    refuses(
        &rt,
        &[
            ("F/C=C/F", Kind::NotBuilt, 1),
            ("F\\C=C\\F", Kind::NotBuilt, 1),
            // also where another kind stands
            ("C))/[C@]", Kind::NotBuilt, 1),
            ("c1/", Kind::NotBuilt, 1),
            ("C:C\\", Kind::NotBuilt, 1),
        ],
    );
}

#[test]
fn tokens_in_a_wrong_order(rt: HostRuntime) {
    refuses(
        &rt,
        &[
            // the end is the byte behind the text
            ("C=", Kind::BadOrder, 3),
            ("C-", Kind::BadOrder, 3),
            ("C.", Kind::BadOrder, 3),
            ("C(", Kind::BadOrder, 3),
            ("C(C(", Kind::BadOrder, 5),
            ("C%12=", Kind::BadOrder, 6),
            ("[CH4]=", Kind::BadOrder, 7),
            // behind the start
            ("=C", Kind::BadOrder, 1),
            ("1CC1", Kind::BadOrder, 1),
            ("(C)", Kind::BadOrder, 1),
            (")", Kind::BadOrder, 1),
            (".C", Kind::BadOrder, 1),
            // behind a bond
            ("C==C", Kind::BadOrder, 3),
            ("C=.C", Kind::BadOrder, 3),
            ("C=(C)", Kind::BadOrder, 3),
            ("C(C=)C", Kind::BadOrder, 5),
            // behind a bracket that opens
            ("C()", Kind::BadOrder, 3),
            ("C(1)", Kind::BadOrder, 3),
            ("C((C))", Kind::BadOrder, 3),
            ("C1C(-1)", Kind::BadOrder, 6),
            ("C(-1)", Kind::BadOrder, 4),
            // behind a bracket that closes
            ("C(C)1CC1", Kind::BadOrder, 5),
            ("C(C)=1CC1", Kind::BadOrder, 6),
            // behind a dot
            ("C.1", Kind::BadOrder, 3),
            ("C..C", Kind::BadOrder, 3),
            ("C.=C", Kind::BadOrder, 3),
            ("C.(C)", Kind::BadOrder, 3),
            ("C(C.)C", Kind::BadOrder, 5),
            // a bracket that closes nothing
            ("C)", Kind::BadOrder, 2),
            ("CCl)", Kind::BadOrder, 4),
            ("C(C))C", Kind::BadOrder, 5),
            ("C)(C", Kind::BadOrder, 2),
        ],
    );
}

#[test]
fn branches_that_stay_open(rt: HostRuntime) {
    refuses(
        &rt,
        &[
            ("C(C", Kind::ParenOpen, 2),
            ("C(C(C", Kind::ParenOpen, 2),
            ("C(C)(C", Kind::ParenOpen, 5),
            ("C(C(C)C", Kind::ParenOpen, 2),
            ("CC(C(C)", Kind::ParenOpen, 3),
            ("[CH3](Cl", Kind::ParenOpen, 6),
        ],
    );
}

#[test]
fn wrong_ring_numbers(rt: HostRuntime) {
    refuses(
        &rt,
        &[
            ("C1CC", Kind::RingOpen, 2),
            ("C1", Kind::RingOpen, 2),
            ("C1CC2CC1", Kind::RingOpen, 5),
            ("C2C1", Kind::RingOpen, 2),
            ("C12CC2", Kind::RingOpen, 2),
            ("C1CC1C1", Kind::RingOpen, 7),
            ("C=1C", Kind::RingOpen, 3),
            ("C=%12C", Kind::RingOpen, 3),
            ("C=1CCCCC#1", Kind::RingClash, 10),
            ("C=1CCC-1", Kind::RingClash, 8),
            ("C-1CC=1", Kind::RingClash, 7),
            ("C$1CC#1", Kind::RingClash, 7),
            ("C=%12CC#%12", Kind::RingClash, 9),
            ("C=1CC-1CC=1CC-1", Kind::RingClash, 7),
            ("C11", Kind::RingPair, 3),
            ("C1C1", Kind::RingPair, 4),
            ("C12CC12", Kind::RingPair, 7),
            ("C12.C12", Kind::RingPair, 7),
            ("C%11%11", Kind::RingPair, 5),
            ("C11C22", Kind::RingPair, 3),
        ],
    );
}

#[test]
fn the_first_kind_of_several(rt: HostRuntime) {
    refuses(
        &rt,
        &[
            ("C1)", Kind::BadOrder, 3),
            ("C(C=", Kind::BadOrder, 5),
            ("C1(C", Kind::ParenOpen, 3),
            ("C11C2", Kind::RingOpen, 5),
            ("C=1CC-1C2", Kind::RingOpen, 9),
            ("C11C=1CC-1", Kind::RingClash, 10),
            ("[1000C]11", Kind::RingPair, 9),
            ("[C+16][1000C]", Kind::LimitIsotope, 2),
            ("[CH3:1000][1000CH3]", Kind::LimitIsotope, 2),
            ("[C+16][C:1000]", Kind::LimitClass, 2),
        ],
    );
}

#[test]
fn limits_of_an_atom(rt: HostRuntime) {
    refuses(
        &rt,
        &[
            ("[1000C]", Kind::LimitIsotope, 1),
            ("C.[1000C]", Kind::LimitIsotope, 2),
            ("[1000C][1001C]", Kind::LimitIsotope, 1),
            ("[CH3:1000]", Kind::LimitClass, 1),
            ("[C+16]", Kind::LimitCharge, 1),
            ("[C-16]", Kind::LimitCharge, 1),
            ("CC[C-99]", Kind::LimitCharge, 3),
            // none of these numbers is the lesser one that fewer bits would hold
            ("[65537C]", Kind::LimitIsotope, 1),
            ("[4294967297C]", Kind::LimitIsotope, 1),
            ("[C:65537]", Kind::LimitClass, 1),
            ("[C:4294967297]", Kind::LimitClass, 1),
            ("[C:18446744073709551617]", Kind::LimitClass, 1),
        ],
    );
    let within = skeleton_of(&rt, "[999C+15:999].[C-15]");
    let atoms = within.atoms();
    assert_eq!(rt; atoms.len(), 2);
    assert_eq!(rt; atoms[0].isotope, 999);
    assert_eq!(rt; atoms[0].charge, 15);
    assert_eq!(rt; atoms[0].class, 999);
    assert_eq!(rt; atoms[1].charge, -15);
}

#[test]
fn limits_of_a_molecule(rt: HostRuntime) -> Result<(), Fail> {
    let alloc = rt.alloc();
    let atoms = repeated(alloc, "", "C", 999, "")?;
    let within = skeleton_of(&rt, &atoms);
    assert_eq!(rt; within.atoms().len(), 999);
    assert_eq!(rt; within.bonds().len(), 998);
    let bonds = repeated(alloc, "C1CC1", "C", 996, "")?;
    let within = skeleton_of(&rt, &bonds);
    assert_eq!(rt; within.atoms().len(), 999);
    assert_eq!(rt; within.bonds().len(), 999);
    let rings = repeated(alloc, "", "C1CC1", 99, "")?;
    assert_eq!(rt; skeleton_of(&rt, &rings).bonds().len(), 395);
    let parts = repeated(alloc, "C1CC1", ".C1CC1", 98, "")?;
    assert_eq!(rt; skeleton_of(&rt, &parts).bonds().len(), 297);
    let atoms = repeated(alloc, "", "C", 1000, "")?;
    let apart = repeated(alloc, "C", ".C", 1001, "")?;
    let bonds = repeated(alloc, "C1CC1C1CC1", "C", 993, "")?;
    let rings = repeated(alloc, "", "C1CC1", 100, "")?;
    let parts = repeated(alloc, "C1CC1", ".C1CC1", 119, "")?;
    refuses(
        &rt,
        &[
            (atoms.as_str(), Kind::LimitAtoms, 1000),
            (apart.as_str(), Kind::LimitAtoms, 1002),
            (bonds.as_str(), Kind::LimitBonds, 1000),
            (rings.as_str(), Kind::LimitRings, 100),
            (parts.as_str(), Kind::LimitRings, 120),
        ],
    );
    Ok(())
}

/// The longest lines that are read at all take no long time, whatever stands in them.
#[test]
fn texts_of_a_million_bytes(rt: HostRuntime) -> Result<(), Fail> {
    let alloc = rt.alloc();
    let rings = repeated(alloc, "", "C1CC1", 200_000, "")?;
    let numbers = repeated(alloc, "C", "1", 1_000_000, "")?;
    refuses(
        &rt,
        &[
            (rings.as_str(), Kind::LimitAtoms, 600_000),
            (numbers.as_str(), Kind::RingPair, 3),
        ],
    );
    Ok(())
}

#[test]
fn bonds_of_texts(rt: HostRuntime) {
    joins(&rt, "", 0, &[]);
    joins(&rt, "C", 1, &[]);
    joins(&rt, "C.N", 2, &[]);
    joins(&rt, "[Re]$[Re]", 2, &[(0, 1, 4)]);
    joins(&rt, "C#N", 2, &[(0, 1, 3)]);
    joins(&rt, "C-N", 2, &[(0, 1, 1)]);
    // branches
    joins(&rt, "N(C)(C)C", 4, &[(0, 1, 1), (0, 2, 1), (0, 3, 1)]);
    joins(&rt, "C(=O)O", 3, &[(0, 1, 2), (0, 2, 1)]);
    joins(&rt, "C(O)=O", 3, &[(0, 1, 1), (0, 2, 2)]);
    joins(
        &rt,
        "CC(C(C)C)C",
        6,
        &[(0, 1, 1), (1, 2, 1), (2, 3, 1), (2, 4, 1), (1, 5, 1)],
    );
    joins(&rt, "C(.N)O", 3, &[(0, 2, 1)]);
    joins(&rt, "C(C.N)O", 4, &[(0, 1, 1), (0, 3, 1)]);
    // rings, also over a dot
    joins(&rt, "C=1CC1", 3, &[(0, 1, 1), (1, 2, 1), (0, 2, 2)]);
    joins(&rt, "C1CC=1", 3, &[(0, 1, 1), (1, 2, 1), (0, 2, 2)]);
    joins(&rt, "C=1CC=1", 3, &[(0, 1, 1), (1, 2, 1), (0, 2, 2)]);
    joins(&rt, "C-1CC1", 3, &[(0, 1, 1), (1, 2, 1), (0, 2, 1)]);
    joins(&rt, "C1.C1", 2, &[(0, 1, 1)]);
    joins(&rt, "C1.O.C1", 3, &[(0, 2, 1)]);
    joins(
        &rt,
        "C(C1)CC1",
        4,
        &[(0, 1, 1), (0, 2, 1), (2, 3, 1), (1, 3, 1)],
    );
    // a number is used again, and is one number however it is written
    joins(
        &rt,
        "C1CC1C1CC1",
        6,
        &[
            (0, 1, 1),
            (1, 2, 1),
            (0, 2, 1),
            (2, 3, 1),
            (3, 4, 1),
            (4, 5, 1),
            (3, 5, 1),
        ],
    );
    joins(&rt, "C%00CC0", 3, &[(0, 1, 1), (1, 2, 1), (0, 2, 1)]);
    joins(&rt, "C%01CC1", 3, &[(0, 1, 1), (1, 2, 1), (0, 2, 1)]);
    joins(&rt, "C%99CC%99", 3, &[(0, 1, 1), (1, 2, 1), (0, 2, 1)]);
    joins(
        &rt,
        "C12CC1C2",
        4,
        &[(0, 1, 1), (1, 2, 1), (0, 2, 1), (2, 3, 1), (0, 3, 1)],
    );
}

#[test]
fn atoms_of_a_text(rt: HostRuntime) {
    let skeleton = skeleton_of(&rt, "[13CH3-:7]Cl");
    let bracket = SkelAtom {
        element: Element::C,
        lower: false,
        bare: false,
        isotope: 13,
        charge: -1,
        hydrogens: 3,
        class: 7,
        chiral: None,
        span: Span { from: 0, to: 10 },
    };
    let bare = SkelAtom {
        element: Element::Cl,
        lower: false,
        bare: true,
        isotope: 0,
        charge: 0,
        hydrogens: 0,
        class: 0,
        chiral: None,
        span: Span { from: 10, to: 12 },
    };
    let atoms = skeleton.atoms();
    assert_eq!(rt; atoms.len(), 2);
    assert_eq!(rt; atoms[0], bracket);
    assert_eq!(rt; atoms[1], bare);
}

#[test]
fn parts_of_a_skeleton(rt: HostRuntime) -> Result<(), Fail> {
    let skeleton = skeleton_of(&rt, "C=O");
    assert!(rt; skeleton.atoms().len() == 2 && skeleton.bonds().len() == 1);
    assert_eq!(rt; skeleton.atom_count(), 2);
    assert_eq!(rt; skeleton.bond_count(), 1);
    assert_eq!(rt; skeleton.atom(AtomId(1)).element, Element::O);
    let double = SkelBond {
        first: AtomId(0),
        second: AtomId(1),
        link: Link::Order(2),
    };
    assert_eq!(rt; skeleton.bond(BondId(0)), double);
    let bonds = bonds_with_orders(rt.alloc(), skeleton.bonds())?;
    assert_eq!(rt; bonds.len(), 1);
    assert_eq!(rt; bonds[0].order, 2);
    assert_eq!(rt; bonds[0].second, AtomId(1));
    Ok(())
}

/// The symbols of the bonds of a text, at the first and at the second end.
fn marks(
    rt: &(impl Abort + AllocGlobal),
    text: &str,
    rows: &[(Option<BondMark>, Option<BondMark>)],
) {
    let skeleton = skeleton_of(rt, text);
    assert_eq!(rt; skeleton.bonds().len(), rows.len(), "{text}");
    for (bond, (opening, closing)) in skeleton.bonds().iter().zip(rows) {
        assert_eq!(rt; bond.opening, *opening, "{text}");
        assert_eq!(rt; bond.closing, *closing, "{text}");
    }
}

#[test]
fn symbols_of_bonds(rt: HostRuntime) {
    let double = Some(BondMark::Double);
    let single = Some(BondMark::Single);
    marks(&rt, "CC", &[(None, None)]);
    marks(&rt, "C=C", &[(double, None)]);
    marks(&rt, "C(=C)-C", &[(double, None), (single, None)]);
    marks(&rt, "C=1CC1", &[(None, None), (None, None), (double, None)]);
    marks(&rt, "C1CC=1", &[(None, None), (None, None), (None, double)]);
    marks(
        &rt,
        "C=1CC=1",
        &[(None, None), (None, None), (double, double)],
    );
}

/// The reader answers what the plain program says of a text.
fn agrees(rt: &(impl Abort + AllocGlobal), text: &[u8]) {
    assert!(rt; text.len() < LONGEST);
    match read_skeleton(rt.alloc(), text) {
        Ok(skeleton) => {
            assert_eq!(rt; plain::fault(text), None, "{text:?}");
            let mut known = 0usize;
            for i in 0..text.len() {
                if let Some((first, second, order)) = plain::bond_at(text, i) {
                    match skeleton.bonds().get(known) {
                        Some(bond) => {
                            assert_eq!(rt; bond.first.0 as usize, first, "{text:?}");
                            assert_eq!(rt; bond.second.0 as usize, second, "{text:?}");
                            assert_eq!(rt; bond.order(), order, "{text:?}");
                            known = known.saturating_add(1);
                        }
                        None => panic!(rt; "{text:?} has more bonds"),
                    }
                }
            }
            assert_eq!(rt; skeleton.bonds().len(), known, "{text:?}");
        }
        Err(Stop::Refused(refusal)) => {
            let fault = Some((refusal.kind, refusal.place as usize));
            assert_eq!(rt; plain::fault(text), fault, "{text:?}");
        }
        Err(Stop::NoMemory) => panic!(rt; "no memory"),
    }
}

const ALPHABET: [u8; 7] = *b"C()1=-.";

#[test]
fn all_short_texts(rt: HostRuntime) -> Result<(), Fail> {
    let mut texts = 1u64;
    for length in 0..6 {
        for number in 0..texts {
            let mut text = Vec::new(rt.alloc());
            let mut rest = number;
            for _ in 0..length {
                text.push(ALPHABET[(rest % 7) as usize])?;
                rest /= 7;
            }
            agrees(&rt, &text);
        }
        texts = texts.saturating_mul(7);
    }
    Ok(())
}
