use super::{refuses, skeleton_of};
use crate::{Link, Skeleton, TextBond};
use mc_base::{BondId, Kind};
use smi_lex::BondMark;
use std::process::Abort;
use std::test::Fail;

#[test]
fn aromatic_bonds_at_upper_case(rt: HostRuntime) {
    refuses(
        &rt,
        &[
            ("C:C", Kind::AromaticBond, 1),
            ("c:C", Kind::AromaticBond, 1),
            ("C:c", Kind::AromaticBond, 1),
            ("c:cC:C", Kind::AromaticBond, 3),
            // the number of a ring bond is that of its closing number, whichever end has the symbol
            ("C:1cc1", Kind::AromaticBond, 3),
            ("c1cC:1", Kind::AromaticBond, 3),
            // behind the kinds of tokens, before the limits
            ("C:C1", Kind::RingOpen, 4),
            ("C:1CC-1", Kind::RingClash, 7),
            ("c:1cc-1", Kind::RingClash, 7),
            ("C:", Kind::BadOrder, 3),
            ("C))c", Kind::BadOrder, 2),
            ("[1000C]:C", Kind::AromaticBond, 1),
            ("c:[1000c]", Kind::LimitIsotope, 2),
        ],
    );
}

/// The order of each bond of a text, and 0 for a candidate.
fn has_links(rt: &(impl Abort + AllocGlobal), text: &str, links: &[u8]) {
    let skeleton = skeleton_of(rt, text);
    assert_eq!(rt; skeleton.bonds().len(), links.len(), "{text}");
    for k in 0..skeleton.bond_count() {
        let expected = match links.get(k as usize) {
            Some(0) | None => Link::Candidate,
            Some(order) => Link::Order(*order),
        };
        assert_eq!(rt; skeleton.bond(BondId(k)).link, expected, "{text}");
        assert_eq!(rt;
            skeleton.is_candidate(BondId(k)),
            expected == Link::Candidate,
            "{text}"
        );
    }
}

#[test]
fn candidates_of_texts(rt: HostRuntime) {
    has_links(&rt, "c1ccccc1", &[0; 6]);
    has_links(&rt, "c:1:c:c:c:c:c:1", &[0; 6]);
    has_links(&rt, "[cH]1[nH]ccc1", &[0; 5]);
    // the bond between two rings lies on no closed path, nor does a chain between them
    has_links(
        &rt,
        "c1ccccc1c1ccccc1",
        &[0, 0, 0, 0, 0, 0, 1, 0, 0, 0, 0, 0, 0],
    );
    has_links(&rt, "c1cc1cc1cc1", &[0, 0, 0, 1, 1, 0, 0, 0]);
    has_links(&rt, "c1cc1:c:c1cc1", &[0, 0, 0, 1, 1, 0, 0, 0]);
    has_links(&rt, "cccc", &[1, 1, 1]);
    has_links(&rt, "c:c", &[1]);
    has_links(&rt, "c=c", &[2]);
    has_links(&rt, "CCC", &[1, 1]);
    // a bond with another symbol is none, and a path over it isn't one of such bonds
    has_links(&rt, "c1cc-cc1", &[1; 5]);
    has_links(&rt, "c1ccccc-1", &[1; 6]);
    has_links(&rt, "c-1ccccc1", &[1; 6]);
    has_links(&rt, "c1cc2cc-2c1", &[0, 0, 0, 0, 1, 0, 0]);
    // nor is a path over an atom in upper case
    has_links(&rt, "c1cCcc1", &[1; 5]);
    has_links(&rt, "c1ccccc1C=O", &[0, 0, 0, 0, 0, 0, 1, 2]);
    has_links(&rt, "c12c3oc1oc2o3", &[0; 9]);
    // a ring over a dot
    has_links(&rt, "c1c.c1", &[1, 1]);
    has_links(&rt, "c1c2.c12", &[0; 3]);
}

fn is_lower_bond(skeleton: &Skeleton, bond: &TextBond) -> bool {
    let atoms = skeleton.atoms();
    let mut are_lower = true;
    for end in [bond.first, bond.second] {
        match atoms.get(end.0 as usize) {
            Some(atom) => are_lower = are_lower && atom.lower,
            None => are_lower = false,
        }
    }
    are_lower && matches!(bond.symbol(), None | Some(BondMark::Aromatic))
}

fn is_in(set: &[bool], k: u32) -> bool {
    match set.get(k as usize) {
        Some(is_in) => *is_in,
        None => false,
    }
}

fn put(set: &mut [bool], k: u32) {
    if let Some(is_in) = set.get_mut(k as usize) {
        *is_in = true;
    }
}

/// Whether one end of a bond is reached from the other along the other lower-case bonds, by going along all of them
/// again and again.
fn is_reached(
    rt: &(impl Abort + AllocGlobal),
    skeleton: &Skeleton,
    bond: &TextBond,
) -> Result<bool, Fail> {
    let mut reached = vec![in rt.alloc(); false; 1000]?;
    put(reached.as_mut_slice(), bond.first.0);
    for _ in 0..skeleton.bond_count() {
        for other in skeleton.bonds() {
            let (first, second) = (other.first.0, other.second.0);
            let leads_on = is_in(&reached, first) || is_in(&reached, second);
            if other != bond && is_lower_bond(skeleton, other) && leads_on {
                put(reached.as_mut_slice(), first);
                put(reached.as_mut_slice(), second);
            }
        }
    }
    Ok(is_in(&reached, bond.second.0))
}

/// A lower-case bond is a candidate exactly where its ends stay connected without it.
fn candidates_agree(rt: &(impl Abort + AllocGlobal), text: &str) -> Result<(), Fail> {
    let skeleton = skeleton_of(rt, text);
    for (k, bond) in skeleton.bonds().iter().enumerate() {
        let is_one = is_lower_bond(&skeleton, bond) && is_reached(rt, &skeleton, bond)?;
        assert!(rt; k < 1000);
        assert_eq!(rt; skeleton.is_candidate(BondId(k as u32)), is_one, "{text}");
    }
    Ok(())
}

#[test]
fn candidates_by_another_way(rt: HostRuntime) -> Result<(), Fail> {
    for text in [
        "c1ccc2c(c1)c1ccccc1n2C",
        "c1ccc(cc1)c1ccc(-c2ccccc2)cc1",
        "Cc1cc2c(s1)cc1c3c2cccc3oc1=O",
        "c1cc2ccc3cccc4ccc(c1)c2c34",
        "c1cc:2ccc:3ccc1c23",
        "cc1c(cc2cc2)ccc1cc",
        "n1c2ccccc2c2C1=Nc1ccccc1N2",
    ] {
        candidates_agree(&rt, text)?;
    }
    Ok(())
}
