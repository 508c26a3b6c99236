//! One record each: rows of the rules, by the record, what is written, and the map or the refusal.

use crate::Status;
use crate::tests::{CONVERT, Calls, gives, joined, ran};
use std::process::Abort;
use std::test::Fail;

/// Each record is written so, under this map.
pub fn are_written(
    rt: &(impl Abort + AllocGlobal),
    rows: &[(&str, &str, &str)],
) -> Result<(), Fail> {
    let alloc = rt.alloc();
    for (record, written, map) in rows {
        let out = joined(alloc, &[written, "\n"])?;
        let report = joined(alloc, &["1 ok map=", map, " idle=0 ring=0 data=0\n"])?;
        gives(
            rt,
            &CONVERT,
            &[record.as_bytes()],
            Status::Done,
            &out,
            &report,
        )?;
    }
    Ok(())
}

/// Each record is refused so.
pub fn are_refused(rt: &(impl Abort + AllocGlobal), rows: &[(&str, &str)]) -> Result<(), Fail> {
    let alloc = rt.alloc();
    for (record, refusal) in rows {
        let report = joined(alloc, &["1 refused ", refusal, "\n"])?;
        gives(
            rt,
            &CONVERT,
            &[record.as_bytes()],
            Status::SomeRefused,
            b"",
            &report,
        )?;
    }
    Ok(())
}

#[test]
fn chains_and_branches(rt: HostRuntime) -> Result<(), Fail> {
    are_written(
        &rt,
        &[
            ("C", "C", "1"),
            ("C(C)(N)", "C(C)N", "1,2,3"),
            ("CC(N)C(C)CNO", "CC(N)C(C)CNO", "1,2,3,4,5,6,7,8"),
        ],
    )?;
    are_refused(
        &rt,
        &[
            ("C()", "BadOrder place=3"),
            ("C=", "BadOrder place=3"),
            ("C)", "BadOrder place=2"),
            ("C(C", "ParenOpen place=2"),
        ],
    )
}

#[test]
fn ring_numbers(rt: HostRuntime) -> Result<(), Fail> {
    are_written(
        &rt,
        &[
            ("C1CC1C1CC1", "C1CC1C1CC1", "1,2,3,4,5,6"),
            ("C1.C1", "CC", "1,2"),
            ("C%01CC1", "C1CC1", "1,2,3"),
            ("C%00CC0", "C1CC1", "1,2,3"),
            ("C1.O.C1", "CC.O", "1,3,2"),
            ("C1CC=1", "C=1CC1", "1,2,3"),
            ("C1CCC1", "C1CCC1", "1,2,3,4"),
            ("C12C3C1C23", "C12C3C1C23", "1,2,3,4"),
        ],
    )?;
    are_refused(
        &rt,
        &[
            ("C=1CCCCC#1", "RingClash place=10"),
            ("C11", "RingPair place=3"),
            ("C12CC12", "RingPair place=7"),
            ("C1CC", "RingOpen place=2"),
        ],
    )
}

// Eleven rings that are open at once need a number of two digits.
#[test]
fn ten_open_rings(rt: HostRuntime) -> Result<(), Fail> {
    are_written(
        &rt,
        &[
            (
                "[W]%11%12%13%14%15%16%17%18%19%20.C%11.C%12.C%13.C%14.C%15.C%16.C%17.C%18.C%19.C%20",
                "[W](C)(C)(C)(C)(C)(C)(C)(C)(C)C",
                "1,2,3,4,5,6,7,8,9,10,11",
            ),
            (
                "C1C2C3C4C5C6C7C8C9C%10C1C2C3C4C5C6C7C8C9C%10",
                "C1C2C3C4C5C6C7C8C9C%10C1C2C3C4C5C6C7C8C9C%10",
                "1,2,3,4,5,6,7,8,9,10,11,12,13,14,15,16,17,18,19,20",
            ),
        ],
    )
}

#[test]
fn atoms_and_bonds(rt: HostRuntime) -> Result<(), Fail> {
    are_written(
        &rt,
        &[
            ("[Re]$[Re]", "[Re]$[Re]", "1,2"),
            ("[CH9]", "[CH9]", "1"),
            ("[CH4]", "C", "1"),
            ("[0CH3:0][H]", "C[H]", "1,2"),
            (
                "[13CH3:7]C#N.[Fe++].[O--].[NH4+]",
                "[13CH3:7]C#N.[Fe+2].[O-2].[NH4+]",
                "1,2,3,4,5,6",
            ),
            (
                "O-C(=O)C(F)(F)S(=O)(=O)Cl",
                "OC(=O)C(F)(F)S(=O)(=O)Cl",
                "1,2,3,4,5,6,7,8,9,10",
            ),
            ("[999CH9-15:999]", "[999CH9-15:999]", "1"),
        ],
    )?;
    are_refused(
        &rt,
        &[
            ("[HH1]", "HydrogenOnHydrogen place=1"),
            ("[C+16]", "LimitCharge place=1"),
            ("[CH9-16]", "LimitCharge place=1"),
            ("[1000C]", "LimitIsotope place=1"),
            ("[CH3:1000]", "LimitClass place=1"),
        ],
    )
}

// Fourteen bonds are within the limit.
#[test]
fn bonds_of_an_atom(rt: HostRuntime) -> Result<(), Fail> {
    are_written(
        &rt,
        &[(
            "C(C)(C)(C)(C)(C)(C)(C)(C)(C)(C)(C)(C)(C)C",
            "C(C)(C)(C)(C)(C)(C)(C)(C)(C)(C)(C)(C)(C)C",
            "1,2,3,4,5,6,7,8,9,10,11,12,13,14,15",
        )],
    )?;
    are_refused(
        &rt,
        &[
            (
                "C(C)(C)(C)(C)(C)(C)(C)(C)(C)(C)(C)(C)(C)(C)C",
                "LimitValence place=1",
            ),
            ("C[CH9](=C)(=C)(C)C", "LimitValence place=2"),
        ],
    )
}

#[test]
fn wrong_tokens(rt: HostRuntime) -> Result<(), Fail> {
    are_refused(
        &rt,
        &[
            ("CX", "BadToken place=2"),
            ("C*", "Wildcard place=2"),
            ("F[C@TB1]", "OtherChirality place=2"),
            // what isn't read yet
            ("F/C=C/F", "NotBuilt place=1"),
        ],
    )
}

#[test]
fn lower_case_without_a_need(rt: HostRuntime) -> Result<(), Fail> {
    are_written(
        &rt,
        &[
            ("c1(=O)c(=O)c1=O", "C1(=O)C(=O)C1=O", "1,2,3,4,5,6"),
            ("o1oo1", "O1OO1", "1,2,3"),
            ("[nH]1[nH][nH]1", "N1NN1", "1,2,3"),
            ("[cH2]1:[cH2]:s:1", "C1CS1", "1,2,3"),
            ("[se]1[se][se]1", "[Se]1[Se][Se]1", "1,2,3"),
        ],
    )
}

// Texts with one placement.
#[test]
fn placed_double_bonds(rt: HostRuntime) -> Result<(), Fail> {
    are_written(
        &rt,
        &[
            ("[nH]1cccc1", "N1C=CC=C1", "1,2,3,4,5"),
            ("o1cccc1", "O1C=CC=C1", "1,2,3,4,5"),
            ("c1ccoc1", "C=1C=COC1", "1,2,3,4,5"),
            ("[se]1cccc1", "[Se]1C=CC=C1", "1,2,3,4,5"),
            ("c1:c:o:c:c:1", "C1=COC=C1", "1,2,3,4,5"),
        ],
    )?;
    are_refused(
        &rt,
        &[
            ("C:C", "AromaticBond place=1"),
            ("c1cccc1", "NoPlacement barrier= odd=1"),
            ("c12c3oc1oc2o3", "NoPlacement barrier=1 odd=3"),
            ("cc", "NoPlacement barrier= odd=2"),
            ("[nH2]", "NoPlacement barrier= odd=1"),
        ],
    )
}

/// The record is written as one of two texts, its atoms in their order.
fn is_written_as_either(
    rt: &(impl Abort + AllocGlobal),
    record: &str,
    texts: &[&str],
    map: &str,
) -> Result<(), Fail> {
    let alloc = rt.alloc();
    let calls = Calls {
        piece: 1000,
        failing_reads: Vec::new(alloc),
        failing_writes: Vec::new(alloc),
    };
    let (status, sink) = ran(alloc, &CONVERT, &[record.as_bytes()], calls)?;
    let report = joined(alloc, &["1 ok map=", map, " idle=0 ring=0 data=0\n"])?;
    assert!(rt; status == Status::Done);
    assert_eq!(rt; sink.bytes(1), report.as_slice());
    let mut found = false;
    for text in texts {
        let line = joined(alloc, &[text, "\n"])?;
        found |= sink.bytes(0) == line.as_slice();
    }
    assert!(rt; found);
    Ok(())
}

#[test]
fn two_placements(rt: HostRuntime) -> Result<(), Fail> {
    is_written_as_either(
        &rt,
        "c1ccccc1",
        &["C1=CC=CC=C1", "C=1C=CC=CC1"],
        "1,2,3,4,5,6",
    )?;
    is_written_as_either(
        &rt,
        "c1ccccc1c1ccccc1",
        &[
            "C1=CC=CC=C1C1=CC=CC=C1",
            "C1=CC=CC=C1C=1C=CC=CC1",
            "C=1C=CC=CC1C1=CC=CC=C1",
            "C=1C=CC=CC1C=1C=CC=CC1",
        ],
        "1,2,3,4,5,6,7,8,9,10,11,12",
    )
}

// Ninety-eight rings that can be placed in two ways each, and one that can't be.
#[test]
fn a_ring_behind_many(rt: HostRuntime) -> Result<(), Fail> {
    let alloc = rt.alloc();
    let rings = "c1ccccc1".repeat(alloc, 98)?;
    let text = joined(alloc, &[&rings, "c1cccc1"])?;
    let calls = Calls {
        piece: 1000,
        failing_reads: Vec::new(alloc),
        failing_writes: Vec::new(alloc),
    };
    let (status, sink) = ran(alloc, &CONVERT, &[&text], calls)?;
    assert!(&rt; status == Status::SomeRefused);
    assert!(&rt; sink.bytes(1).starts_with(b"1 refused NoPlacement barrier="));
    Ok(())
}

#[test]
fn names(rt: HostRuntime) -> Result<(), Fail> {
    are_written(
        &rt,
        &[
            ("C $$$$x", "C $$$$x", "1"),
            ("C\ttwo words\tand more ", "C two words\tand more ", "1"),
            ("C  ", "C  ", "1"),
            ("C ", "C", "1"),
            (" ", " ", ""),
            (" no atoms", " no atoms", ""),
        ],
    )
}

#[test]
fn long_and_deep_records(rt: HostRuntime) -> Result<(), Fail> {
    let alloc = rt.alloc();
    let more = "C".repeat(alloc, 1000)?;
    are_refused(&rt, &[(&more, "LimitAtoms place=1000")])?;
    let chain = "C".repeat(alloc, 999)?;
    holds_atoms(&rt, chain.as_bytes(), 999)?;
    let branches = "(C".repeat(alloc, 300)?;
    let ends = ")".repeat(alloc, 300)?;
    let nested = joined(alloc, &["C", &branches, &ends])?;
    holds_atoms(&rt, &nested, 301)
}

/// The record of carbons is written as so many atoms in one chain.
fn holds_atoms(rt: &(impl Abort + AllocGlobal), record: &[u8], atoms: usize) -> Result<(), Fail> {
    let alloc = rt.alloc();
    let chain = "C".repeat(alloc, atoms)?;
    let calls = Calls {
        piece: 1000,
        failing_reads: Vec::new(alloc),
        failing_writes: Vec::new(alloc),
    };
    let (status, sink) = ran(alloc, &CONVERT, &[record], calls)?;
    let out = joined(alloc, &[&chain, "\n"])?;
    assert!(rt; status == Status::Done);
    assert_eq!(rt; sink.bytes(0), out.as_slice());
    Ok(())
}
