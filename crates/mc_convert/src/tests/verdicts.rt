//! The verdicts of a check: rows by originals, converted records and report.

use crate::Status;
use crate::tests::{CHECK, gives, joined};
use std::alloc::Global;
use std::process::Abort;
use std::test::Fail;

/// Three inputs, by what is written of them. The status is Done where each verdict is true.
fn says(
    rt: &(impl Abort + AllocGlobal),
    originals: &[u8],
    converted: &[u8],
    report: &[u8],
    verdicts: &str,
) -> Result<(), Fail> {
    let status = if verdicts.contains("false") {
        Status::SomeRefused
    } else {
        Status::Done
    };
    gives(
        rt,
        &CHECK,
        &[originals, converted, report],
        status,
        verdicts.as_bytes(),
        b"",
    )
}

/// Originals, converted records and a report, by the verdicts.
pub fn are_said(
    rt: &(impl Abort + AllocGlobal),
    rows: &[(&str, &str, &str, &str)],
) -> Result<(), Fail> {
    for (originals, converted, report, verdicts) in rows {
        says(
            rt,
            originals.as_bytes(),
            converted.as_bytes(),
            report.as_bytes(),
            verdicts,
        )?;
    }
    Ok(())
}

/// One original and its converted record, by the map of the report line and the verdict.
pub fn maps_are_said(
    rt: &(impl Abort + AllocGlobal),
    rows: &[(&str, &str, &str, &str)],
) -> Result<(), Fail> {
    let alloc = rt.alloc();
    for (original, converted, map, verdict) in rows {
        let report = joined(alloc, &["1 ok map=", map, " idle=0 ring=0 data=0\n"])?;
        let verdicts = joined(alloc, &["1 ", verdict, "\n"])?;
        let status = if *verdict == "true" {
            Status::Done
        } else {
            Status::SomeRefused
        };
        gives(
            rt,
            &CHECK,
            &[original.as_bytes(), converted.as_bytes(), &report],
            status,
            &verdicts,
            b"",
        )?;
    }
    Ok(())
}

const GLYCINE: &str = "NCC(=O)O";

#[test]
fn maps(rt: HostRuntime) -> Result<(), Fail> {
    maps_are_said(
        &rt,
        &[
            (GLYCINE, GLYCINE, "1,2,3,4,5", "true"),
            (GLYCINE, "OC(=O)CN", "5,3,4,2,1", "true"),
            (GLYCINE, GLYCINE, "1,2,3,4,4", "false repeat 5"),
            (GLYCINE, GLYCINE, "1,2,3,5,4", "false atom 4"),
            (GLYCINE, GLYCINE, "1,2,3,4", "false length"),
            (GLYCINE, GLYCINE, "1,2,3,4,6", "false range 5"),
            // a ring that isn't closed: each atom has the same hydrogens, and a bond is missing
            (
                "[CH2]1[CH2][CH2]1",
                "[CH2][CH2][CH2]",
                "1,2,3",
                "false bonds",
            ),
            // bond 3, with the same numbers of atoms and of bonds, has another order, or other ends
            (
                "[CH2][CH][CH][CH2]",
                "[CH2][CH][CH]=[CH2]",
                "1,2,3,4",
                "false bond 3",
            ),
            (
                "[CH2][CH][CH][CH2]",
                "[CH2][CH]([CH])[CH2]",
                "1,2,3,4",
                "false bond 3",
            ),
            // records that are refused
            ("CX", "C", "1", "false input"),
            ("CX", "CX", "1", "false input"),
            ("C", "CX", "1", "false output"),
            ("C", "", "1", "false missing"),
        ],
    )
}

// An original in lower case stands for each of its placements.
#[test]
fn placements(rt: HostRuntime) -> Result<(), Fail> {
    let six = "1,2,3,4,5,6";
    maps_are_said(
        &rt,
        &[
            ("c1ccccc1", "C1=CC=CC=C1", six, "true"),
            ("c1ccccc1", "C=1C=CC=CC1", six, "true"),
            ("c1ccccc1", "C1=CC=CC=C1", "2,3,4,5,6,1", "true"),
            // two atoms that need a double bond have none
            ("c1ccccc1", "C1=CC=C[CH][CH]1", six, "false bond 4"),
            // an order that no placement gives
            (
                "c1ccccc1",
                "[CH]1#[CH][CH]=[CH][CH]=[CH]1",
                six,
                "false bond 1",
            ),
            // an atom that needs none
            ("o1cccc1", "O1C=CC=C1", "1,2,3,4,5", "true"),
            // an atom without a bond that needs one
            ("[nH2]", "[NH2]", "1", "false input"),
            // a written text says the order of each bond
            ("c1ccccc1", "c1ccccc1", six, "false output"),
            ("o1oo1", "o1oo1", "1,2,3", "false output"),
            ("o1oo1", "O1OO1", "1,2,3", "true"),
        ],
    )
}

#[test]
fn barriers(rt: HostRuntime) -> Result<(), Fail> {
    are_said(
        &rt,
        &[
            (
                "c1cccc1",
                "",
                "1 refused NoPlacement barrier= odd=1\n",
                "1 true\n",
            ),
            (
                "c1cccc1",
                "",
                "1 refused NoPlacement barrier=1 odd=1\n",
                "1 false refusal\n",
            ),
            (
                "c12c3oc1oc2o3",
                "",
                "1 refused NoPlacement barrier=1 odd=3\n",
                "1 true\n",
            ),
            (
                "c12c3oc1oc2o3",
                "",
                "1 refused NoPlacement barrier=1 odd=4\n",
                "1 false refusal\n",
            ),
            // an atom that needs no double bond, and one that isn't there
            (
                "c12c3oc1oc2o3",
                "",
                "1 refused NoPlacement barrier=1,3 odd=3\n",
                "1 false refusal\n",
            ),
            (
                "c1cccc1",
                "",
                "1 refused NoPlacement barrier=6 odd=2\n",
                "1 false refusal\n",
            ),
            (
                "c1ccccc1",
                "",
                "1 refused NoPlacement barrier= odd=1\n",
                "1 false refusal\n",
            ),
            // any barrier will do: of two rings with a barrier each, atoms of one alone
            (
                "c1cccc1.c1cccc1",
                "",
                "1 refused NoPlacement barrier= odd=2\n",
                "1 true\n",
            ),
        ],
    )
}

#[test]
fn refusals(rt: HostRuntime) -> Result<(), Fail> {
    are_said(
        &rt,
        &[
            ("CX", "", "1 refused BadToken place=2", "1 true\n"),
            ("CX", "", "1 refused BadToken place=3", "1 false refusal\n"),
            ("CX", "", "1 refused BadOrder place=2", "1 false refusal\n"),
            (
                "CX",
                "",
                "1 refused NoPlacement barrier=1 odd=2",
                "1 false refusal\n",
            ),
            ("C", "", "1 refused BadToken place=2", "1 false refusal\n"),
        ],
    )
}

#[test]
fn lines_of_the_report(rt: HostRuntime) -> Result<(), Fail> {
    are_said(
        &rt,
        &[
            (
                "C\n",
                "C\n",
                "2 ok map=1 idle=0 ring=0 data=0\n",
                "1 false report\nend false extra\n",
            ),
            ("C\n", "", "", "1 false report\n"),
            ("C\n", "", "1 ok\n", "1 false report\n"),
            (
                "C\r\n",
                "C\n",
                "1 ok map=1 idle=0 ring=0 data=0\r\n",
                "1 true\n",
            ),
            ("", "", "", ""),
        ],
    )
}

#[test]
fn what_goes_on(rt: HostRuntime) -> Result<(), Fail> {
    are_said(
        &rt,
        &[
            (
                "C\n",
                "C\nC\n",
                "1 ok map=1 idle=0 ring=0 data=0\n",
                "1 true\nend false extra\n",
            ),
            (
                "C\n",
                "C\n",
                "1 ok map=1 idle=0 ring=0 data=0\n\n",
                "1 true\nend false extra\n",
            ),
            (
                "C\n",
                "C\n",
                "1 ok map=1 idle=0 ring=0 data=0\n\r",
                "1 true\nend false extra\n",
            ),
            ("", "C\n", "", "end false extra\n"),
            // an empty line is no record, so neither an original nor a converted record
            (
                "\nC\n\n",
                "\n\nC\n\n",
                "1 ok map=1 idle=0 ring=0 data=0\n",
                "1 true\n",
            ),
            // but it is a line of the report, the first of which says nothing of original 1 then
            (
                "C\n",
                "",
                "\n1 ok map=1 idle=0 ring=0 data=0\n",
                "1 false report\nend false extra\n",
            ),
        ],
    )
}

const THREE: &str = "C\nCX\nN\n";

const THREE_OUT: &str = "C\nN\n";

const THREE_REPORT: &str =
    "1 ok map=1 idle=0 ring=0 data=0\n2 refused BadToken place=2\n3 ok map=1 idle=0 ring=0 data=0\n";

const THREE_TRUE: &str = "1 true\n2 true\n3 true\n";

// Each ok line takes a converted record, and no other line does.
#[test]
fn three_originals(rt: HostRuntime) -> Result<(), Fail> {
    are_said(
        &rt,
        &[
            (THREE, THREE_OUT, THREE_REPORT, THREE_TRUE),
            (
                THREE,
                "C\nC\nN\n",
                THREE_REPORT,
                "1 true\n2 true\n3 false atom 1\nend false extra\n",
            ),
            (
                THREE,
                THREE_OUT,
                "1 ok map=1 idle=0 ring=0 data=0\n2 ok map=1 idle=0 ring=0 data=0\n3 ok map=1 idle=0 ring=0 data=0\n",
                "1 true\n2 false input\n3 false missing\n",
            ),
            (
                THREE,
                THREE_OUT,
                "1 ok map=1 idle=0 ring=0 data=0\n\n3 ok map=1 idle=0 ring=0 data=0\n",
                "1 true\n2 false report\n3 true\n",
            ),
        ],
    )
}

fn long_between(alloc: Global, before: &str, behind: &str) -> Result<Vec<u8>, Fail> {
    let mut text = before.as_bytes().to_vec(alloc)?;
    text.resize(before.len() + 1_048_577, b'C')?;
    text.extend_from_slice(behind.as_bytes())?;
    Ok(text)
}

#[test]
fn long_originals(rt: HostRuntime) -> Result<(), Fail> {
    let alloc = rt.alloc();
    let second_long = long_between(alloc, "C\n", "\nN\n")?;
    says(
        &rt,
        &second_long,
        THREE_OUT.as_bytes(),
        b"1 ok map=1 idle=0 ring=0 data=0\n2 refused LineTooLong place=1\n3 ok map=1 idle=0 ring=0 data=0\n",
        THREE_TRUE,
    )?;
    says(
        &rt,
        &second_long,
        THREE_OUT.as_bytes(),
        THREE_REPORT.as_bytes(),
        "1 true\n2 false refusal\n3 true\n",
    )
}

// A converted record that is too long is refused, and a line of the report that is too long says nothing.
#[test]
fn other_long_lines(rt: HostRuntime) -> Result<(), Fail> {
    let alloc = rt.alloc();
    let last_long = long_between(alloc, "C\n", "")?;
    says(
        &rt,
        b"C\nC\n",
        &last_long,
        b"1 ok map=1 idle=0 ring=0 data=0\n2 ok map=1 idle=0 ring=0 data=0\n",
        "1 true\n2 false output\n",
    )?;
    let second_line_long = long_between(
        alloc,
        "1 ok map=1 idle=0 ring=0 data=0\n",
        "\n3 ok map=1 idle=0 ring=0 data=0\n",
    )?;
    says(
        &rt,
        THREE.as_bytes(),
        THREE_OUT.as_bytes(),
        &second_line_long,
        "1 true\n2 false report\n3 true\n",
    )
}
