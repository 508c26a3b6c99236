//! Records with stereocentres: what is written of them, and what a check says.

use crate::Status;
use crate::tests::rules::{are_refused, are_written};
use crate::tests::verdicts::{are_said, maps_are_said};
use std::test::Fail;

#[test]
fn centres_are_written(rt: HostRuntime) -> Result<(), Fail> {
    are_written(
        &rt,
        &[
            ("N[C@@H](C)C(=O)O", "N[C@@H](C)C(=O)O", "1,2,3,4,5,6"),
            ("[C@@H](N)(C)C(=O)O", "[C@@H](N)(C)C(=O)O", "1,2,3,4,5,6"),
            ("C[S@](=O)CC", "C[S@](=O)CC", "1,2,3,4,5"),
            ("N[C@TH1](F)(Cl)Br", "N[C@](F)(Cl)Br", "1,2,3,4,5"),
            ("N[C@TH2](F)(Cl)Br", "N[C@@](F)(Cl)Br", "1,2,3,4,5"),
        ],
    )
}

// The number of a ring bond has its place where it stands at the atom, and the text is written with one exchange.
#[test]
fn ring_numbers_at_a_centre(rt: HostRuntime) -> Result<(), Fail> {
    are_written(
        &rt,
        &[
            ("C1.[C@H]1(F)Cl", "C[C@@H](F)Cl", "1,2,3,4"),
            ("[C@]21(F)CCC1CC2", "[C@@]12(F)CCC1CC2", "1,2,3,4,5,6,7"),
        ],
    )
}

#[test]
fn marks_at_atoms_that_may_be_no_centre(rt: HostRuntime) -> Result<(), Fail> {
    are_refused(
        &rt,
        &[
            ("C[C@H2]F", "NotACentre place=2"),
            ("F[C@H3]", "NotACentre place=2"),
            ("[C@](F)(Cl)(Br)(I)N", "NotACentre place=1"),
            // a double bond in a ring, and a triple bond
            ("C1=[S@](C)CC1", "NotACentre place=2"),
            ("C#[P@](C)C", "NotACentre place=2"),
            // a lower-case atom, and the first of two wrong marks
            ("C[c@]1cc[nH]c1", "NotACentre place=2"),
            ("C[C@H2][C@H2]F", "NotACentre place=2"),
        ],
    )
}

// What stands in the text of wrong marks comes before them.
#[test]
fn kinds_before_a_wrong_mark(rt: HostRuntime) -> Result<(), Fail> {
    are_refused(
        &rt,
        &[
            ("C[C@H2](F", "ParenOpen place=8"),
            ("C[C@H2]=C:C", "AromaticBond place=3"),
        ],
    )?;
    // no placement, which any barrier shows
    are_said(
        &rt,
        &[
            (
                "[c@]1ccccc1",
                "",
                "1 refused NoPlacement barrier= odd=1\n",
                "1 true\n",
            ),
            (
                "[c@]1ccccc1",
                "",
                "1 refused NotACentre place=1\n",
                "1 false refusal\n",
            ),
        ],
    )
}

#[test]
fn centres_are_compared(rt: HostRuntime) -> Result<(), Fail> {
    maps_are_said(
        &rt,
        &[
            (
                "N[C@@H](C)C(=O)O",
                "N[C@@H](C)C(=O)O",
                "1,2,3,4,5,6",
                "true",
            ),
            (
                "N[C@@H](C)C(=O)O",
                "N[C@H](C)C(=O)O",
                "1,2,3,4,5,6",
                "false centre 2",
            ),
            (
                "N[C@@H](C)C(=O)O",
                "N[C@@H](C)C(=O)O",
                "1,2,3,4,5,5",
                "false repeat 6",
            ),
            (
                "N[C@@H](C)C(=O)O",
                "N[C@@H](C)C(=O)O",
                "1,2,3,4,6,5",
                "false atom 5",
            ),
            // the same marks from another first atom say the other hand
            (
                "N[C@@H](C)C(=O)O",
                "[C@@H](N)(C)C(=O)O",
                "2,1,3,4,5,6",
                "false centre 1",
            ),
            (
                "N[C@@H](C)C(=O)O",
                "[C@H](N)(C)C(=O)O",
                "2,1,3,4,5,6",
                "true",
            ),
            // a mark that is lost, and one that is invented
            (
                "N[C@@H](C)C(=O)O",
                "NC(C)C(=O)O",
                "1,2,3,4,5,6",
                "false centre 2",
            ),
            (
                "NC(C)C(=O)O",
                "N[C@@H](C)C(=O)O",
                "1,2,3,4,5,6",
                "false centre 2",
            ),
        ],
    )
}
