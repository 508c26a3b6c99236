//! The words of each command, with no file and with some.

use crate::tests::{CHECK, CONVERT, gives, words_of};
use crate::{Command, Formats, Origin, Status, Target, command_of, input_names};
use std::process::Abort;
use std::test::Fail;

const SMILES: Formats = Formats {
    from: Origin::Smi,
    to: Target::Smi,
};

/// Whether the words are this command's, or no command's, and name these inputs.
fn are(
    rt: &(impl Abort + AllocGlobal),
    texts: &[&str],
    command: Option<Command>,
    files: &[&str],
) -> Result<(), Fail> {
    let alloc = rt.alloc();
    let words = words_of(alloc, texts)?;
    assert!(rt; command_of(&words) == command);
    let names = input_names(alloc, &words)?;
    assert_eq!(rt; names.len(), files.len());
    for (name, file) in names.as_slice().iter().zip(files) {
        assert_eq!(rt; name.as_slice(), file.as_bytes());
    }
    Ok(())
}

fn are_none(rt: &(impl Abort + AllocGlobal), texts: &[&str]) -> Result<(), Fail> {
    are(rt, texts, None, &[])
}

#[test]
fn convert_has_one_file_at_most(rt: HostRuntime) -> Result<(), Fail> {
    let command = Some(Command::Convert(SMILES));
    are(
        &rt,
        &["convert", "--from", "smi", "--to", "smi"],
        command,
        &[],
    )?;
    are(
        &rt,
        &["convert", "--from", "smi", "--to", "smi", "a"],
        command,
        &["a"],
    )?;
    are(
        &rt,
        &["convert", "--from", "smi", "--to", "smi", "check"],
        command,
        &["check"],
    )?;
    are_none(&rt, &["convert", "--from", "smi", "--to", "smi", "a", "b"])?;
    are_none(
        &rt,
        &["convert", "--from", "smi", "--to", "smi", "a", "b", "c"],
    )?;
    are_none(
        &rt,
        &[
            "convert", "--from", "smi", "--to", "smi", "a", "b", "c", "d",
        ],
    )
}

#[test]
fn check_has_three_files(rt: HostRuntime) -> Result<(), Fail> {
    let command = Some(Command::Check(SMILES));
    are_none(&rt, &["check", "--from", "smi", "--to", "smi"])?;
    are_none(&rt, &["check", "--from", "smi", "--to", "smi", "a"])?;
    are_none(&rt, &["check", "--from", "smi", "--to", "smi", "a", "b"])?;
    are(
        &rt,
        &["check", "--from", "smi", "--to", "smi", "c", "a", "b"],
        command,
        &["c", "a", "b"],
    )?;
    are(
        &rt,
        &["check", "--from", "smi", "--to", "smi", "a", "a", "a"],
        command,
        &["a", "a", "a"],
    )?;
    are_none(
        &rt,
        &["check", "--from", "smi", "--to", "smi", "a", "b", "c", "d"],
    )
}

#[test]
fn a_file_has_a_letter_and_no_dash_in_front(rt: HostRuntime) -> Result<(), Fail> {
    let command = Some(Command::Convert(SMILES));
    are(
        &rt,
        &["convert", "--from", "smi", "--to", "smi", "a-"],
        command,
        &["a-"],
    )?;
    are(
        &rt,
        &["convert", "--from", "smi", "--to", "smi", " "],
        command,
        &[" "],
    )?;
    are(
        &rt,
        &["convert", "--from", "smi", "--to", "smi", "é"],
        command,
        &["é"],
    )?;
    are_none(&rt, &["convert", "--from", "smi", "--to", "smi", ""])?;
    are_none(&rt, &["convert", "--from", "smi", "--to", "smi", "-"])?;
    are_none(&rt, &["convert", "--from", "smi", "--to", "smi", "--"])?;
    are_none(&rt, &["convert", "--from", "smi", "--to", "smi", "--help"])?;
    are_none(
        &rt,
        &["check", "--from", "smi", "--to", "smi", "a", "-", "c"],
    )?;
    are_none(
        &rt,
        &["check", "--from", "smi", "--to", "smi", "a", "b", ""],
    )
}

#[test]
fn words_stand_in_one_order(rt: HostRuntime) -> Result<(), Fail> {
    are_none(&rt, &[])?;
    are_none(&rt, &["--help"])?;
    are_none(&rt, &["convert"])?;
    are_none(&rt, &["convert", "--from", "smi", "--to"])?;
    are_none(&rt, &["Convert", "--from", "smi", "--to", "smi"])?;
    are_none(&rt, &["selftest", "--from", "smi", "--to", "smi"])?;
    are_none(&rt, &["convert", "--from", "sd", "--to", "smi"])?;
    are_none(&rt, &["convert", "--from", "smi", "--to", "v2000"])?;
    are_none(&rt, &["convert", "--to", "smi", "--from", "smi"])?;
    are_none(&rt, &["convert", "a", "--from", "smi", "--to", "smi"])?;
    are_none(&rt, &["convert", "--from", "smi", "a", "--to", "smi"])?;
    are_none(&rt, &["a", "convert", "--from", "smi", "--to", "smi"])?;
    are_none(&rt, &["convert", "--from=smi", "--to=smi"])
}

// The input of one atom stays as it is, and so do the outputs.
#[test]
fn other_words_do_nothing(rt: HostRuntime) -> Result<(), Fail> {
    let none: [&str; 1] = ["--help"];
    gives(&rt, &none, &[b"C"], Status::Usage, b"", b"")?;
    gives(&rt, &CONVERT[..3], &[b"C"], Status::Usage, b"", b"")?;
    gives(&rt, &CHECK[..7], &[b"C"], Status::Usage, b"", b"")
}
