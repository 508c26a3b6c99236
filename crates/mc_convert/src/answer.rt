ghost use Rattle.std.specs.Prelude.{◌≡◌, ◌≤◌, ◌↔◌, [], IfOk, OnOk, IsTrue, true};
ghost use Rattle.mc_report.specs.Report.{refused_line};
ghost use Rattle.smi_mean.specs.Sound.{IsSound};
ghost use Rattle.mc_convert.specs.Records.{IsGiven, record_of, with_name};
ghost use Rattle.mc_convert.specs.Answers.{IsAnswer};
ghost use Rattle.mc_convert.specs.Findings.{IsReadAs, IsTableRead};
ghost use Rattle.mc_convert.specs.Accepted.{IsAccepted, IsSmiles};
ghost use Rattle.mc_convert.specs.Runs.{IsShown};

use crate::formats::Target;
use crate::given::Given;
use crate::record_read::{RecordRead, name_of, read_record};
use mc_base::{NoMemory, Refusal, Text, Written};
use mc_mol::Mol;
use mc_report::{put_ok, put_refused};
use smi_write::write_smiles;
use std::alloc::Global;

/// What is written for a record: the record itself at output 0, empty where it is refused, and its
/// report line at output 1.
#[derive(Drop)]
pub struct Answer {
    pub out: Text,
    pub report: Text,
    pub refused: bool,
}

/// Appends a name behind a text. A blank parts them, and stands also where both are empty.
fn push_name(out: &mut Text, name: &[u8]) -> Result<(), NoMemory>
    ensures { OnOk result (out.new ≡ with_name out.old name.now) }
{
    if out.len() == 0 || name.len() > 0 {
        out.push(b' ')?;
        out.extend(name)?;
    }
    Ok(())
}

/// The answer to record k, from 1, where it is accepted and SMILES is written.
fn smiles(alloc: Global, k: u64, mol: &Mol, name: &[u8], headers: u32) -> Result<Answer, NoMemory>
    requires number { 1 ≤ k }
    requires sound { IsSound mol.now }
    ensures { IfOk result (IsSmiles k mol.now name.now headers) }
{
    let written = write_smiles(alloc, mol)?;
    let Written { text, order } = written;
    let mut out = text;
    push_name(&mut out, name)?;
    out.push(b'\n')?;
    let mut report = Text::new(alloc);
    put_ok(alloc, &mut report, k, order.as_slice(), 0, 0, headers)?;
    Ok(Answer {
        out,
        report,
        refused: false,
    })
}

/// The answer to record k, from 1, where it is accepted.
fn accepted(
    alloc: Global,
    k: u64,
    mol: &Mol,
    name: &[u8],
    headers: u32,
    to: Target,
) -> Result<Answer, NoMemory>
    requires number { 1 ≤ k }
    requires sound { IsSound mol.now }
    ensures { IfOk result (IsAccepted to k mol.now name.now headers) }
{
    match to {
        Target::Smi => smiles(alloc, k, mol, name, headers),
    }
}

/// The answer to record k, from 1, where it is refused.
fn refused(alloc: Global, k: u64, refusal: &Refusal) -> Result<Answer, NoMemory>
    requires { 1 ≤ k }
    ensures { IfOk result (λ answer. answer ≡ record { out = []; report = refused_line k refusal.now; refused = true }) }
{
    let mut report = Text::new(alloc);
    put_refused(alloc, &mut report, k, refusal)?;
    Ok(Answer {
        out: Text::new(alloc),
        report,
        refused: true,
    })
}

/// The answer to record k, from 1, where it is one of an SD file and its table can be read.
#[tactic(auto, using(crate::proofs::Answering::table_written, crate::proofs::Answering::table_none_shown))]
fn table_answer(
    alloc: Global,
    k: u64,
    given: &Given<'_>,
    mol: &Mol,
    name: &Text,
    headers: u32,
    to: Target,
) -> Result<Answer, NoMemory>
    requires number { 1 ≤ k }
    requires given { IsGiven given.now }
    requires read { IsTableRead (record_of given.now) mol.now name.now headers }
    ensures answer { IfOk result (λ r. IsAnswer to k (record_of given.now) record { out = r.out; report = r.report }) }
    ensures refused { IfOk result (λ r. IsTrue r.refused ↔ IsShown to (record_of given.now)) }
{
    let answer = accepted(alloc, k, mol, name.as_slice(), headers, to)?;
    Ok(answer)
}

/// The answer to record k, from 1, by what it is read as.
fn answer_read(
    alloc: Global,
    k: u64,
    given: &Given<'_>,
    read: &RecordRead,
    to: Target,
) -> Result<Answer, NoMemory>
    requires number { 1 ≤ k }
    requires given { IsGiven given.now }
    requires read { IsReadAs (record_of given.now) read.now }
    ensures answer { IfOk result (λ r. IsAnswer to k (record_of given.now) record { out = r.out; report = r.report }) }
    ensures refused { IfOk result (λ r. IsTrue r.refused ↔ IsShown to (record_of given.now)) }
{
    match read {
        RecordRead::Stands { mol, name, .. } => {
            let answer = accepted(alloc, k, mol, name_of(given, *name), 0, to)?;
            Ok(answer)
        }
        RecordRead::Table { mol, name, headers } => {
            let answer = table_answer(alloc, k, given, mol, name, *headers, to)?;
            Ok(answer)
        }
        RecordRead::Refused(refusal, _) => {
            let answer = refused(alloc, k, refusal)?;
            Ok(answer)
        }
    }
}

/// The answer to record k, from 1.
pub fn answer_record(
    alloc: Global,
    k: u64,
    given: &Given<'_>,
    to: Target,
) -> Result<Answer, NoMemory>
    requires number { 1 ≤ k }
    requires given { IsGiven given.now }
    ensures answer { IfOk result (λ r. IsAnswer to k (record_of given.now) record { out = r.out; report = r.report }) }
    ensures refused { IfOk result (λ r. IsTrue r.refused ↔ IsShown to (record_of given.now)) }
{
    let read = read_record(alloc, given)?;
    let answer = answer_read(alloc, k, given, &read, to)?;
    Ok(answer)
}
