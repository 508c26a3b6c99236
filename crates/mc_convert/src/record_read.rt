ghost use Rattle.std.specs.Prelude.{◌≡◌, ◌≤◌, IfOk};
ghost use Rattle.mc_convert.specs.Records.{IsGiven, IsGivenLine, Line, Sd, name_in, record_of};
ghost use Rattle.mc_convert.specs.declared.formats.Target.{Target};
ghost use Rattle.mc_convert.specs.Answers.{Shows};
ghost use Rattle.mc_convert.specs.Findings.{IsReadAs, NameStands};

use crate::given::Given;
use crate::sd_read::{SdRead, read_sd};
use ct_geometry::CtRead;
use ct_sd::Record;
use mc_base::{Kind, NoMemory, Refusal, Span, Stop, Text};
use mc_mol::Mol;
use smi_graph::Skeleton;
use smi_mean::{read_line_skeleton, read_named};
use std::alloc::Global;

/// A record as it is read.
#[derive(Drop)]
pub enum RecordRead {
    /// it stands for this molecule, its text has this skeleton, and its name stands here
    Stands {
        mol: Mol,
        skeleton: Skeleton,
        name: Span,
    },
    /// a record of an SD file: it stands for this molecule, and has this name and so many headers
    Table {
        mol: Mol,
        name: Text,
        headers: u32,
    },
    /// it shows this refusal; where its atoms have no placement, the skeleton of its text is kept
    Refused(Refusal, Option<Skeleton>),
}

/// Reads a record.
#[tactic(auto, using(crate::proofs::Answering::long_read, crate::proofs::Answering::long_sd_read))]
pub fn read_record(alloc: Global, given: &Given<'_>) -> Result<RecordRead, NoMemory>
    requires { IsGiven given.now }
    ensures { IfOk result (IsReadAs (record_of given.now)) }
{
    match given {
        Given::Line(text) => {
            let read = read_line(alloc, text)?;
            Ok(read)
        }
        Given::TooLong => Ok(RecordRead::Refused(Refusal::at(alloc, Kind::LineTooLong, 1), None)),
        Given::Sd(record) => {
            let read = read_table(alloc, record)?;
            Ok(read)
        }
        Given::SdTooLong(fault) => Ok(RecordRead::Refused(
            Refusal::at(alloc, fault.kind, fault.place),
            None,
        )),
    }
}

/// Reads a record of an SD file.
#[tactic(auto, using(crate::proofs::Answering::table_read, crate::proofs::Answering::table_refused))]
fn read_table(alloc: Global, given: &Record<'_>) -> Result<RecordRead, NoMemory>
    ensures { IfOk result (IsReadAs (Sd given.now)) }
{
    match read_sd(alloc, given) {
        Ok(read) => Ok(table_of(read)),
        Err(Stop::Refused(refusal)) => Ok(RecordRead::Refused(refusal, None)),
        Err(Stop::NoMemory) => Err(NoMemory),
    }
}

/// What is kept of a table that is read.
fn table_of(read: SdRead) -> RecordRead
    ensures { result ≡ RecordRead.Table read.ct.mol read.name read.headers }
{
    let SdRead { ct, name, headers } = read;
    let CtRead { mol, .. } = ct;
    RecordRead::Table { mol, name, headers }
}

/// Reads a line of SMILES.
fn read_line(alloc: Global, text: &[u8]) -> Result<RecordRead, NoMemory>
    requires { IsGivenLine text.now }
    ensures { IfOk result (IsReadAs (Line text.now)) }
{
    match read_named(alloc, text) {
        Ok(read) => Ok(RecordRead::Stands {
            mol: read.mol,
            skeleton: read.skeleton,
            name: read.name,
        }),
        Err(Stop::Refused(refusal)) => {
            let read = refused(alloc, text, refusal)?;
            Ok(read)
        }
        Err(Stop::NoMemory) => Err(NoMemory),
    }
}

/// A line of SMILES that is refused.
fn refused(alloc: Global, text: &[u8], refusal: Refusal) -> Result<RecordRead, NoMemory>
    requires given { IsGivenLine text.now }
    requires shows { (to : Target) → Shows to (Line text.now) refusal }
    ensures { IfOk result (IsReadAs (Line text.now)) }
{
    match refusal.kind {
        Kind::NoPlacement => {
            let read = unplaced(alloc, text, refusal)?;
            Ok(read)
        }
        _ => Ok(RecordRead::Refused(refusal, None)),
    }
}

/// A line of SMILES whose atoms have no placement.
fn unplaced(alloc: Global, text: &[u8], refusal: Refusal) -> Result<RecordRead, NoMemory>
    requires given { IsGivenLine text.now }
    requires shows { (to : Target) → Shows to (Line text.now) refusal }
    requires kind { refusal.kind ≡ Kind.NoPlacement }
    ensures { IfOk result (IsReadAs (Line text.now)) }
{
    match read_line_skeleton(alloc, text) {
        Ok(skeleton) => Ok(RecordRead::Refused(refusal, Some(skeleton))),
        Err(Stop::NoMemory) => Err(NoMemory),
        Err(Stop::Refused(_)) => unreachable!(),
    }
}

/// The name of a record that was read.
pub fn name_of<'a>(given: &'a Given<'_>, name: Span) -> &'a [u8]
    requires { NameStands (record_of given.now) name }
    ensures { result.now ≡ name_in (record_of given.now) }
{
    match given {
        Given::Line(text) => &text[name.from as usize..name.to as usize],
        Given::TooLong | Given::Sd(_) | Given::SdTooLong(_) => &[],
    }
}
