ghost use Rattle.std.specs.Prelude.{◌≡◌, [], IfErr, IfOk, count_by};
ghost use Rattle.ct_sd.specs.Tables.{IsTable};
ghost use Rattle.ct_geometry.specs.Stands.{IsReadOf};
ghost use Rattle.ct_sd.specs.Faults.{IsRefused};
ghost use Rattle.smi_mean.specs.Sound.{IsSound};
ghost use Rattle.mc_convert.specs.SdRecords.{IsSdReadOf, IsSdRefused, IsSdTable, SaysStereo, record_faults};
ghost use Rattle.mc_convert.specs.Records.{is_header};

use crate::drawn_stereo::says_stereo;
use ct_geometry::{CtRead, read_ct};
use ct_sd::{DataLines, Record, Table, Version};
use mc_base::{Kind, Refusal, Stop, Text};
use std::alloc::Global;

/// What a record of an SD file is read as, where no kind stands in it.
#[derive(Drop)]
pub struct SdRead {
    pub ct: CtRead,
    pub name: Text,
    /// how many of its data lines are headers
    pub headers: u32,
}

fn is_header(line: &[u8]) -> bool
    ensures { result ≡ is_header line.now }
{
    match line.first() {
        Some(byte) => *byte == b'>',
        None => false,
    }
}

fn header_count(lines: &DataLines<'_>) -> u32
    ensures { result ≡ count_by is_header lines.now }
{
    let mut count = 0u32;
    for k in 0..lines.count() {
        if is_header(lines.line(k)) {
            count += 1;
        }
    }
    count
}

/// Reads the lines of a record: the table that they give, or the first kind that stands in them.
#[tactic(auto, using(crate::proofs::SdReading::read_by, crate::proofs::SdReading::read_as_v3000, crate::proofs::SdReading::refused_by, crate::proofs::SdReading::refused_as_v3000))]
fn read_lines(alloc: Global, given: &Record<'_>) -> Result<Table, Stop>
    ensures ok { IfOk result (IsSdTable given.now) }
    ensures sound { IfOk result IsTable }
    ensures err { IfErr result (IsRefused (record_faults given.now)) }
{
    match Version::of(given) {
        Version::V3000 => ct_v3000::read(alloc, given),
        Version::V2000 => ct_v2000::read(alloc, given),
        Version::Other => ct_v2000::read(alloc, given),
    }
}

/// Reads a record: what its table stands for, or the first kind that stands in its lines or in its table.
#[tactic(auto, using(crate::proofs::SdReading::lines_refused))]
pub fn read_sd(alloc: Global, given: &Record<'_>) -> Result<SdRead, Stop>
    ensures ok { IfOk result (IsSdReadOf given.now) }
    ensures sound { IfOk result (λ read. IsSound read.ct.mol) }
    ensures err { IfErr result (IsSdRefused given.now) }
{
    let table = read_lines(alloc, given)?;
    let ct = read_table(alloc, given, &table)?;
    let Table { name, .. } = table;
    Ok(SdRead {
        ct,
        name,
        headers: header_count(&given.tail()),
    })
}

/// The refusal of what isn't read today.
fn not_built(alloc: Global) -> Stop
    ensures { result ≡ Stop.Refused (record { kind = Kind.NotBuilt; place = 1; barrier = []; odd = 0 }) }
{
    Stop::Refused(Refusal::at(alloc, Kind::NotBuilt, 1))
}

/// Reads the table of a record, where its drawing says no stereo.
#[tactic(auto, using(crate::proofs::SdReading::stereo_refused, crate::proofs::SdReading::table_refused, crate::proofs::SdReading::ambiguous_refused, crate::proofs::DrawnStereo::is_plain, crate::proofs::DrawnStereo::says_none))]
fn read_table(alloc: Global, given: &Record<'_>, table: &Table) -> Result<CtRead, Stop>
    requires given { IsSdTable given.now table.now }
    requires sound { IsTable table.now }
    ensures ok { IfOk result (IsReadOf table.now) }
    ensures built { IfOk result (λ _. SaysStereo table.now → ⊥) }
    ensures plain { IfOk result (λ ct. IsSound ct.mol) }
    ensures err { IfErr result (IsSdRefused given.now) }
{
    match read_ct(alloc, table) {
        Ok(ct) => {
            if says_stereo(&ct, table.bonds.as_slice()) {
                return Err(not_built(alloc));
            }
            Ok(ct)
        }
        Err(Stop::Refused(refusal)) => match refusal.kind {
            Kind::AmbiguousCentre => Err(not_built(alloc)),
            _ => Err(Stop::Refused(refusal)),
        },
        Err(Stop::NoMemory) => Err(Stop::NoMemory),
    }
}
