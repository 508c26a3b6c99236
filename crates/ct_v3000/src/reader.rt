ghost use Rattle.std.specs.Prelude.{◌≡◌, ◌<◌, ◌≤◌, ◌^◌, length, Some, None, true, IfOk, IfErr};
ghost use Rattle.mc_base.specs.declared.kind.Kind.TheVariants.{LimitAtoms, LimitBonds};
ghost use Rattle.ct_sd.specs.declared.head.Version.TheVariants.{V3000};
ghost use Rattle.ct_sd.specs.Faults.{IsRefused, first_of};
ghost use Rattle.ct_sd.specs.Heads.{version_of};
ghost use Rattle.ct_sd.specs.Tables.{IsTable};
ghost use Rattle.ct_v3000.specs.Table.{record_faults, limit_faults, is_short, IsTableOf, table_atoms, table_bonds};
ghost use Rattle.ct_v3000.specs.Steps.{IsEnd, IsFew};

use crate::items::read_lines;
use crate::reading::Reading;
use ct_sd::{FirstFault, Record, Table, is_end_line, is_other_file};
use mc_base::{Kind, Stop, Text};
use std::alloc::Global;

/// The greatest number of atoms, and of bonds.
const LIMIT: usize = 999;

/// Reads a V3000 record: its table, or the first kind that stands in it (`ShortRecord`, `ReactionFile`, `BadField` to
/// `ThreeD` but for those of V2000 alone, `AtomNumber`, `BondPair`, `LimitAtoms`, `LimitBonds`), at its least place.
#[tactic(auto, using(crate::proofs::Sound::ok_is_sound))]
pub fn read(alloc: Global, given: &Record<'_>) -> Result<Table, Stop>
    requires { version_of given.now ≡ V3000 }
    ensures ok { IfOk result (IsTableOf given.now) }
    ensures sound { IfOk result IsTable }
    ensures err { IfErr result (IsRefused (record_faults given.now)) }
{
    match end_of_table(given) {
        Some(end) => read_before(alloc, given, end),
        None => Err(too_short(alloc, given)),
    }
}

/// The first line behind line 4 that ends the table, from 0.
fn end_of_table(given: &Record<'_>) -> Option<u32>
    requires { 4 ≤ length given.now }
    ensures end { IsEnd given.now result }
    ensures small { length given.now < 2 ^ 32 }
{
    let mut k = 4u32;
    while k < given.line_count() {
        if is_end_line(given.line(k)) {
            return Some(k);
        }
        k += 1;
    }
    None
}

/// The refusal of a record that ends too early.
#[tactic(auto, using(crate::proofs::Refusals::short_first))]
fn too_short(alloc: Global, given: &Record<'_>) -> Stop
    ensures { is_short given.now ≡ true → IsRefused (record_faults given.now) result }
{
    FirstFault::none().refuse(alloc, Kind::ShortRecord, given.line_count())
}

/// Reads a record whose table ends at a line, from 0.
fn read_before(alloc: Global, given: &Record<'_>, end: u32) -> Result<Table, Stop>
    requires small { length given.now < 2 ^ 32 }
    requires end { IsEnd given.now (Some end) }
    ensures ok { IfOk result (IsTableOf given.now) }
    ensures err { IfErr result (IsRefused (record_faults given.now)) }
{
    let mut reading = Reading::nothing(alloc);
    reading
        .faults
        .note_if(is_other_file(given.line(0)), Kind::ReactionFile, 1);
    read_lines(alloc, given, end, &mut reading)?;
    accept(alloc, given, reading)
}

/// The table of a record that was read to its end, where no fault was noted and neither limit is passed.
fn accept(alloc: Global, given: &Record<'_>, reading: Reading) -> Result<Table, Stop>
    requires header { 4 ≤ length given.now }
    requires small { length given.now < 2 ^ 32 }
    requires few { IsFew (length given.now) reading }
    requires atoms { reading.atoms ≡ table_atoms given.now }
    requires bonds { reading.bonds ≡ table_bonds given.now }
    requires noted { first_of None (record_faults given.now) ≡ first_of (first_of reading.faults.fault (limit_faults (length reading.atoms) LimitAtoms)) (limit_faults (length reading.bonds) LimitBonds) }
    ensures ok { IfOk result (IsTableOf given.now) }
    ensures err { IfErr result (IsRefused (record_faults given.now)) }
{
    let mut faults = reading.faults;
    note_limit(reading.atoms.len(), Kind::LimitAtoms, &mut faults);
    note_limit(reading.bonds.len(), Kind::LimitBonds, &mut faults);
    faults.accept(alloc)?;
    let name = Text::from_vec(given.line(0).to_vec(alloc)?);
    Ok(Table {
        atoms: reading.atoms,
        bonds: reading.bonds,
        name,
    })
}

/// Notes a count that is above the limit.
fn note_limit(count: usize, kind: Kind, faults: &mut FirstFault)
    requires { count < 2 ^ 32 }
    ensures { faults.new.fault ≡ first_of faults.old.fault (limit_faults count kind) }
{
    faults.note_if(count > LIMIT, kind, count as u32);
}
