ghost use Rattle.std.specs.Prelude.{◌≡◌, ◌≤◌, ◌<◌, ◌+◌, ◌*◌, [], length, None, true, IfOk, IfErr};
ghost use Rattle.ct_sd.specs.declared.head.Version.TheVariants.{V2000, V3000};
ghost use Rattle.ct_sd.specs.Faults.{IsRefused, first_of, faults_at, faults_of_lines};
ghost use Rattle.ct_sd.specs.Heads.{version_of, name_shows};
ghost use Rattle.ct_sd.specs.Tables.{IsTable};
ghost use Rattle.ct_v2000.specs.AtomLines.{atom_line_shows, atom_lines_of};
ghost use Rattle.ct_v2000.specs.BondLines.{bond_faults};
ghost use Rattle.ct_v2000.specs.Table.{record_faults, is_short, IsTableOf, table_atoms, table_bonds, bonds_from};
ghost use Rattle.ct_v2000.specs.Blocks.{still, HasCounts, IsRest};

use crate::atom_line::AtomLine;
use crate::blocks::{read_atoms, read_bonds, read_properties};
use crate::counts::{Counts, is_well_formed};
use crate::said::Said;
use ct_sd::{FirstFault, Record, Table, TableAtoms, TableBonds, Version, is_other_file};
use mc_base::{Kind, NoMemory, Stop, Text};
use std::alloc::Global;

/// Reads a record that isn't a V3000 record: its table, or the first kind that stands in it (`ShortRecord` to
/// `ThreeD` but for `EnhancedStereo`, `AtomNumber`, `BondPair`), at its least place.
#[tactic(auto, using(crate::proofs::SoundTables::read_is_sound))]
pub fn read(alloc: Global, given: &Record<'_>) -> Result<Table, Stop>
    requires { version_of given.now ≡ V3000 → ⊥ }
    ensures ok { IfOk result (IsTableOf given.now) }
    ensures sound { IfOk result IsTable }
    ensures err { IfErr result (IsRefused (record_faults given.now)) }
{
    if given.line_count() < 4 {
        return Err(too_short(alloc, given));
    }
    let mut faults = FirstFault::none();
    faults.note_if(is_other_file(given.line(0)), Kind::ReactionFile, 1);
    match Version::of(given) {
        Version::V2000 => read_counted(alloc, given, faults),
        _ => Err(faults.refuse(alloc, Kind::Version, 4)),
    }
}

/// The refusal of a record that ends too early.
#[tactic(auto, using(crate::proofs::Refusals::short_first))]
fn too_short(alloc: Global, given: &Record<'_>) -> Stop
    ensures { is_short given.now ≡ true → IsRefused (record_faults given.now) result }
{
    FirstFault::none().refuse(alloc, Kind::ShortRecord, given.line_count())
}

/// Reads line 4 of a V2000 record and what follows it.
fn read_counted(alloc: Global, given: &Record<'_>, faults: FirstFault) -> Result<Table, Stop>
    requires four { 4 ≤ length given.now }
    requires version { version_of given.now ≡ V2000 }
    requires noted { faults.fault ≡ first_of None (faults_at 1 (name_shows given.now)) }
    ensures ok { IfOk result (IsTableOf given.now) }
    ensures err { IfErr result (IsRefused (record_faults given.now)) }
{
    let line = given.line(3);
    if !is_well_formed(line) {
        return Err(faults.refuse(alloc, Kind::BadField, 4));
    }
    let mut faults = faults;
    let counts = Counts::read(line, &mut faults);
    read_blocks(alloc, given, counts, faults)
}

/// Reads what follows line 4.
fn read_blocks(
    alloc: Global,
    given: &Record<'_>,
    counts: Counts,
    faults: FirstFault,
) -> Result<Table, Stop>
    requires { HasCounts given.now counts faults.fault }
    ensures ok { IfOk result (IsTableOf given.now) }
    ensures err { IfErr result (IsRefused (record_faults given.now)) }
{
    if given.line_count() < counts.lines_before() {
        return Err(too_short(alloc, given));
    }
    let mut faults = faults;
    let lines = read_lines(alloc, given, counts, &mut faults)?;
    match read_rest(alloc, given, counts, &lines.atoms, &mut faults)? {
        Some(atoms) => accept(alloc, given, atoms, lines.bonds, faults),
        None => Err(too_short(alloc, given)),
    }
}

/// The lines that line 4 counts: atom lines, and the bonds of bond lines.
#[derive(Drop)]
struct Lines {
    atoms: Vec<AtomLine>,
    bonds: TableBonds,
}

fn read_lines(
    alloc: Global,
    given: &Record<'_>,
    counts: Counts,
    faults: &mut FirstFault,
) -> Result<Lines, NoMemory>
    requires within { 4 + counts.atoms + counts.bonds ≤ length given.now }
    requires few_atoms { counts.atoms ≤ 999 }
    requires few_bonds { counts.bonds ≤ 999 }
    ensures atoms { IfOk result (λ lines. lines.atoms.items ≡ atom_lines_of 5 (still 4 0 counts.atoms given.now)) }
    ensures bonds { IfOk result (λ lines. lines.bonds ≡ bonds_from (4 + counts.atoms + 1) (still (4 + counts.atoms) 0 counts.bonds given.now)) }
    ensures shows { IfOk result (λ _. faults.new.fault ≡ first_of (first_of faults.old.fault (faults_of_lines atom_line_shows 5 (still 4 0 counts.atoms given.now))) (bond_faults counts.atoms [] (4 + counts.atoms + 1) (still (4 + counts.atoms) 0 counts.bonds given.now))) }
{
    let atoms = read_atoms(alloc, given, counts.atoms, faults)?;
    let bonds = read_bonds(
        alloc,
        given,
        4 + counts.atoms,
        counts.bonds,
        counts.atoms,
        faults,
    )?;
    Ok(Lines { atoms, bonds })
}

/// Reads the property block, and gives the atoms with what it says of them; none where the block has no end.
fn read_rest(
    alloc: Global,
    given: &Record<'_>,
    counts: Counts,
    lines: &[AtomLine],
    faults: &mut FirstFault,
) -> Result<Option<TableAtoms>, NoMemory>
    requires within { 4 + counts.atoms + counts.bonds + counts.lists + 2 * counts.stexts ≤ length given.now }
    requires few_atoms { counts.atoms ≤ 999 }
    requires few_bonds { counts.bonds ≤ 999 }
    requires few_lists { counts.lists < 1000 }
    requires few_stexts { counts.stexts < 1000 }
    requires lines { length lines.now ≡ counts.atoms }
    ensures { IfOk result (λ atoms. IsRest given.now counts lines.now faults.old.fault atoms faults.new.fault) }
{
    let first = counts.lines_before();
    let mut said = Said::nothing(alloc, counts.atoms)?;
    if !read_properties(given, first, counts.atoms, &mut said, faults) {
        return Ok(None);
    }
    Ok(Some(said.finish(alloc, lines, faults)?))
}

/// The table of a record that was read to its end, where no fault was noted.
fn accept(
    alloc: Global,
    given: &Record<'_>,
    atoms: TableAtoms,
    bonds: TableBonds,
    faults: FirstFault,
) -> Result<Table, Stop>
    requires four { 4 ≤ length given.now }
    requires atoms { atoms ≡ table_atoms given.now }
    requires bonds { bonds ≡ table_bonds given.now }
    requires noted { first_of None (record_faults given.now) ≡ faults.fault }
    ensures ok { IfOk result (IsTableOf given.now) }
    ensures err { IfErr result (IsRefused (record_faults given.now)) }
{
    faults.accept(alloc)?;
    let name = Text::from_vec(given.line(0).to_vec(alloc)?);
    Ok(Table { atoms, bonds, name })
}
