ghost use Rattle.std.specs.Prelude.{◌≡◌, ◌≤◌, ◌<◌, ◌++◌, [], ◌∷◌, unsigned_abs, IfOk};
ghost use Rattle.ct_sd.specs.Faults.{first_of, faults_at};
ghost use Rattle.ct_sd.specs.Fields.{value, after_fields};
ghost use Rattle.ct_v2000.specs.BondLines.{bond_line_shows, pair_shows, pair_in, type_in, mark_of, bond_of, is_named, stereo_field, ends_fields, kind_fields};

use crate::fields::{CENTRE, FIRST, SECOND, STEREO, TOPOLOGY, TYPE};
use ct_sd::{DrawMark, FirstFault, JoinedPairs, TableBond, note_bond_type};
use mc_base::{Kind, NoMemory};

/// The type of a bond, and how it is drawn.
#[derive(Clone, Copy)]
struct Drawn {
    bond_type: u32,
    stereo: u32,
}

/// The numbers of the two atoms of a bond, as they are written.
#[tactic(auto, unfolding(crate::specs::BondLines::pair_in))]
fn read_ends(line: &[u8], place: u32, faults: &mut FirstFault) -> (u32, u32)
    ensures pair { result ≡ pair_in line.now }
    ensures shows { faults.new.fault ≡ after_fields place line.now faults.old.fault ends_fields }
{
    let first = FIRST.take_count(line, place, faults);
    let second = SECOND.take_count(line, place, faults);
    (first, second)
}

#[tactic(auto, unfolding(crate::specs::BondLines::type_in))]
fn read_drawn(line: &[u8], place: u32, faults: &mut FirstFault) -> Drawn
    ensures type_is { result.bond_type ≡ type_in line.now }
    ensures few_types { result.bond_type ≤ 10 }
    ensures stereo { result.stereo ≡ unsigned_abs (value stereo_field line.now) }
    ensures shows { faults.new.fault ≡ after_fields place line.now faults.old.fault kind_fields }
{
    let bond_type = TYPE.take_count(line, place, faults);
    let stereo = STEREO.take_count(line, place, faults);
    TOPOLOGY.take(line, place, faults);
    CENTRE.take(line, place, faults);
    Drawn { bond_type, stereo }
}

/// Whether an atom is there; its number counts from 1.
pub fn is_named(atoms: u32, number: u32) -> bool
    ensures { result ≡ is_named atoms number }
{
    1 <= number && number <= atoms
}

/// Notes what the two atoms of a bond show behind those that are joined before it.
fn note_pair(
    atoms: u32,
    before: &JoinedPairs,
    pair: (u32, u32),
    place: u32,
    faults: &mut FirstFault,
)
    ensures { faults.new.fault ≡ first_of faults.old.fault (faults_at place (pair_shows atoms before.now pair)) }
{
    if !is_named(atoms, pair.0) || !is_named(atoms, pair.1) {
        faults.note(Kind::AtomNumber, place);
    } else if pair.0 == pair.1 || before.contains(pair) {
        faults.note(Kind::BondPair, place);
    }
}

/// What a stereo field says of a bond of this type.
fn mark_of(bond_type: u32, stereo: u32) -> DrawMark
    ensures { result ≡ mark_of bond_type stereo }
{
    match (bond_type, stereo) {
        (1, 1) => DrawMark::Up,
        (1, 6) => DrawMark::Down,
        (1, 4) => DrawMark::Wavy,
        (2, 3) => DrawMark::Either,
        _ => DrawMark::Plain,
    }
}

/// Reads a bond line, and notes what it shows behind those that are joined before it; its two atoms are then joined.
#[tactic(auto, using(crate::proofs::BondBlock::line_parts), unfolding(crate::specs::BondLines::bond_of))]
pub fn read_bond_line(
    line: &[u8],
    place: u32,
    atoms: u32,
    joined: &mut JoinedPairs,
    faults: &mut FirstFault,
) -> Result<TableBond, NoMemory>
    ensures value { IfOk result (λ bond. bond ≡ bond_of place line.now) }
    ensures joins { IfOk result (λ _. joined.new ≡ joined.old ++ pair_in line.now ∷ []) }
    ensures shows { IfOk result (λ _. faults.new.fault ≡ first_of faults.old.fault (faults_at place (bond_line_shows atoms joined.old line.now))) }
{
    let pair = read_ends(line, place, faults);
    let drawn = read_drawn(line, place, faults);
    note_bond_type(drawn.bond_type, place, faults);
    note_pair(atoms, joined, pair, place, faults);
    joined.push(pair)?;
    Ok(TableBond {
        first: pair.0.saturating_sub(1),
        second: pair.1.saturating_sub(1),
        order: drawn.bond_type as u8,
        mark: mark_of(drawn.bond_type, drawn.stereo),
        line: place,
    })
}
