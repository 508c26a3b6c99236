ghost use Rattle.std.specs.Prelude.{◌≡◌, ◌≤◌, ◌<◌, ◌^◌, ◌++◌, length, unsigned_abs, IfOk, IfSome};
ghost use Rattle.ct_sd.specs.Faults.{first_of, faults_at};
ghost use Rattle.ct_sd.specs.Bonds.{type_shows};
ghost use Rattle.ct_v3000.specs.Keys.{keys_show};
ghost use Rattle.ct_v3000.specs.AtomLines.{number_in};
ghost use Rattle.ct_v3000.specs.BondLines.{is_type, type_range_shows, bond_type_in, both, ends_in, ends_show, pair_list, first_end, second_end, mark_by, configuration_in, bond_numbers_show, bond_key_words, bond_line_shows, bond_of};

use crate::atom_line::{note_number, number_in};
use crate::indices::AtomIndices;
use crate::key::{Keys, said};
use crate::number::Grammar;
use crate::words::Words;
use ct_sd::{DrawMark, FirstFault, JoinedPairs, TableBond, note_bond_type};
use mc_base::{Kind, NoMemory};

fn is_type(number: u64) -> bool
    ensures { result ≡ is_type number }
{
    1 <= number && number <= 10
}

/// The type of a bond, and 0 where it is none.
#[tactic(auto, unfolding(crate::specs::BondLines::bond_type_in))]
fn bond_type_in(words: &Words<'_>) -> u32
    ensures value { result ≡ bond_type_in words.now }
    ensures few { result ≤ 10 }
{
    let number = number_in(words, 1);
    if is_type(number) { number as u32 } else { 0 }
}

/// Notes a type that is none.
#[tactic(auto, unfolding(crate::specs::BondLines::type_range_shows))]
fn note_type_range(words: &Words<'_>, place: u32, faults: &mut FirstFault)
    ensures { faults.new.fault ≡ first_of faults.old.fault (faults_at place (type_range_shows words.now)) }
{
    faults.note_if(!is_type(number_in(words, 1)), Kind::BadField, place);
}

/// Notes what the numbers of a bond line show.
#[tactic(auto, using(crate::proofs::KindLists::four_shown), unfolding(crate::specs::BondLines::bond_numbers_show))]
fn note_numbers(words: &Words<'_>, place: u32, faults: &mut FirstFault)
    ensures { faults.new.fault ≡ first_of faults.old.fault (faults_at place (bond_numbers_show words.now)) }
{
    note_number(words, 0, place, faults);
    note_type_range(words, place, faults);
    note_number(words, 2, place, faults);
    note_number(words, 3, place, faults);
}

fn both(first: Option<u32>, second: Option<u32>) -> Option<(u32, u32)>
    ensures { result ≡ both first second }
{
    match (first, second) {
        (Some(first), Some(second)) => Some((first, second)),
        _ => None,
    }
}

/// The two atoms of a bond, where both are there.
#[tactic(auto, unfolding(crate::specs::BondLines::ends_in))]
fn ends_in(indices: &AtomIndices, words: &Words<'_>) -> Option<(u32, u32)>
    requires { length indices.now < 2 ^ 32 }
    ensures { result ≡ ends_in indices.now words.now }
{
    both(
        indices.number(number_in(words, 2)),
        indices.number(number_in(words, 3)),
    )
}

/// Notes what two atoms show behind those that are joined before them.
fn note_ends(before: &JoinedPairs, ends: Option<(u32, u32)>, place: u32, faults: &mut FirstFault)
    ensures { faults.new.fault ≡ first_of faults.old.fault (faults_at place (ends_show before.now ends)) }
{
    match ends {
        Some(pair) => faults.note_if(
            pair.0 == pair.1 || before.contains(pair),
            Kind::BondPair,
            place,
        ),
        None => faults.note(Kind::AtomNumber, place),
    }
}

/// Joins two atoms that are there.
fn join(joined: &mut JoinedPairs, ends: Option<(u32, u32)>) -> Result<(), NoMemory>
    ensures { IfOk result (λ _. joined.new ≡ joined.old ++ pair_list ends) }
{
    match ends {
        Some(pair) => joined.push(pair),
        None => Ok(()),
    }
}

fn first_end(ends: Option<(u32, u32)>) -> u32
    ensures { result ≡ first_end ends }
{
    match ends {
        Some(pair) => pair.0,
        None => 0,
    }
}

fn second_end(ends: Option<(u32, u32)>) -> u32
    ensures { result ≡ second_end ends }
{
    match ends {
        Some(pair) => pair.1,
        None => 0,
    }
}

/// What a configuration says of a bond of this type.
fn mark_by(bond_type: u32, configuration: u64) -> DrawMark
    ensures { result ≡ mark_by bond_type configuration }
{
    match (bond_type, configuration) {
        (1, 1) => DrawMark::Up,
        (1, 2) => DrawMark::Wavy,
        (1, 3) => DrawMark::Down,
        (2, 2) => DrawMark::Either,
        _ => DrawMark::Plain,
    }
}

#[tactic(auto, unfolding(crate::specs::BondLines::configuration_in))]
fn configuration_in(keys: &Words<'_>) -> u64
    ensures { result ≡ configuration_in keys.now }
{
    said(keys, b"CFG=", Grammar::Configuration)
        .unwrap_or(0)
        .unsigned_abs()
}

/// Notes what the words of a bond line show by themselves.
#[tactic(auto, using(crate::proofs::KindLists::two_shown))]
fn note_words(words: &Words<'_>, place: u32, faults: &mut FirstFault)
    ensures { faults.new.fault ≡ first_of (first_of (first_of faults.old.fault (faults_at place (bond_numbers_show words.now))) (faults_at place (keys_show Keys.OfBonds (bond_key_words words.now)))) (faults_at place (type_shows (bond_type_in words.now))) }
{
    note_numbers(words, place, faults);
    Keys::OfBonds.note(&words.behind(4), place, faults);
    note_bond_type(bond_type_in(words), place, faults);
}

/// Reads a bond line, and notes what it shows behind those that are joined before it; its two atoms are then joined.
#[tactic(auto, using(crate::proofs::KindLists::four_shown), unfolding(crate::specs::BondLines::bond_line_shows, crate::specs::BondLines::bond_of))]
pub fn read_bond_line(
    words: &Words<'_>,
    place: u32,
    indices: &AtomIndices,
    joined: &mut JoinedPairs,
    faults: &mut FirstFault,
) -> Result<TableBond, NoMemory>
    requires { length indices.now < 2 ^ 32 }
    ensures value { IfOk result (λ bond. bond ≡ bond_of place indices.now words.now) }
    ensures joins { IfOk result (λ _. joined.new ≡ joined.old ++ pair_list (ends_in indices.now words.now)) }
    ensures shows { IfOk result (λ _. faults.new.fault ≡ first_of faults.old.fault (faults_at place (bond_line_shows indices.now joined.old words.now))) }
{
    note_words(words, place, faults);
    let ends = ends_in(indices, words);
    note_ends(joined, ends, place, faults);
    join(joined, ends)?;
    let bond_type = bond_type_in(words);
    Ok(TableBond {
        first: first_end(ends),
        second: second_end(ends),
        order: bond_type as u8,
        mark: mark_by(bond_type, configuration_in(&words.behind(4))),
        line: place,
    })
}
