ghost use Rattle.std.specs.Prelude.{◌≡◌, ◌≤◌, unsigned_abs, IfSome};
ghost use Rattle.ct_sd.specs.Fields.{or_zero};
ghost use Rattle.ct_sd.specs.Faults.{first_of, faults_at};
ghost use Rattle.ct_v3000.specs.Numbers.{or_none};
ghost use Rattle.ct_v3000.specs.AtomLines.{number_in, index_shows, begins_query, or_query, type_in, place_in, place_shows, places_show, number_shows, charge_in, isotope_in, valence_said, valence_in, fields_show, atom_key_words, atom_line_shows, atom_of};

use crate::key::{Keys, said};
use crate::number::{Grammar, held_amount, held_charge, unsigned};
use crate::words::Words;
use ct_sd::{FirstFault, Symbol, TableAtom};
use mc_base::Kind;
use mc_digits::read_fixed;

/// Where an atom stands.
#[derive(Clone, Copy)]
struct Point {
    x: i64,
    y: i64,
    z: i64,
}

/// What the words before the keys say, but for the index.
#[derive(Clone, Copy)]
struct Fields {
    symbol: Symbol,
    at: Point,
    class: u64,
}

/// The number that a word writes, and 0 where it writes none.
#[tactic(auto, unfolding(crate::specs::AtomLines::number_in))]
pub fn number_in(words: &Words<'_>, n: usize) -> u64
    ensures value { result ≡ number_in n words.now }
    ensures held { result ≤ 4294967296 }
{
    unsigned(words.word(n)).unwrap_or(0)
}

/// Notes a word that is no number.
#[tactic(auto, unfolding(crate::specs::AtomLines::number_shows))]
pub fn note_number(words: &Words<'_>, n: usize, place: u32, faults: &mut FirstFault)
    ensures { faults.new.fault ≡ first_of faults.old.fault (faults_at place (number_shows n words.now)) }
{
    match unsigned(words.word(n)) {
        Some(_) => {}
        None => faults.note(Kind::BadField, place),
    }
}

/// Notes an index that is out of range.
#[tactic(auto, unfolding(crate::specs::AtomLines::index_shows))]
fn note_index(words: &Words<'_>, place: u32, faults: &mut FirstFault)
    ensures { faults.new.fault ≡ first_of faults.old.fault (faults_at place (index_shows words.now)) }
{
    let index = number_in(words, 0);
    faults.note_if(
        !(1 <= index && index <= 4_294_967_295),
        Kind::BadField,
        place,
    );
}

fn begins_query(text: &[u8]) -> bool
    ensures { result ≡ begins_query text.now }
{
    text.starts_with(b"[") || text.starts_with(b"NOT") || text.starts_with(b"\"")
}

fn or_query(symbol: Symbol, query: bool) -> Symbol
    ensures { result ≡ or_query symbol query }
{
    match symbol {
        Symbol::Unknown => {
            if query {
                Symbol::Query
            } else {
                Symbol::Unknown
            }
        }
        _ => symbol,
    }
}

#[tactic(auto, unfolding(crate::specs::AtomLines::type_in))]
fn type_in(words: &Words<'_>) -> Symbol
    ensures { result ≡ type_in words.now }
{
    or_query(Symbol::of(words.word(1)), begins_query(words.word(1)))
}

fn or_zero(number: Option<i64>) -> i64
    ensures { result ≡ or_zero number }
{
    number.unwrap_or(0)
}

/// A coordinate; a word that is none is noted.
#[tactic(auto, unfolding(crate::specs::AtomLines::place_in, crate::specs::AtomLines::place_shows))]
fn read_coordinate(words: &Words<'_>, n: usize, place: u32, faults: &mut FirstFault) -> i64
    ensures value { result ≡ place_in n words.now }
    ensures shows { faults.new.fault ≡ first_of faults.old.fault (faults_at place (place_shows n words.now)) }
{
    let number = read_fixed(words.word(n));
    match number {
        Some(_) => {}
        None => faults.note(Kind::BadField, place),
    }
    or_zero(number)
}

#[tactic(auto, using(crate::proofs::KindLists::four_shown), unfolding(crate::specs::AtomLines::places_show))]
fn read_point(words: &Words<'_>, place: u32, faults: &mut FirstFault) -> Point
    ensures x { result.x ≡ place_in 2 words.now }
    ensures y { result.y ≡ place_in 3 words.now }
    ensures z { result.z ≡ place_in 4 words.now }
    ensures shows { faults.new.fault ≡ first_of faults.old.fault (faults_at place (places_show words.now)) }
{
    let x = read_coordinate(words, 2, place, faults);
    let y = read_coordinate(words, 3, place, faults);
    let z = read_coordinate(words, 4, place, faults);
    faults.note_if(z != 0, Kind::ThreeD, place);
    Point { x, y, z }
}

/// Reads the words before the keys, and notes what they show.
#[tactic(auto, using(crate::proofs::KindLists::four_shown), unfolding(crate::specs::AtomLines::fields_show))]
fn read_fields(words: &Words<'_>, place: u32, faults: &mut FirstFault) -> Fields
    ensures symbol { result.symbol ≡ type_in words.now }
    ensures x { result.at.x ≡ place_in 2 words.now }
    ensures y { result.at.y ≡ place_in 3 words.now }
    ensures z { result.at.z ≡ place_in 4 words.now }
    ensures class { result.class ≡ number_in 5 words.now }
    ensures shows { faults.new.fault ≡ first_of faults.old.fault (faults_at place (fields_show words.now)) }
{
    note_index(words, place, faults);
    let symbol = type_in(words);
    symbol.note(place, faults);
    let at = read_point(words, place, faults);
    note_number(words, 5, place, faults);
    Fields {
        symbol,
        at,
        class: number_in(words, 5),
    }
}

#[tactic(auto, unfolding(crate::specs::AtomLines::charge_in))]
fn charge_in(keys: &Words<'_>) -> i32
    ensures { result ≡ charge_in keys.now }
{
    held_charge(or_zero(said(keys, b"CHG=", Grammar::Signed)))
}

/// The isotope of a symbol, which a mass replaces.
#[tactic(auto, unfolding(crate::specs::AtomLines::isotope_in))]
fn isotope_in(symbol: Symbol, keys: &Words<'_>) -> u32
    ensures { result ≡ isotope_in symbol keys.now }
{
    match said(keys, b"MASS=", Grammar::Unsigned) {
        Some(mass) => held_amount(mass.unsigned_abs()),
        None => symbol.isotope(),
    }
}

/// A valence of 0 isn't marked, and -1 is zero.
fn valence_said(number: Option<i64>) -> Option<u8>
    requires { IfSome number (λ n. unsigned_abs n ≤ 14) }
    ensures { result ≡ valence_said number }
{
    match number? {
        0 => None,
        -1 => Some(0),
        n => Some(n.unsigned_abs() as u8),
    }
}

#[tactic(auto, unfolding(crate::specs::AtomLines::valence_in))]
fn valence_in(keys: &Words<'_>) -> Option<u8>
    ensures { result ≡ valence_in keys.now }
{
    valence_said(said(keys, b"VAL=", Grammar::Valence))
}

/// Reads an atom line, and notes what it shows.
#[tactic(auto, using(crate::proofs::KindLists::two_shown), unfolding(crate::specs::AtomLines::atom_line_shows, crate::specs::AtomLines::atom_of))]
pub fn read_atom_line(words: &Words<'_>, place: u32, faults: &mut FirstFault) -> TableAtom
    ensures value { result ≡ atom_of place words.now }
    ensures shows { faults.new.fault ≡ first_of faults.old.fault (faults_at place (atom_line_shows words.now)) }
{
    let fields = read_fields(words, place, faults);
    let keys = words.behind(6);
    Keys::OfAtoms.note(&keys, place, faults);
    TableAtom {
        element: fields.symbol.element(),
        isotope: isotope_in(fields.symbol, &keys),
        charge: charge_in(&keys),
        class: held_amount(fields.class),
        valence: valence_in(&keys),
        x: fields.at.x,
        y: fields.at.y,
        z: fields.at.z,
        line: place,
    }
}
