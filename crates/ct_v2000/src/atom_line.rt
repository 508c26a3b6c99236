ghost use Rattle.std.specs.Prelude.{◌≡◌, ◌<◌, ◌≤◌, unsigned_abs};
ghost use Rattle.ct_sd.specs.Faults.{first_of, faults_at};
ghost use Rattle.ct_sd.specs.Fields.{value, after_fields};
ghost use Rattle.ct_v2000.specs.AtomParts.{atom_by};
ghost use Rattle.ct_v2000.specs.AtomLines.{atom_line_shows, atom_line_of, charge_of_code, isotope_by, valence_marked, symbol_in, code_field, difference_field, x_field, y_field, z_field, mapping_field, valence_field, place_fields, middle_fields, last_fields};

use crate::fields::{
    CHANGE, CODE, DIFFERENCE, HYDROGEN_QUERY, INVERSION, MAPPING, VALENCE, X, Y, Z,
};
use ct_sd::{FirstFault, Symbol, TableAtom, trimmed};
use mc_elements::reference_mass;

/// What an atom line gives by itself: the atom without a charge and with the isotope of its symbol, and what property
/// lines may replace.
#[derive(Clone, Copy, Debug, PartialEq, Eq)]
pub struct AtomLine {
    pub atom: TableAtom,
    /// the charge of the charge code; none where the code says a radical
    pub charge: Option<i32>,
    /// the isotope of symbol and mass difference; none where the difference says no mass
    pub isotope: Option<u32>,
}

/// Where an atom stands.
#[derive(Clone, Copy)]
struct Place {
    x: i64,
    y: i64,
    z: i64,
}

/// What the fields behind the symbol say, up to the valence.
#[derive(Clone, Copy)]
struct Middle {
    difference: i64,
    code: u32,
    valence: u32,
}

/// What an atom line says.
#[derive(Clone, Copy)]
struct Parts {
    at: Place,
    middle: Middle,
    class: u32,
    symbol: Symbol,
}

impl AtomLine {
    /// Reads an atom line, and notes what it shows.
    pub fn read(line: &[u8], place: u32, faults: &mut FirstFault) -> AtomLine
        ensures value { result ≡ atom_line_of place line.now }
        ensures shows { faults.new.fault ≡ first_of faults.old.fault (faults_at place (atom_line_shows line.now)) }
    {
        let parts = read_parts(line, place, faults);
        AtomLine {
            atom: atom_of(parts, place),
            charge: charge_of_code(parts.middle.code),
            isotope: isotope_of(parts),
        }
    }
}

/// Reads the fields of an atom line, and notes what they show.
fn read_parts(line: &[u8], place: u32, faults: &mut FirstFault) -> Parts
    ensures x { result.at.x ≡ value x_field line.now }
    ensures y { result.at.y ≡ value y_field line.now }
    ensures z { result.at.z ≡ value z_field line.now }
    ensures difference { result.middle.difference ≡ value difference_field line.now }
    ensures few_differences { unsigned_abs result.middle.difference < 100 }
    ensures code { result.middle.code ≡ unsigned_abs (value code_field line.now) }
    ensures few_codes { result.middle.code ≤ 7 }
    ensures valence { result.middle.valence ≡ unsigned_abs (value valence_field line.now) }
    ensures few_valences { result.middle.valence ≤ 15 }
    ensures class { result.class ≡ unsigned_abs (value mapping_field line.now) }
    ensures symbol { result.symbol ≡ symbol_in line.now }
    ensures shows { faults.new.fault ≡ first_of faults.old.fault (faults_at place (atom_line_shows line.now)) }
{
    let at = read_place(line, place, faults);
    let middle = read_middle(line, place, faults);
    let class = read_last(line, place, faults);
    let symbol = symbol_in(line);
    symbol.note(place, faults);
    Parts {
        at,
        middle,
        class,
        symbol,
    }
}

fn read_place(line: &[u8], place: u32, faults: &mut FirstFault) -> Place
    ensures x { result.x ≡ value x_field line.now }
    ensures y { result.y ≡ value y_field line.now }
    ensures z { result.z ≡ value z_field line.now }
    ensures shows { faults.new.fault ≡ after_fields place line.now faults.old.fault place_fields }
{
    let x = X.take(line, place, faults);
    let y = Y.take(line, place, faults);
    let z = Z.take(line, place, faults);
    Place { x, y, z }
}

fn read_middle(line: &[u8], place: u32, faults: &mut FirstFault) -> Middle
    ensures difference { result.difference ≡ value difference_field line.now }
    ensures few_differences { unsigned_abs result.difference < 100 }
    ensures code { result.code ≡ unsigned_abs (value code_field line.now) }
    ensures few_codes { result.code ≤ 7 }
    ensures valence { result.valence ≡ unsigned_abs (value valence_field line.now) }
    ensures few_valences { result.valence ≤ 15 }
    ensures shows { faults.new.fault ≡ after_fields place line.now faults.old.fault middle_fields }
{
    let difference = DIFFERENCE.take(line, place, faults);
    let code = CODE.take_count(line, place, faults);
    HYDROGEN_QUERY.take(line, place, faults);
    let valence = VALENCE.take_count(line, place, faults);
    Middle {
        difference,
        code,
        valence,
    }
}

/// The mapping number, and what the two fields behind it show.
fn read_last(line: &[u8], place: u32, faults: &mut FirstFault) -> u32
    ensures class { result ≡ unsigned_abs (value mapping_field line.now) }
    ensures shows { faults.new.fault ≡ after_fields place line.now faults.old.fault last_fields }
{
    let class = MAPPING.take_count(line, place, faults);
    INVERSION.take(line, place, faults);
    CHANGE.take(line, place, faults);
    class
}

#[tactic(auto, unfolding(crate::specs::AtomLines::symbol_in))]
fn symbol_in(line: &[u8]) -> Symbol
    ensures { result ≡ symbol_in line.now }
{
    Symbol::of(trimmed(line, 32, 34))
}

fn atom_of(parts: Parts, place: u32) -> TableAtom
    requires { parts.middle.valence ≤ 15 }
    ensures { result ≡ atom_by parts place }
{
    TableAtom {
        element: parts.symbol.element(),
        isotope: parts.symbol.isotope(),
        charge: 0,
        class: parts.class,
        valence: valence_marked(parts.middle.valence),
        x: parts.at.x,
        y: parts.at.y,
        z: parts.at.z,
        line: place,
    }
}

/// A valence of 0 isn't marked, and 15 is zero.
fn valence_marked(valence: u32) -> Option<u8>
    requires { valence ≤ 15 }
    ensures { result ≡ valence_marked valence }
{
    match valence {
        0 => None,
        15 => Some(0),
        _ => Some(valence as u8),
    }
}

/// The charge of a charge code; none where it says a radical.
fn charge_of_code(code: u32) -> Option<i32>
    requires { code ≤ 7 }
    ensures { result ≡ charge_of_code code }
{
    match code {
        0 => Some(0),
        1 => Some(3),
        2 => Some(2),
        3 => Some(1),
        4 => None,
        5 => Some(-1),
        6 => Some(-2),
        _ => Some(-3),
    }
}

/// The isotope of the symbol and the mass difference; none where the difference says no mass.
fn isotope_of(parts: Parts) -> Option<u32>
    requires { unsigned_abs parts.middle.difference < 100 }
    ensures { result ≡ isotope_by parts.symbol parts.middle.difference }
{
    if parts.middle.difference == 0 {
        return Some(parts.symbol.isotope());
    }
    if parts.symbol.isotope() != 0 {
        return None;
    }
    let reference = reference_mass(parts.symbol.element())?;
    let mass = i64::from(reference) + parts.middle.difference;
    if mass >= 1 {
        Some(mass.unsigned_abs() as u32)
    } else {
        None
    }
}
