//! What is wrong with the atoms of a table.
ghost use Rattle.std.specs.Prelude.{◌≡◌, ℕ, ◌+◌, ◌≤◌, ◌<◌, ◌&&◌, not, nat_abs, nat_lt, length, get_or, Some};
ghost use Rattle.ct_sd.specs.Faults.{first_of, faults_at};
ghost use Rattle.mc_mol.specs.declared.limits.TheConstants.{CHARGE_LIMIT, CLASS_LIMIT, ISOTOPE_LIMIT};
ghost use Rattle.mc_mol.specs.Limits.{is_hydrogen_with_more, is_over};
ghost use Rattle.mc_mol.specs.Molecule.{bond_sum};
ghost use Rattle.ct_geometry.specs.TableFaults.{atom_faults, atom_shows, falls_short, is_coordinate, ring_faults, valence_shows, value_shows};
ghost use Rattle.ct_geometry.specs.Tables.{atom_of, hydrogens_of};

use crate::table_atoms::hydrogens_of;
use ct_sd::{FirstFault, TableAtom};
use mc_base::Kind;
use mc_elements::Element;
use mc_mol::{
    Bond, CHARGE_LIMIT, CLASS_LIMIT, GREATEST_COORDINATE, HYDROGEN_LIMIT, ISOTOPE_LIMIT,
    LEAST_COORDINATE, RING_LIMIT, VALENCE_LIMIT,
};

/// Notes too many independent rings.
pub fn note_rings(rings: u32, faults: &mut FirstFault)
    ensures { faults.new.fault ≡ first_of faults.old.fault (ring_faults rings) }
{
    faults.note_if(rings > RING_LIMIT, Kind::LimitRings, rings);
}

fn is_coordinate(z: i64) -> bool
    ensures { result ≡ is_coordinate z }
{
    LEAST_COORDINATE <= z && z <= GREATEST_COORDINATE
}

fn has_high_isotope(atom: TableAtom) -> bool
    ensures { result ≡ nat_lt ISOTOPE_LIMIT atom.isotope }
{
    atom.isotope > u32::from(ISOTOPE_LIMIT)
}

fn has_high_class(atom: TableAtom) -> bool
    ensures { result ≡ nat_lt CLASS_LIMIT atom.class }
{
    atom.class > u32::from(CLASS_LIMIT)
}

fn has_high_charge(atom: TableAtom) -> bool
    ensures { result ≡ nat_lt CHARGE_LIMIT (nat_abs atom.charge) }
{
    atom.charge.unsigned_abs() > u32::from(CHARGE_LIMIT)
}

fn is_out_of_the_drawing(atom: TableAtom) -> bool
    ensures { result ≡ not (is_coordinate atom.x && is_coordinate atom.y) }
{
    !(is_coordinate(atom.x) && is_coordinate(atom.y))
}

/// Notes what the values of an atom show that stand on its own line.
#[tactic(auto, using(crate::proofs::Noted::first_of_four))]
fn note_values(atom: TableAtom, place: u32, faults: &mut FirstFault)
    ensures { faults.new.fault ≡ first_of faults.old.fault (faults_at place (value_shows atom)) }
{
    faults.note_if(has_high_isotope(atom), Kind::LimitIsotope, place);
    faults.note_if(has_high_class(atom), Kind::LimitClass, place);
    faults.note_if(has_high_charge(atom), Kind::LimitCharge, place);
    faults.note_if(is_out_of_the_drawing(atom), Kind::LimitCoordinate, place);
}

/// Whether the valence field of an atom is below this bond sum.
fn falls_short(valence: Option<u8>, sum: u32) -> bool
    ensures { result ≡ falls_short valence sum }
{
    match valence {
        Some(valence) => u32::from(valence) < sum,
        None => false,
    }
}

/// Whether an atom with this bond sum is above the limit of valence.
fn is_over(atom: TableAtom, sum: u32) -> bool
    requires { sum ≤ 65535 }
    ensures { result ≡ is_over (Some (atom_of atom sum)) sum }
{
    sum + u32::from(hydrogens_of(atom, sum)) > VALENCE_LIMIT
}

/// Whether an atom with this bond sum is a hydrogen that has hydrogens.
fn is_hydrogen_with_more(atom: TableAtom, sum: u32) -> bool
    ensures { result ≡ is_hydrogen_with_more (Some (atom_of atom sum)) }
{
    match atom.element {
        Element::H => hydrogens_of(atom, sum) > 0,
        _ => false,
    }
}

/// Notes what the hydrogens of an atom and this bond sum show.
#[tactic(auto, using(crate::proofs::Noted::first_of_four))]
fn note_valence(atom: TableAtom, sum: u32, place: u32, faults: &mut FirstFault)
    requires { sum ≤ 65535 }
    ensures { faults.new.fault ≡ first_of faults.old.fault (faults_at place (valence_shows atom sum)) }
{
    let hydrogens = hydrogens_of(atom, sum);
    faults.note_if(hydrogens > HYDROGEN_LIMIT, Kind::LimitHydrogens, place);
    faults.note_if(falls_short(atom.valence, sum), Kind::ValenceShort, place);
    faults.note_if(is_over(atom, sum), Kind::LimitValence, place);
    faults.note_if(
        is_hydrogen_with_more(atom, sum),
        Kind::HydrogenOnHydrogen,
        place,
    );
}

#[tactic(auto, using(ct_sd::proofs::First::first_of_two))]
fn note_atom(atom: TableAtom, sum: u32, place: u32, faults: &mut FirstFault)
    requires { sum ≤ 65535 }
    ensures { faults.new.fault ≡ first_of faults.old.fault (faults_at place (atom_shows atom sum)) }
{
    note_values(atom, place, faults);
    note_valence(atom, sum, place, faults);
}

/// Notes what is wrong with the atoms of a table, with these bond sums.
pub fn note_atoms(bonds: &[Bond], sums: &[u32], atoms: &[TableAtom], faults: &mut FirstFault)
    requires few { length atoms.now ≤ 999 }
    requires count { length sums.now ≡ length atoms.now }
    requires small { (k : ℕ) → get_or sums.now k 0 ≤ 65535 }
    requires sums { (k : ℕ) → k < length atoms.now → get_or sums.now k 0 ≡ bond_sum bonds.now k }
    ensures { faults.new.fault ≡ first_of faults.old.fault (atom_faults bonds.now 0 atoms.now) }
{
    for (k, atom) in atoms.iter().enumerate() {
        note_atom(*atom, sums[k], k as u32 + 1, faults);
    }
}
