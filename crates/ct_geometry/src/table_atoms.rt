//! The atoms of a table with their hydrogens.
ghost use Rattle.std.specs.Prelude.{◌≡◌, ℕ, ◌+◌, ◌≤◌, ◌<◌, IfOk, All, length, get_or};
ghost use Rattle.std.specs.List.Sorted.{IsStrictlyIncreasing};
ghost use Rattle.mc_elements.specs.Valences.{ct_valences, implied};
ghost use Rattle.mc_mol.specs.Molecule.{bond_sum};
ghost use Rattle.ct_geometry.specs.TableFaults.{AreValuesWithin};
ghost use Rattle.ct_geometry.specs.Tables.{atom_of, atoms_with, hydrogens_of};

use ct_sd::TableAtom;
use mc_elements::{Element, ct_valences, implied};
use mc_mol::{Atom, Bond, VALENCE_LIMIT};
use std::alloc::{AllocError, Global};

/// The valences of an element with this charge; none is listed for a charge beyond one.
#[tactic(auto, using(crate::proofs::ListedValences::above_one, crate::proofs::ListedValences::below_one))]
fn listed_valences(element: Element, charge: i32) -> &'static [u8]
    ensures value { result.now ≡ ct_valences element charge }
    ensures rising { IsStrictlyIncreasing result.now }
{
    if -1 <= charge && charge <= 1 {
        ct_valences(element, charge as i8)
    } else {
        &[]
    }
}

/// The hydrogens that fill up a bond sum to a listed valence; none where the sum is above the limit anyway.
#[tactic(auto, using(crate::proofs::ListedValences::none_above))]
fn implied_hydrogens(element: Element, charge: i32, sum: u32) -> u8
    ensures { result ≡ implied (ct_valences element charge) sum }
{
    if sum > VALENCE_LIMIT {
        0
    } else {
        implied(listed_valences(element, charge), sum as u8)
    }
}

/// The hydrogens of an atom with this bond sum.
pub fn hydrogens_of(atom: TableAtom, sum: u32) -> u8
    ensures { result ≡ hydrogens_of atom sum }
{
    match atom.valence {
        Some(valence) if sum <= u32::from(valence) => valence - sum as u8,
        Some(_) => 0,
        None => implied_hydrogens(atom.element, atom.charge, sum),
    }
}

/// An atom of a table with this bond sum.
fn atom_of(atom: TableAtom, sum: u32) -> Atom
    requires { AreValuesWithin atom }
    ensures { result ≡ atom_of atom sum }
{
    Atom {
        element: atom.element,
        isotope: atom.isotope as u16,
        charge: atom.charge as i8,
        hydrogens: hydrogens_of(atom, sum),
        class: atom.class as u16,
    }
}

/// The atoms of a table, with these bond sums.
pub fn atoms_with(
    alloc: Global,
    bonds: &[Bond],
    sums: &[u32],
    atoms: &[TableAtom],
) -> Result<Vec<Atom>, AllocError>
    requires count { length sums.now ≡ length atoms.now }
    requires sums { (k : ℕ) → k < length atoms.now → get_or sums.now k 0 ≡ bond_sum bonds.now k }
    requires values { All AreValuesWithin atoms.now }
    ensures atoms { IfOk result (λ found. found.items ≡ atoms_with bonds.now 0 atoms.now) }
    ensures count { IfOk result (λ found. length found.items ≡ length atoms.now) }
{
    let mut found = Vec::with_capacity(alloc, atoms.len())?;
    for (k, atom) in atoms.iter().enumerate() {
        found.push_reserved(atom_of(*atom, sums[k]));
    }
    Ok(found)
}
