ghost use Rattle.std.specs.Prelude.{◌≡◌, ℕ, ◌+◌, ◌≤◌, ◌<◌, IfOk, length, get_or};
ghost use Rattle.mc_elements.specs.Valences.{implied, smiles_valences};
ghost use Rattle.mc_mol.specs.Molecule.{bond_sum};
ghost use Rattle.smi_mean.specs.Meaning.{lowest, lower_hydrogens, hydrogens_of, meant_atom, atoms_with};

use mc_elements::{Element, implied, smiles_valences};
use mc_mol::{Atom, Bond, VALENCE_LIMIT};
use smi_graph::SkelAtom;
use std::alloc::{AllocError, Global};

/// The hydrogens of a bare atom; none where its bonds are above the limit anyway.
#[tactic(auto, using(crate::proofs::NoneAbove::none_above))]
fn implied_hydrogens(element: Element, sum: u32) -> u8
    ensures { result ≡ implied (smiles_valences element) sum }
{
    if sum > VALENCE_LIMIT {
        0
    } else {
        implied(smiles_valences(element), sum as u8)
    }
}

fn lowest(valences: &[u8]) -> u8
    ensures { result ≡ lowest valences.now }
{
    match valences.first() {
        Some(valence) => *valence,
        None => 0,
    }
}

/// The hydrogens of a bare atom in lower case: one valence is left for a double bond.
fn lower_hydrogens(element: Element, sum: u32) -> u8
    ensures { result ≡ lower_hydrogens element sum }
{
    let valence = lowest(smiles_valences(element)) as u32;
    valence.saturating_sub(sum).saturating_sub(1) as u8
}

/// The hydrogens of an atom of a text, with this bond sum.
pub fn hydrogens_of(atom: SkelAtom, sum: u32) -> u8
    ensures { result ≡ hydrogens_of atom sum }
{
    if !atom.bare {
        atom.hydrogens
    } else if atom.lower {
        lower_hydrogens(atom.element, sum)
    } else {
        implied_hydrogens(atom.element, sum)
    }
}

/// What an atom of a text stands for, with this bond sum.
fn meant_atom(atom: SkelAtom, sum: u32) -> Atom
    ensures { result ≡ meant_atom atom sum }
{
    Atom {
        element: atom.element,
        isotope: atom.isotope,
        charge: atom.charge,
        hydrogens: hydrogens_of(atom, sum),
        class: atom.class,
    }
}

/// The atoms that the atoms of a text stand for, with these bond sums.
pub fn atoms_with(
    alloc: Global,
    bonds: &[Bond],
    sums: &[u32],
    atoms: &[SkelAtom],
) -> Result<Vec<Atom>, AllocError>
    requires count { length sums.now ≡ length atoms.now }
    requires sums { (k : ℕ) → k < length atoms.now → get_or sums.now k 0 ≡ bond_sum bonds.now k }
    ensures atoms { IfOk result (λ found. found.items ≡ atoms_with bonds.now 0 atoms.now) }
    ensures count { IfOk result (λ found. length found.items ≡ length atoms.now) }
{
    let mut found = Vec::with_capacity(alloc, atoms.len())?;
    for (k, atom) in atoms.iter().enumerate() {
        found.push_reserved(meant_atom(*atom, sums[k]));
    }
    Ok(found)
}
