ghost use Rattle.std.specs.Prelude.{◌≡◌, ℕ, ◌≤◌, Bool, true, false, List, length, All, AllPairs, IfOk};
ghost use Rattle.mc_mol.specs.declared.parts.Bond.{Bond as Joining};
ghost use Rattle.mc_mol.specs.Molecule.{joins, are_joined};
ghost use Rattle.mc_mol.specs.Parts.{are_connected, part_count, independent_rings};
ghost use Rattle.mc_mol.specs.WellFormed.{IsBond};
ghost use Rattle.mc_mol.specs.declared.limits.TheConstants.{ATOM_LIMIT, BOND_LIMIT};

use crate::adjacency::Adjacency;
use crate::forest::forest_of;
use crate::{Bond, Graph};
use std::alloc::{AllocError, Global};

/// The number of independent rings of so many atoms with these bonds.
pub fn independent_rings(alloc: Global, bonds: &[Bond], atoms: u32) -> Result<u32, AllocError>
    requires few_atoms { atoms ≤ ATOM_LIMIT }
    requires few_bonds { length bonds.now ≤ BOND_LIMIT }
    requires bonds { All (IsBond atoms) bonds.now }
    requires once { AllPairs (λ (b c : Joining). joins b c.first.0 c.second.0 ≡ false) bonds.now }
    ensures { IfOk result (λ rings. rings ≡ independent_rings bonds.now atoms) }
{
    let adjacency = Adjacency::of_bonds(alloc, atoms as usize, bonds)?;
    let graph = Graph::new(bonds, &adjacency.lists);
    let forest = forest_of(alloc, &graph)?;
    Ok(forest.independent_rings(&graph))
}

/// The number of connected parts.
pub fn part_count(alloc: Global, graph: &Graph<'_>) -> Result<u32, AllocError>
    ensures value { IfOk result (λ parts. parts ≡ part_count graph.now.bonds graph.now.atoms) }
    ensures few { IfOk result (λ parts. parts ≤ ATOM_LIMIT) }
{
    let forest = forest_of(alloc, graph)?;
    Ok(forest.roots.len() as u32)
}

/// Connected is the least relation that holds of each atom with itself and leads on along each bond: it
/// holds of joined atoms, both ways and from path to path, and what is kept along each bond is kept.
pub fn connected_law()
    ensures own { (bonds : List Joining) (u : ℕ) → are_connected bonds u u ≡ true }
    ensures joined { (bonds : List Joining) (u v : ℕ) → are_joined bonds u v ≡ true → are_connected bonds u v ≡ true }
    ensures back { (bonds : List Joining) (u v : ℕ) → are_connected bonds u v ≡ true → are_connected bonds v u ≡ true }
    ensures onward { (bonds : List Joining) (u v w : ℕ) → are_connected bonds u v ≡ true → are_connected bonds v w ≡ true → are_connected bonds u w ≡ true }
    ensures least { (kept : ℕ → Bool) (bonds : List Joining) → ((u v : ℕ) → are_joined bonds u v ≡ true → kept u ≡ true → kept v ≡ true) →
        (u v : ℕ) → are_connected bonds u v ≡ true → kept u ≡ true → kept v ≡ true }
{}
