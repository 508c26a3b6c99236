ghost use Rattle.std.specs.Prelude.{◌≡◌, ◌≤◌, IfOk, length};
ghost use Rattle.mc_mol.specs.declared.limits.TheConstants.{ATOM_LIMIT, BOND_LIMIT};
ghost use Rattle.smi_graph.specs.Skeletons.{AreBonds};
ghost use Rattle.smi_mean.specs.Meaning.{without_stereo};

use mc_base::NoMemory;
use mc_mol::{Atom, Bond, Mol};
use std::alloc::Global;

/// The molecule of these atoms and bonds.
#[tactic(auto, using(crate::proofs::Building::nones_are))]
pub fn molecule(alloc: Global, atoms: Vec<Atom>, bonds: Vec<Bond>) -> Result<Mol, NoMemory>
    requires few_atoms { length atoms.items ≤ ATOM_LIMIT }
    requires few_bonds { length bonds.items ≤ BOND_LIMIT }
    requires sound { AreBonds (length atoms.items) bonds.items }
    ensures { IfOk result (λ mol. mol ≡ without_stereo atoms.items bonds.items) }
{
    Mol::of(alloc, atoms, bonds)
}
