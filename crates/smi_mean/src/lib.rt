//! What a SMILES text stands for: hydrogens, and the molecule of a skeleton.
#![tactic(auto)]

ghost use Rattle.std.specs.Prelude.{ℕ, Bool, List};
ghost use Rattle.mc_base.specs.declared.ids.AtomId.{AtomId as Atom};
ghost use Rattle.smi_graph.specs.Skeletons.{TextGraph, IsTextGraph};
ghost use Rattle.smi_mean.specs.Barriers.{IsBarrierIn};
ghost use Rattle.smi_mean.specs.Placements.{IsPlacement};

mod atoms;
mod barrier;
mod centres;
mod faults;
mod line;
mod lying;
mod mating;
mod molecule;
mod need;
mod need_graph;
mod place;
mod placed;
mod placement;
mod read;

pub use barrier::is_barrier_in;
pub use centres::marks_fit;
pub use lying::{lying_once, needing_atoms};
pub use need::needs;
pub use placed::{mean_of, molecule_with, unmarked_with};
pub use placement::is_placement;
pub use read::{NamedMolecule, SmilesRead, read_line_skeleton, read_named, read_smiles};

/// A barrier excludes every placement.
pub fn barrier_law()
    ensures { (skeleton : TextGraph) (barrier : List Atom) (odd : ℕ) (placed : List Bool) → IsTextGraph skeleton → IsBarrierIn skeleton.atoms skeleton.bonds barrier odd
        → IsPlacement skeleton.atoms skeleton.bonds placed → ⊥ }
{}

#[cfg(test)]
mod tests;
