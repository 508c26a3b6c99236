//! Whether marks of bonds are a placement of double bonds.

ghost use Rattle.std.specs.Prelude.{◌≡◌, ◌↔◌, IsTrue, ℕ, ◌≤◌, ◌<◌, ◌&&◌, true, false, length, map, if◌then◌else◌};
ghost use Rattle.mc_mol.specs.Molecule.{touches};
ghost use Rattle.smi_graph.specs.Candidates.{marked};
ghost use Rattle.smi_graph.specs.Links.{bond_of};
ghost use Rattle.smi_mean.specs.Needs.{needs};
ghost use Rattle.smi_mean.specs.Placements.{placed_at, LiesOnce, IsPlacement};

use crate::needs;
use mc_base::{AtomId, BondId};
use smi_graph::{Skeleton, TextBond, is_marked};

/// Whether none but candidates are marked.
fn are_candidates(skeleton: &Skeleton, placed: &[bool]) -> bool
    ensures yes { result ≡ true → (k : ℕ) → k < length skeleton.now.bonds → marked placed.now k ≡ true → marked skeleton.now.candidates k ≡ true }
    ensures no { result ≡ false → (k : ℕ) × (k < length skeleton.now.bonds) × (marked placed.now k ≡ true) × (marked skeleton.now.candidates k ≡ false) }
{
    for k in 0..skeleton.bond_count() {
        if is_marked(placed, k as usize) && !skeleton.is_candidate(BondId(k)) {
            return false;
        }
    }
    true
}

/// What a bond adds to the number of placed bonds that touch an atom.
fn placed_once(is_placed: bool, bond: TextBond, a: u32) -> u32
    ensures value { result ≡ (if is_placed && touches (bond_of bond) a then 1 else 0) }
    ensures one { result ≤ 1 }
{
    if is_placed && (bond.first.0 == a || bond.second.0 == a) {
        1
    } else {
        0
    }
}

/// How many of the placed bonds touch an atom.
fn placed_at(bonds: &[TextBond], placed: &[bool], a: u32) -> u32
    requires same { length placed.now ≡ length bonds.now }
    requires few { length bonds.now ≤ 999 }
    ensures { result ≡ placed_at (map bond_of bonds.now) placed.now a }
{
    let mut count = 0u32;
    for (k, bond) in bonds.iter().enumerate() {
        count += placed_once(placed[k], *bond, a);
    }
    count
}

/// Whether an atom lies on one placed bond where it needs a double bond, and else on none.
fn lies_once(skeleton: &Skeleton, placed: &[bool], a: AtomId) -> bool
    requires count { length placed.now ≡ length skeleton.now.bonds }
    requires atom { a.0 < length skeleton.now.atoms }
    ensures { IsTrue result ↔ LiesOnce skeleton.now.atoms (map bond_of skeleton.now.bonds) placed.now a.0 }
{
    let _limits = skeleton.bonds();
    placed_at(skeleton.bonds(), placed, a.0) == needs(skeleton, a) as u32
}

/// Whether each atom that needs a double bond lies on one placed bond, and no other atom on any.
fn lie_once(skeleton: &Skeleton, placed: &[bool]) -> bool
    requires { length placed.now ≡ length skeleton.now.bonds }
    ensures yes { result ≡ true → (a : ℕ) → a < length skeleton.now.atoms → LiesOnce skeleton.now.atoms (map bond_of skeleton.now.bonds) placed.now a }
    ensures no { result ≡ false → (a : ℕ) × (LiesOnce skeleton.now.atoms (map bond_of skeleton.now.bonds) placed.now a → ⊥) }
{
    for a in 0..skeleton.atom_count() {
        if !lies_once(skeleton, placed, AtomId(a)) {
            return false;
        }
    }
    true
}

/// Whether these marks are a placement: one for each bond, of which the marked ones are double.
#[tactic(auto, using(crate::proofs::PlacementTest::placement_by, crate::proofs::PlacementTest::not_a_candidate))]
pub fn is_placement(skeleton: &Skeleton, placed: &[bool]) -> bool
    ensures yes { result ≡ true → IsPlacement skeleton.now.atoms skeleton.now.bonds placed.now }
    ensures no { result ≡ false → IsPlacement skeleton.now.atoms skeleton.now.bonds placed.now → ⊥ }
{
    if placed.len() != skeleton.bonds().len() || !are_candidates(skeleton, placed) {
        return false;
    }
    lie_once(skeleton, placed)
}
