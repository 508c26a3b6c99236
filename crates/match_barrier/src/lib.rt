//! Graphs, perfect matchings and barriers.
#![tactic(auto)]

mod barrier;
mod flood;
mod graph;
mod matching;
#[cfg(test)]
mod tests;

ghost use Rattle.std.specs.Prelude.{◌≡◌, ℕ, List};
ghost use Rattle.match_barrier.specs.Graph.{IsGraph};
ghost use Rattle.match_barrier.specs.Matching.{IsPerfect};
ghost use Rattle.match_barrier.specs.Barrier.{OddParts, IsBarrier};

pub use barrier::{Scratch, is_barrier};
pub use graph::Graph;
pub use matching::is_perfect;

/// Where a barrier exists no perfect matching does.
#[tactic(auto, using(crate::proofs::Tutte::no_perfect))]
pub fn barrier_excludes_perfect_matching()
    ensures { (g : List (List ℕ)) (set : List ℕ) (odd : ℕ) (mates : List ℕ) → IsGraph g → IsBarrier g set odd → IsPerfect g mates → ⊥ }
{}

/// The number of odd parts is one number.
#[tactic(auto, using(crate::proofs::Tutte::one_number))]
pub fn odd_parts_law()
    ensures { (g : List (List ℕ)) (set : List ℕ) (odd other : ℕ) → OddParts g set odd → OddParts g set other → odd ≡ other }
{}

/// For each set there is a number of odd parts.
#[tactic(auto, using(crate::proofs::Naming::some_number))]
pub fn some_odd_parts()
    ensures { (g : List (List ℕ)) (set : List ℕ) → IsGraph g → (odd : ℕ) × OddParts g set odd }
{}
