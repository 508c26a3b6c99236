//! The map checker: whether two molecules are the same under a map of their atoms, and the first difference
//! where they aren't.
#![tactic(auto)]

mod atoms;
mod bonds;
mod centres;
mod check;
mod sides;
mod stands;

pub use check::{check_map, verdict_law};
pub use stands::{check_stands, stands_law};
