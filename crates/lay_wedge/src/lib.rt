//! Planning wedges: each centre of a drawn molecule gets a single bond of its own that says its hand.
#![tactic(auto)]

mod bonds;
mod planning;
#[cfg(test)]
mod tests;
mod walk;

pub use planning::plan;
