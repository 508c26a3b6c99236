//! The rings of a molecule: for each bond the least closed path through it.
#![tactic(auto)]

mod block_order;
mod block_tree;
mod centres;
#[cfg(test)]
mod large;
#[cfg(test)]
mod order_checks;
mod rings;
mod search;
mod side_places;
mod sizes;
#[cfg(test)]
mod small_graphs;
#[cfg(test)]
mod tests;

pub use centres::may_be_centre;
pub use rings::Rings;
pub use side_places::may_have_sides;
