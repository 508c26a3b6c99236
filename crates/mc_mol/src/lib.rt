//! Molecules: a graph of atoms and bonds with two kinds of stereo, both said by the order of neighbours.
#![tactic(auto)]

mod adjacency;
mod centres;
mod closed_paths;
mod drawing;
mod forest;
mod graph;
mod independent;
mod limits;
mod lows;
mod marks;
mod mol;
mod parts;
mod permutation;
mod sums;
#[cfg(test)]
mod tests;

pub use adjacency::Adjacency;
pub use closed_paths::bonds_on_closed_paths;
pub use drawing::{Drawing, Point};
pub use forest::{Forest, forest_of};
pub use graph::Graph;
pub use independent::{connected_law, independent_rings, part_count};
pub use limits::{
    ATOM_LIMIT, BOND_LIMIT, CHARGE_LIMIT, CLASS_LIMIT, GREATEST_COORDINATE, HYDROGEN_LIMIT,
    ISOTOPE_LIMIT, LEAST_COORDINATE, RING_LIMIT, VALENCE_LIMIT,
};
pub use lows::{lows_of, rises};
pub use marks::Marks;
pub use mol::{AddAtom, AddBond, Mol};
pub use parts::{Atom, Bond, HalfEdge, Sides, Slot};
pub use permutation::{is_even_permutation, parity};
pub use sums::bond_sums;
