//! The skeleton of a SMILES text: which tokens may stand where, and which atoms its bonds join.
#![tactic(auto)]

mod aromatic_bonds;
mod atom_lists;
mod branches;
mod candidates;
mod first_faults;
mod joined;
mod limits;
mod read;
mod reader;
mod ring_table;
mod role;
mod skel_atom;
mod skeleton;
mod structure;
#[cfg(test)]
mod tests;
mod text_bond;
mod token_order;
mod tokens;
mod unclosed;

pub use candidates::is_marked;
pub use read::read_skeleton;
pub use ring_table::RingEnd;
pub use role::Role;
pub use skel_atom::SkelAtom;
pub use skeleton::{Link, SkelBond, Skeleton};
pub use text_bond::{TextBond, bonds_with_orders};
