//! The elements, and the tables of their valences.
#![tactic(auto)]

mod element;
mod valence;

pub use element::{Element, symbols_law};
pub use valence::{aromatic_valences, ct_valences, implied, reference_mass, smiles_valences};
