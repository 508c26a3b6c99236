//! The written form of a molecule as a SMILES text.
#![tactic(auto)]

mod atom_text;
mod bonds;
mod law;
mod mark;
mod order;
mod order_at;
mod ring_numbers;
#[cfg(test)]
mod tests;
mod text;
mod write;
mod written_places;

pub use law::{nested_law, order_law, places_law, structure_law};
pub use write::write_smiles;
