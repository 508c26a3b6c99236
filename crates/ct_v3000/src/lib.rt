//! Reads a V3000 record: the table that its lines give, or the first kind that stands in it.
#![tactic(auto)]

mod atom_line;
mod bond_line;
mod indices;
mod items;
mod joining;
mod key;
mod number;
mod reader;
mod reading;
mod splitting;
mod stage;
mod words;

pub use reader::read;

#[cfg(test)]
mod tests;
