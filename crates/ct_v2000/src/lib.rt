//! Reads a V2000 record: the table that its lines give, or the first kind that stands in it.
#![tactic(auto)]

mod atom_line;
mod blocks;
mod bond_line;
mod counts;
mod entry;
mod fields;
mod finished;
mod property;
mod reader;
mod said;
mod sgroup;

pub use property::Property;
pub use reader::read;

#[cfg(test)]
mod tests;
