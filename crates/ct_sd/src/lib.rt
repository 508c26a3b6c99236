//! The records of an SD file, the fields of their lines, and the table of atoms and bonds that a CTfile gives.
#![tactic(auto)]

mod bond;
mod data_lines;
mod fault;
mod field;
mod head;
mod joined;
mod line_so_far;
mod record;
mod record_finding;
mod record_front;
mod record_passing;
mod records;
mod symbol;
mod table;
mod table_atoms;
mod table_bonds;
mod text;

pub use bond::note_bond_type;
pub use data_lines::DataLines;
pub use fault::{Fault, FirstFault, first_fault_law};
pub use field::{Field, Grammar};
pub use head::{Version, is_other_file};
pub use joined::JoinedPairs;
pub use record::{Record, are_within};
pub use records::{RecordStep, Records};
pub use symbol::Symbol;
pub use table::{DrawMark, Table, TableAtom, TableBond};
pub use table_atoms::TableAtoms;
pub use table_bonds::TableBonds;
pub use text::{begins_with, cut, equals, is_blank_text, is_end_line, trimmed};

#[cfg(test)]
mod tests;
