//! The words that every crate of molconv speaks: numbers of atoms and bonds, spans of a text,
//! lists that are handed out, and the kinds of refusal with their order.
#![tactic(auto)]

mod atom_list;
mod digit;
mod errors;
mod ids;
mod kind;
mod refusal;
mod span;
mod text;
mod verdict;
mod written;

pub use atom_list::AtomList;
pub use digit::starts_digit;
pub use errors::{Failed, NoMemory};
pub use ids::{AtomId, BondId};
pub use kind::{Kind, order_law};
pub use refusal::{Refusal, Stop};
pub use span::Span;
pub use text::Text;
pub use verdict::Verdict;
pub use written::Written;

#[cfg(test)]
mod tests;
