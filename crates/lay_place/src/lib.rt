//! Placing the atoms of a molecule: a drawing from which its stereo reads back.
#![tactic(auto)]

mod asking;
mod curve;
mod draw;
mod found;
mod next;
mod row;
mod stretch;
#[cfg(test)]
mod tests;
mod wish;

pub use draw::place;
