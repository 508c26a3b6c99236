//! A perfect matching of a graph, or a barrier that excludes one, by Edmonds' method.
#![tactic(auto)]

mod augmenting;
mod blossoms;
mod contracting;
mod cycles;
mod ends;
mod greedy;
mod known;
mod lifting;
mod matcher;
mod search;
#[cfg(test)]
mod tests;
mod tree;

pub use matcher::{Matched, Matcher};
