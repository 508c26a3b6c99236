//! Numbers: the digits of one, and those of the fields of a CTfile, read and written.
#![tactic(auto)]

mod read;
mod write;

pub use read::{read_count, read_fixed};
pub use write::{put_count, put_fixed, put_number, read_back_law};
