//! Report lines: one for each record, with a map or the reason of a refusal.
#![tactic(auto)]

mod front;
mod put;
mod read;
mod report_line;

pub use put::{one_line_law, put_ok, put_refused};
pub use read::{read_back_law, read_line};
pub use report_line::ReportLine;
