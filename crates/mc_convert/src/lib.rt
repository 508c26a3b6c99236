//! The converter: records in, written records and report lines out; and the checker of such reports.
#![tactic(auto)]

mod answer;
mod check;
mod check_readers;
mod command;
mod command_line;
mod convert;
mod drawn_stereo;
mod finding;
mod formats;
mod given;
mod left_over;
mod names;
mod record_read;
mod records;
mod said;
mod sd_read;
mod status;

pub use answer::{Answer, answer_record};
pub use command::run;
pub use command_line::{Command, command_of};
pub use formats::{Formats, Origin, Target};
pub use given::Given;
pub use names::{NameList, input_names};
pub use sd_read::{SdRead, read_sd};
pub use status::Status;

#[cfg(test)]
mod tests;
