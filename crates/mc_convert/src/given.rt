use ct_sd::{Fault, Record};

/// A record as it is handed in.
#[derive(Drop)]
pub enum Given<'a> {
    /// a line with this text
    Line(&'a [u8]),
    /// a line that is longer than the limit; it isn't read further
    TooLong,
    /// a record of an SD file
    Sd(Record<'a>),
    /// a record of an SD file that is too long, by its first fault; it isn't read further
    SdTooLong(Fault),
}
