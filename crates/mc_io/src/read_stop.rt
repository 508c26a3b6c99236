/// Why the reading of an input stopped before its end.
#[derive(Clone, Copy, Debug, PartialEq, Eq)]
pub enum ReadStop {
    ReadFault,
    InputLimit,
    NoMemory,
}
