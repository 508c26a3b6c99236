/// A part of a text, in bytes from 0: from its first byte up to the byte behind its last.
#[derive(Clone, Copy, Debug, PartialEq, Eq)]
pub struct Span {
    pub from: u32,
    pub to: u32,
}
