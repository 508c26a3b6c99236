use mc_base::{Kind, Span};
use mc_elements::Element;

/// The symbol of a bond.
#[derive(Clone, Copy, Debug, PartialEq, Eq)]
pub enum BondMark {
    Single,
    Double,
    Triple,
    Quadruple,
    Aromatic,
    Slash,
    Backslash,
}

/// What a token says.
#[derive(Clone, Copy, Debug, PartialEq, Eq)]
pub enum TokenKind {
    /// an atom without brackets
    Bare {
        element: Element,
        lower: bool,
    },
    /// An atom in brackets. An isotope or a class that isn't written is 0, and one that a `u32` can't
    /// hold is its greatest value. A chiral part is true for `@` and false for `@@`.
    Bracket {
        element: Element,
        lower: bool,
        isotope: u32,
        chiral: Option<bool>,
        hydrogens: u8,
        charge: i8,
        class: u32,
    },
    Bond(BondMark),
    /// a ring number, 0 to 99
    Ring(u8),
    /// `(`
    Enter,
    /// `)`
    Leave,
    /// `.`
    Dot,
}

/// A token, and where it stands in the text.
#[derive(Clone, Copy, Debug, PartialEq, Eq)]
pub struct Token {
    pub kind: TokenKind,
    pub span: Span,
}

/// What a lexer answers.
#[derive(Clone, Copy, Debug, PartialEq, Eq)]
pub enum LexStep {
    Token(Token),
    /// the whole text is read
    End,
    /// No token begins at this byte, which counts from 1. The kind is `BadToken`, `Wildcard` or
    /// `OtherChirality`.
    Refused(Kind, u32),
}
