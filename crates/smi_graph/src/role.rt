ghost use Rattle.std.specs.Prelude.{◌≡◌};
ghost use Rattle.smi_graph.specs.Reading.{is_plain};
ghost use Rattle.smi_graph.specs.Roles.{role_of};

use smi_lex::{BondMark, TokenKind};

/// What a token does in the structure of a text.
#[derive(Clone, Copy, Debug, PartialEq, Eq)]
pub enum Role {
    /// `lower` says whether the symbol is in lower case
    Atom { lower: bool },
    Bond(BondMark),
    Ring(u8),
    Enter,
    Leave,
    Dot,
}

pub fn role_of(kind: TokenKind) -> Role
    ensures { result ≡ role_of kind }
{
    match kind {
        TokenKind::Bare { lower, .. } => Role::Atom { lower },
        TokenKind::Bracket { lower, .. } => Role::Atom { lower },
        TokenKind::Bond(mark) => Role::Bond(mark),
        TokenKind::Ring(number) => Role::Ring(number),
        TokenKind::Enter => Role::Enter,
        TokenKind::Leave => Role::Leave,
        TokenKind::Dot => Role::Dot,
    }
}

/// Whether a token is neither a lower-case atom nor `:`, so that nothing of it is left to be decided.
#[inline(always)]
pub fn is_plain(role: Role) -> bool
    ensures { result ≡ is_plain role }
{
    match role {
        Role::Atom { lower } => !lower,
        Role::Bond(BondMark::Aromatic) => false,
        Role::Bond(
            BondMark::Single
            | BondMark::Double
            | BondMark::Triple
            | BondMark::Quadruple
            | BondMark::Slash
            | BondMark::Backslash,
        )
        | Role::Ring(_)
        | Role::Enter
        | Role::Leave
        | Role::Dot => true,
    }
}
