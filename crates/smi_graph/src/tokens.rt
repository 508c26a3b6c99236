//! The tokens of a text: which are read today, and what is read again of a text that has a fault.

ghost use Rattle.std.specs.Prelude.{◌≡◌, ◌≤◌, ◌<◌, ◌^◌, ◌-◌, IfOk, length};
ghost use Rattle.smi_graph.specs.Rules.{is_built_kind, is_built_mark, roles_in, byte_place};

use crate::Role;
use crate::role::role_of;
use smi_lex::{BondMark, LexStep, Lexer, TokenKind};
use std::alloc::{AllocError, Global};

fn is_built_mark(mark: BondMark) -> bool
    ensures { result ≡ is_built_mark mark }
{
    match mark {
        BondMark::Single
        | BondMark::Double
        | BondMark::Triple
        | BondMark::Quadruple
        | BondMark::Aromatic => true,
        BondMark::Slash | BondMark::Backslash => false,
    }
}

/// Whether a token is read today.
#[inline(always)]
pub fn is_built_kind(kind: TokenKind) -> bool
    ensures { result ≡ is_built_kind kind }
{
    match kind {
        TokenKind::Bond(mark) => is_built_mark(mark),
        TokenKind::Bare { .. }
        | TokenKind::Bracket { .. }
        | TokenKind::Ring(_)
        | TokenKind::Enter
        | TokenKind::Leave
        | TokenKind::Dot => true,
    }
}

/// What the tokens of a text do, in their order.
pub fn roles_of(alloc: Global, text: &[u8]) -> Result<Vec<Role>, AllocError>
    requires { length text.now < 2 ^ 32 - 1 }
    ensures roles { IfOk result (λ found. found.items ≡ roles_in text.now) }
    ensures few { IfOk result (λ found. length found.items ≤ length text.now) }
{
    let mut lexer = Lexer::new(text);
    let mut found = Vec::new(alloc);
    loop {
        match lexer.next() {
            LexStep::Token(token) => found.push(role_of(token.kind))?,
            LexStep::End => return Ok(found),
            LexStep::Refused(_, _) => return Ok(found),
        }
    }
}

/// The byte at which token i stands, from 1; the end is the byte behind the text.
pub fn byte_place(text: &[u8], i: u32) -> u32
    requires { length text.now < 2 ^ 32 - 1 }
    ensures { result ≡ byte_place text.now i }
{
    let mut lexer = Lexer::new(text);
    let mut passed = 0u32;
    loop {
        match lexer.next() {
            LexStep::Token(token) => {
                if passed == i {
                    return token.span.from + 1;
                }
                passed += 1;
            }
            LexStep::End => return text.len() as u32 + 1,
            LexStep::Refused(_, _) => return text.len() as u32 + 1,
        }
    }
}
