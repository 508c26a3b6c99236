//! The tokens of a SMILES text.
#![tactic(auto)]

mod bracket;
mod front;
mod lexer;
mod symbol;
mod token;

pub use lexer::{Lexer, tokens_law};
pub use token::{BondMark, LexStep, Token, TokenKind};
