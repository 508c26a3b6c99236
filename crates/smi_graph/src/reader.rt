ghost use Rattle.std.specs.Prelude.{◌≡◌, ◌&&◌, [], ◌≤◌, ◌<◌, ◌^◌, ◌-◌, IfOk, IfErr, length};
ghost use Rattle.smi_lex.specs.Tokens.{tokens, unread};
ghost use Rattle.smi_graph.specs.Reading.{HasRead, IsBounded};
ghost use Rattle.smi_graph.specs.Skeletons.{IsBroken};

use crate::limits::is_within;
use crate::role::is_plain;
use crate::skel_atom::push_atom;
use crate::structure::Structure;
use crate::tokens::is_built_kind;
use crate::{Role, SkelAtom};
use mc_base::{Refusal, Stop};
use smi_lex::{LexStep, Lexer, Token, TokenKind};
use std::alloc::{AllocError, Global};

#[inline(always)]
fn both(first: bool, second: bool) -> bool
    ensures { result ≡ (first && second) }
{
    first & second
}

/// What is read of the tokens so far, each of which is looked at once: their atoms and what they do.
#[derive(Drop)]
pub struct Reader {
    pub atoms: Vec<SkelAtom>,
    pub structure: Structure,
    /// whether the values of all atoms are within their limits
    pub all_within_limits: bool,
    /// whether none of the tokens is a lower-case atom or `:`
    pub all_plain: bool,
    /// whether all of them are read today
    pub all_built: bool,
}

impl Reader {
    ghost use Rattle.std.specs.Prelude.{◌≡◌, ◌∷◌, ◌+◌, ◌-◌, ◌<◌, ◌^◌, List, IfOk, OnOk, drop};
    ghost use Rattle.smi_lex.specs.declared.token.Token.{Token};
    ghost use Rattle.smi_graph.specs.Roles.{role_of};
    ghost use Rattle.smi_graph.specs.Reading.{HasRead, IsBounded};

    /// Of no tokens, with room for those of a text of so many bytes.
    fn with_room(alloc: Global, bytes: usize) -> Result<Reader, AllocError>
        ensures has { IfOk result (λ reader. (ts : List Token) → HasRead ts reader) }
        ensures bounded { IfOk result (λ reader. IsBounded reader.structure) }
        ensures tokens { IfOk result (λ reader. reader.structure.tokens ≡ 0) }
    {
        // Most texts have fewer atoms and bonds; one that has more takes more room as it is read.
        let room = bytes - bytes / 4;
        Ok(Reader {
            atoms: Vec::with_capacity(alloc, room)?,
            structure: Structure::with_room(alloc, room)?,
            all_within_limits: true,
            all_plain: true,
            all_built: true,
        })
    }

    /// One more token, which does this.
    #[inline(always)]
    fn read_as(&mut self, token: Token, role: Role) -> Result<(), AllocError>
        requires role { role ≡ role_of token.kind }
        requires few { self.old.structure.tokens < 2 ^ 32 - 1 }
        requires bounded { IsBounded self.old.structure }
        ensures has { OnOk result ((ts later : List Token) → drop self.old.structure.tokens ts ≡ token ∷ later → HasRead ts self.old → HasRead ts self.new) }
        ensures bounded { OnOk result (IsBounded self.new.structure) }
        ensures tokens { OnOk result (self.new.structure.tokens ≡ self.old.structure.tokens + 1) }
    {
        self.all_within_limits = both(self.all_within_limits, is_within(token.kind));
        self.all_built = both(self.all_built, is_built_kind(token.kind));
        self.all_plain = both(self.all_plain, is_plain(role));
        push_atom(&mut self.atoms, token.kind, token.span)?;
        self.structure.read(role)?;
        Ok(())
    }

    /// One more token. Its kind is told apart once, so that each kind has its own way through.
    fn read(&mut self, token: Token) -> Result<(), AllocError>
        requires few { self.old.structure.tokens < 2 ^ 32 - 1 }
        requires bounded { IsBounded self.old.structure }
        ensures has { OnOk result ((ts later : List Token) → drop self.old.structure.tokens ts ≡ token ∷ later → HasRead ts self.old → HasRead ts self.new) }
        ensures bounded { OnOk result (IsBounded self.new.structure) }
        ensures tokens { OnOk result (self.new.structure.tokens ≡ self.old.structure.tokens + 1) }
    {
        match token.kind {
            TokenKind::Bare { lower, .. } => self.read_as(token, Role::Atom { lower }),
            TokenKind::Bracket { lower, .. } => self.read_as(token, Role::Atom { lower }),
            TokenKind::Bond(mark) => self.read_as(token, Role::Bond(mark)),
            TokenKind::Ring(number) => self.read_as(token, Role::Ring(number)),
            TokenKind::Enter => self.read_as(token, Role::Enter),
            TokenKind::Leave => self.read_as(token, Role::Leave),
            TokenKind::Dot => self.read_as(token, Role::Dot),
        }
    }
}

/// What is read of all tokens of a text; or the first byte at which none begins.
pub fn read_tokens(alloc: Global, text: &[u8]) -> Result<Reader, Stop>
    requires { length text.now < 2 ^ 32 - 1 }
    ensures has { IfOk result (HasRead (tokens text.now)) }
    ensures all { IfOk result (λ reader. reader.structure.tokens ≡ length (tokens text.now)) }
    ensures whole { IfOk result (λ reader. unread text.now ≡ []) }
    ensures few { IfOk result (λ reader. reader.structure.tokens ≤ length text.now) }
    ensures err { IfErr result (IsBroken text.now) }
{
    let mut lexer = Lexer::new(text);
    let mut reader = Reader::with_room(alloc, text.len())?;
    loop {
        match lexer.next() {
            LexStep::Token(token) => reader.read(token)?,
            LexStep::End => return Ok(reader),
            LexStep::Refused(kind, place) => {
                return Err(Stop::Refused(Refusal::at(alloc, kind, place)));
            }
        }
    }
}
