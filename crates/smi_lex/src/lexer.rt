ghost use Rattle.std.specs.Prelude.{◌≡◌, ◌+◌, ◌<◌, ◌≤◌, ◌^◌, ◌↔◌, ◌-◌, ℕ, List, length, drop, map};
ghost use Rattle.smi_lex.specs.declared.token.Token.{Token};
ghost use Rattle.smi_lex.specs.declared.token.TokenKind.{TokenKind};
ghost use Rattle.smi_lex.specs.Grammar.{Spells};
ghost use Rattle.smi_lex.specs.Reading.{IsReading, NoTokenBegins};
ghost use Rattle.smi_lex.specs.Steps.{IfToken, IfRefused, IsRefused, UnlessToken, StandsAt, StopsAt};
ghost use Rattle.smi_lex.specs.Tokens.{kinds, tokens, unread};

use crate::front::{cause, token_front};
use crate::{LexStep, Token};
use mc_base::Span;
use std::marker::Model;

/// Reads the tokens of a text, one after another. (OpenSMILES 1.0, section 2)
#[derive(Drop)]
pub struct Lexer<'a> {
    text: &'a [u8],
    place: u32,
}

impl<'a> Model for Lexer<'a> {
    ghost use Rattle.std.specs.Prelude.{length, ◌<◌, ◌≤◌, ◌^◌, ◌-◌};
    ghost use Rattle.smi_lex.specs.Tokens.{Cursor};

    ghost Value = { Cursor };

    ghost view = { λ l. record { text = l.text.now; at = l.place } };

    ghost invariant = { λ l. (length l.text.now < 2 ^ 32 - 1) × (l.place ≤ length l.text.now) };
}

impl<'a> Lexer<'a> {
    pub fn new(text: &'a [u8]) -> Lexer<'a>
        requires { length text.now < 2 ^ 32 - 1 }
        ensures { result ≡ record { text = text.now; at = 0 } }
    {
        Lexer { text, place: 0 }
    }

    /// The token that begins where the lexer stands, which then stands behind it. After `End` and
    /// after a refusal the lexer stands still, and answers the same again.
    #[inline(always)]
    pub fn next(&mut self) -> LexStep
        ensures token { IfToken result (λ token.
            StandsAt self.old.text self.old.at token × (self.new ≡ record self.old { at = token.span.to })) }
        ensures end { (result ≡ LexStep.End) ↔ (self.old.at ≡ length self.old.text) }
        ensures refused { IfRefused result (λ kind byte.
            StopsAt self.old.text self.old.at kind × (byte ≡ self.old.at + 1)) }
        ensures refuses { IsRefused result ↔ ((self.old.at < length self.old.text) × NoTokenBegins self.old.text self.old.at) }
        ensures stays { UnlessToken result (self.new ≡ self.old) }
    {
        let step = step_at(self.text, self.place);
        if let LexStep::Token(token) = step {
            self.place = token.span.to;
        }
        step
    }
}

/// The tokens that compute are the reading of the text up to the first byte at which no token
/// begins, and there is no other reading up to such a byte; no text is spelled by two kinds.
pub fn tokens_law()
    ensures reading { (text : List ℕ) → IsReading text 0 (tokens text) (length text - length (unread text)) }
    ensures rest { (text : List ℕ) → drop (length text - length (unread text)) text ≡ unread text }
    ensures stops { (text : List ℕ) → NoTokenBegins text (length text - length (unread text)) }
    ensures only { (text : List ℕ) (others : List Token) → IsReading text 0 others (length text) → others ≡ tokens text }
    ensures only_front { (text : List ℕ) (others : List Token) (end : ℕ) → end ≤ length text → IsReading text 0 others end → NoTokenBegins text end → others ≡ tokens text }
    ensures kinds { (text : List ℕ) → map (λ token. token.kind) (tokens text) ≡ kinds text }
    ensures one_kind { (kind other : TokenKind) (text : List ℕ) → Spells kind text → Spells other text → kind ≡ other }
{}

#[inline(always)]
fn text_from(text: &[u8], place: u32) -> &[u8]
    requires { place ≤ length text.now }
    ensures { result.now ≡ drop place text.now }
{
    &text[place as usize..]
}

/// What a lexer answers at this place.
#[inline(always)]
fn step_at(text: &[u8], place: u32) -> LexStep
    requires short { length text.now < 2 ^ 32 - 1 }
    requires inside { place ≤ length text.now }
    ensures token { IfToken result (λ token. StandsAt text.now place token) }
    ensures end { (result ≡ LexStep.End) ↔ (place ≡ length text.now) }
    ensures refused { IfRefused result (λ kind byte. StopsAt text.now place kind × (byte ≡ place + 1)) }
    ensures refuses { IsRefused result ↔ ((place < length text.now) × NoTokenBegins text.now place) }
{
    let rest = text_from(text, place);
    if rest.is_empty() {
        return LexStep::End;
    }
    match token_front(rest) {
        Some((kind, behind)) => {
            let to = (text.len() - behind.len()) as u32;
            LexStep::Token(Token {
                kind,
                span: Span { from: place, to },
            })
        }
        None => LexStep::Refused(cause(rest), place + 1),
    }
}

#[cfg(test)]
mod tests;
