ghost use Rattle.std.specs.Prelude.{◌<◌, ◌-◌, ◌^◌, length};

use super::*;
use crate::{BondMark, TokenKind};
use mc_base::Kind;
use mc_elements::Element;

/// What is answered behind the tokens of a text.
fn last_step(text: &[u8]) -> LexStep
    requires { length text.now < 2 ^ 32 - 1 }
{
    let mut lexer = Lexer::new(text);
    for _ in 0..text.len() {
        let step = lexer.next();
        if !matches!(step, LexStep::Token(_)) {
            return step;
        }
    }
    lexer.next()
}

/// The first token of a text.
fn first(text: &[u8]) -> Option<Token>
    requires { length text.now < 2 ^ 32 - 1 }
{
    match Lexer::new(text).next() {
        LexStep::Token(token) => Some(token),
        _ => None,
    }
}

fn to(kind: TokenKind, to: u32) -> Option<Token> {
    Some(Token {
        kind,
        span: Span { from: 0, to },
    })
}

#[test]
fn refusals(rt: HostRuntime) {
    assert_eq!(rt; last_step(b"CX"), LexStep::Refused(Kind::BadToken, 2));
    assert_eq!(rt; last_step(b"C%1"), LexStep::Refused(Kind::BadToken, 2));
    assert_eq!(rt; last_step(b"["), LexStep::Refused(Kind::BadToken, 1));
    assert_eq!(rt; last_step(b"[]"), LexStep::Refused(Kind::BadToken, 1));
    assert_eq!(rt; last_step(b"[C"), LexStep::Refused(Kind::BadToken, 1));
    assert_eq!(rt; last_step(b"N[CH10]"), LexStep::Refused(Kind::BadToken, 2));
    assert_eq!(rt; last_step(b"[C@@@]"), LexStep::Refused(Kind::BadToken, 1));
    assert_eq!(rt; last_step(b"[sc]"), LexStep::Refused(Kind::BadToken, 1));
    assert_eq!(rt; last_step(b"C*"), LexStep::Refused(Kind::Wildcard, 2));
    assert_eq!(rt; last_step(b"[2*]"), LexStep::Refused(Kind::Wildcard, 1));
    assert_eq!(rt;
        last_step(b"F[C@TB1]"),
        LexStep::Refused(Kind::OtherChirality, 2)
    );
    assert_eq!(rt;
        last_step(b"[C@AL"),
        LexStep::Refused(Kind::OtherChirality, 1)
    );
    assert_eq!(rt; last_step(b"[C@TH3]"), LexStep::Refused(Kind::BadToken, 1));
}

#[test]
fn whole_texts(rt: HostRuntime) {
    assert_eq!(rt; last_step(b""), LexStep::End);
    assert_eq!(rt; last_step(b"Sc"), LexStep::End);
    assert_eq!(rt; last_step(b"C1.O=C(N)C%01"), LexStep::End);
    assert_eq!(rt; last_step(b"[Sc][se][as-][HH1]/\\:$#"), LexStep::End);
}

#[test]
fn first_tokens(rt: HostRuntime) {
    let chlorine = TokenKind::Bare {
        element: Element::Cl,
        lower: false,
    };
    assert_eq!(rt; first(b"Cl"), to(chlorine, 2));
    assert_eq!(rt; first(b"%12C"), to(TokenKind::Ring(12), 3));
    assert_eq!(rt; first(b"=C"), to(TokenKind::Bond(BondMark::Double), 1));
    let methyl = TokenKind::Bracket {
        element: Element::C,
        lower: false,
        isotope: 13,
        chiral: None,
        hydrogens: 3,
        charge: 0,
        class: 7,
    };
    assert_eq!(rt; first(b"[13CH3:7]C"), to(methyl, 9));
    let charged = TokenKind::Bracket {
        element: Element::As,
        lower: true,
        isotope: 4_294_967_295,
        chiral: Some(false),
        hydrogens: 1,
        charge: -16,
        class: 0,
    };
    assert_eq!(rt; first(b"[4294967296as@@H-16]"), to(charged, 20));
}

#[test]
fn answers_again(rt: HostRuntime) {
    let mut lexer = Lexer::new(b"C*");
    let _carbon = lexer.next();
    assert_eq!(rt; lexer.next(), LexStep::Refused(Kind::Wildcard, 2));
    assert_eq!(rt; lexer.next(), LexStep::Refused(Kind::Wildcard, 2));
}
