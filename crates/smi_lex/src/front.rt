ghost use Rattle.std.specs.Prelude.{◌≡◌, true, false};
ghost use Rattle.smi_lex.specs.Fronts.{two_digits, one_or_two_letters, byte_kind, token_front, is_other_class, bracket_cause, cause};
ghost use Rattle.smi_lex.specs.Views.{front_view};

use crate::bracket::{bracket_front, number_front};
use crate::symbol::symbol_front;
use crate::{BondMark, TokenKind};
use mc_base::Kind;
use mc_elements::Element;

fn upper(element: Element) -> TokenKind
    ensures { result ≡ TokenKind.Bare element false }
{
    TokenKind::Bare {
        element,
        lower: false,
    }
}

fn lower(element: Element) -> TokenKind
    ensures { result ≡ TokenKind.Bare element true }
{
    TokenKind::Bare {
        element,
        lower: true,
    }
}

/// A token of one byte, which begins no other token.
#[inline(always)]
fn byte_kind(byte: u8) -> Option<TokenKind>
    ensures { result ≡ byte_kind byte }
{
    let kind = match byte {
        b'c' => lower(Element::C),
        b'(' => TokenKind::Enter,
        b')' => TokenKind::Leave,
        b'=' => TokenKind::Bond(BondMark::Double),
        b'0'..=b'9' => TokenKind::Ring(byte - b'0'),
        b'O' => upper(Element::O),
        b'N' => upper(Element::N),
        b'n' => lower(Element::N),
        b'F' => upper(Element::F),
        b'S' => upper(Element::S),
        b'o' => lower(Element::O),
        b's' => lower(Element::S),
        b'P' => upper(Element::P),
        b'I' => upper(Element::I),
        b'p' => lower(Element::P),
        b'b' => lower(Element::B),
        b'.' => TokenKind::Dot,
        b'-' => TokenKind::Bond(BondMark::Single),
        b'#' => TokenKind::Bond(BondMark::Triple),
        b'/' => TokenKind::Bond(BondMark::Slash),
        b'\\' => TokenKind::Bond(BondMark::Backslash),
        b':' => TokenKind::Bond(BondMark::Aromatic),
        b'$' => TokenKind::Bond(BondMark::Quadruple),
        _ => return None,
    };
    Some(kind)
}

/// The ring number behind `%`.
#[inline(always)]
fn two_digits(text: &[u8]) -> Option<(TokenKind, &[u8])>
    ensures { front_view result ≡ two_digits text.now }
{
    match text {
        [tens @ b'0'..=b'9', ones @ b'0'..=b'9', rest @ ..] => {
            let number = (*tens - b'0') * 10 + (*ones - b'0');
            Some((TokenKind::Ring(number), rest))
        }
        _ => None,
    }
}

/// An atom of two letters where the second one follows, and else of one.
#[inline(always)]
fn one_or_two_letters(text: &[u8], second: u8, two: Element, one: Element) -> (TokenKind, &[u8])
    ensures value { result.0 ≡ (one_or_two_letters second two one text.now).0 }
    ensures rest { result.1.now ≡ (one_or_two_letters second two one text.now).1 }
{
    match text {
        [byte, rest @ ..] if *byte == second => (upper(two), rest),
        _ => (upper(one), text),
    }
}

/// The token at the front of a text, and what is behind it.
#[inline(always)]
pub fn token_front(text: &[u8]) -> Option<(TokenKind, &[u8])>
    ensures { front_view result ≡ token_front text.now }
{
    match text {
        [b'C', rest @ ..] => Some(one_or_two_letters(rest, b'l', Element::Cl, Element::C)),
        [b'B', rest @ ..] => Some(one_or_two_letters(rest, b'r', Element::Br, Element::B)),
        // Taken apart, so that the tokens of a byte stay in registers.
        [b'[', rest @ ..] => match bracket_front(rest) {
            Some((kind, behind)) => Some((kind, behind)),
            None => None,
        },
        [b'%', rest @ ..] => two_digits(rest),
        [byte, rest @ ..] => {
            let kind = byte_kind(*byte)?;
            Some((kind, rest))
        }
        [] => None,
    }
}

fn is_other_class(text: &[u8]) -> bool
    ensures { result ≡ is_other_class text.now }
{
    matches!(
        text,
        [b'@', b'A', b'L', ..]
            | [b'@', b'S', b'P', ..]
            | [b'@', b'T', b'B', ..]
            | [b'@', b'O', b'H', ..]
    )
}

/// Why a bracket isn't well formed, behind its isotope.
fn bracket_cause(text: &[u8]) -> Kind
    ensures { result ≡ bracket_cause text.now }
{
    if let [b'*', ..] = text {
        return Kind::Wildcard;
    }
    match symbol_front(text) {
        Some((_, rest)) if is_other_class(rest) => Kind::OtherChirality,
        _ => Kind::BadToken,
    }
}

/// Why no token begins at the front of a text.
pub fn cause(text: &[u8]) -> Kind
    ensures { result ≡ cause text.now }
{
    match text {
        [b'*', ..] => Kind::Wildcard,
        [b'[', rest @ ..] => {
            let (_, rest) = number_front(rest);
            bracket_cause(rest)
        }
        _ => Kind::BadToken,
    }
}
