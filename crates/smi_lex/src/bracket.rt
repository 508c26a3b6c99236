ghost use Rattle.std.specs.Prelude.{◌≡◌, ◌≤◌};
ghost use Rattle.smi_lex.specs.Fronts.{number_front, chirality, chiral_front, hydrogen_count, hydrogens_front, second_digit, amount, charge_front, class_number, class_front, closing, behind_symbol, bracket_front};
ghost use Rattle.smi_lex.specs.Views.{front_view};

use crate::TokenKind;
use crate::symbol::{Symbol, symbol_front};
use mc_base::starts_digit;

/// The number whose digits stand at the front, and what is behind them; 0 where there is no digit.
pub fn number_front(text: &[u8]) -> (u32, &[u8])
    ensures value { result.0 ≡ (number_front 0 text.now).0 }
    ensures rest { result.1.now ≡ (number_front 0 text.now).1 }
{
    let mut value = 0u32;
    for (i, byte) in text.iter().enumerate() {
        if !byte.is_ascii_digit() {
            return (value, &text[i..]);
        }
        value = value
            .saturating_mul(10)
            .saturating_add(u32::from(*byte - b'0'));
    }
    (value, &[])
}

/// The chirality behind `@`.
fn chirality(text: &[u8]) -> (Option<bool>, &[u8])
    ensures value { result.0 ≡ (chirality text.now).0 }
    ensures rest { result.1.now ≡ (chirality text.now).1 }
{
    match text {
        [b'@', rest @ ..] => (Some(false), rest),
        [b'T', b'H', b'1', rest @ ..] => (Some(true), rest),
        [b'T', b'H', b'2', rest @ ..] => (Some(false), rest),
        _ => (Some(true), text),
    }
}

fn chiral_front(text: &[u8]) -> (Option<bool>, &[u8])
    ensures value { result.0 ≡ (chiral_front text.now).0 }
    ensures rest { result.1.now ≡ (chiral_front text.now).1 }
{
    match text {
        [b'@', rest @ ..] => chirality(rest),
        _ => (None, text),
    }
}

/// The number of hydrogens behind `H`.
fn hydrogen_count(text: &[u8]) -> (u8, &[u8])
    ensures value { result.0 ≡ (hydrogen_count text.now).0 }
    ensures rest { result.1.now ≡ (hydrogen_count text.now).1 }
{
    match text {
        [digit @ b'0'..=b'9', rest @ ..] => (*digit - b'0', rest),
        _ => (1, text),
    }
}

fn hydrogens_front(text: &[u8]) -> (u8, &[u8])
    ensures value { result.0 ≡ (hydrogens_front text.now).0 }
    ensures rest { result.1.now ≡ (hydrogens_front text.now).1 }
{
    match text {
        [b'H', rest @ ..] => hydrogen_count(rest),
        _ => (0, text),
    }
}

/// The second digit of an amount, where there is one.
fn second_digit(first: u8, text: &[u8]) -> (u8, &[u8])
    requires { first ≤ 9 }
    ensures value { result.0 ≡ (second_digit first text.now).0 }
    ensures rest { result.1.now ≡ (second_digit first text.now).1 }
    ensures small { result.0 ≤ 99 }
{
    match text {
        [digit @ b'0'..=b'9', rest @ ..] => (first * 10 + (*digit - b'0'), rest),
        _ => (first, text),
    }
}

/// The amount of a charge behind its sign.
fn amount(sign: u8, text: &[u8]) -> (u8, &[u8])
    ensures value { result.0 ≡ (amount sign text.now).0 }
    ensures rest { result.1.now ≡ (amount sign text.now).1 }
    ensures small { result.0 ≤ 99 }
{
    match text {
        [byte, rest @ ..] if *byte == sign => (2, rest),
        [digit @ b'0'..=b'9', rest @ ..] => second_digit(*digit - b'0', rest),
        _ => (1, text),
    }
}

fn charge_front(text: &[u8]) -> (i8, &[u8])
    ensures value { result.0 ≡ (charge_front text.now).0 }
    ensures rest { result.1.now ≡ (charge_front text.now).1 }
{
    match text {
        [b'+', rest @ ..] => {
            let (amount, rest) = amount(b'+', rest);
            (amount as i8, rest)
        }
        [b'-', rest @ ..] => {
            let (amount, rest) = amount(b'-', rest);
            (-(amount as i8), rest)
        }
        _ => (0, text),
    }
}

/// The class behind `:`, which has a digit at least.
fn class_number(text: &[u8]) -> Option<(u32, &[u8])>
    ensures { front_view result ≡ class_number text.now }
{
    if starts_digit(text) {
        Some(number_front(text))
    } else {
        None
    }
}

fn class_front(text: &[u8]) -> Option<(u32, &[u8])>
    ensures { front_view result ≡ class_front text.now }
{
    match text {
        [b':', rest @ ..] => class_number(rest),
        _ => Some((0, text)),
    }
}

/// The text behind the `]`.
fn closing(kind: TokenKind, text: &[u8]) -> Option<(TokenKind, &[u8])>
    ensures { front_view result ≡ closing kind text.now }
{
    match text {
        [b']', rest @ ..] => Some((kind, rest)),
        _ => None,
    }
}

fn behind_symbol(isotope: u32, symbol: Symbol, text: &[u8]) -> Option<(TokenKind, &[u8])>
    ensures { front_view result ≡ behind_symbol isotope symbol text.now }
{
    let (chiral, rest) = chiral_front(text);
    let (hydrogens, rest) = hydrogens_front(rest);
    let (charge, rest) = charge_front(rest);
    let (class, rest) = class_front(rest)?;
    let kind = TokenKind::Bracket {
        element: symbol.element,
        lower: symbol.lower,
        isotope,
        chiral,
        hydrogens,
        charge,
        class,
    };
    closing(kind, rest)
}

/// A bracket atom behind its `[`, and what is behind its `]`.
pub fn bracket_front(text: &[u8]) -> Option<(TokenKind, &[u8])>
    ensures { front_view result ≡ bracket_front text.now }
{
    let (isotope, rest) = number_front(text);
    let (symbol, rest) = symbol_front(rest)?;
    behind_symbol(isotope, symbol, rest)
}
