ghost use Rattle.std.specs.Prelude.{◌≡◌};
ghost use Rattle.smi_lex.specs.Fronts.{lower_letter, lower_pair, in_case, symbol_letter, symbol_pair, symbol_front};
ghost use Rattle.smi_lex.specs.Views.{front_view};

use mc_elements::Element;

/// The symbol of an atom, in its own case or in lower case.
#[derive(Clone, Copy)]
pub struct Symbol {
    pub element: Element,
    pub lower: bool,
}

/// The element whose symbol is this letter in lower case.
pub fn lower_letter(letter: u8) -> Option<Element>
    ensures { result ≡ lower_letter letter }
{
    match letter {
        b'c' => Some(Element::C),
        b'n' => Some(Element::N),
        b'o' => Some(Element::O),
        b's' => Some(Element::S),
        b'p' => Some(Element::P),
        b'b' => Some(Element::B),
        _ => None,
    }
}

fn lower_pair(first: u8, second: u8) -> Option<Element>
    ensures { result ≡ lower_pair first second }
{
    match (first, second) {
        (b's', b'e') => Some(Element::Se),
        (b'a', b's') => Some(Element::As),
        _ => None,
    }
}

fn in_case(lower: bool, element: Option<Element>) -> Option<Symbol>
    ensures { result ≡ in_case lower element }
{
    let element = element?;
    Some(Symbol { element, lower })
}

#[tactic(auto, using(crate::proofs::Letters::letter_lower, crate::proofs::Letters::letter_upper))]
fn symbol_letter(letter: u8) -> Option<Symbol>
    ensures { result ≡ symbol_letter letter }
{
    if letter.is_ascii_lowercase() {
        return in_case(true, lower_letter(letter));
    }
    in_case(false, Element::of_symbol(&[letter]))
}

#[tactic(auto, using(crate::proofs::Letters::pair_none, crate::proofs::Letters::pair_lower, crate::proofs::Letters::pair_upper))]
fn symbol_pair(first: u8, second: u8) -> Option<Symbol>
    ensures { result ≡ symbol_pair first second }
{
    if !second.is_ascii_lowercase() {
        return None;
    }
    if first.is_ascii_lowercase() {
        return in_case(true, lower_pair(first, second));
    }
    in_case(false, Element::of_symbol(&[first, second]))
}

/// The symbol at the front of a text, and what is behind it.
pub fn symbol_front(text: &[u8]) -> Option<(Symbol, &[u8])>
    ensures { front_view result ≡ symbol_front text.now }
{
    match text {
        [first, second, rest @ ..] => match symbol_pair(*first, *second) {
            Some(symbol) => Some((symbol, rest)),
            None => Some((symbol_letter(*first)?, &text[1..])),
        },
        [first] => Some((symbol_letter(*first)?, &text[1..])),
        [] => None,
    }
}
