ghost use Rattle.std.specs.Prelude.{◌≡◌};
ghost use Rattle.std.specs.Char.{is_ascii_digit};
ghost use Rattle.std.specs.List.{list_all};
ghost use Rattle.ct_sd.specs.Faults.{first_of, faults_at};
ghost use Rattle.ct_sd.specs.Symbols.{symbol_of, symbol_shows, element_said, isotope_said, is_query, is_numbered_group};

use crate::FirstFault;
use crate::text::equals;
use mc_base::Kind;
use mc_elements::Element;

/// What the symbol of an atom says.
#[derive(Clone, Copy, Debug, PartialEq, Eq)]
pub enum Symbol {
    /// an element, and the isotope that `D` and `T` say, else 0
    Known(Element, u32),
    /// a query
    Query,
    /// nothing
    Unknown,
}

impl Symbol {
    #[tactic(auto, unfolding(crate::specs::Symbols::symbol_of))]
    pub fn of(text: &[u8]) -> Symbol
        ensures { result ≡ symbol_of text.now }
    {
        if equals(text, b"D") {
            return Symbol::Known(Element::H, 2);
        }
        if equals(text, b"T") {
            return Symbol::Known(Element::H, 3);
        }
        match Element::of_symbol(text) {
            Some(element) => Symbol::Known(element, 0),
            None => {
                if is_query(text) {
                    Symbol::Query
                } else {
                    Symbol::Unknown
                }
            }
        }
    }

    /// Notes what a symbol shows.
    pub fn note(self, place: u32, faults: &mut FirstFault)
        ensures { faults.new.fault ≡ first_of faults.old.fault (faults_at place (symbol_shows self)) }
    {
        match self {
            Symbol::Known(_, _) => {}
            Symbol::Query => faults.note(Kind::Query, place),
            Symbol::Unknown => faults.note(Kind::BadField, place),
        }
    }

    /// The element, and hydrogen where the symbol says none.
    pub fn element(self) -> Element
        ensures { result ≡ element_said self }
    {
        match self {
            Symbol::Known(element, _) => element,
            Symbol::Query | Symbol::Unknown => Element::H,
        }
    }

    pub fn isotope(self) -> u32
        ensures { result ≡ isotope_said self }
    {
        match self {
            Symbol::Known(_, isotope) => isotope,
            Symbol::Query | Symbol::Unknown => 0,
        }
    }
}

fn is_query(text: &[u8]) -> bool
    ensures { result ≡ is_query text.now }
{
    equals(text, b"A")
        || equals(text, b"Q")
        || equals(text, b"*")
        || equals(text, b"L")
        || equals(text, b"LP")
        || equals(text, b"R")
        || equals(text, b"R#")
        || equals(text, b"X")
        || equals(text, b"M")
        || equals(text, b"AH")
        || equals(text, b"QH")
        || equals(text, b"XH")
        || equals(text, b"MH")
        || is_numbered_group(text)
}

/// `R` and digits.
fn is_numbered_group(text: &[u8]) -> bool
    ensures { result ≡ is_numbered_group text.now }
{
    match text {
        [b'R', digits @ ..] => !digits.is_empty() && are_digits(digits),
        _ => false,
    }
}

fn are_digits(text: &[u8]) -> bool
    ensures { result ≡ list_all is_ascii_digit text.now }
{
    text.iter().all(|byte| byte.is_ascii_digit())
}
