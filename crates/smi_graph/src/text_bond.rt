ghost use Rattle.std.specs.Prelude.{◌≡◌, IfOk, map};
ghost use Rattle.smi_graph.specs.Bonds.{chain_bond, ring_bond};
ghost use Rattle.smi_graph.specs.Links.{order_of, or_else, said_order, marks_clash, clashes, symbol, bond_of};
ghost use Rattle.smi_graph.specs.RingRules.{some_clashes};

use crate::RingEnd;
use mc_base::AtomId;
use mc_mol::Bond;
use smi_lex::BondMark;
use std::alloc::{AllocError, Global};

/// A bond of a text: its two atoms, and the symbol at each end that has one. Its first atom is the predecessor, or that
/// of the opening ring number. The symbol between an atom and its predecessor is the opening one.
#[derive(Clone, Copy, Debug, PartialEq, Eq)]
pub struct TextBond {
    pub first: AtomId,
    pub second: AtomId,
    pub opening: Option<BondMark>,
    pub closing: Option<BondMark>,
}

impl TextBond {
    ghost use Rattle.std.specs.Prelude.{◌≡◌};
    ghost use Rattle.smi_graph.specs.Links.{order_of, symbol, bond_of};

    /// The symbol of the bond, which either end may have.
    pub fn symbol(self) -> Option<BondMark>
        ensures { result ≡ symbol self }
    {
        or_else(self.opening, self.closing)
    }

    /// The order that the symbol of the bond says, and 1 where it says none.
    pub fn order(self) -> u8
        ensures { result ≡ order_of (symbol self) }
    {
        order_of(self.symbol())
    }

    /// The bond with this order.
    pub fn bond(self) -> Bond
        ensures { result ≡ bond_of self }
    {
        Bond {
            first: self.first,
            second: self.second,
            order: self.order(),
        }
    }
}

/// The order of a bond with this symbol.
fn order_of(mark: Option<BondMark>) -> u8
    ensures { result ≡ order_of mark }
{
    match mark {
        Some(BondMark::Double) => 2,
        Some(BondMark::Triple) => 3,
        Some(BondMark::Quadruple) => 4,
        None
        | Some(BondMark::Single | BondMark::Aromatic | BondMark::Slash | BondMark::Backslash) => 1,
    }
}

fn or_else(mark: Option<BondMark>, other: Option<BondMark>) -> Option<BondMark>
    ensures { result ≡ or_else mark other }
{
    match mark {
        Some(mark) => Some(mark),
        None => other,
    }
}

/// The order in which two symbols of one ring bond must agree.
fn said_order(mark: BondMark) -> u8
    ensures { result ≡ said_order mark }
{
    match mark {
        BondMark::Single | BondMark::Slash | BondMark::Backslash => 1,
        BondMark::Double => 2,
        BondMark::Triple => 3,
        BondMark::Quadruple => 4,
        BondMark::Aromatic => 5,
    }
}

fn marks_clash(mark: Option<BondMark>, other: Option<BondMark>) -> bool
    ensures { result ≡ marks_clash mark other }
{
    match mark {
        Some(mark) => match other {
            Some(other) => said_order(mark) != said_order(other),
            None => false,
        },
        None => false,
    }
}

/// Whether the two ends of a bond say different orders.
pub fn some_clashes(bond: Option<TextBond>) -> bool
    ensures { result ≡ some_clashes bond }
{
    match bond {
        Some(bond) => marks_clash(bond.opening, bond.closing),
        None => false,
    }
}

/// The bond of an atom to its predecessor.
#[inline(always)]
pub fn chain_bond(first: Option<u32>, second: u32, mark: Option<BondMark>) -> Option<TextBond>
    ensures { result ≡ chain_bond first second mark }
{
    match first {
        Some(first) => Some(TextBond {
            first: AtomId(first),
            second: AtomId(second),
            opening: mark,
            closing: None,
        }),
        None => None,
    }
}

/// The bond that a closing number completes.
pub fn ring_bond(other: Option<RingEnd>, here: RingEnd) -> Option<TextBond>
    ensures { result ≡ ring_bond other here }
{
    match other {
        Some(other) => Some(TextBond {
            first: AtomId(other.atom),
            second: AtomId(here.atom),
            opening: other.mark,
            closing: here.mark,
        }),
        None => None,
    }
}

/// The bonds with the orders that their symbols say.
pub fn bonds_with_orders(alloc: Global, bonds: &[TextBond]) -> Result<Vec<Bond>, AllocError>
    ensures { IfOk result (λ found. found.items ≡ map bond_of bonds.now) }
{
    let mut found = Vec::with_capacity(alloc, bonds.len())?;
    for bond in bonds {
        found.push_reserved(bond.bond());
    }
    Ok(found)
}
