ghost use Rattle.std.specs.Prelude.{◌≡◌, ◌+◌, ◌<◌, ℕ, OnOk, length, get_or, None, ◌==◌, if◌then◌else◌};
ghost use Rattle.smi_graph.specs.RingTables.{turned, lesser, IsFirstEnd};

use crate::Role;
use smallvec::SmallVec;
use smi_lex::BondMark;
use std::alloc::{AllocError, Global};

/// An end of a ring bond: which token its number is, from 0, the atom beside which that stands, and the
/// bond symbol before it.
#[derive(Clone, Copy, Debug, PartialEq, Eq)]
pub struct RingEnd {
    pub token: u32,
    pub atom: u32,
    pub mark: Option<BondMark>,
}

/// Where a ring number is open behind one more of it.
fn turned(other: Option<RingEnd>, here: RingEnd) -> Option<RingEnd>
    ensures { result ≡ turned other here }
{
    match other {
        Some(_) => None,
        None => Some(here),
    }
}

/// Where a ring number is open; `ends` are the places of the numbers from 0 on.
fn end_of(ends: &[Option<RingEnd>], number: u8) -> Option<RingEnd>
    ensures { result ≡ get_or ends.now number None }
{
    match ends.get(number as usize) {
        Some(end) => *end,
        None => None,
    }
}

/// Makes room for a ring number.
fn reach(ends: &mut SmallVec<Option<RingEnd>, 4>, number: u8) -> Result<(), AllocError>
    ensures long { OnOk result (number < length ends.new.items) }
    ensures same { OnOk result ((n : ℕ) → get_or ends.new.items n None ≡ get_or ends.old.items n None) }
{
    while ends.len() <= number as usize {
        ends.push(None)?;
    }
    Ok(())
}

/// Keeps where a ring number is open.
fn set_end(
    ends: &mut SmallVec<Option<RingEnd>, 4>,
    number: u8,
    end: Option<RingEnd>,
) -> Result<(), AllocError>
    ensures { OnOk result ((n : ℕ) → get_or ends.new.items n None ≡ (if number == n then end else get_or ends.old.items n None)) }
{
    reach(ends, number)?;
    ends[number as usize] = end;
    Ok(())
}

/// The first of these tokens and the end of one more number.
fn lesser(first: Option<u32>, end: Option<RingEnd>) -> Option<u32>
    ensures { result ≡ lesser first end }
{
    match end {
        None => first,
        Some(end) => match first {
            None => Some(end.token),
            Some(first) => Some(if end.token < first { end.token } else { first }),
        },
    }
}

/// The first token whose ring number is open.
fn first_end(ends: &[Option<RingEnd>]) -> Option<u32>
    ensures { IsFirstEnd ends.now (length ends.now) result }
{
    let mut first = None;
    for end in ends {
        first = lesser(first, *end);
    }
    first
}

/// The ring numbers that are open behind the tokens so far.
#[derive(Drop)]
pub struct RingTable {
    /// where each number is open, from number 0 on
    ends: SmallVec<Option<RingEnd>, 4>,
}

impl RingTable {
    ghost use Rattle.std.specs.Prelude.{◌≡◌, [], ◌∷◌, List, OnOk};
    ghost use Rattle.smi_graph.specs.declared.role.Role.{Role};
    ghost use Rattle.smi_graph.specs.Bonds.{open_end, ring_end};
    ghost use Rattle.smi_graph.specs.RingTables.{HoldsEnds, IsFirstOpen};

    /// At the beginning of a text.
    pub fn none(alloc: Global) -> RingTable
        ensures { HoldsEnds result [] }
    {
        RingTable {
            ends: SmallVec::new(alloc),
        }
    }

    /// Where a number is open.
    pub fn open_end(&self, number: u8) -> Option<RingEnd>
        ensures { (before : List Role) → HoldsEnds self.now before → result ≡ open_end number before }
    {
        end_of(&self.ends, number)
    }

    /// One more token; where it is a ring number this is its end. It opens, or closes the one that is open.
    #[inline(always)]
    pub fn read(&mut self, role: Role, here: RingEnd) -> Result<(), AllocError>
        ensures { OnOk result ((before : List Role) → here ≡ ring_end before → HoldsEnds self.old before → HoldsEnds self.new (role ∷ before)) }
    {
        match role {
            Role::Ring(number) => self.turn(number, here),
            Role::Atom { .. } | Role::Bond(_) | Role::Enter | Role::Leave | Role::Dot => Ok(()),
        }
    }

    /// One more ring number, with this end.
    fn turn(&mut self, number: u8, here: RingEnd) -> Result<(), AllocError>
        ensures { OnOk result ((before : List Role) → here ≡ ring_end before → HoldsEnds self.old before → HoldsEnds self.new (Role.Ring number ∷ before)) }
    {
        let end = turned(end_of(&self.ends, number), here);
        set_end(&mut self.ends, number, end)?;
        Ok(())
    }

    /// The first token whose number is open.
    pub fn first_open(&self) -> Option<u32>
        ensures { (before : List Role) → HoldsEnds self.now before → IsFirstOpen before result }
    {
        first_end(&self.ends)
    }
}
