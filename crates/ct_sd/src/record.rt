ghost use Rattle.std.specs.Prelude.{◌≡◌, ◌<◌, ◌≤◌, ◌∷◌, [], get_or, length, drop, map, true};
ghost use Rattle.ct_sd.specs.Ranges.{AreWithin, part};
ghost use Rattle.ct_sd.specs.DataLines.{data_lines};

use crate::DataLines;
use mc_base::Span;
use std::marker::Model;

/// A record: its lines, without their ends.
#[derive(Drop)]
pub struct Record<'a> {
    bytes: &'a [u8],
    cut: Cut<'a>,
}

/// Where the lines of a record stand in its bytes.
#[derive(Clone, Copy)]
enum Cut<'a> {
    /// the bytes are one line
    Whole,
    /// each line is a part of the bytes
    Ranges(&'a [Span]),
}

impl<'a> Model for Record<'a> {
    ghost use Rattle.std.specs.Prelude.{List, ℕ};
    ghost use Rattle.ct_sd.specs.Ranges.{lines_in, IsCut};

    ghost Value = { List (List ℕ) };

    ghost view = { λ r. lines_in r.bytes.now r.cut };

    ghost invariant = { λ r. IsCut r.bytes.now r.cut };
}

impl<'a> Record<'a> {
    /// A record whose lines are these parts of a run of bytes.
    pub fn new(bytes: &'a [u8], ranges: &'a [Span]) -> Record<'a>
        requires { AreWithin bytes.now ranges.now }
        ensures { result ≡ map (part bytes.now) ranges.now }
    {
        Record {
            bytes,
            cut: Cut::Ranges(ranges),
        }
    }

    /// A record of this one line.
    pub fn one(line: &'a [u8]) -> Record<'a>
        ensures { result ≡ line.now ∷ [] }
    {
        Record {
            bytes: line,
            cut: Cut::Whole,
        }
    }

    pub fn line_count(&self) -> u32
        ensures { result ≡ length self.now }
    {
        match self.cut {
            Cut::Whole => 1,
            Cut::Ranges(ranges) => ranges.len() as u32,
        }
    }

    /// Line k, from 0, without its end.
    pub fn line(&self, k: u32) -> &'a [u8]
        requires { k < length self.now }
        ensures { result.now ≡ get_or self.now k [] }
    {
        match self.cut {
            Cut::Whole => self.bytes,
            Cut::Ranges(ranges) => part(self.bytes, ranges[k as usize]),
        }
    }

    /// The lines behind the first line behind line 4 that ends a table, and none where there is no such line.
    #[tactic(auto, using(crate::proofs::Ranges::within_rest, crate::proofs::Ranges::rest_of_lines))]
    pub fn tail(&self) -> DataLines<'a>
        ensures { result ≡ data_lines self.now }
    {
        match self.cut {
            Cut::Whole => DataLines::none(),
            Cut::Ranges(ranges) => DataLines::behind_end(self.bytes, behind_header(ranges)),
        }
    }
}

/// Whether ranges are parts of these bytes, and fewer than a u32 can count.
pub fn are_within(bytes: &[u8], ranges: &[Span]) -> bool
    ensures { result ≡ true → AreWithin bytes.now ranges.now }
{
    ranges.len() <= u32::MAX as usize
        && ranges.iter().all(|range| range.from <= range.to && range.to as usize <= bytes.len())
}

/// The lines behind line 4.
#[tactic(auto, using(crate::proofs::Ranges::none_left))]
fn behind_header(ranges: &[Span]) -> &[Span]
    ensures { result.now ≡ drop 4 ranges.now }
{
    if ranges.len() < 4 { &[] } else { &ranges[4..] }
}

/// A part of a run of bytes.
pub(crate) fn part(bytes: &[u8], range: Span) -> &[u8]
    requires rising { range.from ≤ range.to }
    requires within { range.to ≤ length bytes.now }
    ensures { result.now ≡ part bytes.now range }
{
    &bytes[range.from as usize..range.to as usize]
}
