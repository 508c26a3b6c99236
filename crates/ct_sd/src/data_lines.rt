ghost use Rattle.std.specs.Prelude.{◌≡◌, ◌<◌, [], get_or, length, map};
ghost use Rattle.ct_sd.specs.Ranges.{AreWithin, part};
ghost use Rattle.ct_sd.specs.DataLines.{behind_end};

use crate::is_end_line;
use crate::record::part;
use mc_base::Span;
use std::marker::Model;

/// The data lines of a record: those behind its table, without their ends.
#[derive(Drop)]
pub struct DataLines<'a> {
    bytes: &'a [u8],
    ranges: &'a [Span],
}

impl<'a> Model for DataLines<'a> {
    ghost use Rattle.std.specs.Prelude.{List, ℕ, map};
    ghost use Rattle.ct_sd.specs.Ranges.{part, AreWithin};

    ghost Value = { List (List ℕ) };

    ghost view = { λ d. map (part d.bytes.now) d.ranges.now };

    ghost invariant = { λ d. AreWithin d.bytes.now d.ranges.now };
}

impl<'a> DataLines<'a> {
    pub fn none() -> DataLines<'a>
        ensures { result ≡ [] }
    {
        DataLines {
            bytes: &[],
            ranges: &[],
        }
    }

    pub fn count(&self) -> u32
        ensures { result ≡ length self.now }
    {
        self.ranges.len() as u32
    }

    /// Line k, from 0.
    pub fn line(&self, k: u32) -> &'a [u8]
        requires { k < length self.now }
        ensures { result.now ≡ get_or self.now k [] }
    {
        part(self.bytes, self.ranges[k as usize])
    }

    /// The lines behind the first that ends a table.
    pub(crate) fn behind_end(bytes: &'a [u8], ranges: &'a [Span]) -> DataLines<'a>
        requires { AreWithin bytes.now ranges.now }
        ensures { result ≡ behind_end (map (part bytes.now) ranges.now) }
    {
        for (i, range) in ranges.iter().enumerate() {
            if is_end_line(part(bytes, *range)) {
                return DataLines {
                    bytes,
                    ranges: &ranges[i + 1..],
                };
            }
        }
        DataLines::none()
    }
}
