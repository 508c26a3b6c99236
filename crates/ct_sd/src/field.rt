ghost use Rattle.std.specs.Prelude.{ℕ, ◌≡◌, ◌≤◌, ◌<◌, ◌^◌, ◌+◌, ◌-◌, pos, unsigned_abs, IfSome, IsTrue};
ghost use Rattle.ct_sd.specs.declared.field.Field.{Field};
ghost use Rattle.ct_sd.specs.Faults.{first_of, faults_at};
ghost use Rattle.ct_sd.specs.Fields.{number_of, read, value, or_zero, field_shows, shown_by, is_within};

use crate::{FirstFault, cut};
use mc_base::Kind;
use mc_digits::{read_count, read_fixed};

/// How the number of a field is written.
#[derive(Clone, Copy, Debug, PartialEq, Eq)]
pub enum Grammar {
    /// a whole number
    Count,
    /// ten-thousandths, with a point
    Fixed,
}

/// A field of a line, as a row of a table of fields: its columns, which count from 1, its grammar, the least and the
/// greatest number, and the kind that stands where the number isn't 0.
#[derive(Clone, Copy, Debug, PartialEq, Eq)]
pub struct Field {
    pub from: usize,
    pub to: usize,
    pub grammar: Grammar,
    pub least: i64,
    pub most: i64,
    pub shows: Option<Kind>,
}

impl Field {
    /// The number of a field, where its columns have one in its range.
    #[tactic(auto, using(crate::proofs::Reading::read_is, crate::proofs::Reading::read_most))]
    pub fn read(self, line: &[u8]) -> Option<i64>
        requires from_one { 1 ≤ self.from }
        requires rising { self.from ≤ self.to }
        ensures number { result ≡ read self line.now }
        ensures most { (l m : ℕ) → self.least ≡ pos l → self.most ≡ pos m → IfSome result (λ n. unsigned_abs n ≤ m) }
    {
        let number = number(self.grammar, cut(line, self.from, self.to))?;
        if self.is_within(number) {
            Some(number)
        } else {
            None
        }
    }

    fn is_within(self, number: i64) -> bool
        ensures { result ≡ is_within self number }
    {
        self.least <= number && number <= self.most
    }

    /// The number of a field, and 0 where it has none; what the field shows is noted.
    #[tactic(auto, using(crate::proofs::Reading::value_few, crate::proofs::Reading::value_within), unfolding(crate::specs::Fields::value, crate::specs::Fields::field_shows))]
    pub fn take(self, line: &[u8], place: u32, faults: &mut FirstFault) -> i64
        requires from_one { 1 ≤ self.from }
        requires rising { self.from ≤ self.to }
        ensures value { result ≡ value self line.now }
        ensures shows { faults.new.fault ≡ first_of faults.old.fault (faults_at place (field_shows self line.now)) }
        ensures few { self.grammar ≡ Grammar.Count → unsigned_abs result < 10 ^ (self.to + 1 - self.from) }
        ensures within { IsTrue (is_within self (pos 0)) → IsTrue (is_within self result) }
    {
        let number = self.read(line);
        self.note(number, place, faults);
        or_zero(number)
    }

    /// The same for a whole number of at most nine columns, without its sign.
    #[tactic(auto, using(crate::proofs::Reading::value_most, crate::proofs::Bounds::fits_u32))]
    pub fn take_count(self, line: &[u8], place: u32, faults: &mut FirstFault) -> u32
        requires count { self.grammar ≡ Grammar.Count }
        requires from_one { 1 ≤ self.from }
        requires rising { self.from ≤ self.to }
        requires few { self.to + 1 - self.from ≤ 9 }
        ensures value { result ≡ unsigned_abs (value self line.now) }
        ensures shows { faults.new.fault ≡ first_of faults.old.fault (faults_at place (field_shows self line.now)) }
        ensures few { result < 10 ^ (self.to + 1 - self.from) }
        ensures most { (l m : ℕ) → self.least ≡ pos l → self.most ≡ pos m → result ≤ m }
    {
        self.take(line, place, faults).unsigned_abs() as u32
    }

    /// Notes what a number of the field shows, or that there is none.
    fn note(self, number: Option<i64>, place: u32, faults: &mut FirstFault)
        ensures { faults.new.fault ≡ first_of faults.old.fault (faults_at place (shown_by self number)) }
    {
        match number {
            Some(number) => {
                if number != 0 {
                    if let Some(kind) = self.shows {
                        faults.note(kind, place);
                    }
                }
            }
            None => faults.note(Kind::BadField, place),
        }
    }
}

fn or_zero(number: Option<i64>) -> i64
    ensures { result ≡ or_zero number }
{
    number.unwrap_or(0)
}

fn number(grammar: Grammar, text: &[u8]) -> Option<i64>
    ensures { result ≡ number_of grammar text.now }
{
    match grammar {
        Grammar::Count => read_count(text),
        Grammar::Fixed => read_fixed(text),
    }
}
