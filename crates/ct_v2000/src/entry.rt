ghost use Rattle.std.specs.Prelude.{◌≡◌, ◌<◌, ◌≤◌, ◌+◌, IfSome, unsigned_abs, ℕ, None, length, get_or};
ghost use Rattle.ct_sd.specs.Columns.{columns};
ghost use Rattle.ct_sd.specs.Faults.{first_of, faults_at};
ghost use Rattle.ct_v2000.specs.Properties.{entry_count, entry_number, entry_at, atom_named, entry_shows, entry_kinds, entries_from, entries_of, entries_show, each_shows};
ghost use Rattle.ct_v2000.specs.Replaced.{said_for, last_entry};

use crate::Property;
use crate::bond_line::is_named;
use crate::fields::ENTRIES;
use ct_sd::{FirstFault, cut, is_blank_text};
use mc_base::Kind;
use mc_digits::read_count;

/// An entry of a property line: the number of an atom, from 1, and what is said of it; none of a part that isn't a
/// number. A number that names no atom may stand as 0.
#[derive(Clone, Copy, Debug, PartialEq, Eq)]
pub struct Entry {
    pub atom: Option<u32>,
    pub value: Option<i32>,
}

/// The number of entries of a line, where it has one from 1 to 8.
#[tactic(auto, unfolding(crate::specs::Properties::entry_count))]
pub fn entry_count(line: &[u8]) -> Option<u32>
    ensures count { result ≡ entry_count line.now }
    ensures few { IfSome result (λ n. n ≤ 8) }
{
    let count = ENTRIES.read(line)?;
    Some(count.unsigned_abs() as u32)
}

/// The number in the four columns from this one, which may not be blank.
#[tactic(auto, using(crate::proofs::Entries::number_is), unfolding(crate::specs::Properties::entry_number))]
fn entry_number(line: &[u8], from: usize) -> Option<i32>
    requires one { 1 ≤ from }
    requires small { from < 1000 }
    ensures { result ≡ entry_number (columns from (from + 3) line.now) }
{
    let text = cut(line, from, from + 3);
    if is_blank_text(text) {
        return None;
    }
    let number = read_count(text)?;
    Some(number as i32)
}

/// The atom that a number names; one below 0 names none, as 0 doesn't.
fn atom_named(number: Option<i32>) -> Option<u32>
    ensures { result ≡ atom_named number }
{
    match number {
        Some(number) if number > 0 => Some(number.unsigned_abs()),
        Some(_) => Some(0),
        None => None,
    }
}

impl Entry {
    /// The entry in the eight columns from this one.
    #[tactic(auto, unfolding(crate::specs::Properties::entry_at))]
    fn at(line: &[u8], from: usize) -> Entry
        requires one { 1 ≤ from }
        requires small { from < 900 }
        ensures { result ≡ entry_at from line.now }
    {
        Entry {
            atom: atom_named(entry_number(line, from)),
            value: entry_number(line, from + 4),
        }
    }

    /// Notes what an entry of such a line shows.
    fn note(self, property: Property, atoms: u32, place: u32, faults: &mut FirstFault)
        ensures { faults.new.fault ≡ first_of faults.old.fault (faults_at place (entry_shows atoms property self.atom self.value)) }
    {
        match (self.atom, self.value) {
            (Some(atom), Some(value)) => {
                faults.note_if(!is_named(atoms, atom), Kind::AtomNumber, place);
                match property {
                    Property::Masses => faults.note_if(value < 0, Kind::BadField, place),
                    Property::Radicals => faults.note_if(value != 0, Kind::Radical, place),
                    _ => {}
                }
            }
            _ => faults.note(Kind::BadField, place),
        }
    }

    /// Sets the value of the atom that is named, where there is one.
    fn set(self, values: &mut [Option<i32>])
        ensures count { length values.new ≡ length values.old }
        ensures set { (k : ℕ) → k < length values.old → get_or values.new k None ≡ said_for (k + 1) self.atom self.value (get_or values.old k None) }
    {
        if let Some(atom) = self.atom {
            if self.value.is_some() && 1 <= atom && atom as usize <= values.len() {
                values[atom as usize - 1] = self.value;
            }
        }
    }
}

/// Notes what the entries of such a line show.
pub fn note_entries(
    line: &[u8],
    property: Property,
    atoms: u32,
    place: u32,
    faults: &mut FirstFault,
)
    ensures { faults.new.fault ≡ first_of faults.old.fault (faults_at place (entries_show (entry_kinds atoms property) (entry_count line.now) line.now)) }
{
    match entry_count(line) {
        Some(count) => note_each(line, count, property, atoms, place, faults),
        None => faults.note(Kind::BadField, place),
    }
}

#[tactic(auto, unfolding(crate::specs::Properties::entry_kinds))]
fn note_entry(
    line: &[u8],
    from: usize,
    property: Property,
    atoms: u32,
    place: u32,
    faults: &mut FirstFault,
)
    requires one { 1 ≤ from }
    requires small { from < 900 }
    ensures { faults.new.fault ≡ first_of faults.old.fault (faults_at place (entry_kinds atoms property from line.now)) }
{
    Entry::at(line, from).note(property, atoms, place, faults);
}

fn note_each(
    line: &[u8],
    count: u32,
    property: Property,
    atoms: u32,
    place: u32,
    faults: &mut FirstFault,
)
    requires { count ≤ 8 }
    ensures { faults.new.fault ≡ first_of faults.old.fault (faults_at place (each_shows (entry_kinds atoms property) count 10 line.now)) }
{
    let mut e = 0u32;
    while e < count {
        note_entry(line, 10 + 8 * e as usize, property, atoms, place, faults);
        e += 1;
    }
}

/// Sets the values that the entries of a line say.
#[tactic(auto, unfolding(crate::specs::Properties::entries_of))]
pub fn set_entries(values: &mut [Option<i32>], line: &[u8])
    ensures count { length values.new ≡ length values.old }
    ensures set { (k : ℕ) → k < length values.old → get_or values.new k None ≡ last_entry (k + 1) (get_or values.old k None) (entries_of line.now) }
{
    if let Some(count) = entry_count(line) {
        set_each(values, line, count);
    }
}

fn set_each(values: &mut [Option<i32>], line: &[u8], count: u32)
    requires { count ≤ 8 }
    ensures count { length values.new ≡ length values.old }
    ensures set { (k : ℕ) → k < length values.old → get_or values.new k None ≡ last_entry (k + 1) (get_or values.old k None) (entries_from count 10 line.now) }
{
    let mut e = 0u32;
    while e < count {
        Entry::at(line, 10 + 8 * e as usize).set(values);
        e += 1;
    }
}
