ghost use Rattle.std.specs.Prelude.{◌≡◌};
ghost use Rattle.ct_sd.specs.Faults.{first_of, faults_at};
ghost use Rattle.ct_v2000.specs.Properties.{property_of, is_query_line, passes_next, property_shows};

use crate::entry::note_entries;
use crate::sgroup::note_sgroups;
use ct_sd::{FirstFault, begins_with, is_blank_text};
use mc_base::Kind;

/// What a line of the property block says.
#[derive(Clone, Copy, Debug, PartialEq, Eq)]
pub enum Property {
    /// charges of atoms
    Charges,
    /// masses of atoms
    Masses,
    /// radicals of atoms
    Radicals,
    /// types of Sgroups
    Sgroups,
    /// a query
    Query,
    /// an alias, which passes the next line
    Alias,
    /// nothing that is read
    Passed,
    /// no line of a property block
    Nothing,
}

impl Property {
    /// What this line says.
    #[tactic(auto, unfolding(crate::specs::Properties::property_of))]
    pub fn of(line: &[u8]) -> Property
        ensures { result ≡ property_of line.now }
    {
        if begins_with(line, b"M  CHG") {
            Property::Charges
        } else if begins_with(line, b"M  ISO") {
            Property::Masses
        } else if begins_with(line, b"M  RAD") {
            Property::Radicals
        } else if begins_with(line, b"M  STY") {
            Property::Sgroups
        } else if is_query_line(line) {
            Property::Query
        } else if begins_with(line, b"A  ") || begins_with(line, b"G  ") {
            Property::Alias
        } else if begins_with(line, b"V  ") || begins_with(line, b"M  ") || is_blank_text(line) {
            Property::Passed
        } else {
            Property::Nothing
        }
    }

    /// Notes what such a line shows in a record of so many atoms.
    pub fn note(self, line: &[u8], atoms: u32, place: u32, faults: &mut FirstFault)
        ensures { faults.new.fault ≡ first_of faults.old.fault (faults_at place (property_shows atoms self line.now)) }
    {
        match self {
            Property::Charges | Property::Masses | Property::Radicals => {
                note_entries(line, self, atoms, place, faults)
            }
            Property::Sgroups => note_sgroups(line, place, faults),
            Property::Query => faults.note(Kind::Query, place),
            Property::Alias => faults.note(Kind::Alias, place),
            Property::Passed => {}
            Property::Nothing => faults.note(Kind::BadField, place),
        }
    }
}

/// Whether a line passes the line behind it.
#[tactic(auto, unfolding(crate::specs::Properties::passes_next))]
pub fn passes_next(line: &[u8]) -> bool
    ensures { result ≡ passes_next line.now }
{
    begins_with(line, b"A  ") || begins_with(line, b"G  ")
}

fn is_query_line(line: &[u8]) -> bool
    ensures { result ≡ is_query_line line.now }
{
    begins_with(line, b"M  ALS")
        || begins_with(line, b"M  RGP")
        || begins_with(line, b"M  LOG")
        || begins_with(line, b"M  APO")
        || begins_with(line, b"M  AAL")
        || begins_with(line, b"M  RBC")
        || begins_with(line, b"M  SUB")
        || begins_with(line, b"M  UNS")
        || begins_with(line, b"M  LIN")
        || begins_with(line, b"M  $3D")
}
