ghost use Rattle.std.specs.Prelude.{◌≡◌, ◌<◌, ◌≤◌};
ghost use Rattle.ct_sd.specs.Faults.{first_of, faults_at};
ghost use Rattle.ct_v2000.specs.Properties.{entry_count, sgroup_kinds, sgroup_shows, entries_show, each_shows};

use crate::entry::entry_count;
use ct_sd::{FirstFault, cut, equals, trimmed};
use mc_base::Kind;
use mc_digits::read_count;

/// Notes what the Sgroups of a line show.
pub fn note_sgroups(line: &[u8], place: u32, faults: &mut FirstFault)
    ensures { faults.new.fault ≡ first_of faults.old.fault (faults_at place (entries_show sgroup_kinds (entry_count line.now) line.now)) }
{
    match entry_count(line) {
        Some(count) => note_each(line, count, place, faults),
        None => faults.note(Kind::BadField, place),
    }
}

/// Notes a type of an Sgroup that isn't passed.
fn note_type(name: &[u8], place: u32, faults: &mut FirstFault)
    ensures { faults.new.fault ≡ first_of faults.old.fault (faults_at place (sgroup_shows name.now)) }
{
    faults.note_if(
        !(equals(name, b"SUP") || equals(name, b"DAT")),
        Kind::Sgroup,
        place,
    );
}

/// Notes what the Sgroup in the eight columns from this one shows: its number may be blank.
#[tactic(auto, using(crate::proofs::Entries::count_is), unfolding(crate::specs::Properties::sgroup_kinds))]
fn note_sgroup(line: &[u8], from: usize, place: u32, faults: &mut FirstFault)
    requires one { 1 ≤ from }
    requires small { from < 900 }
    ensures { faults.new.fault ≡ first_of faults.old.fault (faults_at place (sgroup_kinds from line.now)) }
{
    faults.note_if(
        read_count(cut(line, from, from + 3)).is_none(),
        Kind::BadField,
        place,
    );
    note_type(trimmed(line, from + 4, from + 7), place, faults);
}

fn note_each(line: &[u8], count: u32, place: u32, faults: &mut FirstFault)
    requires { count ≤ 8 }
    ensures { faults.new.fault ≡ first_of faults.old.fault (faults_at place (each_shows sgroup_kinds count 10 line.now)) }
{
    let mut e = 0u32;
    while e < count {
        note_sgroup(line, 10 + 8 * e as usize, place, faults);
        e += 1;
    }
}
