ghost use Rattle.std.specs.Prelude.{◌≡◌, ◌<◌, ◌^◌, length, OnOk};
ghost use Rattle.ct_sd.specs.Faults.{first_of, faults_at};
ghost use Rattle.ct_v3000.specs.declared.stage.Role.TheVariants as is;
ghost use Rattle.ct_v3000.specs.OtherLines.{sgroup_line_shows, collection_line_shows};
ghost use Rattle.ct_v3000.specs.Steps.{nothing_read, after, HasOneMore};

use crate::atom_line::{number_in, read_atom_line};
use crate::bond_line::read_bond_line;
use crate::indices::AtomIndices;
use crate::stage::Role;
use crate::words::Words;
use ct_sd::{FirstFault, JoinedPairs, TableAtoms, TableBonds};
use mc_base::{Kind, NoMemory};
use std::alloc::Global;

/// What is read of a record so far.
#[derive(Drop)]
pub struct Reading {
    pub indices: AtomIndices,
    pub joined: JoinedPairs,
    pub atoms: TableAtoms,
    pub bonds: TableBonds,
    pub faults: FirstFault,
}

impl Reading {
    pub fn nothing(alloc: Global) -> Reading
        ensures { result ≡ nothing_read }
    {
        Reading {
            indices: AtomIndices::new(alloc),
            joined: JoinedPairs::new(alloc),
            atoms: TableAtoms::new(alloc),
            bonds: TableBonds::new(alloc),
            faults: FirstFault::none(),
        }
    }

    fn read_atom(&mut self, words: &Words<'_>, place: u32) -> Result<(), NoMemory>
        ensures after { OnOk result (self.new ≡ after is.Atom place words.now self.old) }
        ensures few { OnOk result (HasOneMore self.old self.new) }
    {
        let atom = read_atom_line(words, place, &mut self.faults);
        let given = self.indices.add(number_in(words, 0))?;
        self.faults.note_if(given, Kind::AtomNumber, place);
        self.atoms.push(atom)?;
        Ok(())
    }

    fn read_bond(&mut self, words: &Words<'_>, place: u32) -> Result<(), NoMemory>
        requires { length self.old.indices < 2 ^ 32 }
        ensures after { OnOk result (self.new ≡ after is.Bond place words.now self.old) }
        ensures few { OnOk result (HasOneMore self.old self.new) }
    {
        let bond = read_bond_line(
            words,
            place,
            &self.indices,
            &mut self.joined,
            &mut self.faults,
        )?;
        self.bonds.push(bond)?;
        Ok(())
    }

    /// Reads a line of this role.
    pub fn read(&mut self, role: Role, words: &Words<'_>, place: u32) -> Result<(), NoMemory>
        requires { length self.old.indices < 2 ^ 32 }
        ensures after { OnOk result (self.new ≡ after role place words.now self.old) }
        ensures few { OnOk result (HasOneMore self.old self.new) }
    {
        match role {
            Role::Frame => {}
            Role::Atom => self.read_atom(words, place)?,
            Role::Bond => self.read_bond(words, place)?,
            Role::Sgroup => note_sgroup(words, place, &mut self.faults),
            Role::Collection => note_collection(words, place, &mut self.faults),
            Role::Query => self.faults.note(Kind::Query, place),
            Role::Wrong => self.faults.note(Kind::BadField, place),
        }
        Ok(())
    }
}

/// Notes what a line of an Sgroup block shows.
#[tactic(auto, unfolding(crate::specs::OtherLines::sgroup_line_shows))]
fn note_sgroup(words: &Words<'_>, place: u32, faults: &mut FirstFault)
    ensures { faults.new.fault ≡ first_of faults.old.fault (faults_at place (sgroup_line_shows words.now)) }
{
    if words.word_is(0, b"DEFAULT") {
        return;
    }
    if words.count() < 2 {
        faults.note(Kind::BadField, place);
    } else {
        let passed = words.word_is(1, b"SUP") || words.word_is(1, b"DAT");
        faults.note_if(!passed, Kind::Sgroup, place);
    }
}

/// Notes what a line of a collection block shows.
#[tactic(auto, unfolding(crate::specs::OtherLines::collection_line_shows))]
fn note_collection(words: &Words<'_>, place: u32, faults: &mut FirstFault)
    ensures { faults.new.fault ≡ first_of faults.old.fault (faults_at place (collection_line_shows words.now)) }
{
    let name = words.word(0);
    let enhanced = name.starts_with(b"MDLV30/STERAC") || name.starts_with(b"MDLV30/STEREL");
    faults.note_if(enhanced, Kind::EnhancedStereo, place);
}
