ghost use Rattle.std.specs.Prelude.{◌≡◌, ◌≤◌, ◌<◌, ◌+◌, ◌*◌, is_some};
ghost use Rattle.std.specs.List.{list_all};
ghost use Rattle.ct_sd.specs.Faults.{first_of, faults_at};
ghost use Rattle.ct_sd.specs.Fields.{read, fields_show};
ghost use Rattle.ct_v2000.specs.Counts.{counts_fields};
ghost use Rattle.ct_v2000.specs.Blocks.{AreCounts};

use crate::fields::{ATOMS, BONDS, LISTS, STEXT};
use ct_sd::FirstFault;

/// What the counts line says: how many lines of each sort follow it.
#[derive(Clone, Copy, Debug, PartialEq, Eq)]
pub struct Counts {
    pub atoms: u32,
    pub bonds: u32,
    pub lists: u32,
    pub stexts: u32,
}

impl Counts {
    /// The counts of line 4, and what they show is noted.
    #[tactic(auto, using(crate::proofs::CountsLine::four_fields))]
    pub fn read(line: &[u8], faults: &mut FirstFault) -> Counts
        ensures counts { AreCounts line.now result }
        ensures shows { faults.new.fault ≡ first_of faults.old.fault (faults_at 4 (fields_show counts_fields line.now)) }
    {
        let atoms = ATOMS.take_count(line, 4, faults);
        let bonds = BONDS.take_count(line, 4, faults);
        let lists = LISTS.take_count(line, 4, faults);
        let stexts = STEXT.take_count(line, 4, faults);
        Counts {
            atoms,
            bonds,
            lists,
            stexts,
        }
    }

    /// How many lines stand before the property block.
    pub fn lines_before(self) -> u32
        requires lists { self.lists < 1000 }
        requires stexts { self.stexts < 1000 }
        requires atoms { self.atoms ≤ 999 }
        requires bonds { self.bonds ≤ 999 }
        ensures { result ≡ 4 + self.atoms + self.bonds + self.lists + 2 * self.stexts }
    {
        4 + self.atoms + self.bonds + self.lists + 2 * self.stexts
    }
}

/// Whether each field of line 4 is of its grammar.
pub fn is_well_formed(line: &[u8]) -> bool
    ensures { result ≡ list_all (λ f. is_some (read f line.now)) counts_fields }
{
    ATOMS.read(line).is_some()
        && BONDS.read(line).is_some()
        && LISTS.read(line).is_some()
        && STEXT.read(line).is_some()
}
