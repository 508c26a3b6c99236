ghost use Rattle.std.specs.Prelude.{◌≡◌, ◌≤◌, ◌<◌, length, get_or, None, IfOk};
ghost use Rattle.ct_sd.specs.Faults.{first_of, faults_at};
ghost use Rattle.ct_v2000.specs.Table.{charge_with, isotope_with, late_shows, late_faults};
ghost use Rattle.ct_v2000.specs.Blocks.{atom_by_said, atoms_by_said};

use crate::atom_line::AtomLine;
use crate::said::Said;
use ct_sd::{FirstFault, TableAtom, TableAtoms};
use mc_base::{Kind, NoMemory};
use std::alloc::Global;

impl Said {
    /// The k-th atom, from 0, with what is said of it.
    fn atom(&self, given: AtomLine, k: usize) -> TableAtom
        requires charges { k < length self.now.charges.items }
        requires masses { k < length self.now.masses.items }
        ensures { result ≡ atom_by_said self.now k given }
    {
        TableAtom {
            charge: self.charge(given, k),
            isotope: self.isotope(given, k),
            ..given.atom
        }
    }

    fn charge(&self, given: AtomLine, k: usize) -> i32
        requires { k < length self.now.charges.items }
        ensures { result ≡ charge_with self.now.codes_replaced (get_or self.now.charges.items k None) given.charge }
    {
        if self.codes_replaced {
            self.charges[k].unwrap_or(0)
        } else {
            given.charge.unwrap_or(0)
        }
    }

    fn isotope(&self, given: AtomLine, k: usize) -> u32
        requires { k < length self.now.masses.items }
        ensures { result ≡ isotope_with self.now.differences_replaced (get_or self.now.masses.items k None) given.atom.isotope given.isotope }
    {
        if !self.differences_replaced {
            return given.isotope.unwrap_or(given.atom.isotope);
        }
        match self.masses[k] {
            Some(mass) => mass.unsigned_abs(),
            None => given.atom.isotope,
        }
    }

    /// Notes what an atom line shows where no property line replaces its fields.
    fn note_late(&self, given: AtomLine, place: u32, faults: &mut FirstFault)
        ensures { faults.new.fault ≡ first_of faults.old.fault (faults_at place (late_shows self.now.codes_replaced self.now.differences_replaced given)) }
    {
        faults.note_if(
            !self.codes_replaced && given.charge.is_none(),
            Kind::Radical,
            place,
        );
        faults.note_if(
            !self.differences_replaced && given.isotope.is_none(),
            Kind::MassDifference,
            place,
        );
    }

    /// The atoms with what is said of them; what their lines show where nothing replaces their fields is noted.
    pub fn finish(
        &self,
        alloc: Global,
        lines: &[AtomLine],
        faults: &mut FirstFault,
    ) -> Result<TableAtoms, NoMemory>
        requires few { length lines.now ≤ 999 }
        requires charges { length lines.now ≤ length self.now.charges.items }
        requires masses { length lines.now ≤ length self.now.masses.items }
        ensures atoms { IfOk result (λ t. t ≡ atoms_by_said self.now 0 lines.now) }
        ensures shows { IfOk result (λ _. faults.new.fault ≡ first_of faults.old.fault (late_faults self.now.codes_replaced self.now.differences_replaced 5 lines.now)) }
    {
        let mut atoms = TableAtoms::new(alloc);
        for (k, given) in lines.iter().enumerate() {
            self.note_late(*given, 5 + k as u32, faults);
            atoms.push(self.atom(*given, k))?;
        }
        Ok(atoms)
    }
}
