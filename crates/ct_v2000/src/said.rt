ghost use Rattle.std.specs.Prelude.{◌≡◌, ◌<◌, ◌+◌, ◌||◌, ℕ, None, length, get_or, replicate, false, IfOk};
ghost use Rattle.ct_v2000.specs.Properties.{property_of};
ghost use Rattle.ct_v2000.specs.Replaced.{replaces_codes, replaces_differences, says_charges, said_by_line};
ghost use Rattle.ct_v2000.specs.Blocks.{LineRead};

use crate::Property;
use crate::entry::set_entries;
use ct_sd::FirstFault;
use mc_base::NoMemory;
use std::alloc::Global;

/// What property lines say of the atoms: for each atom the last charge and the last mass that were said of it, and
/// whether charge codes and mass differences of the atom block are replaced.
#[derive(Drop)]
pub struct Said {
    pub charges: Vec<Option<i32>>,
    pub masses: Vec<Option<i32>>,
    pub codes_replaced: bool,
    pub differences_replaced: bool,
}

impl Said {
    /// Nothing is said of so many atoms.
    pub fn nothing(alloc: Global, atoms: u32) -> Result<Said, NoMemory>
        ensures charges { IfOk result (λ said. said.charges.items ≡ replicate atoms None) }
        ensures masses { IfOk result (λ said. said.masses.items ≡ replicate atoms None) }
        ensures codes { IfOk result (λ said. said.codes_replaced ≡ false) }
        ensures differences { IfOk result (λ said. said.differences_replaced ≡ false) }
    {
        let charges = vec![in alloc; None; atoms as usize]?;
        let masses = vec![in alloc; None; atoms as usize]?;
        Ok(Said {
            charges,
            masses,
            codes_replaced: false,
            differences_replaced: false,
        })
    }

    /// Reads a line of the property block, and notes what it shows.
    #[tactic(auto, unfolding(crate::specs::Properties::property_line_shows))]
    pub fn read_line(&mut self, line: &[u8], atoms: u32, place: u32, faults: &mut FirstFault)
        ensures { LineRead line.now atoms place self.old faults.old.fault self.new faults.new.fault }
    {
        let property = Property::of(line);
        property.note(line, atoms, place, faults);
        self.set(property, line);
    }

    /// Sets what such a line says.
    fn set(&mut self, property: Property, line: &[u8])
        requires { property ≡ property_of line.now }
        ensures count { length self.new.charges.items ≡ length self.old.charges.items }
        ensures mass_count { length self.new.masses.items ≡ length self.old.masses.items }
        ensures codes { self.new.codes_replaced ≡ (self.old.codes_replaced || replaces_codes property) }
        ensures differences { self.new.differences_replaced ≡ (self.old.differences_replaced || replaces_differences property) }
        ensures charges { (k : ℕ) → k < length self.old.charges.items → get_or self.new.charges.items k None ≡ said_by_line says_charges (k + 1) (get_or self.old.charges.items k None) line.now }
        ensures masses { (k : ℕ) → k < length self.old.masses.items → get_or self.new.masses.items k None ≡ said_by_line replaces_differences (k + 1) (get_or self.old.masses.items k None) line.now }
    {
        match property {
            Property::Charges => {
                self.codes_replaced = true;
                set_entries(&mut self.charges, line);
            }
            Property::Radicals => self.codes_replaced = true,
            Property::Masses => {
                self.differences_replaced = true;
                set_entries(&mut self.masses, line);
            }
            _ => {}
        }
    }
}
