//! The blocks of a record, line by line.

ghost use Rattle.std.specs.Prelude.{◌≡◌, ◌≤◌, ◌<◌, ◌+◌, ◌||◌, ℕ, [], None, length, drop, get_or, false, IfOk};
ghost use Rattle.ct_sd.specs.Faults.{first_of, faults_of_lines};
ghost use Rattle.ct_v2000.specs.AtomLines.{atom_line_shows, atom_lines_of};
ghost use Rattle.ct_v2000.specs.BondLines.{bond_faults};
ghost use Rattle.ct_v2000.specs.Properties.{block, has_end, property_faults};
ghost use Rattle.ct_v2000.specs.Replaced.{replaces_codes, replaces_differences, says_charges, some_line, last_said};
ghost use Rattle.ct_v2000.specs.Table.{bonds_from};
ghost use Rattle.ct_v2000.specs.Blocks.{still};

use crate::atom_line::AtomLine;
use crate::bond_line::read_bond_line;
use crate::property::passes_next;
use crate::said::Said;
use ct_sd::{FirstFault, JoinedPairs, Record, TableBonds, is_end_line};
use mc_base::NoMemory;
use std::alloc::Global;

/// Reads so many atom lines behind the first four lines, and notes what they show.
pub fn read_atoms(
    alloc: Global,
    given: &Record<'_>,
    count: u32,
    faults: &mut FirstFault,
) -> Result<Vec<AtomLine>, NoMemory>
    requires within { 4 + count ≤ length given.now }
    requires few { count < 1000 }
    ensures atoms { IfOk result (λ v. v.items ≡ atom_lines_of 5 (still 4 0 count given.now)) }
    ensures shows { IfOk result (λ _. faults.new.fault ≡ first_of faults.old.fault (faults_of_lines atom_line_shows 5 (still 4 0 count given.now))) }
{
    let mut atoms = Vec::new(alloc);
    let mut n = 0u32;
    while n < count {
        let atom = AtomLine::read(given.line(4 + n), 5 + n, faults);
        atoms.push(atom)?;
        n += 1;
    }
    Ok(atoms)
}

/// Reads so many bond lines behind the first lines, and notes what they show in a record of so many atoms.
pub fn read_bonds(
    alloc: Global,
    given: &Record<'_>,
    first: u32,
    count: u32,
    atoms: u32,
    faults: &mut FirstFault,
) -> Result<TableBonds, NoMemory>
    requires within { first + count ≤ length given.now }
    requires few { first + count < 10000 }
    ensures bonds { IfOk result (λ t. t ≡ bonds_from (first + 1) (still first 0 count given.now)) }
    ensures shows { IfOk result (λ _. faults.new.fault ≡ first_of faults.old.fault (bond_faults atoms [] (first + 1) (still first 0 count given.now))) }
{
    let mut bonds = TableBonds::new(alloc);
    let mut joined = JoinedPairs::new(alloc);
    let mut n = 0u32;
    while n < count {
        let line = given.line(first + n);
        let bond = read_bond_line(line, first + n + 1, atoms, &mut joined, faults)?;
        bonds.push(bond)?;
        n += 1;
    }
    Ok(bonds)
}

/// Reads the lines of the property block behind the first lines, up to its end, and notes what they show in a record of
/// so many atoms. Answers whether the block has its end.
pub fn read_properties(
    given: &Record<'_>,
    first: u32,
    atoms: u32,
    said: &mut Said,
    faults: &mut FirstFault,
) -> bool
    requires within { first ≤ length given.now }
    requires masses { length said.now.masses.items ≡ length said.now.charges.items }
    ensures ends { result ≡ has_end false (drop first given.now) }
    ensures shows { faults.new.fault ≡ first_of faults.old.fault (property_faults atoms (block false (first + 1) (drop first given.now))) }
    ensures count { length said.new.charges.items ≡ length said.old.charges.items }
    ensures mass_count { length said.new.masses.items ≡ length said.old.masses.items }
    ensures codes { said.new.codes_replaced ≡ (said.old.codes_replaced || some_line replaces_codes (block false (first + 1) (drop first given.now))) }
    ensures differences { said.new.differences_replaced ≡ (said.old.differences_replaced || some_line replaces_differences (block false (first + 1) (drop first given.now))) }
    ensures charges { (k : ℕ) → k < length said.old.charges.items → get_or said.new.charges.items k None ≡ last_said says_charges (k + 1) (get_or said.old.charges.items k None) (block false (first + 1) (drop first given.now)) }
    ensures masses { (k : ℕ) → k < length said.old.charges.items → get_or said.new.masses.items k None ≡ last_said replaces_differences (k + 1) (get_or said.old.masses.items k None) (block false (first + 1) (drop first given.now)) }
{
    let mut k = first;
    let mut passed = false;
    while k < given.line_count() {
        if passed {
            passed = false;
        } else {
            let line = given.line(k);
            if is_end_line(line) {
                return true;
            }
            said.read_line(line, atoms, k + 1, faults);
            passed = passes_next(line);
        }
        k += 1;
    }
    false
}
