ghost use Rattle.std.specs.Prelude.{◌≡◌, ◌≤◌, ◌<◌, ◌↔◌, IfOk, IsTrue, length};
ghost use Rattle.mc_mol.specs.declared.limits.TheConstants.{ATOM_LIMIT};
ghost use Rattle.mc_mol.specs.Same.{entry};
ghost use Rattle.mc_same.specs.Differences.{FirstFailure, Holds, InRange, IsNew, SameAtom};

use mc_base::{AtomId, NoMemory};
use mc_elements::Element;
use mc_mol::{Atom, Mol};
use std::alloc::Global;

/// The number of the first entry of a map that is no atom of the input.
pub fn first_out_of_range(input: &Mol, map: &[AtomId]) -> Option<u32>
    requires { length map.now ≤ ATOM_LIMIT }
    ensures { FirstFailure (length map.now) (InRange input.now map.now) result }
{
    let count = input.atom_count();
    for (k, atom) in map.iter().enumerate() {
        if atom.0 >= count {
            return Some(k as u32 + 1);
        }
    }
    None
}

/// The number of the first entry of a map that stood before. Atoms that have been met are marked.
pub fn first_repeat(alloc: Global, map: &[AtomId], count: u32) -> Result<Option<u32>, NoMemory>
    requires few { length map.now ≤ ATOM_LIMIT }
    requires in_range { Holds (length map.now) (λ k. entry map.now k < count) }
    ensures { IfOk result (FirstFailure (length map.now) (IsNew map.now)) }
{
    let mut met = vec![in alloc; false; count as usize]?;
    for (k, atom) in map.iter().enumerate() {
        if met[atom.0 as usize] {
            return Ok(Some(k as u32 + 1));
        }
        met[atom.0 as usize] = true;
    }
    Ok(None)
}

fn same_element(first: Element, second: Element) -> bool
    ensures { IsTrue result ↔ (first ≡ second) }
{
    first == second
}

pub fn same_atom(first: Atom, second: Atom) -> bool
    ensures { IsTrue result ↔ (first ≡ second) }
{
    same_element(first.element, second.element)
        && first.isotope == second.isotope
        && first.charge == second.charge
        && first.hydrogens == second.hydrogens
        && first.class == second.class
}

/// The number of the first atom that isn't equal to its atom of the input.
pub fn first_other_atom(input: &Mol, output: &Mol, map: &[AtomId]) -> Option<u32>
    requires few { length map.now ≤ ATOM_LIMIT }
    requires same_length { length map.now ≡ length output.now.atoms }
    requires in_range { Holds (length map.now) (InRange input.now map.now) }
    ensures { FirstFailure (length map.now) (SameAtom input.now output.now map.now) result }
{
    for (k, atom) in map.iter().enumerate() {
        if !same_atom(output.atom(AtomId(k as u32)), input.atom(*atom)) {
            return Some(k as u32 + 1);
        }
    }
    None
}
