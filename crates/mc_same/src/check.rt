ghost use Rattle.std.specs.Prelude.{◌≡◌, ◌↔◌, List, IfOk};
ghost use Rattle.mc_base.specs.declared.ids.AtomId.{AtomId as Entry};
ghost use Rattle.mc_base.specs.declared.verdict.Verdict.{Verdict as Finding};
ghost use Rattle.mc_mol.specs.Molecule.{Molecule as Graph};
ghost use Rattle.mc_mol.specs.Same.{Same};
ghost use Rattle.mc_mol.specs.WellFormed.{IsMolecule};
ghost use Rattle.mc_same.specs.Differences.{IsVerdict, SameGraph, SameMap};

use crate::atoms::{first_other_atom, first_out_of_range, first_repeat};
use crate::bonds::first_other_bond;
use crate::centres::first_other_centre;
use crate::sides::first_other_sides;
use mc_base::{AtomId, NoMemory, Verdict};
use mc_mol::Mol;
use std::alloc::Global;

/// Whether two molecules are the same under a map, whose entry k is the atom of the input for atom k of
/// the output; else the first difference.
pub fn check_map(
    alloc: Global,
    input: &Mol,
    output: &Mol,
    map: &[AtomId],
) -> Result<Verdict, NoMemory>
    ensures same { IfOk result (λ verdict. (verdict ≡ Verdict.True) ↔ Same input.now output.now map.now) }
    ensures first { IfOk result (IsVerdict input.now output.now map.now) }
{
    let verdict = first_difference(alloc, input, output, map)?;
    Ok(verdict)
}

/// A verdict says all there is to say: at most one is right of two molecules and a map.
pub fn verdict_law()
    ensures { (m n : Graph) (f : List Entry) (v w : Finding) → IsVerdict m n f v → IsVerdict m n f w → v ≡ w }
{}

fn first_difference(
    alloc: Global,
    input: &Mol,
    output: &Mol,
    map: &[AtomId],
) -> Result<Verdict, NoMemory>
    ensures { IfOk result (IsVerdict input.now output.now map.now) }
{
    let count = input.atom_count();
    if output.atom_count() != count {
        return Ok(Verdict::Length);
    }
    if map.len() != count as usize {
        return Ok(Verdict::Length);
    }
    match first_out_of_range(input, map) {
        Some(k) => Ok(Verdict::Range(k)),
        None => match first_repeat(alloc, map, count)? {
            Some(k) => Ok(Verdict::Repeat(k)),
            None => Ok(compare_graphs(input, output, map)),
        },
    }
}

/// The first difference where the map is one-to-one.
fn compare_graphs(input: &Mol, output: &Mol, map: &[AtomId]) -> Verdict
    requires input { IsMolecule input.now }
    requires output { IsMolecule output.now }
    requires map { SameMap input.now output.now map.now }
    ensures { IsVerdict input.now output.now map.now result }
{
    match first_other_atom(input, output, map) {
        Some(k) => Verdict::Atom(k),
        None => {
            if output.bond_count() != input.bond_count() {
                return Verdict::Bonds;
            }
            match first_other_bond(input, output, map) {
                Some(k) => Verdict::Bond(k),
                None => compare_stereo(input, output, map),
            }
        }
    }
}

/// The first difference where atoms and bonds correspond.
pub fn compare_stereo(input: &Mol, output: &Mol, map: &[AtomId]) -> Verdict
    requires input { IsMolecule input.now }
    requires output { IsMolecule output.now }
    requires graph { SameGraph input.now output.now map.now }
    ensures { IsVerdict input.now output.now map.now result }
{
    match first_other_centre(input, output, map) {
        Some(k) => Verdict::Centre(k),
        None => match first_other_sides(input, output, map) {
            Some(k) => Verdict::Sides(k),
            None => Verdict::True,
        },
    }
}

#[cfg(test)]
pub(crate) mod tests;
