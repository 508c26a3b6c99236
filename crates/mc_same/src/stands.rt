ghost use Rattle.std.specs.Prelude.{◌≡◌, ℕ, Bool, ◌<◌, ◌≤◌, ◌↔◌, ◌&&◌, ◌||◌, not, ◌==◌, List, IfOk, IsTrue, length, map as map_list};
ghost use Rattle.mc_base.specs.declared.ids.AtomId.{AtomId as Entry};
ghost use Rattle.mc_base.specs.declared.verdict.Verdict.{Verdict as Finding};
ghost use Rattle.mc_base.specs.declared.verdict.Verdict.TheVariants.{True};
ghost use Rattle.mc_mol.specs.declared.limits.TheConstants.{BOND_LIMIT};
ghost use Rattle.mc_mol.specs.Molecule.{Molecule as Graph, joins};
ghost use Rattle.mc_mol.specs.Same.{HasBond, entry};
ghost use Rattle.mc_mol.specs.WellFormed.{IsMolecule, IsBond};
ghost use Rattle.smi_graph.specs.Candidates.{marked};
ghost use Rattle.smi_graph.specs.Links.{bond_of};
ghost use Rattle.smi_graph.specs.Skeletons.{TextGraph};
ghost use Rattle.smi_mean.specs.Barriers.{needs_of};
ghost use Rattle.smi_mean.specs.Lying.{lying_of};
ghost use Rattle.smi_mean.specs.Meant.{molecule_under};
ghost use Rattle.smi_mean.specs.MeantCentres.{MarkFits};
ghost use Rattle.smi_mean.specs.Placements.{IsPlacement};
ghost use Rattle.mc_same.specs.Differences.{FirstFailure, Holds, InRange, IsNew, SameAtom, SameMap};
ghost use Rattle.mc_same.specs.Stands.{is_double, doubles as doubles_of, doubles_from, has_bond, AtomFits, BondFits, IsFitVerdict, IsStandsVerdict, IsSomeMolecule};

use crate::atoms::{first_out_of_range, first_repeat, same_atom};
use crate::bonds::counterpart;
use crate::check::compare_stereo;
use mc_base::{AtomId, BondId, NoMemory, Verdict};
use mc_mol::{Bond, Mol};
use smi_graph::{Skeleton, bonds_with_orders, is_marked};
use smi_mean::{lying_once, marks_fit, molecule_with, needing_atoms, unmarked_with};
use std::alloc::{AllocError, Global};

/// Whether a bond of the molecule is double, and a bond of the text by the map.
fn is_double_of(found: Bond, map: &[AtomId], bond: Bond) -> bool
    requires first { found.first.0 < length map.now }
    requires second { found.second.0 < length map.now }
    ensures { result ≡ (found.order == 2 && joins bond (entry map.now found.first.0) (entry map.now found.second.0)) }
{
    found.order == 2 && bond.joins(map[found.first.0 as usize], map[found.second.0 as usize])
}

/// Whether the molecule has a bond of the text as a double bond.
fn is_double(output: &Mol, map: &[AtomId], bond: Bond) -> bool
    requires { length map.now ≡ length output.now.atoms }
    ensures { result ≡ is_double output.now.bonds map.now bond }
{
    for found in output.bonds() {
        if is_double_of(*found, map, bond) {
            return true;
        }
    }
    false
}

/// The same of a bond that is a candidate, or isn't.
fn is_double_candidate(candidate: bool, output: &Mol, map: &[AtomId], bond: Bond) -> bool
    requires { length map.now ≡ length output.now.atoms }
    ensures { result ≡ (candidate && is_double output.now.bonds map.now bond) }
{
    candidate && is_double(output, map, bond)
}

/// Of each bond of the text whether it is a candidate that the molecule has as a double bond.
fn doubles(
    alloc: Global,
    input: &Skeleton,
    output: &Mol,
    map: &[AtomId],
    bonds: &[Bond],
) -> Result<Vec<bool>, AllocError>
    requires same_length { length map.now ≡ length output.now.atoms }
    requires few { length bonds.now ≤ BOND_LIMIT }
    ensures found { IfOk result (λ found. found.items ≡ doubles_from input.now.candidates output.now.bonds map.now 0 bonds.now) }
    ensures length { IfOk result (λ found. length found.items ≡ length bonds.now) }
{
    let mut found = Vec::with_capacity(alloc, bonds.len())?;
    for (k, bond) in bonds.iter().enumerate() {
        let candidate = input.is_candidate(BondId(k as u32));
        found.push_reserved(is_double_candidate(candidate, output, map, *bond));
    }
    Ok(found)
}

/// Whether some bond is at an atom.
#[tactic(auto, using(crate::proofs::Bonded::has_bond_by))]
fn has_bond(output: &Mol, k: u32) -> bool
    requires { k < length output.now.atoms }
    ensures { result ≡ has_bond output.now k }
{
    output.bonds_of(AtomId(k)).len() > 0
}

/// Whether an atom is its atom of the input.
fn agrees(input: &Mol, output: &Mol, map: &[AtomId], k: u32) -> bool
    requires below { k < length map.now }
    requires same_length { length map.now ≡ length output.now.atoms }
    requires in_range { Holds (length map.now) (InRange input.now map.now) }
    ensures { IsTrue result ↔ SameAtom input.now output.now map.now k }
{
    same_atom(output.atom(AtomId(k)), input.atom(map[k as usize]))
}

/// Whether the atom of the text for an atom is marked.
fn is_marked_at(marks: &[bool], map: &[AtomId], k: u32) -> bool
    requires { k < length map.now }
    ensures { result ≡ marked marks.now (entry map.now k) }
{
    is_marked(marks, map[k as usize].0 as usize)
}

fn is_fit(same: bool, needing: bool, bonded: bool) -> bool
    ensures { result ≡ (same && (not needing || bonded)) }
{
    same && (!needing || bonded)
}

/// Whether an atom is its atom of the text, and has a bond where that needs a double bond.
fn atom_fits(input: &Mol, needs: &[bool], output: &Mol, map: &[AtomId], k: u32) -> bool
    requires below { k < length map.now }
    requires same_length { length map.now ≡ length output.now.atoms }
    requires in_range { Holds (length map.now) (InRange input.now map.now) }
    ensures { IsTrue result ↔ AtomFits input.now needs.now output.now map.now k }
{
    let same = agrees(input, output, map, k);
    let needing = is_marked_at(needs, map, k);
    let bonded = has_bond(output, k);
    is_fit(same, needing, bonded)
}

/// The number of the first atom that doesn't fit.
fn first_unfit_atom(input: &Mol, needs: &[bool], output: &Mol, map: &[AtomId]) -> Option<u32>
    requires same_length { length map.now ≡ length output.now.atoms }
    requires in_range { Holds (length map.now) (InRange input.now map.now) }
    ensures { FirstFailure (length map.now) (AtomFits input.now needs.now output.now map.now) result }
{
    for k in 0..output.atom_count() {
        if !atom_fits(input, needs, output, map, k) {
            return Some(k + 1);
        }
    }
    None
}

/// Whether there is a bond of the input for a bond, of its order.
fn has_counterpart(input: &Mol, map: &[AtomId], bond: Bond, near: u32) -> bool
    requires well_formed { IsMolecule input.now }
    requires bond { IsBond (length map.now) bond }
    requires in_range { Holds (length map.now) (InRange input.now map.now) }
    requires new { Holds (length map.now) (IsNew map.now) }
    ensures { IsTrue result ↔ HasBond input.now.bonds (entry map.now bond.first.0) (entry map.now bond.second.0) bond.order }
{
    counterpart(input, map, bond, near).is_some()
}

fn are_all(found: bool, first: bool, second: bool) -> bool
    ensures { result ≡ (found && first && second) }
{
    found && first && second
}

/// Whether a bond has a bond of the text of its order, and the atoms of its ends lie on as many double candidates as they
/// need.
fn bond_fits(input: &Mol, lying: &[bool], output: &Mol, map: &[AtomId], b: BondId) -> bool
    requires below { b.0 < length output.now.bonds }
    requires well_formed { IsMolecule input.now }
    requires same_length { length map.now ≡ length output.now.atoms }
    requires in_range { Holds (length map.now) (InRange input.now map.now) }
    requires new { Holds (length map.now) (IsNew map.now) }
    ensures { IsTrue result ↔ BondFits input.now lying.now output.now map.now b.0 }
{
    let bond = output.bond(b);
    let found = has_counterpart(input, map, bond, b.0);
    let first = is_marked_at(lying, map, bond.first.0);
    let second = is_marked_at(lying, map, bond.second.0);
    are_all(found, first, second)
}

/// The number of the first bond that doesn't fit.
fn first_unfit_bond(input: &Mol, lying: &[bool], output: &Mol, map: &[AtomId]) -> Option<u32>
    requires well_formed { IsMolecule input.now }
    requires same_length { length map.now ≡ length output.now.atoms }
    requires in_range { Holds (length map.now) (InRange input.now map.now) }
    requires new { Holds (length map.now) (IsNew map.now) }
    ensures { FirstFailure (length output.now.bonds) (BondFits input.now lying.now output.now map.now) result }
{
    for k in 0..output.bond_count() {
        if !bond_fits(input, lying, output, map, BondId(k)) {
            return Some(k + 1);
        }
    }
    None
}

/// The first difference where the map is one-to-one.
#[tactic(auto, using(crate::proofs::Fitting::fits_same, crate::proofs::Fitting::stereo_verdict))]
fn compare_fits(
    input: &Mol,
    needs: &[bool],
    lying: &[bool],
    output: &Mol,
    map: &[AtomId],
) -> Verdict
    requires well_formed { IsMolecule input.now }
    requires output { IsMolecule output.now }
    requires map { SameMap input.now output.now map.now }
    ensures { IsFitVerdict input.now needs.now lying.now output.now map.now result }
{
    match first_unfit_atom(input, needs, output, map) {
        Some(k) => Verdict::Atom(k),
        None => {
            if output.bond_count() != input.bond_count() {
                return Verdict::Bonds;
            }
            match first_unfit_bond(input, lying, output, map) {
                Some(k) => Verdict::Bond(k),
                None => compare_stereo(input, output, map),
            }
        }
    }
}

/// The first difference where the map has as many entries as both have atoms.
fn compare_written(
    alloc: Global,
    input: &Mol,
    needs: &[bool],
    lying: &[bool],
    output: &Mol,
    map: &[AtomId],
) -> Result<Verdict, NoMemory>
    requires same_length { length map.now ≡ length output.now.atoms }
    requires same_count { length output.now.atoms ≡ length input.now.atoms }
    ensures { IfOk result (IsFitVerdict input.now needs.now lying.now output.now map.now) }
{
    let count = input.atom_count();
    let _written = output.atom_count();
    match first_out_of_range(input, map) {
        Some(k) => Ok(Verdict::Range(k)),
        None => match first_repeat(alloc, map, count)? {
            Some(k) => Ok(Verdict::Repeat(k)),
            None => Ok(compare_fits(input, needs, lying, output, map)),
        },
    }
}

/// The first difference from the molecule of a text in which these candidates are double. Where a mark doesn't fit, they are
/// no placement, and the difference stands before the centres.
#[tactic(auto, using(crate::proofs::Fitting::count_of_text, crate::proofs::UnfitMarks::unfit_answer))]
fn compare_text(
    alloc: Global,
    input: &Skeleton,
    doubles: &[bool],
    output: &Mol,
    map: &[AtomId],
) -> Result<Verdict, NoMemory>
    requires doubles { length doubles.now ≡ length input.now.bonds }
    requires same_length { length map.now ≡ length output.now.atoms }
    requires same_count { length output.now.atoms ≡ length input.now.atoms }
    requires double { doubles.now ≡ doubles_of input.now output.now map.now }
    requires marks { (placed : List Bool) → IsPlacement input.now.atoms input.now.bonds placed → (k : ℕ) → k < length input.now.atoms → MarkFits input.now k }
    ensures { IfOk result (IsFitVerdict (molecule_under input.now doubles.now)
        (needs_of input.now.atoms input.now.bonds) (lying_of input.now.atoms input.now.bonds doubles.now) output.now map.now) }
{
    let _bonds = input.bonds();
    let _atoms = output.atom_count();
    let needs = needing_atoms(alloc, input)?;
    let lying = lying_once(alloc, input, &needs, doubles)?;
    if marks_fit(input) {
        let mol = molecule_with(alloc, input, doubles)?;
        return compare_written(alloc, &mol, &needs, &lying, output, map);
    }
    let mol = unmarked_with(alloc, input, doubles)?;
    compare_written(alloc, &mol, &needs, &lying, output, map)
}

/// The first difference from a text.
#[tactic(auto, using(crate::proofs::Fitting::other_count, crate::proofs::Fitting::other_length))]
fn first_difference(
    alloc: Global,
    input: &Skeleton,
    output: &Mol,
    map: &[AtomId],
) -> Result<Verdict, NoMemory>
    requires marks { (placed : List Bool) → IsPlacement input.now.atoms input.now.bonds placed → (k : ℕ) → k < length input.now.atoms → MarkFits input.now k }
    ensures first { IfOk result (IsStandsVerdict input.now output.now map.now) }
{
    if output.atom_count() != input.atom_count() {
        return Ok(Verdict::Length);
    }
    if map.len() != output.atom_count() as usize {
        return Ok(Verdict::Length);
    }
    let bonds = bonds_with_orders(alloc, input.bonds())?;
    let doubles = doubles(alloc, input, output, map, &bonds)?;
    compare_text(alloc, input, &doubles, output, map)
}

/// Whether a molecule is one that a text stands for under a map, whose entry k is the text's atom for atom k of the molecule;
/// else the first difference. A candidate may be single or double.
#[tactic(auto, using(crate::proofs::SomeMolecule::answered_where_some))]
pub fn check_stands(
    alloc: Global,
    input: &Skeleton,
    output: &Mol,
    map: &[AtomId],
) -> Result<Verdict, NoMemory>
    requires marks { (placed : List Bool) → IsPlacement input.now.atoms input.now.bonds placed → (k : ℕ) → k < length input.now.atoms → MarkFits input.now k }
    ensures first { IfOk result (IsStandsVerdict input.now output.now map.now) }
    ensures same { IfOk result (λ v. (v ≡ True) ↔ IsSomeMolecule input.now output.now map.now) }
{
    let _bonds = input.bonds();
    let _atoms = output.atom_count();
    first_difference(alloc, input, output, map)
}

/// A verdict says all there is to say: at most one is right of a text, a molecule and a map.
pub fn stands_law()
    ensures { (skeleton : TextGraph) (n : Graph) (f : List Entry) (v w : Finding) → IsStandsVerdict skeleton n f v → IsStandsVerdict skeleton n f w → v ≡ w }
{}

#[cfg(test)]
mod tests;
