ghost use Rattle.std.specs.Prelude.{◌≡◌, ℕ, ◌+◌, ◌≤◌, ◌<◌, ◌^◌, ◌-◌, IfOk, IfErr, length, drop, slice_range};
ghost use Rattle.smi_graph.specs.Skeletons.{IsSkeleton, IsBroken};
ghost use Rattle.smi_mean.specs.Meant.{IsMeantBy, IsUnmarkedBy, IsFaulty, IsRefusedBy};
ghost use Rattle.smi_mean.specs.MeantCentres.{MarkFits};
ghost use Rattle.smi_mean.specs.Lines.{text_of, name_of};
ghost use Rattle.smi_mean.specs.Rules.{NoneStands, SmilesStands, IsRefused};
ghost use Rattle.mc_base.specs.declared.refusal.Stop.TheVariants.{NoMemory as Memory};
ghost use Rattle.mc_rings.specs.Rings.{AreRingsOf};
ghost use Rattle.smi_mean.specs.Sound.{IsSound};

use crate::atoms::atoms_with;
use crate::centres::with_marks;
use crate::faults::atom_refusal;
use crate::line::text_end;
use crate::molecule::molecule;
use crate::need::some_needs;
use crate::placed::placed_molecule;
use mc_base::{Span, Stop};
use mc_mol::{Mol, bond_sums};
use mc_rings::Rings;
use smi_graph::{Skeleton, bonds_with_orders, read_skeleton};
use std::alloc::Global;

/// What a line of a SMILES file stands for: a molecule of its text, the skeleton of the text, and the name, which is what
/// follows the first space or tab.
#[derive(Drop)]
pub struct NamedMolecule {
    pub mol: Mol,
    pub skeleton: Skeleton,
    pub name: Span,
}

/// The same, with the rings of the molecule.
#[derive(Drop)]
pub struct SmilesRead {
    pub mol: Mol,
    pub rings: Rings,
    pub skeleton: Skeleton,
    pub name: Span,
}

/// Where the name of a line stands whose text ends here.
fn name_span(line: &[u8], end: usize) -> Span
    requires end { end ≤ length line.now }
    requires short { length line.now < 2 ^ 32 - 1 }
    requires name { drop (end + 1) line.now ≡ name_of line.now }
    ensures name { slice_range line.now result.from result.to ≡ name_of line.now }
    ensures within { (result.from ≤ result.to) × (result.to ≤ length line.now) }
    ensures place { (result.to ≡ length line.now) × (result.from + length (name_of line.now) ≡ length line.now) }
{
    let to = line.len() as u32;
    let from = if end < line.len() { end as u32 + 1 } else { to };
    Span { from, to }
}

/// A molecule of a skeleton without stereo, or the first kind that stands at its atoms. Where no atom needs a double bond,
/// none is looked for.
#[tactic(auto, using(crate::proofs::Placing::meant_alone, crate::proofs::Placing::meant_placed, crate::proofs::Placing::faulty_placed))]
fn unmarked(alloc: Global, skeleton: &Skeleton) -> Result<Mol, Stop>
    ensures ok { IfOk result (IsUnmarkedBy skeleton.now) }
    ensures err { IfErr result (IsFaulty skeleton.now) }
{
    let bonds = bonds_with_orders(alloc, skeleton.bonds())?;
    let sums = bond_sums(alloc, &bonds, skeleton.atoms().len())?;
    let atoms = atoms_with(alloc, &bonds, &sums, skeleton.atoms())?;
    if let Some(refusal) = atom_refusal(alloc, &atoms, &bonds, &sums) {
        return Err(Stop::Refused(refusal));
    }
    if some_needs(skeleton.atoms(), &bonds, &sums) {
        return placed_molecule(alloc, skeleton, atoms, &bonds, &sums);
    }
    let mol = molecule(alloc, atoms, bonds)?;
    Ok(mol)
}

/// The molecule that a text stands for which has this skeleton, or the first kind that stands in it.
#[tactic(auto, using(crate::proofs::Placing::meant_marked, crate::proofs::Placing::refused_marked, crate::proofs::Placing::refused_early))]
fn mean(alloc: Global, skeleton: &Skeleton) -> Result<Mol, Stop>
    ensures ok { IfOk result (IsMeantBy skeleton.now) }
    ensures err { IfErr result (IsRefusedBy skeleton.now) }
{
    let mol = match unmarked(alloc, skeleton) {
        Ok(mol) => mol,
        Err(stop) => return Err(stop),
    };
    match with_marks(alloc, skeleton, mol) {
        Ok(mol) => Ok(mol),
        Err(stop) => Err(stop),
    }
}

/// A molecule that the text of a line stands for, or the first kind that stands in it.
pub fn read_named(alloc: Global, line: &[u8]) -> Result<NamedMolecule, Stop>
    requires { length line.now < 2 ^ 32 - 1 }
    ensures ok { IfOk result (λ read. SmilesStands (text_of line.now) read.mol) }
    ensures complete { NoneStands (text_of line.now) → IfErr result (λ stop. stop ≡ Memory) }
    ensures skeleton { IfOk result (λ read. IsSkeleton (text_of line.now) read.skeleton) }
    ensures sound { IfOk result (λ read. IsSound read.mol) }
    ensures marks { IfOk result (λ read. (k : ℕ) → k < length read.skeleton.atoms → MarkFits read.skeleton k) }
    ensures name { IfOk result (λ read. slice_range line.now read.name.from read.name.to ≡ name_of line.now) }
    ensures within { IfOk result (λ read. (read.name.from ≤ read.name.to) × (read.name.to ≤ length line.now)) }
    ensures place { IfOk result (λ read. (read.name.to ≡ length line.now) × (read.name.from + length (name_of line.now) ≡ length line.now)) }
    ensures err { IfErr result (IsRefused (text_of line.now)) }
{
    let end = text_end(line);
    let name = name_span(line, end);
    let skeleton = match read_skeleton(alloc, &line[..end]) {
        Ok(skeleton) => skeleton,
        Err(stop) => return Err(stop),
    };
    let mol = match mean(alloc, &skeleton) {
        Ok(mol) => mol,
        Err(stop) => return Err(stop),
    };
    Ok(NamedMolecule {
        mol,
        skeleton,
        name,
    })
}

/// The same, with the rings of the molecule.
pub fn read_smiles(alloc: Global, line: &[u8]) -> Result<SmilesRead, Stop>
    requires { length line.now < 2 ^ 32 - 1 }
    ensures ok { IfOk result (λ read. SmilesStands (text_of line.now) read.mol) }
    ensures complete { NoneStands (text_of line.now) → IfErr result (λ stop. stop ≡ Memory) }
    ensures rings { IfOk result (λ read. AreRingsOf read.mol read.rings) }
    ensures skeleton { IfOk result (λ read. IsSkeleton (text_of line.now) read.skeleton) }
    ensures sound { IfOk result (λ read. IsSound read.mol) }
    ensures marks { IfOk result (λ read. (k : ℕ) → k < length read.skeleton.atoms → MarkFits read.skeleton k) }
    ensures name { IfOk result (λ read. slice_range line.now read.name.from read.name.to ≡ name_of line.now) }
    ensures within { IfOk result (λ read. (read.name.from ≤ read.name.to) × (read.name.to ≤ length line.now)) }
    ensures place { IfOk result (λ read. (read.name.to ≡ length line.now) × (read.name.from + length (name_of line.now) ≡ length line.now)) }
    ensures err { IfErr result (IsRefused (text_of line.now)) }
{
    let read = match read_named(alloc, line) {
        Ok(read) => read,
        Err(stop) => return Err(stop),
    };
    let rings = Rings::of(alloc, &read.mol)?;
    Ok(SmilesRead {
        mol: read.mol,
        rings,
        skeleton: read.skeleton,
        name: read.name,
    })
}

/// The skeleton of a line's text, or the first kind that stands in its tokens.
#[tactic(auto, using(crate::proofs::Refusals::skeleton_of_line, crate::proofs::Refusals::broken_line))]
pub fn read_line_skeleton(alloc: Global, line: &[u8]) -> Result<Skeleton, Stop>
    requires { length line.now < 2 ^ 32 - 1 }
    ensures ok { IfOk result (IsSkeleton (text_of line.now)) }
    ensures err { IfErr result (IsBroken (text_of line.now)) }
{
    let end = text_end(line);
    read_skeleton(alloc, &line[..end])
}
