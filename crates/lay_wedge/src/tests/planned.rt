//! A plan is made, and read back by the rules of drawings and by a plain program.
ghost use Rattle.std.specs.Prelude.{◌≡◌, ◌<◌, ℕ, true, length};
ghost use Rattle.mc_rings.specs.Rings.{AreRingsOf};
ghost use Rattle.ct_geometry.specs.Bounds.{ArePlaces};
ghost use Rattle.lay_wedge.specs.Plans.{HasSoundCentres};
ghost use Rattle.lay_wedge.specs.Fitting.{CentreFits};

use crate::plan;
use crate::tests::molecules::{carbons, join};
use crate::tests::plain_reading::reads_plainly;
use crate::tests::sameness::reads_as_same;
use ct_geometry::{Wedge, WedgeRead, centre_of_wedges, is_drawn};
use ct_sd::DrawMark;
use mc_base::{AtomId, BondId, NoMemory};
use mc_mol::{Drawing, Mol, is_even_permutation};
use mc_rings::{Rings, may_be_centre};
use std::alloc::Global;

/// Whether the atom may be a centre where it is one.
fn centre_fits(mol: &Mol, rings: &Rings, a: AtomId) -> bool
    requires rings { AreRingsOf mol.now rings.now }
    requires atom { a.0 < length mol.now.atoms }
    ensures { result ≡ true → CentreFits mol.now rings.now.sizes a.0 }
{
    match mol.centre(a) {
        None => true,
        Some(_) => may_be_centre(mol, rings, a),
    }
}

#[tactic(auto, using(ct_geometry::proofs::Loops::each_more))]
fn centres_fit(mol: &Mol, rings: &Rings) -> bool
    requires { AreRingsOf mol.now rings.now }
    ensures { result ≡ true → (a : ℕ) → a < length mol.now.atoms → CentreFits mol.now rings.now.sizes a }
{
    for a in 0..mol.atom_count() {
        if !centre_fits(mol, rings, AtomId(a)) {
            return false;
        }
    }
    true
}

/// Whether each centre may be one.
#[tactic(auto, using(crate::proofs::Fitted::sound_of))]
fn are_sound(mol: &Mol, rings: &Rings) -> bool
    requires { AreRingsOf mol.now rings.now }
    ensures { result ≡ true → HasSoundCentres mol.now }
{
    let _count = mol.atom_count();
    centres_fit(mol, rings)
}

/// The same molecule without stereo, each bond turned so that its narrow end comes first.
fn turned(alloc: Global, mol: &Mol, wedges: &[Wedge]) -> Result<Mol, NoMemory> {
    let mut other = carbons(alloc, mol.atom_count())?;
    for (k, wedge) in wedges.iter().enumerate() {
        if k < mol.bond_count() as usize {
            let bond = mol.bond(BondId(k as u32));
            let last = if bond.first.0 == wedge.narrow.0 {
                bond.second
            } else {
                bond.first
            };
            let _ = join(&mut other, wedge.narrow.0, last.0, bond.order);
        }
    }
    Ok(other)
}

fn marks_of(alloc: Global, wedges: &[Wedge]) -> Result<Vec<DrawMark>, NoMemory> {
    let mut marks = Vec::new(alloc);
    for wedge in wedges {
        marks.push(wedge.mark)?;
    }
    Ok(marks)
}

/// Whether an atom reads as it is in the molecule.
fn reads_right(
    mol: &Mol,
    other: &Mol,
    rings: &Rings,
    drawing: &Drawing,
    marks: &[DrawMark],
    a: AtomId,
) -> bool
    requires rings { AreRingsOf other.now rings.now }
    requires places { ArePlaces drawing.now }
{
    if a.0 >= mol.atom_count() || a.0 >= other.atom_count() {
        return false;
    }
    match (
        mol.centre(a),
        centre_of_wedges(other, rings, drawing, marks, a),
    ) {
        (None, WedgeRead::None) => true,
        (Some(places), WedgeRead::Centre(list)) => is_even_permutation(&places, &list),
        _ => false,
    }
}

/// Whether all atoms read as they are by the rules of drawings.
fn reads_back(
    alloc: Global,
    mol: &Mol,
    drawing: &Drawing,
    wedges: &[Wedge],
) -> Result<bool, NoMemory>
    requires { ArePlaces drawing.now }
{
    let other = turned(alloc, mol, wedges)?;
    let rings = Rings::of(alloc, &other)?;
    let marks = marks_of(alloc, wedges)?;
    for a in 0..mol.atom_count() {
        if !reads_right(mol, &other, &rings, drawing, &marks, AtomId(a)) {
            return Ok(false);
        }
    }
    Ok(other.bond_count() == mol.bond_count() && wedges.len() == mol.bond_count() as usize)
}

/// Whether a molecule's plan reads back; none where the drawing doesn't serve.
#[tactic(auto, using(crate::proofs::Started::are_places))]
pub fn is_right(alloc: Global, mol: &Mol, drawing: &Drawing) -> Result<Option<bool>, NoMemory> {
    if !is_drawn(mol, drawing) {
        return Ok(None);
    }
    let rings = Rings::of(alloc, mol)?;
    if !are_sound(mol, &rings) {
        return Ok(None);
    }
    let wedges = plan(alloc, mol, drawing)?;
    let wedges = wedges.as_slice();
    Ok(Some(
        reads_plainly(mol, drawing, wedges)
            && reads_back(alloc, mol, drawing, wedges)?
            && reads_as_same(alloc, mol, drawing, wedges)?,
    ))
}
