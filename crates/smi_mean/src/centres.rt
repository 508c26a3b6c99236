//! The centres that the marks of a skeleton say.

ghost use Rattle.std.specs.Prelude.{◌≡◌, ◌⊎◌, ◌↔◌, ◌<◌, ℕ, IsTrue, true, false, List, Some, None, IfOk, IfErr, length, map, slice_get, slice_set};
ghost use Rattle.mc_mol.specs.declared.parts.Slot.{Slot as Place};
ghost use Rattle.mc_mol.specs.WellFormed.{IsPlaceList};
ghost use Rattle.mc_rings.specs.Centres.{may_be_centre as may_be};
ghost use Rattle.mc_rings.specs.Rings.{AreRingsOf};
ghost use Rattle.smi_graph.specs.Firsts.{IsFirstOf, NoneBelow};
ghost use Rattle.smi_graph.specs.NeighbourLists.{atom_number};
ghost use Rattle.smi_mean.specs.CentrePlaces.{Fits, places_by, said};
ghost use Rattle.smi_mean.specs.Meaning.{nones, with_centres};
ghost use Rattle.smi_mean.specs.Meant.{IsUnmarkedUnder, AreRightMarks, CantBeMarked};
ghost use Rattle.smi_mean.specs.MeantCentres.{MarkFits, centre_at, centres_in, is_marked, is_wrong_centre};

use mc_base::{AtomId, Kind, Refusal, Stop};
use mc_mol::{Mol, Slot};
use mc_rings::{Rings, may_be_centre};
use smi_graph::{SkelAtom, Skeleton};
use std::alloc::Global;

/// The places of an atom that may be a centre. The rest stands behind its predecessor, which is its first neighbour, or
/// first where it has none.
fn places_by(has_predecessor: bool, neighbours: &[AtomId]) -> [Slot; 4]
    requires { (length neighbours.now ≡ 4) ⊎ (length neighbours.now ≡ 3) }
    ensures { (hydrogens : ℕ) → Fits (length neighbours.now) hydrogens → result ≡ places_by has_predecessor (map atom_number neighbours.now) hydrogens }
{
    match neighbours {
        [a, b, c, d] => [Slot::At(*a), Slot::At(*b), Slot::At(*c), Slot::At(*d)],
        [a, b, c] => {
            if has_predecessor {
                [Slot::At(*a), Slot::Rest, Slot::At(*b), Slot::At(*c)]
            } else {
                [Slot::Rest, Slot::At(*a), Slot::At(*b), Slot::At(*c)]
            }
        }
        _ => unreachable!(),
    }
}

/// The list of a centre: `@` takes its places as they stand, and `@@` exchanges the last two.
fn said(is_plain: bool, places: [Slot; 4]) -> [Slot; 4]
    ensures { result ≡ said is_plain places }
{
    if is_plain {
        places
    } else {
        [places[0], places[1], places[3], places[2]]
    }
}

/// The list of places of an atom, where it has a mark.
fn centre_at(skeleton: &Skeleton, a: AtomId) -> Option<[Slot; 4]>
    requires atom { a.0 < length skeleton.now.atoms }
    requires fits { MarkFits skeleton.now a.0 }
    ensures { result ≡ centre_at skeleton.now a.0 }
{
    match skeleton.atom(a).chiral {
        Some(is_plain) => {
            let places = places_by(skeleton.before(a), skeleton.places(a));
            Some(said(is_plain, places))
        }
        None => None,
    }
}

/// Gives an atom of a molecule a centre, where there is a list of places.
#[tactic(auto, using(crate::proofs::CentresSet::set_none))]
fn set_centre(mol: &mut Mol, a: AtomId, centre: Option<[Slot; 4]>)
    requires atom { a.0 < length mol.old.atoms }
    requires none { slice_get mol.old.centres a.0 ≡ Some None }
    requires places { (places : List Place) → centre ≡ Some places → IsPlaceList mol.old.bonds a.0 places }
    ensures { mol.new ≡ with_centres (slice_set mol.old.centres a.0 centre) mol.old }
{
    if let Some(places) = centre {
        mol.set_centre(a, places);
    }
}

/// Gives a skeleton's molecule the centres that the marks say.
#[tactic(auto, using(crate::proofs::CentresSet::filled_all))]
pub fn set_centres(mol: &mut Mol, skeleton: &Skeleton)
    requires count { length mol.old.atoms ≡ length skeleton.now.atoms }
    requires none { mol.old.centres ≡ nones mol.old.atoms }
    requires fits { (k : ℕ) → k < length skeleton.now.atoms → MarkFits skeleton.now k }
    requires places { (k : ℕ) (places : List Place) → k < length skeleton.now.atoms → centre_at skeleton.now k ≡ Some places → IsPlaceList mol.old.bonds k places }
    ensures { mol.new ≡ with_centres (centres_in skeleton.now) mol.old }
{
    for k in 0..skeleton.atom_count() {
        let centre = centre_at(skeleton, AtomId(k));
        set_centre(mol, AtomId(k), centre);
    }
}

/// Whether an atom has a mark.
fn some_marked(atoms: &[SkelAtom]) -> bool
    ensures { result ≡ false → NoneBelow (λ k. is_marked (slice_get atoms.now k)) (length atoms.now) }
{
    for atom in atoms {
        if atom.chiral.is_some() {
            return true;
        }
    }
    false
}

/// Whether these are as many neighbours and hydrogens as a centre has.
fn fits(neighbours: usize, hydrogens: u8) -> bool
    ensures { IsTrue result ↔ Fits neighbours hydrogens }
{
    match neighbours {
        4 => hydrogens == 0,
        3 => hydrogens <= 1,
        _ => false,
    }
}

/// Whether an atom has as many neighbours and hydrogens as a centre, if it has a mark.
#[tactic(auto, using(crate::proofs::CentresMarked::unmarked_fits, crate::proofs::CentresMarked::marked_fits))]
fn mark_fits(skeleton: &Skeleton, a: AtomId) -> bool
    requires { a.0 < length skeleton.now.atoms }
    ensures { IsTrue result ↔ MarkFits skeleton.now a.0 }
{
    let atom = skeleton.atom(a);
    match atom.chiral {
        Some(_) => fits(skeleton.places(a).len(), atom.hydrogens),
        None => true,
    }
}

/// Whether each atom of a skeleton that has a mark has as many neighbours and hydrogens as a centre.
pub fn marks_fit(skeleton: &Skeleton) -> bool
    ensures yes { result ≡ true → (k : ℕ) → k < length skeleton.now.atoms → MarkFits skeleton.now k }
    ensures no { result ≡ false → (k : ℕ) × (k < length skeleton.now.atoms) × (MarkFits skeleton.now k → ⊥) }
{
    for k in 0..skeleton.atom_count() {
        if !mark_fits(skeleton, AtomId(k)) {
            return false;
        }
    }
    true
}

/// Whether an atom has a mark, and is in lower case or may be no centre of the molecule.
fn is_wrong_centre(skeleton: &Skeleton, mol: &Mol, rings: &Rings, a: AtomId) -> bool
    requires atom { a.0 < length skeleton.now.atoms }
    requires count { length mol.now.atoms ≡ length skeleton.now.atoms }
    requires rings { AreRingsOf mol.now rings.now }
    ensures { result ≡ is_wrong_centre (slice_get skeleton.now.atoms a.0) (may_be mol.now rings.now.sizes a.0) }
{
    let atom = skeleton.atom(a);
    atom.chiral.is_some() && (atom.lower || !may_be_centre(mol, rings, a))
}

/// The first such atom.
fn first_wrong_centre(skeleton: &Skeleton, mol: &Mol, rings: &Rings) -> Option<u32>
    requires count { length mol.now.atoms ≡ length skeleton.now.atoms }
    requires rings { AreRingsOf mol.now rings.now }
    ensures { IsFirstOf (λ k. is_wrong_centre (slice_get skeleton.now.atoms k) (may_be mol.now rings.now.sizes k)) (length skeleton.now.atoms) result }
{
    for k in 0..skeleton.atom_count() {
        if is_wrong_centre(skeleton, mol, rings, AtomId(k)) {
            return Some(k);
        }
    }
    None
}

/// The molecule of a skeleton under some placement, with the centres that the marks say; or the refusal of the first mark
/// at an atom that may be no centre. Where there is no mark, no ring is looked for.
pub fn with_marks(alloc: Global, skeleton: &Skeleton, mol: Mol) -> Result<Mol, Stop>
    requires { IsUnmarkedUnder skeleton.now mol }
    ensures centres { IfOk result (λ marked. marked ≡ with_centres (centres_in skeleton.now) mol) }
    ensures right { IfOk result (AreRightMarks skeleton.now) }
    ensures err { IfErr result (CantBeMarked skeleton.now mol) }
{
    if !some_marked(skeleton.atoms()) {
        return Ok(mol);
    }
    let _limits = skeleton.bonds();
    let rings = Rings::of(alloc, &mol)?;
    if let Some(k) = first_wrong_centre(skeleton, &mol, &rings) {
        return Err(Stop::Refused(Refusal::at(alloc, Kind::NotACentre, k + 1)));
    }
    let mut mol = mol;
    set_centres(&mut mol, skeleton);
    Ok(mol)
}
