//! The centres and sides that a drawing says, atom by atom and bond by bond.
ghost use Rattle.std.specs.Prelude.{◌≡◌, ℕ, ◌+◌, ◌≤◌, ◌<◌, IfOk, IfErr, List, None, Some, false, length, slice_get, replicate};
ghost use Rattle.mc_mol.specs.declared.limits.TheConstants.{ATOM_LIMIT, BOND_LIMIT};
ghost use Rattle.mc_mol.specs.declared.parts.Sides.{Sides as Geometry};
ghost use Rattle.mc_mol.specs.declared.parts.Slot.{Slot as Place};
ghost use Rattle.mc_mol.specs.WellFormed.{IsPlaceList, SidesFit};
ghost use Rattle.mc_rings.specs.Rings.{AreRingsOf};
ghost use Rattle.ct_geometry.specs.Bounds.{ArePlaces};
ghost use Rattle.ct_geometry.specs.CentresRead.{IsAmbiguity, centre_given, is_ambiguous, set_if, up_to};
ghost use Rattle.ct_geometry.specs.TableSides.{drawn_sides};
ghost use Rattle.ct_geometry.specs.Wedges.{begins, read_wedges};

use crate::table_sides::drawn_sides;
use crate::{WedgeRead, centre_of_wedges};
use ct_sd::DrawMark;
use mc_base::{AtomId, BondId, Kind, Refusal, Stop};
use mc_mol::{Drawing, Mol, Sides, Slot};
use mc_rings::Rings;
use std::alloc::{AllocError, Global};

fn is_ambiguous(read: WedgeRead) -> bool
    ensures { result ≡ is_ambiguous read }
{
    match read {
        WedgeRead::Ambiguous => true,
        _ => false,
    }
}

fn centre_given(read: WedgeRead) -> Option<[Slot; 4]>
    ensures { result ≡ centre_given read }
{
    match read {
        WedgeRead::Centre(places) => Some(places),
        _ => None,
    }
}

/// The list of places of each atom, where the wedges make it a centre; or the first atom at which they are ambiguous.
#[tactic(auto, using(crate::proofs::Given::up_to_more, crate::proofs::Given::clear_more))]
pub fn read_centres(
    alloc: Global,
    mol: &Mol,
    rings: &Rings,
    drawing: &Drawing,
    marks: &[DrawMark],
) -> Result<Vec<Option<[Slot; 4]>>, Stop>
    requires rings { AreRingsOf mol.now rings.now }
    requires places { ArePlaces drawing.now }
    ensures ok { IfOk result (λ found. found.items ≡ up_to (λ (a : ℕ). centre_given (read_wedges mol.now rings.now.sizes drawing.now (begins mol.now.bonds marks.now a) a)) (length mol.now.atoms)) }
    ensures clear { IfOk result (λ _. (a : ℕ) → a < length mol.now.atoms → is_ambiguous (read_wedges mol.now rings.now.sizes drawing.now (begins mol.now.bonds marks.now a) a) ≡ false) }
    ensures err { IfErr result (IsAmbiguity (λ (a : ℕ). read_wedges mol.now rings.now.sizes drawing.now (begins mol.now.bonds marks.now a) a) (length mol.now.atoms)) }
{
    let count = mol.atom_count();
    let mut found = Vec::with_capacity(alloc, count as usize)?;
    for a in 0..count {
        let read = centre_of_wedges(mol, rings, drawing, marks, AtomId(a));
        if is_ambiguous(read) {
            return Err(Stop::Refused(Refusal::at(alloc, Kind::AmbiguousCentre, a + 1)));
        }
        found.push_reserved(centre_given(read));
    }
    Ok(found)
}

/// The sides of each bond, where the drawing says them.
#[tactic(auto, using(crate::proofs::Given::up_to_more))]
pub fn read_sides(
    alloc: Global,
    mol: &Mol,
    rings: &Rings,
    drawing: &Drawing,
    marks: &[DrawMark],
) -> Result<Vec<Option<Sides>>, AllocError>
    requires rings { AreRingsOf mol.now rings.now }
    requires places { ArePlaces drawing.now }
    ensures { IfOk result (λ found. found.items ≡ up_to (λ (k : ℕ). drawn_sides mol.now rings.now.sizes drawing.now marks.now k) (length mol.now.bonds)) }
{
    let count = mol.bond_count();
    let mut found = Vec::with_capacity(alloc, count as usize)?;
    for k in 0..count {
        found.push_reserved(drawn_sides(mol, rings, drawing, marks, BondId(k)));
    }
    Ok(found)
}

/// Makes an atom a centre, where there is a list of places.
fn set_centre(mol: &mut Mol, a: AtomId, centre: Option<[Slot; 4]>)
    requires atom { a.0 < length mol.old.atoms }
    requires places { (list : List Place) → centre ≡ Some list → IsPlaceList mol.old.bonds a.0 list }
    ensures { mol.new ≡ record mol.old { centres = set_if mol.old.centres a.0 centre } }
{
    if let Some(places) = centre {
        mol.set_centre(a, places);
    }
}

/// Makes the atoms of a molecule without centres these centres.
#[tactic(auto, using(crate::proofs::Filled::centres_init, crate::proofs::Filled::centres_more, crate::proofs::Filled::centres_all))]
pub fn set_centres(mol: &mut Mol, centres: &[Option<[Slot; 4]>])
    requires count { length centres.now ≡ length mol.old.atoms }
    requires few { length centres.now ≤ ATOM_LIMIT }
    requires none { mol.old.centres ≡ replicate (length mol.old.atoms) None }
    requires places { (a : ℕ) (list : List Place) → slice_get centres.now a ≡ Some (Some list) → IsPlaceList mol.old.bonds a list }
    ensures { mol.new ≡ record mol.old { centres = centres.now } }
{
    for (a, centre) in centres.iter().enumerate() {
        set_centre(mol, AtomId(a as u32), *centre);
    }
}

/// Gives a bond its geometry, where there are sides.
fn set_geometry(mol: &mut Mol, k: BondId, sides: Option<Sides>)
    requires bond { k.0 < length mol.old.bonds }
    requires fit { (geometry : Geometry) → sides ≡ Some geometry → SidesFit mol.old.bonds k.0 geometry }
    ensures { mol.new ≡ record mol.old { sides = set_if mol.old.sides k.0 sides } }
{
    if let Some(sides) = sides {
        mol.set_sides(k, sides);
    }
}

/// Gives the bonds of a molecule without sides these sides.
#[tactic(auto, using(crate::proofs::Filled::sides_init, crate::proofs::Filled::sides_more, crate::proofs::Filled::sides_all))]
pub fn set_sides(mol: &mut Mol, sides: &[Option<Sides>])
    requires count { length sides.now ≡ length mol.old.bonds }
    requires few { length sides.now ≤ BOND_LIMIT }
    requires none { mol.old.sides ≡ replicate (length mol.old.bonds) None }
    requires fit { (k : ℕ) (geometry : Geometry) → slice_get sides.now k ≡ Some (Some geometry) → SidesFit mol.old.bonds k geometry }
    ensures { mol.new ≡ record mol.old { sides = sides.now } }
{
    for (k, geometry) in sides.iter().enumerate() {
        set_geometry(mol, BondId(k as u32), *geometry);
    }
}
