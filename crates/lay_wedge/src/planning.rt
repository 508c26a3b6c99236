ghost use Rattle.std.specs.Prelude.{◌≡◌, IfOk};
ghost use Rattle.ct_geometry.specs.Drawn.{IsDrawn};
ghost use Rattle.lay_wedge.specs.Plans.{HasSoundCentres, IsPlan};

use crate::walk::Walk;
use ct_geometry::Wedges;
use mc_base::NoMemory;
use mc_mol::{Drawing, Mol};
use std::alloc::Global;

#[tactic(auto, using(crate::proofs::Started::are_places))]
/// A wedge for each centre of a drawn molecule, on a single bond of its own, which reads as the centre's list. It fails only for want of
/// memory.
pub fn plan(alloc: Global, mol: &Mol, drawing: &Drawing) -> Result<Wedges, NoMemory>
    requires drawn { IsDrawn mol.now drawing.now }
    requires sound { HasSoundCentres mol.now }
    ensures { IfOk result (λ wedges. IsPlan mol.now drawing.now wedges) }
{
    let atoms = mol.atom_count() as usize;
    let mut walk = Walk::new(alloc, mol, atoms, drawing.as_slice())?;
    walk.all(mol, drawing.as_slice());
    Ok(Wedges::from_vec(walk.into_wedges()))
}
