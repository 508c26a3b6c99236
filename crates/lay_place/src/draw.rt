//! The drawing of a molecule.
ghost use Rattle.std.specs.Prelude.{◌≡◌, IfOk};
ghost use Rattle.lay_place.specs.Wanted.{MayBePlaced};
ghost use Rattle.ct_geometry.specs.Drawn.{IsDrawn};

use crate::row::row_of;
use mc_base::NoMemory;
use mc_mol::{Drawing, Mol};
use mc_rings::Rings;
use std::alloc::Global;

/// A drawing of a sound molecule in which no specified double bond lies in a ring: rays at an atom differ, specified double
/// bonds read right, and each centre has two single bonds that may carry its wedge. It isn't made to please the eye.
#[tactic(auto, using(crate::proofs::Placing::drawn_whole, crate::proofs::Placing::row_few, crate::proofs::Placing::row_below))]
pub fn place(alloc: Global, mol: &Mol, rings: &Rings) -> Result<Drawing, NoMemory>
    requires may { MayBePlaced mol.now rings.now }
    ensures { IfOk result (λ drawing. IsDrawn mol.now drawing) }
{
    let curve = row_of(alloc, mol, rings)?;
    curve.draw(alloc)
}
