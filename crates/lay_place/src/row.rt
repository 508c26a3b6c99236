//! The atoms in a row.
ghost use Rattle.std.specs.Prelude.{◌≡◌, length, IfOk};
ghost use Rattle.lay_place.specs.Wanted.{MayBePlaced};
ghost use Rattle.lay_place.specs.Curve.{IsRow};

use crate::curve::Curve;
use crate::next::next_place;
use mc_base::NoMemory;
use mc_mol::Mol;
use mc_rings::Rings;
use std::alloc::Global;

/// The atoms, put in one by one in the block order: none that is put in changes what was decided before.
pub fn row_of(alloc: Global, mol: &Mol, rings: &Rings) -> Result<Curve, NoMemory>
    requires may { MayBePlaced mol.now rings.now }
    ensures { IfOk result (λ curve. IsRow mol.now rings.now (length rings.now.order) curve) }
{
    let mut curve = Curve::new(alloc, mol.atom_count() as usize)?;
    let order = rings.order();
    for done in 0..order.len() {
        let v = order[done];
        let at = next_place(mol, rings, &curve, v, done as u32);
        curve.insert(v, at);
    }
    Ok(curve)
}
