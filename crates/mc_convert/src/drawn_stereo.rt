//! Whether the drawing of a table says stereo.
ghost use Rattle.std.specs.Prelude.{◌≡◌, ◌<◌, length};
ghost use Rattle.ct_geometry.specs.TableSides.{is_either};
ghost use Rattle.mc_rings.specs.Rings.{AreRingsOf};
ghost use Rattle.mc_convert.specs.SdRecords.{has_drawn, has_open_side, is_drawn, is_open_side, says_stereo};

use ct_geometry::CtRead;
use ct_sd::{DrawMark, TableBond};
use mc_base::BondId;
use mc_rings::may_have_sides;

fn is_drawn(mark: DrawMark) -> bool
    ensures { result ≡ is_drawn mark }
{
    match mark {
        DrawMark::Up | DrawMark::Down | DrawMark::Wavy => true,
        _ => false,
    }
}

fn is_either(mark: DrawMark) -> bool
    ensures { result ≡ is_either mark }
{
    match mark {
        DrawMark::Either => true,
        _ => false,
    }
}

fn is_open_side(ct: &CtRead, k: BondId, mark: DrawMark) -> bool
    requires bond { k.0 < length ct.now.mol.bonds }
    requires rings { AreRingsOf ct.now.mol ct.now.rings }
    ensures { result ≡ is_open_side ct.now.mol ct.now.rings.sizes k.0 mark }
{
    may_have_sides(&ct.mol, &ct.rings, k) && !is_either(mark)
}

fn has_open_side(ct: &CtRead, bonds: &[TableBond]) -> bool
    requires count { length bonds.now ≡ length ct.now.mol.bonds }
    requires rings { AreRingsOf ct.now.mol ct.now.rings }
    ensures { result ≡ has_open_side ct.now.mol ct.now.rings.sizes 0 bonds.now }
{
    for k in 0..ct.mol.bond_count() {
        if is_open_side(ct, BondId(k), bonds[k as usize].mark) {
            return true;
        }
    }
    false
}

fn has_drawn(bonds: &[TableBond]) -> bool
    ensures { result ≡ has_drawn bonds.now }
{
    bonds.iter().any(|bond| is_drawn(bond.mark))
}

/// Whether a single bond is drawn up, down or wavy, or a side place has no either mark.
pub fn says_stereo(ct: &CtRead, bonds: &[TableBond]) -> bool
    requires count { length bonds.now ≡ length ct.now.mol.bonds }
    requires rings { AreRingsOf ct.now.mol ct.now.rings }
    ensures { result ≡ says_stereo ct.now.mol ct.now.rings.sizes bonds.now }
{
    has_drawn(bonds) || has_open_side(ct, bonds)
}
