ghost use Rattle.std.specs.Prelude.{◌≡◌, ◌≤◌, Some};
ghost use Rattle.mc_mol.specs.Limits.{is_hydrogen_with_more, is_over};

use crate::Atom;
use mc_elements::Element;

/// The greatest number of atoms of a molecule.
pub const ATOM_LIMIT: usize = 999;

/// The greatest number of bonds of a molecule.
pub const BOND_LIMIT: usize = 999;

/// The greatest number of independent rings.
pub const RING_LIMIT: u32 = 99;

/// The greatest sum of bond orders and hydrogens at one atom.
pub const VALENCE_LIMIT: u32 = 14;

/// The greatest number of hydrogens at one atom.
pub const HYDROGEN_LIMIT: u8 = 9;

/// The greatest isotope.
pub const ISOTOPE_LIMIT: u16 = 999;

/// The greatest atom class.
pub const CLASS_LIMIT: u16 = 999;

/// The greatest charge, and the greatest negative one, in elementary charges.
pub const CHARGE_LIMIT: u8 = 15;

/// The least coordinate of a drawing, in ten-thousandths.
pub const LEAST_COORDINATE: i64 = -99_999_999;

/// The greatest coordinate of a drawing, in ten-thousandths.
pub const GREATEST_COORDINATE: i64 = 999_999_999;

impl Atom {
    /// Whether the atom's hydrogens and its bonds, of which this is the sum of orders, are above the limit.
    pub fn is_over(self, bond_sum: u32) -> bool
        requires { bond_sum ≤ 65535 }
        ensures { result ≡ is_over (Some self) bond_sum }
    {
        bond_sum + self.hydrogens as u32 > VALENCE_LIMIT
    }

    /// Whether the atom is a hydrogen that has hydrogens.
    pub fn is_hydrogen_with_more(self) -> bool
        ensures { result ≡ is_hydrogen_with_more (Some self) }
    {
        match self.element {
            Element::H => self.hydrogens > 0,
            _ => false,
        }
    }
}
