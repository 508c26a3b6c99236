ghost use Rattle.std.specs.Prelude.{◌≡◌, ℕ, ◌+◌, ◌*◌, ◌≤◌, ◌<◌, IfOk, All, length, get_or, ◌==◌, if◌then◌else◌};
ghost use Rattle.mc_mol.specs.Molecule.{bond_sum};
ghost use Rattle.mc_mol.specs.WellFormed.{IsBond};
ghost use Rattle.mc_mol.specs.declared.limits.TheConstants.{ATOM_LIMIT, BOND_LIMIT};

use crate::Bond;
use std::alloc::{AllocError, Global};

/// Adds the order of a bond to the sum of one of its atoms.
fn add(sums: &mut [u32], atom: u32, order: u8)
    requires inside { atom < length sums.old }
    requires small { get_or sums.old atom 0 ≤ 65535 }
    ensures count { length sums.new ≡ length sums.old }
    ensures each { (k : ℕ) → get_or sums.new k 0 ≡ get_or sums.old k 0 + (if atom == k then order else 0) }
{
    sums[atom as usize] += order as u32;
}

/// The sum of the orders of each atom's bonds.
pub fn bond_sums(alloc: Global, bonds: &[Bond], atoms: usize) -> Result<Vec<u32>, AllocError>
    requires few_atoms { atoms ≤ ATOM_LIMIT }
    requires few_bonds { length bonds.now ≤ BOND_LIMIT }
    requires bonds { All (IsBond atoms) bonds.now }
    ensures count { IfOk result (λ sums. length sums.items ≡ atoms) }
    ensures each { IfOk result (λ sums. (k : ℕ) → get_or sums.items k 0 ≡ bond_sum bonds.now k) }
    ensures small { IfOk result (λ sums. (k : ℕ) → get_or sums.items k 0 ≤ 65535) }
{
    let mut sums = vec![in alloc; 0; atoms]?;
    for bond in bonds {
        add(sums.as_mut_slice(), bond.first.0, bond.order);
        add(sums.as_mut_slice(), bond.second.0, bond.order);
    }
    Ok(sums)
}
