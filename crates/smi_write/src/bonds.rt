ghost use Rattle.std.specs.Prelude.{◌≡◌, ◌≢◌, ◌<◌, length};
ghost use Rattle.mc_mol.specs.WellFormed.{IsMolecule};
ghost use Rattle.smi_mean.specs.Order.{order_between};

use mc_base::AtomId;
use mc_mol::Mol;

/// The order of the bond between two different atoms, and 1 where there is none.
pub fn order_between(mol: &Mol, first: AtomId, second: AtomId) -> u8
    requires first { first.0 < length mol.now.atoms }
    requires different { first.0 ≢ second.0 }
    requires molecule { IsMolecule mol.now }
    ensures { result ≡ order_between mol.now.bonds first.0 second.0 }
{
    for half in mol.bonds_of(first) {
        if half.to.0 == second.0 {
            return mol.bond(half.bond).order;
        }
    }
    1
}
