//! Which atoms are joined already.

ghost use Rattle.std.specs.Prelude.{◌≡◌, ◌≢◌, ◌-◌, ◌<◌, ◌≤◌, length, map, get_or, ℕ};
ghost use Rattle.std.specs.List.{list_any};
ghost use Rattle.mc_mol.specs.Molecule.{joins};
ghost use Rattle.smi_graph.specs.declared.text_bond.TextBond.{TextBond};
ghost use Rattle.smi_graph.specs.Links.{bond_of};
ghost use Rattle.smi_graph.specs.Reading.{RisesTo, IsTo};
ghost use Rattle.smi_graph.specs.RingRules.{pairs_again};

use crate::TextBond;

fn joins(bond: &TextBond, u: u32, v: u32) -> bool
    ensures { result ≡ joins (bond_of bond.now) u v }
{
    bond.first.0 == u && bond.second.0 == v || bond.first.0 == v && bond.second.0 == u
}

fn are_joined(bonds: &[TextBond], u: u32, v: u32) -> bool
    ensures { result ≡ list_any (λ b. joins (bond_of b) u v) bonds.now }
{
    bonds.iter().any(|bond| joins(bond, u, v))
}

/// Behind which bond all bonds are bonds to an atom from earlier ones.
fn latest_from(bonds: &[TextBond], atom: u32) -> usize
    ensures bound { result ≤ length bonds.now }
    ensures other { (b : TextBond) → 0 < result → (get_or bonds.now (result - 1) b).second.0 ≢ atom }
{
    let mut from = bonds.len();
    while from > 0 && bonds[from - 1].second.0 == atom {
        from -= 1;
    }
    from
}

/// Whether a bond is between atoms that are one, or are joined already by these. The bonds of the latest atom are the
/// last ones, so no others are looked at.
pub fn pairs_again(bonds: &[TextBond], bond: Option<TextBond>) -> bool
    ensures { (atom : ℕ) → IsTo atom bond → RisesTo atom bonds.now → result ≡ pairs_again (map bond_of bonds.now) bond }
{
    match bond {
        Some(bond) => {
            let from = latest_from(bonds, bond.second.0);
            bond.first.0 == bond.second.0 || are_joined(&bonds[from..], bond.first.0, bond.second.0)
        }
        None => false,
    }
}
