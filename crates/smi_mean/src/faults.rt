ghost use Rattle.std.specs.Prelude.{◌≡◌, ℕ, ◌+◌, ◌≤◌, ◌<◌, ◌||◌, false, Some, None, IfSome, IfNone, length, get_or, slice_get};
ghost use Rattle.mc_base.specs.Shown.{IsFirst};
ghost use Rattle.mc_mol.specs.declared.limits.TheConstants.{ATOM_LIMIT};
ghost use Rattle.mc_mol.specs.Limits.{is_hydrogen_with_more, is_over, overvalent_at, hydrogen_on_hydrogen_at};
ghost use Rattle.mc_mol.specs.Molecule.{bond_sum};
ghost use Rattle.smi_graph.specs.Firsts.{IsFirstOf};
ghost use Rattle.smi_graph.specs.Skeletons.{IsNoBarrier};
ghost use Rattle.smi_mean.specs.Meaning.{without_stereo};
ghost use Rattle.smi_mean.specs.Rules.{IsWrongAtom};

use mc_base::{Kind, Refusal};
use mc_mol::{Atom, Bond};
use std::alloc::Global;

/// The first atom whose bonds and hydrogens are above the limit.
fn first_overvalent(atoms: &[Atom], bonds: &[Bond], sums: &[u32]) -> Option<usize>
    requires count { length sums.now ≡ length atoms.now }
    requires small { (k : ℕ) → get_or sums.now k 0 ≤ 65535 }
    requires sums { (k : ℕ) → k < length atoms.now → get_or sums.now k 0 ≡ bond_sum bonds.now k }
    ensures { IsFirstOf (overvalent_at (without_stereo atoms.now bonds.now)) (length atoms.now) result }
{
    for (k, atom) in atoms.iter().enumerate() {
        if atom.is_over(sums[k]) {
            return Some(k);
        }
    }
    None
}

/// The first hydrogen atom that has hydrogens.
fn first_hydrogen_on_hydrogen(atoms: &[Atom]) -> Option<usize>
    ensures { IsFirstOf (λ k. is_hydrogen_with_more (slice_get atoms.now k)) (length atoms.now) result }
{
    for (k, atom) in atoms.iter().enumerate() {
        if atom.is_hydrogen_with_more() {
            return Some(k);
        }
    }
    None
}

fn is_wrong(atom: Atom, sum: u32) -> bool
    requires { sum ≤ 65535 }
    ensures { result ≡ (is_over (Some atom) sum || is_hydrogen_with_more (Some atom)) }
{
    atom.is_over(sum) || atom.is_hydrogen_with_more()
}

/// Whether an atom is wrong by either rule. Nearly always none is, and then the atoms are looked at once.
fn some_wrong(atoms: &[Atom], bonds: &[Bond], sums: &[u32]) -> bool
    requires count { length sums.now ≡ length atoms.now }
    requires small { (k : ℕ) → get_or sums.now k 0 ≤ 65535 }
    requires sums { (k : ℕ) → k < length atoms.now → get_or sums.now k 0 ≡ bond_sum bonds.now k }
    ensures valences { result ≡ false → IsFirstOf (overvalent_at (without_stereo atoms.now bonds.now)) (length atoms.now) None }
    ensures hydrogens { result ≡ false → IsFirstOf (hydrogen_on_hydrogen_at (without_stereo atoms.now bonds.now)) (length atoms.now) None }
{
    for (k, atom) in atoms.iter().enumerate() {
        if is_wrong(*atom, sums[k]) {
            return true;
        }
    }
    false
}

/// Why these atoms and bonds are no molecule: the first kind that stands at an atom.
pub fn atom_refusal(alloc: Global, atoms: &[Atom], bonds: &[Bond], sums: &[u32]) -> Option<Refusal>
    requires few { length atoms.now ≤ ATOM_LIMIT }
    requires count { length sums.now ≡ length atoms.now }
    requires small { (k : ℕ) → get_or sums.now k 0 ≤ 65535 }
    requires sums { (k : ℕ) → k < length atoms.now → get_or sums.now k 0 ≡ bond_sum bonds.now k }
    ensures some { IfSome result (IsFirst (IsWrongAtom (without_stereo atoms.now bonds.now)) IsNoBarrier) }
    ensures valences { IfNone result ((k : ℕ) → overvalent_at (without_stereo atoms.now bonds.now) k ≡ false) }
    ensures hydrogens { IfNone result ((k : ℕ) → hydrogen_on_hydrogen_at (without_stereo atoms.now bonds.now) k ≡ false) }
{
    if !some_wrong(atoms, bonds, sums) {
        return None;
    }
    if let Some(k) = first_overvalent(atoms, bonds, sums) {
        return Some(Refusal::at(alloc, Kind::LimitValence, k as u32 + 1));
    }
    if let Some(k) = first_hydrogen_on_hydrogen(atoms) {
        return Some(Refusal::at(alloc, Kind::HydrogenOnHydrogen, k as u32 + 1));
    }
    None
}
