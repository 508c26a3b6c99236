//! Which atoms need a double bond.

ghost use Rattle.std.specs.Prelude.{◌≡◌, ℕ, ◌≤◌, ◌<◌, ◌-◌, ◌^◌, true, false, length, get_or, map, IfOk, if◌then◌else◌};
ghost use Rattle.mc_mol.specs.Molecule.{bond_sum, touches};
ghost use Rattle.smi_graph.specs.Links.{bond_of, order_of, symbol};
ghost use Rattle.smi_mean.specs.Barriers.{needs_from};
ghost use Rattle.smi_mean.specs.Needs.{has_valence, is_one_short, needs_double, needs};

use crate::atoms::hydrogens_of;
use mc_base::AtomId;
use mc_elements::aromatic_valences;
use mc_mol::Bond;
use smi_graph::{SkelAtom, Skeleton, TextBond};
use std::alloc::{AllocError, Global};

fn has_valence(valences: &[u8], x: u32) -> bool
    ensures { result ≡ has_valence valences.now x }
{
    valences.iter().any(|valence| *valence as u32 == x)
}

/// Whether x isn't a valence, and one more is.
fn is_one_short(valences: &[u8], x: u32) -> bool
    requires { x < 2 ^ 32 - 1 }
    ensures { result ≡ is_one_short valences.now x }
{
    !has_valence(valences, x) && has_valence(valences, x + 1)
}

/// Whether an atom with this bond sum, in which a candidate counts 1, needs a double bond.
fn needs_double(atom: SkelAtom, sum: u32) -> bool
    requires { sum ≤ 65535 }
    ensures { result ≡ needs_double atom sum }
{
    atom.lower
        && is_one_short(
            aromatic_valences(atom.element, atom.charge),
            sum + hydrogens_of(atom, sum) as u32,
        )
}

/// Whether some atom needs a double bond.
#[tactic(auto, using(crate::proofs::Needing::never_needs))]
pub fn some_needs(atoms: &[SkelAtom], bonds: &[Bond], sums: &[u32]) -> bool
    requires count { length sums.now ≡ length atoms.now }
    requires small { (k : ℕ) → get_or sums.now k 0 ≤ 65535 }
    requires sums { (k : ℕ) → k < length atoms.now → get_or sums.now k 0 ≡ bond_sum bonds.now k }
    ensures some { result ≡ true → (k : ℕ) × (needs atoms.now bonds.now k ≡ true) }
    ensures none { result ≡ false → (k : ℕ) → needs atoms.now bonds.now k ≡ false }
{
    for (k, atom) in atoms.iter().enumerate() {
        if needs_double(*atom, sums[k]) {
            return true;
        }
    }
    false
}

/// Of each atom whether it needs a double bond.
pub fn needs_in_order(
    alloc: Global,
    atoms: &[SkelAtom],
    bonds: &[Bond],
    sums: &[u32],
) -> Result<Vec<bool>, AllocError>
    requires count { length sums.now ≡ length atoms.now }
    requires small { (k : ℕ) → get_or sums.now k 0 ≤ 65535 }
    requires sums { (k : ℕ) → k < length atoms.now → get_or sums.now k 0 ≡ bond_sum bonds.now k }
    ensures { IfOk result (λ needs. needs.items ≡ needs_from bonds.now 0 atoms.now) }
{
    let mut found = Vec::with_capacity(alloc, atoms.len())?;
    for (k, atom) in atoms.iter().enumerate() {
        found.push_reserved(needs_double(*atom, sums[k]));
    }
    Ok(found)
}

/// What a bond adds to the bond sum of an atom.
fn order_at(bond: TextBond, a: AtomId) -> u8
    ensures value { result ≡ (if touches (bond_of bond) a.0 then order_of (symbol bond) else 0) }
    ensures small { result ≤ 4 }
{
    if bond.first.0 == a.0 || bond.second.0 == a.0 {
        bond.order()
    } else {
        0
    }
}

/// The sum of the orders of an atom's bonds, in which a candidate counts 1.
fn order_sum(bonds: &[TextBond], a: AtomId) -> u32
    requires { length bonds.now ≤ 999 }
    ensures value { result ≡ bond_sum (map bond_of bonds.now) a.0 }
    ensures small { result ≤ 65535 }
{
    let mut sum = 0u32;
    for bond in bonds {
        sum += order_at(*bond, a) as u32;
    }
    sum
}

/// Whether an atom needs a double bond.
pub fn needs(skeleton: &Skeleton, a: AtomId) -> bool
    requires { a.0 < length skeleton.now.atoms }
    ensures { result ≡ needs skeleton.now.atoms (map bond_of skeleton.now.bonds) a.0 }
{
    needs_double(skeleton.atom(a), order_sum(skeleton.bonds(), a))
}
