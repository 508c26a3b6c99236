//! Which atoms of a skeleton lie on the double bonds that they need.

ghost use Rattle.std.specs.Prelude.{◌≡◌, ◌≤◌, length, map, IfOk};
ghost use Rattle.mc_mol.specs.declared.limits.TheConstants.{ATOM_LIMIT, BOND_LIMIT};
ghost use Rattle.smi_graph.specs.Links.{bond_of};
ghost use Rattle.smi_mean.specs.Barriers.{needs_of};
ghost use Rattle.smi_mean.specs.Lying.{counted_once, agree, lying_of};

use crate::need::needs_in_order;
use mc_base::NoMemory;
use mc_mol::{Bond, bond_sums};
use smi_graph::{Skeleton, bonds_with_orders};
use std::alloc::{AllocError, Global};

/// Of each atom of a skeleton whether it needs a double bond.
pub fn needing_atoms(alloc: Global, skeleton: &Skeleton) -> Result<Vec<bool>, NoMemory>
    ensures { IfOk result (λ needs. needs.items ≡ needs_of skeleton.now.atoms skeleton.now.bonds) }
{
    let bonds = bonds_with_orders(alloc, skeleton.bonds())?;
    let sums = bond_sums(alloc, &bonds, skeleton.atoms().len())?;
    let needs = needs_in_order(alloc, skeleton.atoms(), &bonds, &sums)?;
    Ok(needs)
}

/// The placed bonds, each with order 1.
fn counted_once(alloc: Global, placed: &[bool], bonds: &[Bond]) -> Result<Vec<Bond>, AllocError>
    requires { length placed.now ≡ length bonds.now }
    ensures { IfOk result (λ found. found.items ≡ counted_once placed.now bonds.now) }
{
    let mut found = Vec::new(alloc);
    for (k, bond) in bonds.iter().enumerate() {
        if placed[k] {
            found.push(Bond {
                first: bond.first,
                second: bond.second,
                order: 1,
            })?;
        }
    }
    Ok(found)
}

/// Of each count whether it is 1 where a double bond is needed, and else 0.
fn agree(alloc: Global, needs: &[bool], counts: &[u32]) -> Result<Vec<bool>, AllocError>
    requires { length counts.now ≡ length needs.now }
    ensures { IfOk result (λ found. found.items ≡ agree needs.now counts.now) }
{
    let mut found = Vec::with_capacity(alloc, needs.len())?;
    for (k, needing) in needs.iter().enumerate() {
        found.push_reserved(counts[k] == *needing as u32);
    }
    Ok(found)
}

/// Of each atom of a skeleton whether it lies on one of these double bonds where it needs one, and else on none.
#[tactic(auto, using(crate::proofs::OnceEach::sound_once, crate::proofs::OnceEach::few_once, crate::proofs::OnceEach::lying_by))]
pub fn lying_once(
    alloc: Global,
    skeleton: &Skeleton,
    needs: &[bool],
    double: &[bool],
) -> Result<Vec<bool>, NoMemory>
    requires needs { needs.now ≡ needs_of skeleton.now.atoms skeleton.now.bonds }
    requires double { length double.now ≡ length skeleton.now.bonds }
    ensures { IfOk result (λ found. found.items ≡ lying_of skeleton.now.atoms skeleton.now.bonds double.now) }
{
    let bonds = bonds_with_orders(alloc, skeleton.bonds())?;
    let once = counted_once(alloc, double, &bonds)?;
    let counts = bond_sums(alloc, &once, skeleton.atoms().len())?;
    let found = agree(alloc, needs, &counts)?;
    Ok(found)
}
