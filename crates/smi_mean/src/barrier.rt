//! Whether a set of atoms is a barrier of a skeleton.

ghost use Rattle.std.specs.Prelude.{◌≡◌, ℕ, ◌<◌, ◌↔◌, true, length, map, IfOk, IfSome, IfNone, IsTrue, All};
ghost use Rattle.smi_graph.specs.Candidates.{marked};
ghost use Rattle.smi_graph.specs.Links.{bond_of};
ghost use Rattle.smi_mean.specs.Barriers.{IsBarrierIn, number_of, needs_of};
ghost use Rattle.smi_mean.specs.BarrierTests.{is_next, rises_among, is_found};
ghost use Rattle.smi_mean.specs.NeedGraphs.{numbers_from, node_of};

use crate::need::needs_in_order;
use crate::need_graph::{candidate_bonds, need_graph, node_at, node_numbers};
use match_barrier::{Scratch, is_barrier};
use mc_base::{AtomId, NoMemory};
use mc_mol::{Bond, bond_sums};
use smi_graph::{Skeleton, bonds_with_orders, is_marked};
use std::alloc::{AllocError, Global};

/// Whether an atom needs a double bond and is none of the first ones.
fn is_next(needs: &[bool], least: u64, atom: AtomId) -> bool
    ensures { result ≡ is_next needs.now least atom }
{
    least <= atom.0 as u64 && is_marked(needs, atom.0 as usize)
}

/// Whether atoms stand in increasing order and all need a double bond.
fn rises_among(needs: &[bool], atoms: &[AtomId]) -> bool
    ensures { result ≡ rises_among needs.now 0 atoms.now }
{
    let mut least = 0u64;
    for atom in atoms {
        if !is_next(needs, least, *atom) {
            return false;
        }
        least = atom.0 as u64 + 1;
    }
    true
}

/// The nodes of needing atoms.
fn nodes_of(
    alloc: Global,
    needs: &[bool],
    numbers: &[u32],
    atoms: &[AtomId],
) -> Result<Vec<u32>, AllocError>
    requires numbers { numbers.now ≡ numbers_from 0 needs.now }
    requires below { All (λ atom. atom.0 < length needs.now) atoms.now }
    ensures { IfOk result (λ nodes. nodes.items ≡ map (node_of needs.now) (map number_of atoms.now)) }
{
    let mut nodes = Vec::with_capacity(alloc, atoms.len())?;
    for atom in atoms {
        nodes.push_reserved(node_at(needs, numbers, atom.0));
    }
    Ok(nodes)
}

/// The number of odd parts without a set of needing atoms, where it is above their number.
fn odd_parts_without(
    alloc: Global,
    skeleton: &Skeleton,
    needs: &[bool],
    bonds: &[Bond],
    atoms: &[AtomId],
) -> Result<Option<u32>, NoMemory>
    requires needs { needs.now ≡ needs_of skeleton.now.atoms skeleton.now.bonds }
    requires bonds { bonds.now ≡ map bond_of skeleton.now.bonds }
    requires rises { rises_among needs.now 0 atoms.now ≡ true }
    ensures some { IfOk result (λ found. IfSome found (IsBarrierIn skeleton.now.atoms skeleton.now.bonds atoms.now)) }
    ensures none { IfOk result (λ found. IfNone found ((odd : ℕ) → IsBarrierIn skeleton.now.atoms skeleton.now.bonds atoms.now odd → ⊥)) }
{
    let _limits = skeleton.bonds();
    let numbers = node_numbers(alloc, needs)?;
    let candidates = candidate_bonds(alloc, skeleton, bonds)?;
    let graph = need_graph(alloc, needs, &numbers, &candidates)?;
    let nodes = nodes_of(alloc, needs, &numbers, atoms)?;
    let mut scratch = Scratch::reserve(alloc, graph.node_count())?;
    Ok(is_barrier(&graph, &nodes, &mut scratch))
}

fn is_found(found: Option<u32>, odd: u32) -> bool
    ensures { result ≡ is_found found odd }
{
    match found {
        Some(found) => found == odd,
        None => false,
    }
}

/// Whether atoms are a barrier of a skeleton, and leave this number of odd parts.
pub fn is_barrier_in(
    alloc: Global,
    skeleton: &Skeleton,
    atoms: &[AtomId],
    odd: u32,
) -> Result<bool, NoMemory>
    ensures { IfOk result (λ is. IsTrue is ↔ IsBarrierIn skeleton.now.atoms skeleton.now.bonds atoms.now odd) }
{
    let bonds = bonds_with_orders(alloc, skeleton.bonds())?;
    let sums = bond_sums(alloc, &bonds, skeleton.atoms().len())?;
    let needs = needs_in_order(alloc, skeleton.atoms(), &bonds, &sums)?;
    if !rises_among(&needs, atoms) {
        return Ok(false);
    }
    let found = odd_parts_without(alloc, skeleton, &needs, &bonds, atoms)?;
    Ok(is_found(found, odd))
}
