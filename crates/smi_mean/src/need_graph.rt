//! The graph of the needing atoms, along candidates.

ghost use Rattle.std.specs.Prelude.{◌≡◌, ℕ, ◌<◌, ◌≤◌, ◌^◌, length, true, IfOk};
ghost use Rattle.mc_mol.specs.declared.limits.TheConstants.{ATOM_LIMIT, BOND_LIMIT};
ghost use Rattle.match_barrier.specs.Barrier.{count};
ghost use Rattle.smi_graph.specs.Candidates.{marked};
ghost use Rattle.smi_mean.specs.Barriers.{marked_from};
ghost use Rattle.smi_mean.specs.NeedGraphs.{AreApart, AreInRange, Needing, numbers_from, is_edge, node_of, IsNeedGraph};

use match_barrier::Graph;
use mc_base::{BondId, NoMemory};
use mc_mol::Bond;
use smi_graph::Skeleton;
use std::alloc::{AllocError, Global};

/// The candidates among the bonds of a skeleton.
pub fn candidate_bonds(
    alloc: Global,
    skeleton: &Skeleton,
    bonds: &[Bond],
) -> Result<Vec<Bond>, AllocError>
    requires { length bonds.now ≤ BOND_LIMIT }
    ensures { IfOk result (λ found. found.items ≡ marked_from skeleton.now.candidates 0 bonds.now) }
{
    let mut found = Vec::new(alloc);
    for (k, bond) in bonds.iter().enumerate() {
        if skeleton.is_candidate(BondId(k as u32)) {
            found.push(*bond)?;
        }
    }
    Ok(found)
}

/// Of each atom how many before it need a double bond: the number of its node, where it needs one.
pub fn node_numbers(alloc: Global, needs: &[bool]) -> Result<Vec<u32>, AllocError>
    requires { length needs.now ≤ ATOM_LIMIT }
    ensures { IfOk result (λ numbers. numbers.items ≡ numbers_from 0 needs.now) }
{
    let mut numbers = Vec::with_capacity(alloc, needs.len())?;
    let mut next = 0u32;
    for needing in needs {
        numbers.push_reserved(next);
        if *needing {
            next += 1;
        }
    }
    Ok(numbers)
}

/// How many atoms need a double bond.
fn needing(needs: &[bool]) -> u32
    requires { length needs.now ≤ ATOM_LIMIT }
    ensures { result ≡ count (length needs.now) (marked needs.now) }
{
    let mut count = 0u32;
    for k in 0..needs.len() {
        if needs[k] {
            count += 1;
        }
    }
    count
}

/// The number of an atom's node.
#[tactic(auto, using(crate::proofs::NodeGraphs::number_is, crate::proofs::NodeGraphs::numbers_length))]
pub fn node_at(needs: &[bool], numbers: &[u32], k: u32) -> u32
    requires below { k < length needs.now }
    requires numbers { numbers.now ≡ numbers_from 0 needs.now }
    ensures node { result ≡ node_of needs.now k }
    ensures in_range { marked needs.now k ≡ true → result < count (length needs.now) (marked needs.now) }
{
    let _atoms = needs.len();
    numbers[k as usize]
}

/// Whether both ends of a bond need a double bond.
#[tactic(auto, using(crate::proofs::NodeGraphs::needing_ends))]
pub fn is_edge(needs: &[bool], bond: Bond) -> bool
    requires first { bond.first.0 < length needs.now }
    requires second { bond.second.0 < length needs.now }
    ensures is { result ≡ is_edge needs.now bond }
    ensures ends { result ≡ true → Needing needs.now bond }
{
    needs[bond.first.0 as usize] && needs[bond.second.0 as usize]
}

/// The graph of the needing atoms along candidates.
pub fn need_graph(
    alloc: Global,
    needs: &[bool],
    numbers: &[u32],
    candidates: &[Bond],
) -> Result<Graph, NoMemory>
    requires few { length needs.now ≤ ATOM_LIMIT }
    requires numbers { numbers.now ≡ numbers_from 0 needs.now }
    requires apart { AreApart (length needs.now) candidates.now }
    requires in_range { AreInRange (length needs.now) candidates.now }
    ensures { IfOk result (IsNeedGraph needs.now candidates.now) }
{
    let mut graph = Graph::new(alloc, needing(needs))?;
    for bond in candidates {
        if is_edge(needs, *bond) {
            let first = node_at(needs, numbers, bond.first.0);
            let second = node_at(needs, numbers, bond.second.0);
            graph.add_edge(first, second)?;
        }
    }
    let _nodes = graph.node_count();
    Ok(graph)
}
