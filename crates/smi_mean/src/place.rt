//! Where double bonds are placed, or why nowhere.

ghost use Rattle.std.specs.Prelude.{◌≡◌, ◌<◌, ◌≤◌, length, map, IfOk};
ghost use Rattle.mc_mol.specs.declared.limits.TheConstants.{ATOM_LIMIT};
ghost use Rattle.match_barrier.specs.Barrier.{count, IsBarrier};
ghost use Rattle.match_blossom.specs.Answer.{IsBarrierSet, HasNoPerfect};
ghost use Rattle.smi_graph.specs.Candidates.{marked};
ghost use Rattle.smi_graph.specs.Links.{bond_of};
ghost use Rattle.smi_graph.specs.Skeletons.{TextGraph, IsTextGraph};
ghost use Rattle.smi_mean.specs.Barriers.{needs_of, marked_bonds};
ghost use Rattle.smi_mean.specs.NeedGraphs.{numbers_from, IsNeedGraph};
ghost use Rattle.smi_mean.specs.Meant.{IsPlacing};

use crate::mating::{chosen, mated};
use crate::need_graph::{candidate_bonds, need_graph, node_numbers};
use match_barrier::{Graph, Scratch, is_barrier};
use match_blossom::{Matched, Matcher};
use mc_base::{AtomList, NoMemory};
use mc_mol::Bond;
use smi_graph::Skeleton;
use std::alloc::Global;

/// Where the double bonds of a skeleton are placed.
#[derive(Drop)]
pub enum Placing {
    /// of each bond whether it is double
    Placed(Vec<bool>),
    /// nowhere: a barrier, and its number of odd parts
    Barred(AtomList, u32),
}

/// The number of odd parts that a barrier leaves.
fn odd_parts(alloc: Global, graph: &Graph, set: &[u32]) -> Result<u32, NoMemory>
    requires { IsBarrierSet graph.now set.now }
    ensures { IfOk result (IsBarrier graph.now set.now) }
{
    let mut scratch = Scratch::reserve(alloc, graph.node_count())?;
    match is_barrier(graph, set, &mut scratch) {
        Some(odd) => Ok(odd),
        None => unreachable!(),
    }
}

/// The barrier of the atoms for one of the graph's nodes.
fn barred(
    alloc: Global,
    needs: &[bool],
    numbers: &[u32],
    graph: &Graph,
    set: &[u32],
) -> Result<Placing, NoMemory>
    requires few { length needs.now ≤ ATOM_LIMIT }
    requires numbers { numbers.now ≡ numbers_from 0 needs.now }
    requires nodes { length graph.now ≡ count (length needs.now) (marked needs.now) }
    requires barrier { IsBarrierSet graph.now set.now }
    requires none { HasNoPerfect graph.now }
    ensures { (skeleton : TextGraph) → IsTextGraph skeleton → needs.now ≡ needs_of skeleton.atoms skeleton.bonds
        → IsNeedGraph needs.now (marked_bonds skeleton.candidates skeleton.bonds) graph.now → IfOk result (IsPlacing skeleton) }
{
    let odd = odd_parts(alloc, graph, set)?;
    let atoms = chosen(alloc, needs, numbers, graph.node_count(), set)?;
    Ok(Placing::Barred(atoms, odd))
}

/// A placement of the double bonds of a skeleton, or a barrier where there is none.
pub fn place(
    alloc: Global,
    skeleton: &Skeleton,
    needs: &[bool],
    bonds: &[Bond],
) -> Result<Placing, NoMemory>
    requires needs { needs.now ≡ needs_of skeleton.now.atoms skeleton.now.bonds }
    requires bonds { bonds.now ≡ map bond_of skeleton.now.bonds }
    ensures { IfOk result (IsPlacing skeleton.now) }
{
    let _limits = skeleton.bonds();
    let numbers = node_numbers(alloc, needs)?;
    let candidates = candidate_bonds(alloc, skeleton, bonds)?;
    let graph = need_graph(alloc, needs, &numbers, &candidates)?;
    let mut matcher = Matcher::reserve(alloc, graph.node_count(), 0)?;
    match matcher.solve(&graph) {
        Matched::Perfect(mates) => {
            let placed = mated(alloc, skeleton, needs, &numbers, mates, bonds)?;
            Ok(Placing::Placed(placed))
        }
        Matched::Barrier(set) => barred(alloc, needs, &numbers, &graph, set),
    }
}
