ghost use Rattle.std.specs.Prelude.{◌≡◌, ℕ, ◌<◌, ◌≤◌, length, IfOk, IfSome, IfNone};
ghost use Rattle.std.specs.List.{All};
ghost use Rattle.match_barrier.specs.Graph.{NoRepeats};
ghost use Rattle.match_barrier.specs.Barrier.{OddParts, IsBarrier};

use crate::Graph;
use crate::flood::{begin, count_odd, flood};
use mc_base::NoMemory;
use std::alloc::Global;
use std::marker::Model;

/// Room for `is_barrier`, seen as the greatest number of nodes.
#[derive(Drop)]
pub struct Scratch {
    labels: Vec<u32>,
    stack: Vec<u32>,
    odd: Vec<bool>,
}

impl Model for Scratch {
    ghost use Rattle.std.specs.Prelude.{ℕ, length, ◌≡◌};

    ghost Value = { ℕ };

    ghost view = { λ s. length s.labels.items };

    ghost invariant = { λ s. (length s.stack.items ≡ length s.labels.items) × (length s.odd.items ≡ length s.labels.items) };
}

impl Scratch {
    /// Room for graphs of at most so many nodes.
    pub fn reserve(alloc: Global, nodes: u32) -> Result<Scratch, NoMemory>
        ensures { IfOk result (λ room. room ≡ nodes) }
    {
        let labels = vec![in alloc; 0u32; nodes as usize]?;
        let stack = vec![in alloc; 0u32; nodes as usize]?;
        let odd = vec![in alloc; false; nodes as usize]?;
        Ok(Scratch { labels, stack, odd })
    }
}

/// The number of odd parts that the graph falls into without the nodes of the set, where it is above the size of the
/// set; else None. Takes time linear in nodes and edges.
pub fn is_barrier(graph: &Graph, set: &[u32], scratch: &mut Scratch) -> Option<u32>
    requires different { NoRepeats set.now }
    requires in_range { All (λ v. v < length graph.now) set.now }
    requires room { length graph.now ≤ scratch.old }
    ensures some { IfSome result (λ odd. IsBarrier graph.now set.now odd) }
    ensures none { IfNone result ((odd : ℕ) → IsBarrier graph.now set.now odd → ⊥) }
    ensures room { scratch.new ≡ scratch.old }
{
    let odd = odd_parts_within(
        graph,
        set,
        scratch.labels.as_mut_slice(),
        scratch.stack.as_mut_slice(),
        scratch.odd.as_mut_slice(),
    );
    if odd as usize > set.len() {
        Some(odd)
    } else {
        None
    }
}

// The number of odd parts, with room for more nodes.
fn odd_parts_within(
    graph: &Graph,
    set: &[u32],
    labels: &mut [u32],
    stack: &mut [u32],
    odd: &mut [bool],
) -> u32
    requires in_range { All (λ v. v < length graph.now) set.now }
    requires labels { length graph.now ≤ length labels.old }
    requires stack { length graph.now ≤ length stack.old }
    requires odd { length graph.now ≤ length odd.old }
    ensures odd { OddParts graph.now set.now result }
    ensures labels_length { length labels.new ≡ length labels.old }
    ensures stack_length { length stack.new ≡ length stack.old }
    ensures odd_length { length odd.new ≡ length odd.old }
{
    let nodes = graph.node_count() as usize;
    odd_parts(
        graph,
        set,
        &mut labels[..nodes],
        &mut stack[..nodes],
        &mut odd[..nodes],
    )
}

// The number of odd parts of the graph without the set.
fn odd_parts(
    graph: &Graph,
    set: &[u32],
    labels: &mut [u32],
    stack: &mut [u32],
    odd: &mut [bool],
) -> u32
    requires in_range { All (λ v. v < length graph.now) set.now }
    requires labels { length labels.old ≡ length graph.now }
    requires stack { length stack.old ≡ length graph.now }
    requires odd { length odd.old ≡ length graph.now }
    ensures odd { OddParts graph.now set.now result }
    ensures labels_length { length labels.new ≡ length labels.old }
    ensures stack_length { length stack.new ≡ length stack.old }
    ensures odd_length { length odd.new ≡ length odd.old }
{
    let _nodes = graph.node_count();
    begin(graph, set, labels);
    flood(graph, labels, stack);
    count_odd(labels, odd)
}
