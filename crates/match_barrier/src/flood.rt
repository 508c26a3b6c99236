ghost use Rattle.std.specs.Prelude.{◌≡◌, ◌⊎◌, ℕ, ◌+◌, ◌<◌, ◌≤◌, ◌^◌, ◌==◌, List, length, get_or, true, false, ◌&&◌};
ghost use Rattle.std.specs.List.{All};
ghost use Rattle.match_barrier.specs.Graph.{IsGraph, has};
ghost use Rattle.match_barrier.specs.Labels.{Labels, IsSettled, Lowers, IsLowered, Flooded, count_above, is_odd_label};
ghost use Rattle.match_barrier.specs.Barrier.{count};

use crate::Graph;

/// Each node is its own label, and those of the set have the number of nodes.
pub(crate) fn begin(graph: &Graph, set: &[u32], labels: &mut [u32])
    requires each_node { length labels.old ≡ length graph.now }
    requires in_range { All (λ v. v < length graph.now) set.now }
    ensures labels { Labels graph.now set.now labels.new }
    ensures flooded { Flooded graph.now labels.new 0 }
{
    let nodes = graph.node_count();
    for v in 0..nodes {
        labels[v as usize] = v;
    }
    for v in set {
        labels[*v as usize] = nodes;
    }
}

/// Gives each node that is left the least node of its part as its label, in time linear in nodes and edges.
pub(crate) fn flood(graph: &Graph, labels: &mut [u32], stack: &mut [u32])
    requires stack_length { length stack.old ≡ length graph.now }
    requires flooded { Flooded graph.now labels.old 0 }
    ensures labels { (set : List ℕ) → Labels graph.now set labels.old → Labels graph.now set labels.new }
    ensures flooded { Flooded graph.now labels.new (length graph.now) }
{
    for root in 0..graph.node_count() {
        if labels[root as usize] == root {
            fill(graph, root, labels, stack);
        }
    }
}

// Gives all of its part the label of a node that is the least of it.
fn fill(graph: &Graph, root: u32, labels: &mut [u32], stack: &mut [u32])
    requires below { root < length graph.now }
    requires stack_length { length stack.old ≡ length graph.now }
    requires flooded { Flooded graph.now labels.old root }
    requires own { get_or labels.old root 0 ≡ root }
    ensures labels { (set : List ℕ) → Labels graph.now set labels.old → Labels graph.now set labels.new }
    ensures flooded { Flooded graph.now labels.new (root + 1) }
    ensures stack_length { length stack.new ≡ length graph.now }
{
    let _nodes = graph.node_count();
    stack[0] = root;
    let mut height = 1;
    while height > 0 {
        let v = stack[height - 1];
        height = lower_neighbours(graph, v, root, labels, stack, height - 1);
    }
}

// Lowers the greater labels of the neighbours of v to root, pushes these nodes, and answers the new height of the stack.
fn lower_neighbours(
    graph: &Graph,
    v: u32,
    root: u32,
    labels: &mut [u32],
    stack: &mut [u32],
    height: usize,
) -> usize
    requires below { v < length graph.now }
    requires each_node { length labels.old ≡ length graph.now }
    requires stack_length { length stack.old ≡ length graph.now }
    requires label { get_or labels.old v 0 ≡ root }
    requires root_below { root < length graph.now }
    requires room { height + count_above (length graph.now) labels.old root ≤ length graph.now }
    ensures lowers { Lowers graph.now root labels.old labels.new stack.old stack.new height result }
    ensures settled { IsSettled graph.now labels.new v }
{
    let nodes = graph.node_count();
    let mut top = height;
    for w in graph.neighbours(v) {
        let label = labels[*w as usize];
        if root < label && label < nodes {
            labels[*w as usize] = root;
            stack[top] = *w;
            top += 1;
        }
    }
    top
}

/// The number of labels that an odd number of nodes have, and that are their own labels.
pub(crate) fn count_odd(labels: &[u32], odd: &mut [bool]) -> u32
    requires same_length { length odd.old ≡ length labels.now }
    requires few { length labels.now < 2 ^ 32 }
    ensures count { result ≡ count (length labels.now) (is_odd_label labels.now) }
    ensures length { length odd.new ≡ length odd.old }
{
    odd.fill(false);
    for label in labels {
        let label = *label as usize;
        if label < odd.len() {
            odd[label] = !odd[label];
        }
    }
    let mut total = 0;
    for r in 0..labels.len() {
        if labels[r] as usize == r && odd[r] {
            total += 1;
        }
    }
    total
}
