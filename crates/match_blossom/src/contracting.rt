ghost use Rattle.std.specs.Prelude.{◌≡◌, ◌≢◌, ℕ, ◌+◌, ◌<◌, ◌≤◌, ◌-◌, ◌^◌, ◌++◌, cond, List, length, get_or, drop, take, reverse, true, false};
ghost use Rattle.std.specs.List.{All};
ghost use Rattle.match_barrier.specs.Graph.{has, adjacent};
ghost use Rattle.match_blossom.specs.Labels.{at, is_outer, is_inner};
ghost use Rattle.match_blossom.specs.Foldings.{Touch, part_of};
ghost use Rattle.match_blossom.specs.Forest.{IsAbsorbed, IsForest, IsStep, TreeClimb, TreeClimbs, stacked, base_in, StandsIn};
ghost use Rattle.match_blossom.specs.Shortened.{IsShortened};
ghost use Rattle.match_blossom.specs.declared.tree.Label.TheVariants.{Outside};

use crate::tree::{AlternatingTree, Label, is_inner};
use match_barrier::Graph;

/// Contracts the cycle that an edge between the outer blossoms of u and v closes.
pub(crate) fn contract(graph: &Graph, mates: &[u32], tree: &mut AlternatingTree, u: u32, v: u32)
    requires forest { IsForest graph.now mates.now tree.old }
    requires edge { adjacent graph.now u v ≡ true }
    requires first_outer { is_outer tree.old.labels.items (base_in tree.old u) ≡ true }
    requires second_outer { is_outer tree.old.labels.items (base_in tree.old v) ≡ true }
    requires different { base_in tree.old u ≢ base_in tree.old v }
    ensures { IsStep graph.now mates.now tree.old tree.new u v }
{
    let _nodes = graph.node_count();
    let a = tree.blossoms.base_of(u);
    let b = tree.blossoms.base_of(v);
    let base = meeting_base(graph, mates, tree, a, b);
    let bottom = tree.cycles.top;
    let middle = push_way(graph, mates, tree, bottom, b, base);
    tree.cycles.turn_round(middle, bottom);
    let top = push_way(graph, mates, tree, middle, a, base);
    absorb(tree, base, top);
}

// The base of a blossom: where the ways from two outer nodes to the root meet.
fn meeting_base(graph: &Graph, mates: &[u32], tree: &mut AlternatingTree, a: u32, b: u32) -> u32
    requires forest { IsForest graph.now mates.now tree.old }
    requires first_outer { is_outer tree.old.labels.items a ≡ true }
    requires second_outer { is_outer tree.old.labels.items b ≡ true }
    ensures ways { (first : List ℕ) × (second : List ℕ) × TreeClimbs mates.now tree.new a b result result first second }
    ensures forest { IsForest graph.now mates.now tree.new }
    ensures shortened { IsShortened tree.old tree.new }
{
    let _nodes = graph.node_count();
    let mut x = a;
    let mut y = b;
    while x != y {
        if tree.blossoms.order_of(x) > tree.blossoms.order_of(y) {
            x = tree.climb(mates, x);
        } else {
            y = tree.climb(mates, y);
        }
    }
    x
}

// Writes the nodes of a way up, from an outer node to the base but without it, before a place of the stack of cycles,
// and answers the place of the last.
fn push_way(
    graph: &Graph,
    mates: &[u32],
    tree: &mut AlternatingTree,
    bottom: usize,
    from: u32,
    base: u32,
) -> usize
    requires forest { IsForest graph.now mates.now tree.old }
    requires bottom { bottom ≤ tree.old.cycles.top }
    requires way { (way : List ℕ) × TreeClimb mates.now tree.old from way base × (length way ≤ bottom) }
    ensures way { (way : List ℕ) × TreeClimb mates.now tree.old from way base × (drop result tree.new.cycles.nodes.items ≡ reverse way ++ drop bottom tree.old.cycles.nodes.items) × (result + length way ≡ bottom) }
    ensures length { length tree.new.cycles.nodes.items ≡ length tree.old.cycles.nodes.items }
    ensures rest { tree.new ≡ record tree.old { cycles = record tree.old.cycles { nodes = tree.new.cycles.nodes } } }
{
    let _nodes = graph.node_count();
    let mut top = bottom;
    let mut x = from;
    while x != base {
        let w = mates[x as usize];
        tree.cycles.nodes[top - 1] = x;
        tree.cycles.nodes[top - 2] = w;
        top -= 2;
        x = tree.above(mates, x);
    }
    top
}

// Makes the nodes on the stack from a place on part of the blossom of a base: they lose their labels, and those that were
// inner come into the queue.
fn absorb(tree: &mut AlternatingTree, base: u32, from: usize)
    requires from { 0 < from }
    requires below { from ≤ tree.old.cycles.top }
    requires top { tree.old.cycles.top ≤ length tree.old.cycles.nodes.items }
    requires few { tree.old.cycles.top + 1 < 2 ^ 32 + from }
    requires height { 0 < tree.old.cycles.height }
    requires height_below { tree.old.cycles.height ≤ length tree.old.cycles.sizes.items }
    requires queue { tree.old.queued + (tree.old.cycles.top - from) ≤ length tree.old.queue.items }
    requires nodes { All (λ v. (v < length tree.old.labels.items) × (v < length tree.old.blossoms.base.items) × (v < length tree.old.blossoms.cycle_base.items)) (take (tree.old.cycles.top - from) (drop from tree.old.cycles.nodes.items)) }
    ensures { IsAbsorbed tree.old tree.new base from (take (tree.old.cycles.top - from) (drop from tree.old.cycles.nodes.items)) }
{
    let others = &tree.cycles.nodes.as_slice()[from..tree.cycles.top];
    let size = others.len();
    point_to(tree.blossoms.base.as_mut_slice(), others, base);
    point_to(tree.blossoms.cycle_base.as_mut_slice(), others, base);
    tree.queued = queue_inner(
        tree.labels.as_slice(),
        others,
        tree.queue.as_mut_slice(),
        tree.queued,
    );
    clear_labels(tree.labels.as_mut_slice(), others);
    tree.cycles.nodes[from - 1] = base;
    tree.cycles.top = from - 1;
    tree.cycles.height -= 1;
    tree.cycles.sizes[tree.cycles.height] = size as u32 + 1;
}

// The nodes point to a base.
fn point_to(pointers: &mut [u32], nodes: &[u32], base: u32)
    requires { All (λ v. v < length pointers.old) nodes.now }
    ensures pointers { (u : ℕ) → get_or pointers.new u 0 ≡ cond (has nodes.now u) base (get_or pointers.old u 0) }
    ensures length { length pointers.new ≡ length pointers.old }
{
    for v in nodes {
        pointers[*v as usize] = base;
    }
}

// Puts those of the nodes that are inner behind the queue, and answers its new length.
fn queue_inner(labels: &[Label], nodes: &[u32], queue: &mut [u32], queued: usize) -> usize
    requires nodes { All (λ v. v < length labels.now) nodes.now }
    requires room { queued + length nodes.now ≤ length queue.old }
    ensures length { length queue.new ≡ length queue.old }
    ensures kept { (k : ℕ) → k < queued → get_or queue.new k 0 ≡ get_or queue.old k 0 }
    ensures low { queued ≤ result }
    ensures high { result ≤ queued + length nodes.now }
    ensures new { (k : ℕ) → queued ≤ k → k < result → (has nodes.now (get_or queue.new k 0) ≡ true) × (is_inner labels.now (get_or queue.new k 0) ≡ true) }
    ensures each { (u : ℕ) → has nodes.now u ≡ true → is_inner labels.now u ≡ true → StandsIn queue.new queued result u }
{
    let mut end = queued;
    for v in nodes {
        if is_inner(labels, *v) {
            queue[end] = *v;
            end += 1;
        }
    }
    end
}

// Takes the labels of the nodes away.
fn clear_labels(labels: &mut [Label], nodes: &[u32])
    requires { All (λ v. v < length labels.old) nodes.now }
    ensures cleared { (v : ℕ) → get_or labels.new v Outside ≡ cond (has nodes.now v) Outside (get_or labels.old v Outside) }
    ensures length { length labels.new ≡ length labels.old }
{
    for v in nodes {
        labels[*v as usize] = Label::Outside;
    }
}
