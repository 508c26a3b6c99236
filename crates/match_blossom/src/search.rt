ghost use Rattle.std.specs.Prelude.{◌≡◌, ◌<◌, ◌≤◌, ◌+◌, ℕ, length, get_or, true, false};
ghost use Rattle.std.specs.Bool.{MatchBool};
ghost use Rattle.match_barrier.specs.Graph.{adjacent};
ghost use Rattle.match_blossom.specs.Labels.{at, is_outer, is_inner};
ghost use Rattle.match_blossom.specs.Ends.{AreOwn};
ghost use Rattle.match_blossom.specs.Forest.{IsForest, IsStep, IsScanned, IsSettled, IsTouched, KeepsLengths, GoesOn, HasAugmented, base_in};

use crate::augmenting::augment;
use crate::contracting::contract;
use crate::known::KnownEdges;
use crate::tree::{AlternatingTree, Label};
use match_barrier::Graph;

/// Whether the root of a tree could be mated. Where not, no edge leads out of an outer blossom but to an inner node.
pub(crate) fn search(
    graph: &Graph,
    mates: &mut [u32],
    tree: &mut AlternatingTree,
    known: &mut KnownEdges,
) -> bool
    requires forest { IsForest graph.now mates.old tree.old }
    requires own { AreOwn (length tree.old.blossoms.cycle_base.items) known.old.ends.node.items known.old.ends.below.items }
    ensures own { AreOwn (length tree.new.blossoms.cycle_base.items) known.new.ends.node.items known.new.ends.below.items }
    ensures found { MatchBool result (HasAugmented graph.now mates.old mates.new tree.old tree.new) ((mates.new ≡ mates.old) × IsForest graph.now mates.new tree.new × IsScanned graph.now tree.new tree.new.queued × KeepsLengths tree.old tree.new) }
{
    let mut head = 0;
    while head < tree.queued {
        if scan(graph, mates, tree, known, head) {
            return true;
        }
        head += 1;
    }
    false
}

// Looks at the edges of a node of the queue. Answers whether the root has been mated.
fn scan(
    graph: &Graph,
    mates: &mut [u32],
    tree: &mut AlternatingTree,
    known: &mut KnownEdges,
    head: usize,
) -> bool
    requires forest { IsForest graph.now mates.old tree.old }
    requires own { AreOwn (length tree.old.blossoms.cycle_base.items) known.old.ends.node.items known.old.ends.below.items }
    requires head { head < tree.old.queued }
    requires scanned { IsScanned graph.now tree.old head }
    ensures own { AreOwn (length tree.new.blossoms.cycle_base.items) known.new.ends.node.items known.new.ends.below.items }
    ensures step { MatchBool result (HasAugmented graph.now mates.old mates.new tree.old tree.new) ((mates.new ≡ mates.old) × IsForest graph.now mates.new tree.new × IsScanned graph.now tree.new (head + 1) × GoesOn graph.now tree.old tree.new) }
{
    let _nodes = graph.node_count();
    let u = tree.queue[head];
    for v in graph.neighbours(u) {
        if step(graph, mates, tree, known, u, *v) {
            return true;
        }
    }
    false
}

// Looks at an edge from a node of an outer blossom. Answers whether the root has been mated.
fn step(
    graph: &Graph,
    mates: &mut [u32],
    tree: &mut AlternatingTree,
    known: &mut KnownEdges,
    u: u32,
    v: u32,
) -> bool
    requires forest { IsForest graph.now mates.old tree.old }
    requires own { AreOwn (length tree.old.blossoms.cycle_base.items) known.old.ends.node.items known.old.ends.below.items }
    requires edge { adjacent graph.now u v ≡ true }
    requires outer { is_outer tree.old.labels.items (base_in tree.old u) ≡ true }
    ensures own { AreOwn (length tree.new.blossoms.cycle_base.items) known.new.ends.node.items known.new.ends.below.items }
    ensures step { MatchBool result (HasAugmented graph.now mates.old mates.new tree.old tree.new) ((mates.new ≡ mates.old) × IsStep graph.now mates.new tree.old tree.new u v) }
{
    let _nodes = graph.node_count();
    tree.blossoms.shorten(u);
    tree.blossoms.shorten(v);
    step_along(graph, mates, tree, known, u, v)
}

// The same, where the ways to the bases of both ends are short.
fn step_along(
    graph: &Graph,
    mates: &mut [u32],
    tree: &mut AlternatingTree,
    known: &mut KnownEdges,
    u: u32,
    v: u32,
) -> bool
    requires forest { IsForest graph.now mates.old tree.old }
    requires own { AreOwn (length tree.old.blossoms.cycle_base.items) known.old.ends.node.items known.old.ends.below.items }
    requires edge { adjacent graph.now u v ≡ true }
    requires outer { is_outer tree.old.labels.items (base_in tree.old u) ≡ true }
    ensures own { AreOwn (length tree.new.blossoms.cycle_base.items) known.new.ends.node.items known.new.ends.below.items }
    ensures step { MatchBool result (HasAugmented graph.now mates.old mates.new tree.old tree.new) ((mates.new ≡ mates.old) × IsStep graph.now mates.new tree.old tree.new u v) }
{
    let nodes = graph.node_count();
    let a = tree.blossoms.base_of(u);
    let b = tree.blossoms.base_of(v);
    if a == b {
        return false;
    }
    match tree.labels[b as usize] {
        Label::Inner => false,
        Label::Outer => {
            contract(graph, mates, tree, u, v);
            known.push(u, v);
            false
        }
        Label::Outside => {
            if mates[v as usize] == nodes {
                augment(graph, mates, tree, known, u, v);
                return true;
            }
            tree.grow(graph, mates, u, v);
            false
        }
    }
}
