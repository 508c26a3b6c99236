ghost use Rattle.std.specs.Prelude.{◌≡◌, ◌↔◌, ℕ, ◌+◌, ◌<◌, ◌≤◌, ◌^◌, [], length, get_or, take, IfOk, IfSome, IfNone};
ghost use Rattle.match_barrier.specs.Matching.{IsPerfect};
ghost use Rattle.match_blossom.specs.Labels.{is_inner};
ghost use Rattle.match_blossom.specs.Foldings.{IsMatchingBut, Augmented};
ghost use Rattle.match_blossom.specs.Forest.{IsClean};
ghost use Rattle.match_blossom.specs.Ends.{AreOwn};
ghost use Rattle.match_blossom.specs.Inner.{ListsInner};
ghost use Rattle.match_blossom.specs.Answer.{IsAnswer, IsBarrierSet, HasNoPerfect, SaysBarrier};

use crate::greedy::match_greedily;
use crate::known::KnownEdges;
use crate::search::search;
use crate::tree::{AlternatingTree, Label, is_inner};
use match_barrier::Graph;
use mc_base::NoMemory;
use std::alloc::Global;
use std::marker::Model;

/// The answer for a graph.
pub enum Matched<'a> {
    /// For each node its mate.
    Perfect(&'a [u32]),
    /// A set of nodes without which the graph falls into more odd parts than the set has nodes.
    Barrier(&'a [u32]),
}

/// Room for matchings, seen as the greatest number of nodes. It is taken once, and serves for each graph.
#[derive(Drop)]
pub struct Matcher {
    mates: Vec<u32>,
    set: Vec<u32>,
    tree: AlternatingTree,
    known: KnownEdges,
}

impl Model for Matcher {
    ghost use Rattle.std.specs.Prelude.{ℕ, length, ◌≡◌};
    ghost use Rattle.match_blossom.specs.Forest.{IsClean};
    ghost use Rattle.match_blossom.specs.Ends.{AreOwn};

    ghost Value = { ℕ };

    ghost view = { λ m. length m.mates.items };

    ghost invariant = { λ m. (length m.set.items ≡ length m.mates.items) × IsClean (length m.mates.items) m.tree × AreOwn (length m.mates.items) m.known.ends.node.items m.known.ends.below.items };
}

impl Matcher {
    ghost use Rattle.std.specs.Borrow.{sem};
    ghost use Rattle.match_blossom.specs.Lending.{KeepsRoom};

    /// Room for graphs of at most so many nodes and edges. For edges none is needed.
    pub fn reserve(alloc: Global, nodes: u32, _edges: u32) -> Result<Matcher, NoMemory>
        ensures { IfOk result (λ room. room ≡ nodes) }
    {
        let mates = vec![in alloc; 0u32; nodes as usize]?;
        let set = vec![in alloc; 0u32; nodes as usize]?;
        let tree = AlternatingTree::reserve(alloc, nodes)?;
        let known = KnownEdges::reserve(alloc, nodes)?;
        Ok(Matcher {
            mates,
            set,
            tree,
            known,
        })
    }

    /// A perfect matching, or a barrier exactly where there is none. Takes no memory, and leaves the room as it was.
    pub fn solve(&mut self, graph: &Graph) -> Matched<'_>
        requires { length graph.now ≤ self.old }
        ensures* room { sem 𝓛 (KeepsRoom self.entry) }
        ensures answer { IsAnswer graph.now result }
        ensures barrier { SaysBarrier result ↔ HasNoPerfect graph.now }
    {
        let nodes = graph.node_count() as usize;
        match solve_within(
            graph,
            self.mates.as_mut_slice(),
            &mut self.tree,
            &mut self.known,
            self.set.as_mut_slice(),
        ) {
            None => Matched::Perfect(&self.mates.as_slice()[..nodes]),
            Some(size) => Matched::Barrier(&self.set.as_slice()[..size]),
        }
    }
}

// None where there is a perfect matching, which is written; else the size of a barrier, which is written.
fn solve_within(
    graph: &Graph,
    mates: &mut [u32],
    tree: &mut AlternatingTree,
    known: &mut KnownEdges,
    set: &mut [u32],
) -> Option<usize>
    requires mates { length graph.now ≤ length mates.old }
    requires set { length set.old ≡ length mates.old }
    requires clean { IsClean (length mates.old) tree.old }
    requires own { AreOwn (length mates.old) known.old.ends.node.items known.old.ends.below.items }
    ensures none { IfNone result (IsPerfect graph.now (take (length graph.now) mates.new)) }
    ensures some { IfSome result (λ size. (size ≤ length set.new) × IsBarrierSet graph.now (take size set.new) × HasNoPerfect graph.now) }
    ensures mates_length { length mates.new ≡ length mates.old }
    ensures set_length { length set.new ≡ length set.old }
    ensures clean { IsClean (length mates.old) tree.new }
    ensures own { AreOwn (length mates.old) known.new.ends.node.items known.new.ends.below.items }
{
    let nodes = graph.node_count();
    solve_in(graph, &mut mates[..nodes as usize], tree, known, set)
}

// The same where there is a mate for each node.
fn solve_in(
    graph: &Graph,
    mates: &mut [u32],
    tree: &mut AlternatingTree,
    known: &mut KnownEdges,
    set: &mut [u32],
) -> Option<usize>
    requires mates { length mates.old ≡ length graph.now }
    requires room { length graph.now ≤ length set.old }
    requires clean { IsClean (length set.old) tree.old }
    requires own { AreOwn (length set.old) known.old.ends.node.items known.old.ends.below.items }
    ensures none { IfNone result (IsPerfect graph.now mates.new) }
    ensures some { IfSome result (λ size. (size ≤ length set.new) × IsBarrierSet graph.now (take size set.new) × HasNoPerfect graph.now) }
    ensures mates_length { length mates.new ≡ length mates.old }
    ensures set_length { length set.new ≡ length set.old }
    ensures clean { IsClean (length set.old) tree.new }
    ensures own { AreOwn (length set.old) known.new.ends.node.items known.new.ends.below.items }
{
    match_greedily(graph, mates);
    let nodes = graph.node_count();
    for root in 0..nodes {
        if mates[root as usize] == nodes {
            if let Some(size) = mate_root(graph, mates, tree, known, set, root) {
                return Some(size);
            }
        }
    }
    None
}

// Searches from a free node: mates it, or writes a barrier and answers its size.
fn mate_root(
    graph: &Graph,
    mates: &mut [u32],
    tree: &mut AlternatingTree,
    known: &mut KnownEdges,
    set: &mut [u32],
    root: u32,
) -> Option<usize>
    requires matching { IsMatchingBut graph.now (λ u. u) mates.old [] }
    requires root { root < length graph.now }
    requires free { get_or mates.old root 0 ≡ length graph.now }
    requires room { length graph.now ≤ length set.old }
    requires clean { IsClean (length set.old) tree.old }
    requires own { AreOwn (length set.old) known.old.ends.node.items known.old.ends.below.items }
    ensures none { IfNone result (Augmented graph.now mates.old mates.new root) }
    ensures some { IfSome result (λ size. (size ≤ length set.new) × IsBarrierSet graph.now (take size set.new)) }
    ensures set_length { length set.new ≡ length set.old }
    ensures clean { IsClean (length set.old) tree.new }
    ensures own { AreOwn (length set.old) known.new.ends.node.items known.new.ends.below.items }
{
    tree.begin(graph, mates, root);
    known.begin();
    if search(graph, mates, tree, known) {
        tree.clear();
        return None;
    }
    let nodes = graph.node_count() as usize;
    let size = collect_inner(&tree.labels.as_slice()[..nodes], set);
    tree.clear();
    Some(size)
}

// Writes the inner nodes in increasing order, and answers their number.
fn collect_inner(labels: &[Label], set: &mut [u32]) -> usize
    requires few { length labels.now < 2 ^ 32 }
    requires room { length labels.now ≤ length set.old }
    ensures lists { ListsInner labels.now (length labels.now) (take result set.new) }
    ensures size { result ≤ length set.new }
    ensures length { length set.new ≡ length set.old }
{
    let mut size = 0;
    for v in 0..labels.len() as u32 {
        if is_inner(labels, v) {
            set[size] = v;
            size += 1;
        }
    }
    size
}
