ghost use Rattle.std.specs.Prelude.{◌≡◌, ◌≢◌, ℕ, ◌+◌, ◌<◌, ◌≤◌, ◌^◌, List, length, get_or, [], IfOk, true, false};
ghost use Rattle.match_barrier.specs.Graph.{IsGraph, adjacent};
ghost use Rattle.match_blossom.specs.Labels.{at, is_outer, is_inner};
ghost use Rattle.match_blossom.specs.Foldings.{IsMatchingBut};
ghost use Rattle.match_blossom.specs.Pointers.{Falls, Points};
ghost use Rattle.match_blossom.specs.Shortened.{IsShortened};
ghost use Rattle.match_blossom.specs.Forest.{IsForest, IsStep, IsClean, IsScanned, IsTouched, KeepsLengths, StandsIn, base_in};
ghost use Rattle.match_blossom.specs.declared.tree.Label.TheVariants.{Outside};

use crate::blossoms::Blossoms;
use crate::cycles::Cycles;
use match_barrier::Graph;
use mc_base::NoMemory;
use std::alloc::Global;

/// What a node is in the alternating tree.
#[derive(Clone, Copy, PartialEq, Eq)]
pub(crate) enum Label {
    Outside,
    Outer,
    Inner,
}

/// The alternating tree of a search from a free node, in the graph whose blossoms are contracted to their bases. The
/// touched nodes are those that have got a label, and the queue has those of outer blossoms, whose edges are to be
/// looked at.
#[derive(Drop)]
pub(crate) struct AlternatingTree {
    pub(crate) root: u32,
    pub(crate) now: u32,
    pub(crate) labels: Vec<Label>,
    pub(crate) parent: Vec<u32>,
    pub(crate) touched: Vec<u32>,
    pub(crate) queue: Vec<u32>,
    pub(crate) queued: usize,
    pub(crate) blossoms: Blossoms,
    pub(crate) cycles: Cycles,
}

impl AlternatingTree {
    /// Room for graphs of at most so many nodes.
    pub(crate) fn reserve(alloc: Global, nodes: u32) -> Result<AlternatingTree, NoMemory>
        ensures { IfOk result (λ tree. IsClean nodes tree) }
    {
        let base = own_bases(alloc, nodes)?;
        let cycle_base = own_bases(alloc, nodes)?;
        let nodes = nodes as usize;
        let order = vec![in alloc; 0u32; nodes]?;
        let cycles = Cycles {
            nodes: vec![in alloc; 0u32; 2 * nodes]?,
            top: 2 * nodes,
            sizes: vec![in alloc; 0u32; nodes]?,
            height: nodes,
        };
        Ok(AlternatingTree {
            root: 0,
            now: 0,
            labels: vec![in alloc; Label::Outside; nodes]?,
            parent: vec![in alloc; 0u32; nodes]?,
            touched: vec![in alloc; 0u32; nodes]?,
            queue: vec![in alloc; 0u32; 2 * nodes]?,
            queued: 0,
            blossoms: Blossoms {
                base,
                cycle_base,
                order,
            },
            cycles,
        })
    }

    /// The tree of a root alone, with no blossom.
    pub(crate) fn begin(&mut self, graph: &Graph, mates: &[u32], root: u32)
        requires matching { IsMatchingBut graph.now (λ u. u) mates.now [] }
        requires below { root < length graph.now }
        requires free { get_or mates.now root 0 ≡ length graph.now }
        requires clean { IsClean (length self.old.labels.items) self.old }
        requires room { length graph.now ≤ length self.old.labels.items }
        ensures forest { IsForest graph.now mates.now self.new }
        ensures root { self.new.root ≡ root }
        ensures lengths { KeepsLengths self.old self.new }
    {
        let _nodes = graph.node_count();
        self.root = root;
        self.labels[root as usize] = Label::Outer;
        self.blossoms.order[root as usize] = 0;
        self.touched[0] = root;
        self.now = 1;
        self.queue[0] = root;
        self.queued = 1;
    }

    /// The outer node above another in the tree: the base of the blossom of its mate's parent.
    pub(crate) fn above(&self, mates: &[u32], x: u32) -> u32
        requires falls { Falls self.now.blossoms.base.items self.now.blossoms.order.items }
        requires node { x < length mates.now }
        requires mate { get_or mates.now x 0 < length self.now.parent.items }
        requires parent { at self.now.parent.items (get_or mates.now x 0) < length self.now.blossoms.base.items }
        ensures { (part : ℕ → ℕ) → Points self.entry.now.blossoms.base.items part → result ≡ part (at self.entry.now.parent.items (get_or mates.now x 0)) }
    {
        let w = mates[x as usize];
        self.blossoms.base_of(self.parent[w as usize])
    }

    /// The same, while the way to that base is made half as long.
    pub(crate) fn climb(&mut self, mates: &[u32], x: u32) -> u32
        requires falls { Falls self.old.blossoms.base.items self.old.blossoms.order.items }
        requires node { x < length mates.now }
        requires mate { get_or mates.now x 0 < length self.old.parent.items }
        requires parent { at self.old.parent.items (get_or mates.now x 0) < length self.old.blossoms.base.items }
        ensures above { (part : ℕ → ℕ) → Points self.old.blossoms.base.items part → result ≡ part (at self.old.parent.items (get_or mates.now x 0)) }
        ensures shortened { IsShortened self.old self.new }
    {
        let w = mates[x as usize];
        self.blossoms.shorten(self.parent[w as usize]);
        self.above(mates, x)
    }

    /// Makes v inner, with u as its parent, and its mate outer.
    pub(crate) fn grow(&mut self, graph: &Graph, mates: &[u32], u: u32, v: u32)
        requires forest { IsForest graph.now mates.now self.old }
        requires edge { adjacent graph.now u v ≡ true }
        requires from_outer { is_outer self.old.labels.items (base_in self.old u) ≡ true }
        requires no_outer { is_outer self.old.labels.items (base_in self.old v) ≡ false }
        requires no_inner { is_inner self.old.labels.items (base_in self.old v) ≡ false }
        requires matched { get_or mates.now v 0 < length graph.now }
        ensures { IsStep graph.now mates.now self.old self.new u v }
    {
        let _nodes = graph.node_count();
        let w = mates[v as usize];
        self.labels[v as usize] = Label::Inner;
        self.labels[w as usize] = Label::Outer;
        self.parent[v as usize] = u;
        self.blossoms.order[v as usize] = self.now;
        self.blossoms.order[w as usize] = self.now + 1;
        self.touched[self.now as usize] = v;
        self.touched[self.now as usize + 1] = w;
        self.now += 2;
        self.queue[self.queued] = w;
        self.queued += 1;
    }

    /// Takes the tree away. Only what was touched is written.
    pub(crate) fn clear(&mut self)
        requires touched { IsTouched self.old.labels.items self.old.blossoms.base.items self.old.touched.items self.old.now }
        requires cycle_touched { IsTouched self.old.labels.items self.old.blossoms.cycle_base.items self.old.touched.items self.old.now }
        requires room { self.old.now ≤ length self.old.touched.items }
        ensures lengths { KeepsLengths self.old self.new }
        ensures labels { (u : ℕ) → get_or self.new.labels.items u Outside ≡ Outside }
        ensures base { (u : ℕ) → u < length self.old.blossoms.base.items → at self.new.blossoms.base.items u ≡ u }
        ensures cycle_base { (u : ℕ) → u < length self.old.blossoms.cycle_base.items → at self.new.blossoms.cycle_base.items u ≡ u }
        ensures top { self.new.cycles.top ≡ length self.old.cycles.nodes.items }
        ensures height { self.new.cycles.height ≡ length self.old.cycles.sizes.items }
    {
        for k in 0..self.now {
            let v = self.touched[k as usize];
            self.labels[v as usize] = Label::Outside;
            self.blossoms.base[v as usize] = v;
            self.blossoms.cycle_base[v as usize] = v;
        }
        self.cycles.top = self.cycles.nodes.len();
        self.cycles.height = self.cycles.sizes.len();
    }
}

/// Each node is its own base.
pub(crate) fn own_bases(alloc: Global, nodes: u32) -> Result<Vec<u32>, NoMemory>
    ensures { IfOk result (λ base. (length base.items ≡ nodes) × ((v : ℕ) → v < nodes → at base.items v ≡ v)) }
{
    let mut base = Vec::new(alloc);
    for v in 0..nodes {
        base.push(v)?;
    }
    Ok(base)
}

/// Whether a node is inner.
pub(crate) fn is_inner(labels: &[Label], v: u32) -> bool
    requires { v < length labels.now }
    ensures { result ≡ is_inner labels.now v }
{
    labels[v as usize] == Label::Inner
}
