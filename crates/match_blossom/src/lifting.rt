ghost use Rattle.std.specs.Prelude.{◌≡◌, ◌≢◌, ◌⊎◌, ℕ, ◌+◌, ◌-◌, ◌<◌, ◌≤◌, cond, List, [], ◌∷◌, length, get_or, drop, take, IfSome, IfNone, true, false};
ghost use Rattle.std.specs.List.{All};
ghost use Rattle.match_barrier.specs.Graph.{adjacent, has};
ghost use Rattle.match_barrier.specs.Barrier.{is_odd};
ghost use Rattle.match_blossom.specs.Labels.{at};
ghost use Rattle.match_blossom.specs.Pointers.{Falls, Points, Leads};
ghost use Rattle.match_blossom.specs.Stack.{Fits};
ghost use Rattle.match_blossom.specs.Foldings.{IsMatchingBut, IsCycle, Touch, Touches, Joins, Unfolds, IsUnfolding, Foldings, folded, part_of, pair_off};
ghost use Rattle.match_blossom.specs.Forest.{stacked, IsLiftable};
ghost use Rattle.match_blossom.specs.Ends.{AreOwn, AreNoted};

use crate::blossoms::Blossoms;
use crate::cycles::Cycles;
use crate::ends::Ends;
use crate::known::{Edge, KnownEdges};
use match_barrier::Graph;

/// Lifts the matching of the contracted graph to the given one: all cycles are expanded, the latest first.
pub(crate) fn lift_all(
    graph: &Graph,
    mates: &mut [u32],
    blossoms: &mut Blossoms,
    cycles: &mut Cycles,
    parent: &[u32],
    known: &mut KnownEdges,
)
    requires noted { AreNoted blossoms.old.cycle_base.items known.old.ends.node.items known.old.ends.below.items }
    requires falls { Falls blossoms.old.cycle_base.items blossoms.old.order.items }
    requires leads { Leads (length blossoms.old.cycle_base.items) (at blossoms.old.cycle_base.items) (stacked cycles.old) }
    requires base_length { length graph.now ≤ length blossoms.old.cycle_base.items }
    requires top { cycles.old.top ≤ length cycles.old.nodes.items }
    requires height { cycles.old.height ≤ length cycles.old.sizes.items }
    requires fits { Fits (drop cycles.old.height cycles.old.sizes.items) (drop cycles.old.top cycles.old.nodes.items) }
    requires folded { Foldings graph.now (stacked cycles.old) }
    requires matching { IsMatchingBut graph.now (part_of (stacked cycles.old)) mates.old [] }
    ensures lifted { IsUnfolding graph.now mates.old (stacked cycles.old) mates.new [] }
    ensures own { AreOwn (length blossoms.old.cycle_base.items) known.new.ends.node.items known.new.ends.below.items }
    ensures base { (u : ℕ) → (at blossoms.new.cycle_base.items u ≡ at blossoms.old.cycle_base.items u) ⊎ (at blossoms.new.cycle_base.items u ≡ u) }
    ensures base_length { length blossoms.new.cycle_base.items ≡ length blossoms.old.cycle_base.items }
    ensures order { blossoms.new.order ≡ blossoms.old.order }
    ensures pointers { blossoms.new.base ≡ blossoms.old.base }
    ensures nodes { length cycles.new.nodes.items ≡ length cycles.old.nodes.items }
    ensures sizes { cycles.new.sizes ≡ cycles.old.sizes }
{
    let _nodes = graph.node_count();
    while cycles.height < cycles.sizes.len() {
        let top = cycles.top;
        let end = top + cycles.sizes[cycles.height] as usize;
        blossoms.release(&cycles.nodes.as_slice()[top + 1..end]);
        let entry = known.ends.enter(blossoms, cycles.nodes[top]);
        lift_part(
            graph,
            mates,
            blossoms,
            parent,
            known,
            cycles.nodes.as_mut_slice(),
            top,
            end,
            entry,
        );
        cycles.top = end;
        cycles.height += 1;
    }
}

// Mates the nodes of a cycle that is a part of a list, which is turned.
fn lift_part(
    graph: &Graph,
    mates: &mut [u32],
    blossoms: &Blossoms,
    parent: &[u32],
    known: &mut KnownEdges,
    nodes: &mut [u32],
    from: usize,
    to: usize,
    entry: u32,
)
    requires noted { AreNoted blossoms.now.cycle_base.items known.old.ends.node.items known.old.ends.below.items }
    requires entry { entry < length blossoms.now.cycle_base.items }
    requires entry_own { at blossoms.now.cycle_base.items entry ≡ entry }
    requires falls { Falls blossoms.now.cycle_base.items blossoms.now.order.items }
    requires base_length { length graph.now ≤ length blossoms.now.cycle_base.items }
    requires some { from < to }
    requires within { to ≤ length nodes.old }
    requires cycle { IsLiftable graph.now blossoms.now.cycle_base.items (take (to - from) (drop from nodes.old)) mates.old }
    ensures lifted { (part : ℕ → ℕ) → Points blossoms.entry.now.cycle_base.items part → IsCycle graph.now part (get_or (take (to - from) (drop from nodes.old)) 0 0) (drop 1 (take (to - from) (drop from nodes.old))) → is_odd (length (drop 1 (take (to - from) (drop from nodes.old)))) ≡ false → IsMatchingBut graph.now (folded part (get_or (take (to - from) (drop from nodes.old)) 0 0) (drop 1 (take (to - from) (drop from nodes.old)))) mates.old [] → Unfolds graph.now part (get_or (take (to - from) (drop from nodes.old)) 0 0) (drop 1 (take (to - from) (drop from nodes.old))) mates.old mates.new }
    ensures noted { AreNoted blossoms.now.cycle_base.items known.new.ends.node.items known.new.ends.below.items }
    ensures behind { drop to nodes.new ≡ drop to nodes.old }
    ensures length { length nodes.new ≡ length nodes.old }
{
    lift(
        graph,
        mates,
        blossoms,
        parent,
        known,
        &mut nodes[from..to],
        entry,
    );
}

// Mates the nodes of a cycle, which is turned so that the node to be mated outside comes first.
fn lift(
    graph: &Graph,
    mates: &mut [u32],
    blossoms: &Blossoms,
    parent: &[u32],
    known: &mut KnownEdges,
    cycle: &mut [u32],
    entry: u32,
)
    requires noted { AreNoted blossoms.now.cycle_base.items known.old.ends.node.items known.old.ends.below.items }
    requires entry { entry < length blossoms.now.cycle_base.items }
    requires entry_own { at blossoms.now.cycle_base.items entry ≡ entry }
    requires falls { Falls blossoms.now.cycle_base.items blossoms.now.order.items }
    requires base_length { length graph.now ≤ length blossoms.now.cycle_base.items }
    requires some { 0 < length cycle.old }
    requires cycle { IsLiftable graph.now blossoms.now.cycle_base.items cycle.old mates.old }
    ensures noted { AreNoted blossoms.now.cycle_base.items known.new.ends.node.items known.new.ends.below.items }
    ensures lifted { (part : ℕ → ℕ) → Points blossoms.entry.now.cycle_base.items part → IsCycle graph.now part (get_or cycle.old 0 0) (drop 1 cycle.old) → is_odd (length (drop 1 cycle.old)) ≡ false → IsMatchingBut graph.now (folded part (get_or cycle.old 0 0) (drop 1 cycle.old)) mates.old [] → Unfolds graph.now part (get_or cycle.old 0 0) (drop 1 cycle.old) mates.old mates.new }
{
    let base = cycle[0];
    let x = mates[base as usize];
    if x != graph.node_count() {
        let k = touching_place(graph, blossoms, &mut known.ends, cycle, x, entry);
        cycle.rotate_left(k);
        mates[x as usize] = cycle[0];
        mates[cycle[0] as usize] = x;
    }
    note_pairs(mates, blossoms, parent, known, &cycle[1..]);
    pair_off(&cycle[1..], mates);
}

// The place in the cycle of a blossom that touches x, which is a base: that of the entry, as far as its end is known.
fn touching_place(
    graph: &Graph,
    blossoms: &Blossoms,
    ends: &mut Ends,
    cycle: &[u32],
    x: u32,
    entry: u32,
) -> usize
    requires falls { Falls blossoms.now.cycle_base.items blossoms.now.order.items }
    requires noted { AreNoted blossoms.now.cycle_base.items ends.old.node.items ends.old.below.items }
    requires base_length { length graph.now ≤ length blossoms.now.cycle_base.items }
    requires entry { entry < length blossoms.now.cycle_base.items }
    requires entry_own { at blossoms.now.cycle_base.items entry ≡ entry }
    requires below { x < length graph.now }
    requires own { at blossoms.now.cycle_base.items x ≡ x }
    requires touches { (part : ℕ → ℕ) × Points blossoms.now.cycle_base.items part × Touches graph.now part cycle.now x }
    ensures below { result < length cycle.now }
    ensures touch { (part : ℕ → ℕ) → Points blossoms.entry.now.cycle_base.items part → Touch graph.now part (get_or cycle.now result 0) x }
    ensures noted { AreNoted blossoms.now.cycle_base.items ends.new.node.items ends.new.below.items }
{
    let _nodes = graph.node_count();
    if let Some(k) = place_of(cycle, entry) {
        if ends.are_adjacent(graph, entry, x) {
            return k;
        }
    }
    sought_place(graph, blossoms, ends, cycle, x)
}

// The same place, where the edge has to be sought.
fn sought_place(graph: &Graph, blossoms: &Blossoms, ends: &mut Ends, cycle: &[u32], x: u32) -> usize
    requires falls { Falls blossoms.now.cycle_base.items blossoms.now.order.items }
    requires noted { AreNoted blossoms.now.cycle_base.items ends.old.node.items ends.old.below.items }
    requires base_length { length graph.now ≤ length blossoms.now.cycle_base.items }
    requires touches { (part : ℕ → ℕ) × Points blossoms.now.cycle_base.items part × Touches graph.now part cycle.now x }
    ensures below { result < length cycle.now }
    ensures touch { (part : ℕ → ℕ) → Points blossoms.entry.now.cycle_base.items part → Touch graph.now part (get_or cycle.now result 0) x }
    ensures noted { AreNoted blossoms.now.cycle_base.items ends.new.node.items ends.new.below.items }
{
    let _nodes = graph.node_count();
    let edge = edge_among_all(graph, blossoms, cycle, x);
    ends.note(blossoms, edge.from);
    ends.note(blossoms, edge.to);
    match place_of(cycle, blossoms.base_by_cycles(edge.from)) {
        None => unreachable!(),
        Some(k) => k,
    }
}

// An edge from a blossom of the cycle to that of x, sought among those of all nodes of the blossom of x.
fn edge_among_all(graph: &Graph, blossoms: &Blossoms, cycle: &[u32], x: u32) -> Edge
    requires falls { Falls blossoms.now.cycle_base.items blossoms.now.order.items }
    requires base_length { length graph.now ≤ length blossoms.now.cycle_base.items }
    requires touches { (part : ℕ → ℕ) × Points blossoms.now.cycle_base.items part × Touches graph.now part cycle.now x }
    ensures edge { adjacent graph.now result.from result.to ≡ true }
    ensures joins { (part : ℕ → ℕ) → Points blossoms.entry.now.cycle_base.items part → Joins part cycle.now x result.from result.to }
{
    for to in 0..graph.node_count() {
        if blossoms.base_by_cycles(to) == x {
            if let Some(from) = neighbour_inside(graph.neighbours(to), blossoms, cycle) {
                return Edge { from, to };
            }
        }
    }
    unreachable!()
}

// A neighbour whose blossom is one of the cycle, if there is one.
fn neighbour_inside(neighbours: &[u32], blossoms: &Blossoms, cycle: &[u32]) -> Option<u32>
    requires falls { Falls blossoms.now.cycle_base.items blossoms.now.order.items }
    requires neighbours { All (λ v. v < length blossoms.now.cycle_base.items) neighbours.now }
    ensures some { IfSome result (λ from. (has neighbours.now from ≡ true) × ((part : ℕ → ℕ) → Points blossoms.entry.now.cycle_base.items part → has cycle.now (part from) ≡ true)) }
    ensures none { IfNone result ((part : ℕ → ℕ) → Points blossoms.entry.now.cycle_base.items part → (from : ℕ) → has neighbours.now from ≡ true → has cycle.now (part from) ≡ false) }
{
    for from in neighbours {
        let base = blossoms.base_by_cycles(*from);
        match place_of(cycle, base) {
            None => {}
            Some(_) => return Some(*from),
        }
    }
    None
}

// Notes the edges of the nodes that are to be paired off, of which the latest cycle consists but for one.
fn note_pairs(
    mates: &[u32],
    blossoms: &Blossoms,
    parent: &[u32],
    known: &mut KnownEdges,
    list: &[u32],
)
    requires falls { Falls blossoms.now.cycle_base.items blossoms.now.order.items }
    requires noted { AreNoted blossoms.now.cycle_base.items known.old.ends.node.items known.old.ends.below.items }
    ensures { AreNoted blossoms.now.cycle_base.items known.new.ends.node.items known.new.ends.below.items }
{
    let closing = known.pop();
    let mut k = 0;
    while k + 1 < list.len() {
        // Nodes that were mated before still are their own ends.
        if !was_mate(mates, list[k], list[k + 1]) {
            note_pair(
                blossoms,
                parent,
                &mut known.ends,
                closing,
                list[k],
                list[k + 1],
            );
        }
        k += 2;
    }
}

// Whether a node was mated with another.
fn was_mate(mates: &[u32], v: u32, w: u32) -> bool {
    match mates.get(v as usize) {
        None => false,
        Some(mate) => *mate == w,
    }
}

// Notes the edge of two nodes of a cycle: that of an inner one to its parent, or else the edge that closed the cycle.
fn note_pair(
    blossoms: &Blossoms,
    parent: &[u32],
    ends: &mut Ends,
    closing: Option<Edge>,
    a: u32,
    b: u32,
)
    requires falls { Falls blossoms.now.cycle_base.items blossoms.now.order.items }
    requires noted { AreNoted blossoms.now.cycle_base.items ends.old.node.items ends.old.below.items }
    ensures { AreNoted blossoms.now.cycle_base.items ends.new.node.items ends.new.below.items }
{
    let inner = if blossoms.was_inner(a) {
        Some(a)
    } else if blossoms.was_inner(b) {
        Some(b)
    } else {
        None
    };
    match inner {
        None => {
            if let Some(edge) = closing {
                ends.note(blossoms, edge.from);
                ends.note(blossoms, edge.to);
            }
        }
        Some(v) => {
            if let Some(above) = parent.get(v as usize) {
                ends.note(blossoms, *above);
            }
        }
    }
}

// The first place of a number in a list.
fn place_of(list: &[u32], x: u32) -> Option<usize>
    ensures some { IfSome result (λ k. (k < length list.now) × (x ≡ get_or list.now k 0)) }
    ensures none { IfNone result (has list.now x ≡ false) }
{
    for (k, y) in list.iter().enumerate() {
        if *y == x {
            return Some(k);
        }
    }
    None
}

// Mates the first with the second, the third with the fourth, and so on.
fn pair_off(list: &[u32], mates: &mut [u32])
    requires { (x : ℕ) → has list.now x ≡ true → x < length mates.old }
    ensures { mates.new ≡ pair_off list.now mates.old }
{
    let mut k = 0;
    while k + 1 < list.len() {
        let x = list[k];
        let y = list[k + 1];
        mates[x as usize] = y;
        mates[y as usize] = x;
        k += 2;
    }
}
