ghost use Rattle.std.specs.Prelude.{◌≡◌, ℕ, ◌<◌, ◌≤◌, length};

use crate::{Matched, Matcher};
use match_barrier::{Graph, Scratch, is_barrier, is_perfect};
use std::process::Abort;
use std::test::Fail;

/// What was answered, once the checkers have confirmed it.
#[derive(Clone, Copy, PartialEq, Eq)]
enum Verdict {
    Perfect,
    Barrier {
        size: usize,
        odd: u32,
        greatest: Option<u32>,
    },
}

/// Adds an edge where there can be one.
fn join(graph: &mut Graph, u: u32, v: u32) -> Result<(), Fail> {
    let nodes = graph.node_count();
    if u < nodes && v < nodes && u != v && !graph.are_adjacent(u, v) {
        graph.add_edge(u, v)?;
    }
    Ok(())
}

/// Solves a graph in a room of its own and confirms the answer.
fn confirmed(rt: &(impl Abort + AllocGlobal), graph: &Graph) -> Result<Verdict, Fail> {
    let nodes = graph.node_count();
    let mut matcher = Matcher::reserve(rt.alloc(), nodes, 10000)?;
    let mut scratch = Scratch::reserve(rt.alloc(), nodes)?;
    confirmed_in(rt, graph, &mut matcher, &mut scratch)
}

/// Solves a graph in a room that has served before and confirms the answer.
fn confirmed_in(
    rt: &impl Abort,
    graph: &Graph,
    matcher: &mut Matcher,
    scratch: &mut Scratch,
) -> Result<Verdict, Fail>
    requires room { length graph.now ≤ matcher.old }
    requires scratch { length graph.now ≤ scratch.old }
    ensures room { matcher.new ≡ matcher.old }
    ensures scratch { scratch.new ≡ scratch.old }
{
    match matcher.solve(graph) {
        Matched::Perfect(mates) => {
            assert!(rt; is_perfect(graph, mates));
            Ok(Verdict::Perfect)
        }
        Matched::Barrier(set) => {
            let odd = is_barrier(graph, set, scratch).ok_or("no barrier")?;
            Ok(Verdict::Barrier {
                size: set.len(),
                odd,
                greatest: set.iter().copied().max(),
            })
        }
    }
}

/// Whether the nodes outside a mask can be paired off, by trying all pairings.
fn can_pair(rt: &impl Abort, graph: &Graph, paired: u32, depth: u32) -> bool {
    if depth == 0 {
        return false;
    }
    let nodes = graph.node_count();
    let mut first = nodes;
    for v in 0..nodes {
        assert!(rt; v < 32);
        if first == nodes && paired & (1 << v) == 0 {
            first = v;
        }
    }
    if first == nodes {
        return true;
    }
    for w in 0..nodes {
        assert!(rt; w < 32 && first < 32 && first < nodes);
        if paired & (1 << w) == 0
            && graph.are_adjacent(first, w)
            && can_pair(rt, graph, paired | (1 << w) | (1 << first), depth - 1)
        {
            return true;
        }
    }
    false
}

/// The graph on so many nodes whose edges are the bits of a number.
fn small_graph(rt: &(impl Abort + AllocGlobal), nodes: u32, edges: u32) -> Result<Graph, Fail> {
    let mut graph = Graph::new(rt.alloc(), nodes)?;
    let mut pair = 0u32;
    for u in 0..nodes {
        for v in 0..u {
            assert!(rt; pair < 32);
            if edges & (1 << pair) != 0 {
                join(&mut graph, u, v)?;
            }
            pair += 1;
        }
    }
    Ok(graph)
}

/// Solves each graph on so many nodes, and compares with trying all pairings.
fn solve_all(
    rt: &(impl Abort + AllocGlobal),
    nodes: u32,
    pairs: u32,
    matcher: &mut Matcher,
    scratch: &mut Scratch,
) -> Result<(), Fail>
    requires room { matcher.old ≡ 6 }
    requires scratch { scratch.old ≡ 6 }
    ensures room { matcher.new ≡ 6 }
    ensures scratch { scratch.new ≡ 6 }
{
    assert!(rt; pairs < 32);
    for edges in 0u32..1 << pairs {
        let graph = small_graph(rt, nodes, edges)?;
        assert!(rt; graph.node_count() <= 6);
        let verdict = confirmed_in(rt, &graph, matcher, scratch)?;
        assert!(rt;
            matches!(verdict, Verdict::Perfect) == can_pair(rt, &graph, 0, 8),
            "{nodes} nodes, edges {edges}"
        );
    }
    Ok(())
}

#[test]
fn all_small_graphs(rt: HostRuntime) -> Result<(), Fail> {
    let mut matcher = Matcher::reserve(rt.alloc(), 6, 15)?;
    let mut scratch = Scratch::reserve(rt.alloc(), 6)?;
    for nodes in 0u32..7 {
        let pairs = if nodes == 0 {
            0
        } else {
            nodes * (nodes - 1) / 2
        };
        solve_all(&rt, nodes, pairs, &mut matcher, &mut scratch)?;
    }
    Ok(())
}

/// A number below a bound, of a row that looks random.
fn draw(state: &mut u64, bound: u32) -> u32
    requires { 0 < bound }
    ensures { result < bound }
{
    *state = state
        .wrapping_mul(6364136223846793005)
        .wrapping_add(1442695040888963407);
    ((*state >> 33) % (bound as u64)) as u32
}

/// A graph of 7 to 40 nodes with up to two edges a node.
fn random_graph(rt: &impl AllocGlobal, state: &mut u64) -> Result<Graph, Fail> {
    let nodes = 7 + draw(state, 34);
    let edges = nodes / 2 + draw(state, 2 * nodes);
    random_edges(rt, state, nodes, edges)
}

/// A graph with at most so many edges.
fn random_edges(
    rt: &impl AllocGlobal,
    state: &mut u64,
    nodes: u32,
    edges: u32,
) -> Result<Graph, Fail>
    requires { 0 < nodes }
{
    let mut graph = Graph::new(rt.alloc(), nodes)?;
    for _ in 0..edges {
        let u = draw(state, nodes);
        let v = draw(state, nodes);
        join(&mut graph, u, v)?;
    }
    Ok(graph)
}

#[test]
fn random_graphs(rt: HostRuntime) -> Result<(), Fail> {
    let mut matcher = Matcher::reserve(rt.alloc(), 40, 0)?;
    let mut scratch = Scratch::reserve(rt.alloc(), 40)?;
    let mut state = 20261201u64;
    for _ in 0..200000u32 {
        let graph = random_graph(&rt, &mut state)?;
        assert!(rt; graph.node_count() <= 40);
        confirmed_in(&rt, &graph, &mut matcher, &mut scratch)?;
    }
    Ok(())
}

/// Graphs that need odd cycles folded: their nodes, their edges, and whether they have a perfect matching.
const FOLDED: [(u32, &[(u32, u32)], bool); 7] = [
    // a closed path of five, alone and with a node at one of its nodes
    (5, &[(0, 1), (1, 2), (2, 3), (3, 4), (4, 0)], false),
    (6, &[(0, 1), (1, 2), (2, 3), (3, 4), (4, 0), (2, 5)], true),
    // the cycle at the root: the way out leaves it at each of its nodes
    (
        6,
        &[(1, 2), (3, 4), (0, 1), (0, 2), (0, 3), (0, 4), (1, 5)],
        true,
    ),
    (6, &[(1, 2), (3, 4), (0, 1), (2, 3), (4, 0), (3, 5)], true),
    // a cycle in a cycle
    (
        8,
        &[
            (0, 1),
            (2, 3),
            (4, 5),
            (1, 2),
            (1, 3),
            (2, 4),
            (5, 3),
            (5, 6),
            (0, 7),
        ],
        true,
    ),
    (
        8,
        &[
            (1, 2),
            (3, 4),
            (5, 6),
            (0, 1),
            (0, 2),
            (2, 3),
            (1, 4),
            (4, 5),
            (3, 6),
            (6, 7),
        ],
        true,
    ),
    // three triangles at one node
    (
        7,
        &[
            (0, 1),
            (1, 2),
            (2, 0),
            (0, 3),
            (3, 4),
            (4, 0),
            (0, 5),
            (5, 6),
            (6, 0),
        ],
        false,
    ),
];

#[test]
fn folded_cycles(rt: HostRuntime) -> Result<(), Fail> {
    for (nodes, edges, perfect) in FOLDED {
        let mut graph = Graph::new(rt.alloc(), nodes)?;
        for (u, v) in edges {
            join(&mut graph, *u, *v)?;
        }
        assert!(rt;
            matches!(confirmed(&rt, &graph)?, Verdict::Perfect) == perfect,
            "{nodes} nodes"
        );
    }
    Ok(())
}

/// A path, or a ladder of two rails, in order.
fn rails(rt: &impl AllocGlobal, nodes: u32, rails: u32) -> Result<Graph, Fail> {
    let mut graph = Graph::new(rt.alloc(), nodes)?;
    for v in 0..nodes {
        join(&mut graph, v, v.saturating_add(rails))?;
        if rails == 2 && v % 2 == 0 {
            join(&mut graph, v, v.saturating_add(1))?;
        }
    }
    Ok(graph)
}

/// Rings of six, and one of five behind them.
fn rings(rt: &impl AllocGlobal, sixes: u32) -> Result<Graph, Fail> {
    let mut graph = Graph::new(rt.alloc(), sixes.saturating_mul(6).saturating_add(5))?;
    for ring in 0..sixes.saturating_add(1) {
        let first = ring.saturating_mul(6);
        let size = if ring == sixes { 5 } else { 6 };
        for k in 0..size {
            join(
                &mut graph,
                first.saturating_add(k),
                first.saturating_add((k + 1) % size),
            )?;
        }
    }
    Ok(graph)
}

/// Triangles, each with one node that is joined to each of the single nodes, which come first.
fn triangles(rt: &impl AllocGlobal) -> Result<Graph, Fail> {
    let mut graph = Graph::new(rt.alloc(), 202)?;
    for j in 0u32..51 {
        let first = 49 + 3 * j;
        join(&mut graph, first, first + 1)?;
        join(&mut graph, first + 1, first + 2)?;
        join(&mut graph, first + 2, first)?;
        for single in 0..49 {
            join(&mut graph, single, first)?;
        }
    }
    Ok(graph)
}

/// What the triangles answer: the 49 single nodes, and 51 odd parts.
const BLOCKED: Verdict = Verdict::Barrier {
    size: 49,
    odd: 51,
    greatest: Some(48),
};

/// Triangles in a chain: folding the first makes the second a cycle through it, and so on.
fn nested_cycles(rt: &impl AllocGlobal, nodes: u32) -> Result<Graph, Fail> {
    let mut graph = Graph::new(rt.alloc(), nodes)?;
    for v in 0..nodes {
        join(&mut graph, v, v.saturating_add(1))?;
        if v % 2 == 0 {
            join(&mut graph, v, v.saturating_add(2))?;
        }
    }
    Ok(graph)
}

/// The outer node of a way up from the root, which comes behind all pairs.
fn outer_node(place: u32, pairs: u32) -> u32 {
    if place == 0 {
        pairs.saturating_mul(4)
    } else {
        place.saturating_mul(4).saturating_sub(3)
    }
}

/// A way up from a free node, at whose end a triangle is contracted; then cycles close from above down, each with a base
/// of its own.
fn closing_cycles(rt: &impl AllocGlobal, nodes: u32, pairs: u32) -> Result<Graph, Fail> {
    let mut graph = Graph::new(rt.alloc(), nodes)?;
    for k in 0..pairs {
        let inner = k.saturating_mul(4);
        join(&mut graph, inner, inner.saturating_add(1))?;
        join(&mut graph, inner.saturating_add(2), inner.saturating_add(3))?;
    }
    for k in 0..pairs {
        let inner = k.saturating_mul(4);
        join(&mut graph, outer_node(k, pairs), inner)?;
        if k > 0 {
            join(
                &mut graph,
                outer_node(k.saturating_sub(1), pairs),
                inner.saturating_add(3),
            )?;
            join(&mut graph, inner, inner.saturating_add(2))?;
        }
    }
    join(
        &mut graph,
        outer_node(pairs.saturating_sub(1), pairs),
        outer_node(pairs, pairs),
    )?;
    Ok(graph)
}

/// Only the last of these cycles leads to the other free node.
fn descending_cycles(rt: &impl AllocGlobal, pairs: u32) -> Result<Graph, Fail> {
    let free = pairs.saturating_mul(4).saturating_add(1);
    let mut graph = closing_cycles(rt, free.saturating_add(1), pairs)?;
    join(&mut graph, 0, free)?;
    Ok(graph)
}

/// The innermost of these cycles leads to the other free node, by a way so long that all are contracted before its end.
fn deep_cycles(rt: &impl AllocGlobal, pairs: u32) -> Result<Graph, Fail> {
    let free = pairs.saturating_mul(4).saturating_add(1);
    let long = pairs.saturating_add(2);
    let nodes = free
        .saturating_add(1)
        .saturating_add(long.saturating_mul(2));
    let mut graph = closing_cycles(rt, nodes, pairs)?;
    let mut last = pairs.saturating_mul(4).saturating_sub(4);
    for k in 0..long {
        let inner = free.saturating_add(1).saturating_add(k.saturating_mul(2));
        join(&mut graph, inner, inner.saturating_add(1))?;
        join(&mut graph, last, inner)?;
        last = inner.saturating_add(1);
    }
    join(&mut graph, last, free)?;
    Ok(graph)
}

/// Two triangles at the ends of two arms, an edge between them, and two free nodes: the matching is augmented along a path
/// that leads from one contracted triangle to the other.
const ARMS: [(u32, u32); 12] = [
    (0, 1),
    (2, 3),
    (4, 5),
    (6, 7),
    (1, 2),
    (1, 3),
    (5, 6),
    (5, 7),
    (2, 6),
    (8, 0),
    (8, 4),
    (9, 0),
];

fn arms(rt: &impl AllocGlobal, count: u32) -> Result<Graph, Fail> {
    let mut graph = Graph::new(rt.alloc(), count.saturating_mul(10))?;
    for k in 0..count {
        let first = k.saturating_mul(10);
        for (u, v) in ARMS {
            join(&mut graph, first.saturating_add(u), first.saturating_add(v))?;
        }
    }
    Ok(graph)
}

/// Each node is joined to each other.
fn complete(rt: &impl AllocGlobal, nodes: u32) -> Result<Graph, Fail> {
    let mut graph = Graph::new(rt.alloc(), nodes)?;
    for v in 0..nodes {
        for u in 0..v {
            join(&mut graph, u, v)?;
        }
    }
    Ok(graph)
}

#[test]
fn large_graphs(rt: HostRuntime) -> Result<(), Fail> {
    assert!(rt; matches!(confirmed(&rt, &rails(&rt, 998, 1)?)?, Verdict::Perfect));
    assert!(rt; matches!(confirmed(&rt, &rails(&rt, 998, 2)?)?, Verdict::Perfect));
    assert!(rt;
        matches!(
            confirmed(&rt, &rings(&rt, 98)?)?,
            Verdict::Barrier { odd: 1, .. }
        )
    );
    assert!(rt; confirmed(&rt, &triangles(&rt)?)? == BLOCKED);
    assert!(rt;
        matches!(
            confirmed(&rt, &nested_cycles(&rt, 501)?)?,
            Verdict::Barrier { odd: 1, .. }
        )
    );
    assert!(rt; matches!(confirmed(&rt, &complete(&rt, 60)?)?, Verdict::Perfect));
    Ok(())
}

#[test]
fn cycles_in_cycles(rt: HostRuntime) -> Result<(), Fail> {
    for pairs in [1u32, 2, 3, 4, 5, 200] {
        let graph = descending_cycles(&rt, pairs)?;
        assert!(rt;
            matches!(confirmed(&rt, &graph)?, Verdict::Perfect),
            "{pairs} pairs"
        );
        let deep = deep_cycles(&rt, pairs)?;
        assert!(rt;
            matches!(confirmed(&rt, &deep)?, Verdict::Perfect),
            "{pairs} pairs, deep"
        );
    }
    for count in [1u32, 2, 100] {
        let graph = arms(&rt, count)?;
        assert!(rt;
            matches!(confirmed(&rt, &graph)?, Verdict::Perfect),
            "{count} times two arms"
        );
    }
    Ok(())
}

/// The greatest graphs that a molecule may need, with two and with five edges for each node.
#[test]
fn large_random_graphs(rt: HostRuntime) -> Result<(), Fail> {
    let mut state = 20261202u64;
    for nodes in [4998u32, 4999] {
        for edges in [9996u32, 24990] {
            confirmed(&rt, &random_edges(&rt, &mut state, nodes, edges)?)?;
        }
    }
    Ok(())
}

/// One room serves for a thousand calls, in which great and small graphs take turns.
#[test]
fn thousand_calls(rt: HostRuntime) -> Result<(), Fail> {
    let mut matcher = Matcher::reserve(rt.alloc(), 202, 2652)?;
    let mut scratch = Scratch::reserve(rt.alloc(), 202)?;
    let blocked = triangles(&rt)?;
    let paired = complete(&rt, 60)?;
    assert!(rt; blocked.node_count() <= 202 && paired.node_count() <= 202);
    for _ in 0..500u32 {
        let first = confirmed_in(&rt, &blocked, &mut matcher, &mut scratch)?;
        assert!(rt; first == BLOCKED);
        let second = confirmed_in(&rt, &paired, &mut matcher, &mut scratch)?;
        assert!(rt; second == Verdict::Perfect);
    }
    Ok(())
}
