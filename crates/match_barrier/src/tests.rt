use crate::{Graph, Scratch, is_barrier, is_perfect};
use std::alloc::Global;
use std::process::Abort;
use std::test::Fail;

/// The graph with these edges; those that it cannot have are left out.
fn graph_of(alloc: Global, nodes: u32, edges: &[(u32, u32)]) -> Result<Graph, Fail> {
    let mut graph = Graph::new(alloc, nodes)?;
    for (u, v) in edges {
        if *u < graph.node_count()
            && *v < graph.node_count()
            && *u != *v
            && !graph.are_adjacent(*u, *v)
        {
            graph.add_edge(*u, *v)?;
        }
    }
    Ok(graph)
}

/// The number of odd parts without a node, if any, where the two are a barrier.
fn answer(
    rt: &(impl Abort + AllocGlobal),
    graph: &Graph,
    taken: Option<u32>,
) -> Result<Option<u32>, Fail> {
    let mut scratch = Scratch::reserve(rt.alloc(), graph.node_count())?;
    match taken {
        None => Ok(is_barrier(graph, &[], &mut scratch)),
        Some(v) => {
            assert!(rt; v < graph.node_count());
            Ok(is_barrier(graph, &[v], &mut scratch))
        }
    }
}

const STAR: [(u32, u32); 3] = [(0, 1), (0, 2), (0, 3)];

const FIVE: [(u32, u32); 5] = [(0, 1), (1, 2), (2, 3), (3, 4), (4, 0)];

const SIX: [(u32, u32); 6] = [(0, 1), (1, 2), (2, 3), (3, 4), (4, 5), (5, 0)];

#[test]
fn barriers(rt: HostRuntime) -> Result<(), Fail> {
    let alloc = rt.alloc();
    let star = graph_of(alloc, 4, &STAR)?;
    assert!(rt; answer(&rt, &star, Some(0))? == Some(3));
    assert!(rt; answer(&rt, &star, None)? == None);
    assert!(rt; answer(&rt, &star, Some(1))? == None);
    assert!(rt; answer(&rt, &graph_of(alloc, 5, &FIVE)?, None)? == Some(1));
    assert!(rt; answer(&rt, &graph_of(alloc, 6, &SIX)?, None)? == None);
    assert!(rt; answer(&rt, &graph_of(alloc, 1, &[])?, None)? == Some(1));
    assert!(rt; answer(&rt, &graph_of(alloc, 0, &[])?, None)? == None);
    Ok(())
}

#[test]
fn perfect_matchings(rt: HostRuntime) -> Result<(), Fail> {
    let six = graph_of(rt.alloc(), 6, &SIX)?;
    assert!(rt; is_perfect(&six, &[1, 0, 3, 2, 5, 4]));
    for mates in [
        &[1, 0, 3, 2, 5, 5],
        &[1, 0, 3, 2, 4, 5],
        &[3, 4, 5, 0, 1, 2],
        &[1, 2, 3, 4, 5, 0],
        &[1, 0, 3, 2, 5, 9],
    ] {
        assert!(rt; !is_perfect(&six, mates));
    }
    assert!(rt; !is_perfect(&six, &[1, 0, 3, 2]));
    assert!(rt; is_perfect(&graph_of(rt.alloc(), 0, &[])?, &[]));
    Ok(())
}
