ghost use Rattle.std.specs.Prelude.{◌≡◌, ℕ, ◌<◌, [], length, get_or, IfSome, true};
ghost use Rattle.std.specs.List.{All};
ghost use Rattle.match_barrier.specs.Graph.{has};
ghost use Rattle.match_blossom.specs.Foldings.{IsMatchingBut};

use match_barrier::Graph;

/// A greedy matching: each node in turn that is free is mated with its first free neighbour.
pub(crate) fn match_greedily(graph: &Graph, mates: &mut [u32])
    requires { length mates.old ≡ length graph.now }
    ensures { IsMatchingBut graph.now (λ u. u) mates.new [] }
{
    let nodes = graph.node_count();
    mates.fill(nodes);
    for v in 0..nodes {
        if mates[v as usize] == nodes {
            if let Some(w) = free_neighbour(graph.neighbours(v), mates, nodes) {
                mates[v as usize] = w;
                mates[w as usize] = v;
            }
        }
    }
}

// The first free neighbour.
fn free_neighbour(neighbours: &[u32], mates: &[u32], nodes: u32) -> Option<u32>
    requires { All (λ v. v < length mates.now) neighbours.now }
    ensures { IfSome result (λ w. (has neighbours.now w ≡ true) × (w < length mates.now) × (get_or mates.now w 0 ≡ nodes)) }
{
    for w in neighbours {
        if mates[*w as usize] == nodes {
            return Some(*w);
        }
    }
    None
}
