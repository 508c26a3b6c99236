ghost use Rattle.std.specs.Prelude.{◌≡◌, ℕ, ◌<◌, length, get_or, true, false};
ghost use Rattle.match_barrier.specs.Graph.{adjacent};
ghost use Rattle.match_blossom.specs.Labels.{is_outer, is_inner};
ghost use Rattle.match_blossom.specs.Foldings.{Augmented};
ghost use Rattle.match_blossom.specs.Search.{Turned};
ghost use Rattle.match_blossom.specs.Ends.{AreOwn, AreNoted};
ghost use Rattle.match_blossom.specs.Forest.{IsForest, IsTouched, KeepsLengths, base_in};

use crate::ends::Ends;
use crate::known::KnownEdges;
use crate::lifting::lift_all;
use crate::tree::AlternatingTree;
use match_barrier::Graph;

/// Augments the matching along the path that leads from the free node v over the outer blossom of u to the root.
pub(crate) fn augment(
    graph: &Graph,
    mates: &mut [u32],
    tree: &mut AlternatingTree,
    known: &mut KnownEdges,
    u: u32,
    v: u32,
)
    requires forest { IsForest graph.now mates.old tree.old }
    requires edge { adjacent graph.now u v ≡ true }
    requires from_outer { is_outer tree.old.labels.items (base_in tree.old u) ≡ true }
    requires no_outer { is_outer tree.old.labels.items (base_in tree.old v) ≡ false }
    requires no_inner { is_inner tree.old.labels.items (base_in tree.old v) ≡ false }
    requires free { get_or mates.old v 0 ≡ length graph.now }
    requires own { AreOwn (length tree.old.blossoms.cycle_base.items) known.old.ends.node.items known.old.ends.below.items }
    ensures own { AreOwn (length tree.new.blossoms.cycle_base.items) known.new.ends.node.items known.new.ends.below.items }
    ensures augmented { Augmented graph.now mates.old mates.new tree.old.root }
    ensures touched { IsTouched tree.new.labels.items tree.new.blossoms.base.items tree.new.touched.items tree.new.now }
    ensures cycle_touched { IsTouched tree.new.labels.items tree.new.blossoms.cycle_base.items tree.new.touched.items tree.new.now }
    ensures now { tree.new.now ≡ tree.old.now }
    ensures lengths { KeepsLengths tree.old tree.new }
{
    let _nodes = graph.node_count();
    augment_path(graph, mates, tree, &mut known.ends, u, v);
    lift_all(
        graph,
        mates,
        &mut tree.blossoms,
        &mut tree.cycles,
        tree.parent.as_slice(),
        known,
    );
}

// Mates v with the outer blossom of u, the mate of that blossom with the blossom of its parent, and so on up to the root.
fn augment_path(
    graph: &Graph,
    mates: &mut [u32],
    tree: &AlternatingTree,
    ends: &mut Ends,
    u: u32,
    v: u32,
)
    requires forest { IsForest graph.now mates.old tree.now }
    requires edge { adjacent graph.now u v ≡ true }
    requires from_outer { is_outer tree.now.labels.items (base_in tree.now u) ≡ true }
    requires no_outer { is_outer tree.now.labels.items (base_in tree.now v) ≡ false }
    requires no_inner { is_inner tree.now.labels.items (base_in tree.now v) ≡ false }
    requires free { get_or mates.old v 0 ≡ length graph.now }
    requires noted { AreNoted tree.now.blossoms.cycle_base.items ends.old.node.items ends.old.below.items }
    ensures noted { AreNoted tree.entry.now.blossoms.cycle_base.items ends.new.node.items ends.new.below.items }
    ensures turned { Turned graph.now mates.old mates.new (base_in tree.entry.now) tree.entry.now.root v }
{
    let nodes = graph.node_count();
    let mut x = v;
    let mut y = tree.blossoms.base_of(u);
    ends.note(&tree.blossoms, u);
    while y != tree.root {
        let w = mates[y as usize];
        let above = tree.above(mates, y);
        ends.note(&tree.blossoms, tree.parent[w as usize]);
        mates[w as usize] = nodes;
        mates[x as usize] = y;
        mates[y as usize] = x;
        x = w;
        y = above;
    }
    mates[x as usize] = y;
    mates[y as usize] = x;
}
