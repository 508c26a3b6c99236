ghost use Rattle.std.specs.Prelude.{◌≡◌, ℕ, ◌<◌, ◌≤◌, ◌+◌, ◌∷◌, ◌++◌, ◌-◌, length, drop, take, reverse};

/// The contracted cycles, the latest first: their nodes, one cycle behind the other, each with its base first, from the
/// top on, and their sizes from the height on.
#[derive(Drop)]
pub(crate) struct Cycles {
    pub(crate) nodes: Vec<u32>,
    pub(crate) top: usize,
    pub(crate) sizes: Vec<u32>,
    pub(crate) height: usize,
}

impl Cycles {
    /// Turns the nodes of a part round.
    pub(crate) fn turn_round(&mut self, from: usize, to: usize)
        requires from { from ≤ to }
        requires to { to ≤ length self.old.nodes.items }
        ensures nodes { drop from self.new.nodes.items ≡ reverse (take (to - from) (drop from self.old.nodes.items)) ++ drop to self.old.nodes.items }
        ensures length { length self.new.nodes.items ≡ length self.old.nodes.items }
        ensures rest { self.new ≡ record self.old { nodes = self.new.nodes } }
    {
        reverse_part(self.nodes.as_mut_slice(), from, to);
    }
}

// Turns a part of a list round.
fn reverse_part(nodes: &mut [u32], from: usize, to: usize)
    requires from { from ≤ to }
    requires to { to ≤ length nodes.old }
    ensures nodes { drop from nodes.new ≡ reverse (take (to - from) (drop from nodes.old)) ++ drop to nodes.old }
    ensures length { length nodes.new ≡ length nodes.old }
{
    nodes[from..to].reverse();
}
