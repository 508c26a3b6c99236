ghost use Rattle.std.specs.Prelude.{◌≡◌, ℕ, ◌<◌, cond, length, get_or};
ghost use Rattle.std.specs.List.{All};
ghost use Rattle.match_barrier.specs.Graph.{has};
ghost use Rattle.match_blossom.specs.Labels.{at};
ghost use Rattle.match_blossom.specs.Pointers.{Falls, Points};
ghost use Rattle.match_blossom.specs.Shortened.{IsHalved};

/// For each node a pointer towards the base of its blossom, which points to itself; the base of the cycle that it was
/// contracted with, or the node itself; and the number that it got with its label, rising along each way from the root.
#[derive(Drop)]
pub(crate) struct Blossoms {
    pub(crate) base: Vec<u32>,
    pub(crate) cycle_base: Vec<u32>,
    pub(crate) order: Vec<u32>,
}

impl Blossoms {
    /// The base of a node's blossom.
    pub(crate) fn base_of(&self, u: u32) -> u32
        requires falls { Falls self.now.base.items self.now.order.items }
        requires node { u < length self.now.base.items }
        ensures base { (part : ℕ → ℕ) → Points self.entry.now.base.items part → result ≡ part u }
        ensures below { result < length self.entry.now.base.items }
    {
        let mut x = u;
        while self.base[x as usize] != x {
            x = self.base[x as usize];
        }
        x
    }

    /// Makes the way from a node to the base of its blossom half as long.
    pub(crate) fn shorten(&mut self, u: u32)
        requires falls { Falls self.old.base.items self.old.order.items }
        requires node { u < length self.old.base.items }
        ensures { IsHalved self.old self.new }
    {
        let mut x = u;
        while self.base[self.base[x as usize] as usize] != self.base[x as usize] {
            let next = self.base[self.base[x as usize] as usize];
            self.base[x as usize] = next;
            x = next;
        }
    }

    /// The base of a node's blossom by the cycles that are still contracted.
    pub(crate) fn base_by_cycles(&self, u: u32) -> u32
        requires falls { Falls self.now.cycle_base.items self.now.order.items }
        requires node { u < length self.now.cycle_base.items }
        ensures base { (part : ℕ → ℕ) → Points self.entry.now.cycle_base.items part → result ≡ part u }
        ensures below { result < length self.entry.now.cycle_base.items }
    {
        let mut x = u;
        while self.cycle_base[x as usize] != x {
            x = self.cycle_base[x as usize];
        }
        x
    }

    /// The number that a node got with its label.
    pub(crate) fn order_of(&self, v: u32) -> u32
        requires { v < length self.now.order.items }
        ensures { result ≡ at self.entry.now.order.items v }
    {
        self.order[v as usize]
    }

    /// Whether a node has got an odd number, as inner nodes have.
    pub(crate) fn was_inner(&self, v: u32) -> bool {
        match self.order.as_slice().get(v as usize) {
            None => false,
            Some(number) => *number % 2 == 1,
        }
    }

    /// Expands the cycle of the nodes.
    pub(crate) fn release(&mut self, nodes: &[u32])
        requires { All (λ v. v < length self.old.cycle_base.items) nodes.now }
        ensures base { (u : ℕ) → at self.new.cycle_base.items u ≡ cond (has nodes.now u) u (at self.old.cycle_base.items u) }
        ensures length { length self.new.cycle_base.items ≡ length self.old.cycle_base.items }
        ensures order { self.new.order ≡ self.old.order }
        ensures pointers { self.new.base ≡ self.old.base }
    {
        release(self.cycle_base.as_mut_slice(), nodes);
    }
}

// Each of the nodes points to itself.
fn release(pointers: &mut [u32], nodes: &[u32])
    requires { All (λ v. v < length pointers.old) nodes.now }
    ensures pointers { (u : ℕ) → get_or pointers.new u 0 ≡ cond (has nodes.now u) u (get_or pointers.old u 0) }
    ensures length { length pointers.new ≡ length pointers.old }
{
    for v in nodes {
        pointers[*v as usize] = *v;
    }
}
