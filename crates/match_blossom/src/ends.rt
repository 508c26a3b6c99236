ghost use Rattle.std.specs.Prelude.{◌≡◌, ℕ, ◌<◌, length, get_or, IfOk, IfSome, true};
ghost use Rattle.match_barrier.specs.Graph.{adjacent, has};
ghost use Rattle.match_blossom.specs.Labels.{at};
ghost use Rattle.match_blossom.specs.Pointers.{Falls};
ghost use Rattle.match_blossom.specs.Ends.{AreOwn, AreNoted, AreNotedBut};

use crate::blossoms::Blossoms;
use crate::tree::own_bases;
use match_barrier::Graph;
use mc_base::NoMemory;
use std::alloc::Global;

/// For each base the end of the matched edge of its blossom: a node of the blossom. Beside it stands the last node
/// before the base on the way up from there, which is that of the cycle at which the edge ends once the cycle is
/// expanded, and the place among the end's neighbours where the other end was found last, if it was.
#[derive(Drop)]
pub(crate) struct Ends {
    pub(crate) node: Vec<u32>,
    pub(crate) below: Vec<u32>,
    place: Vec<usize>,
}

impl Ends {
    /// Each of so many nodes is its own end.
    pub(crate) fn reserve(alloc: Global, nodes: u32) -> Result<Ends, NoMemory>
        ensures { IfOk result (λ ends. AreOwn nodes ends.node.items ends.below.items) }
    {
        let node = own_bases(alloc, nodes)?;
        let below = own_bases(alloc, nodes)?;
        let place = vec![in alloc; 0usize; nodes as usize]?;
        Ok(Ends { node, below, place })
    }

    /// The edge of the blossom that a node lies in ends at this node.
    pub(crate) fn note(&mut self, blossoms: &Blossoms, u: u32)
        requires falls { Falls blossoms.now.cycle_base.items blossoms.now.order.items }
        requires noted { AreNoted blossoms.now.cycle_base.items self.old.node.items self.old.below.items }
        ensures { AreNoted blossoms.now.cycle_base.items self.new.node.items self.new.below.items }
    {
        let pointers = blossoms.cycle_base.as_slice();
        if (u as usize) < pointers.len() {
            note_way(
                pointers,
                blossoms.order.as_slice(),
                self.node.as_mut_slice(),
                self.below.as_mut_slice(),
                u,
            );
        }
    }

    /// The node of an expanded cycle at which the edge of its blossom ends.
    pub(crate) fn enter(&mut self, blossoms: &Blossoms, base: u32) -> u32
        requires { AreNotedBut blossoms.now.cycle_base.items self.old.node.items self.old.below.items base }
        ensures noted { AreNoted blossoms.now.cycle_base.items self.new.node.items self.new.below.items }
        ensures below { result < length blossoms.now.cycle_base.items }
        ensures own { at blossoms.now.cycle_base.items result ≡ result }
    {
        let entry = enter(
            blossoms.cycle_base.as_slice(),
            self.node.as_mut_slice(),
            self.below.as_slice(),
            base,
        );
        self.move_place(base, entry);
        entry
    }

    // The edge of one node is that of another now.
    fn move_place(&mut self, from: u32, to: u32)
        ensures { self.new ≡ record self.old { place = self.new.place } }
    {
        if (from as usize) < self.place.len() && (to as usize) < self.place.len() {
            self.place[to as usize] = self.place[from as usize];
        }
    }

    /// Whether there is an edge between the ends of two nodes.
    pub(crate) fn are_adjacent(&mut self, graph: &Graph, a: u32, b: u32) -> bool
        requires first { a < length self.old.node.items }
        requires second { b < length self.old.node.items }
        ensures adjacent { result ≡ true → adjacent graph.now (at self.old.node.items a) (at self.old.node.items b) ≡ true }
        ensures rest { self.new ≡ record self.old { place = self.new.place } }
    {
        let from = self.node[a as usize];
        let to = self.node[b as usize];
        if from >= graph.node_count() || a as usize >= self.place.len() {
            return false;
        }
        let likely = self.place[a as usize];
        match place_near(graph.neighbours(from), likely, to) {
            None => false,
            Some(place) => {
                self.place[a as usize] = place;
                true
            }
        }
    }
}

// Writes a node as the end of itself and of each base on the way up from it.
fn note_way(pointers: &[u32], order: &[u32], node: &mut [u32], below: &mut [u32], u: u32)
    requires falls { Falls pointers.now order.now }
    requires noted { AreNoted pointers.now node.old below.old }
    requires node { u < length pointers.now }
    ensures { AreNoted pointers.now node.new below.new }
{
    node[u as usize] = u;
    let mut x = u;
    while pointers[x as usize] != x {
        let next = pointers[x as usize];
        below[next as usize] = x;
        node[next as usize] = u;
        x = next;
    }
}

// The node of an expanded cycle at which its edge ends. The base is its own end then, if this is another node.
fn enter(pointers: &[u32], node: &mut [u32], below: &[u32], base: u32) -> u32
    requires { AreNotedBut pointers.now node.old below.now base }
    ensures noted { AreNoted pointers.now node.new below.now }
    ensures below { result < length pointers.now }
    ensures own { at pointers.now result ≡ result }
{
    if node[base as usize] == base {
        return base;
    }
    let entry = below[base as usize];
    if pointers[entry as usize] == base {
        return base;
    }
    node[base as usize] = base;
    entry
}

// The place of a number in a list: the likely one, or else the first.
fn place_near(list: &[u32], likely: usize, x: u32) -> Option<usize>
    ensures { IfSome result (λ k. has list.now x ≡ true) }
{
    if likely < list.len() && list[likely] == x {
        return Some(likely);
    }
    list.iter().position(|y| *y == x)
}
