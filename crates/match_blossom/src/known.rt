ghost use Rattle.std.specs.Prelude.{◌≡◌, IfOk};
ghost use Rattle.match_blossom.specs.Ends.{AreOwn};

use crate::ends::Ends;
use mc_base::NoMemory;
use std::alloc::Global;

/// An edge of the graph.
#[derive(Clone, Copy)]
pub(crate) struct Edge {
    pub(crate) from: u32,
    pub(crate) to: u32,
}

/// What is remembered of edges, so that lifting need not seek them: where the matched edges of blossoms end, and for each
/// contracted cycle the edge that closed it, the latest last. An edge is looked at before it is used.
#[derive(Drop)]
pub(crate) struct KnownEdges {
    pub(crate) ends: Ends,
    closing: Vec<Edge>,
    count: usize,
}

impl KnownEdges {
    /// Room for graphs of at most so many nodes.
    pub(crate) fn reserve(alloc: Global, nodes: u32) -> Result<KnownEdges, NoMemory>
        ensures { IfOk result (λ known. AreOwn nodes known.ends.node.items known.ends.below.items) }
    {
        Ok(KnownEdges {
            ends: Ends::reserve(alloc, nodes)?,
            closing: vec![in alloc; Edge { from: 0, to: 0 }; nodes as usize]?,
            count: 0,
        })
    }

    /// No cycle is contracted.
    pub(crate) fn begin(&mut self)
        ensures { self.new.ends ≡ self.old.ends }
    {
        self.count = 0;
    }

    /// An edge has closed a cycle that is contracted.
    pub(crate) fn push(&mut self, from: u32, to: u32)
        ensures { self.new.ends ≡ self.old.ends }
    {
        if self.count < self.closing.len() {
            self.closing[self.count] = Edge { from, to };
            self.count += 1;
        }
    }

    /// The edge that closed the latest cycle, which is expanded.
    pub(crate) fn pop(&mut self) -> Option<Edge>
        ensures { self.new.ends ≡ self.old.ends }
    {
        if self.count == 0 || self.count > self.closing.len() {
            return None;
        }
        self.count -= 1;
        Some(self.closing[self.count])
    }
}
