ghost use Rattle.std.specs.Prelude.{◌≡◌, ◌⊎◌, ◌<◌, ◌≤◌, ◌↔◌, ℕ, length, IfOk, IsTrue};
ghost use Rattle.mc_mol.specs.Forests.{IsForest, Parent};
ghost use Rattle.mc_mol.specs.Lows.{AreLows, HalfLow, LowAt, LowIs, Rises};

use crate::Graph;
use crate::forest::Forest;
use mc_base::AtomId;
use std::alloc::{AllocError, Global};

/// For each atom the least of its place and of those to which bonds lead from it or a descendant of it, its bond
/// to its parent left out.
pub fn lows_of(alloc: Global, graph: &Graph<'_>, forest: &Forest) -> Result<Vec<u32>, AllocError>
    requires { IsForest graph.now.bonds graph.now.atoms forest.now.order.items forest.now.places.items forest.now.parents.items forest.now.roots.items }
    ensures { IfOk result (λ lows. AreLows graph.now.bonds graph.now.atoms forest.now.places.items forest.now.parents.items lows.items graph.now.atoms) }
{
    let count = graph.atom_count() as usize;
    let mut lows = vec![in alloc; 0; count]?;
    for done in 0..count {
        let atom = forest.atom_at(count - 1 - done);
        let low = low_of(graph, forest, &lows, atom);
        lows[atom.0 as usize] = low;
    }
    Ok(lows)
}

/// The least place of one atom, where those of its children are known.
fn low_of(graph: &Graph<'_>, forest: &Forest, lows: &[u32], atom: AtomId) -> u32
    requires atom { atom.0 < graph.now.atoms }
    requires count { length lows.now ≡ graph.now.atoms }
    requires forest { IsForest graph.now.bonds graph.now.atoms forest.now.order.items forest.now.places.items forest.now.parents.items forest.now.roots.items }
    requires children { (c : ℕ) → Parent forest.now.parents.items c atom.0 → LowAt graph.now.bonds forest.now.places.items forest.now.parents.items lows.now c }
    ensures { LowIs graph.now.bonds forest.now.places.items forest.now.parents.items atom.0 result }
{
    let mut low = forest.place(atom);
    for half in graph.half_edges(atom) {
        let next = half_low(graph, forest, lows, atom, half.to);
        low = lesser(low, next);
    }
    low
}

/// What a neighbour adds: a child's least place, or the neighbour's own place; a parent adds nothing.
fn half_low(graph: &Graph<'_>, forest: &Forest, lows: &[u32], atom: AtomId, next: AtomId) -> u32
    requires atom { atom.0 < graph.now.atoms }
    requires next { next.0 < graph.now.atoms }
    requires count { length lows.now ≡ graph.now.atoms }
    requires forest { IsForest graph.now.bonds graph.now.atoms forest.now.order.items forest.now.places.items forest.now.parents.items forest.now.roots.items }
    requires children { (c : ℕ) → Parent forest.now.parents.items c atom.0 → LowAt graph.now.bonds forest.now.places.items forest.now.parents.items lows.now c }
    ensures { HalfLow graph.now.bonds forest.now.places.items forest.now.parents.items atom.0 next.0 result }
{
    if forest.is_child(next, atom) {
        lows[next.0 as usize]
    } else if forest.is_child(atom, next) {
        forest.place(atom)
    } else {
        forest.place(next)
    }
}

fn lesser(a: u32, b: u32) -> u32
    ensures first { result ≤ a }
    ensures second { result ≤ b }
    ensures either { (result ≡ a) ⊎ (result ≡ b) }
{
    if b < a { b } else { a }
}

/// Whether a bond leads from the atom or a descendant of it to an atom that was found before its parent.
pub fn rises(graph: &Graph<'_>, forest: &Forest, lows: &[u32], atom: AtomId, parent: AtomId) -> bool
    requires forest { IsForest graph.now.bonds graph.now.atoms forest.now.order.items forest.now.places.items forest.now.parents.items forest.now.roots.items }
    requires lows { AreLows graph.now.bonds graph.now.atoms forest.now.places.items forest.now.parents.items lows.now graph.now.atoms }
    requires parent { Parent forest.now.parents.items atom.0 parent.0 }
    ensures { IsTrue result ↔ Rises graph.now.bonds forest.now.places.items forest.now.parents.items atom.0 parent.0 }
{
    lows[atom.0 as usize] < forest.place(parent)
}
