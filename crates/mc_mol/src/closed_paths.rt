ghost use Rattle.std.specs.Prelude.{◌≡◌, ◌<◌, ◌↔◌, ℕ, Bool, true, Some, length, slice_get, IfOk, IsTrue};
ghost use Rattle.mc_mol.specs.declared.parts.Bond.{Bond as Joining};
ghost use Rattle.mc_mol.specs.ClosedPaths.{LiesOnClosedPath};
ghost use Rattle.mc_mol.specs.Forests.{IsForest};
ghost use Rattle.mc_mol.specs.Lows.{AreLows};

use crate::Graph;
use crate::forest::{Forest, forest_of};
use crate::lows::lows_of;
use mc_base::BondId;
use std::alloc::{AllocError, Global};

/// For each bond whether it lies on a closed path, in time linear in the atoms and bonds.
pub fn bonds_on_closed_paths(alloc: Global, graph: &Graph<'_>) -> Result<Vec<bool>, AllocError>
    ensures count { IfOk result (λ marks. length marks.items ≡ length graph.now.bonds) }
    ensures each { IfOk result (λ marks. (k : ℕ) (bond : Joining) (lies : Bool) → slice_get graph.now.bonds k ≡ Some bond → slice_get marks.items k ≡ Some lies → (lies ≡ true) ↔ LiesOnClosedPath graph.now.bonds bond) }
{
    let forest = forest_of(alloc, graph)?;
    let lows = lows_of(alloc, graph, &forest)?;
    let mut marks = Vec::new(alloc);
    for k in 0..graph.bond_count() {
        marks.push(lies_on_closed_path(graph, &forest, &lows, BondId(k)))?;
    }
    Ok(marks)
}

/// Whether a bond lies on a closed path: it isn't that of an atom with its parent, or another bond leads past
/// the atom.
fn lies_on_closed_path(graph: &Graph<'_>, forest: &Forest, lows: &[u32], b: BondId) -> bool
    requires bond { b.0 < length graph.now.bonds }
    requires forest { IsForest graph.now.bonds graph.now.atoms forest.now.order.items forest.now.places.items forest.now.parents.items forest.now.roots.items }
    requires lows { AreLows graph.now.bonds graph.now.atoms forest.now.places.items forest.now.parents.items lows.now graph.now.atoms }
    ensures { (bond : Joining) → slice_get graph.now.bonds b.0 ≡ Some bond → IsTrue result ↔ LiesOnClosedPath graph.now.bonds bond }
{
    let bond = graph.bond(b);
    if forest.is_child(bond.second, bond.first) {
        lows[bond.second.0 as usize] < forest.place(bond.second)
    } else if forest.is_child(bond.first, bond.second) {
        lows[bond.first.0 as usize] < forest.place(bond.first)
    } else {
        true
    }
}
