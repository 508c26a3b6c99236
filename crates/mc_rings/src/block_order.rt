ghost use Rattle.std.specs.Prelude.{◌≡◌, ℕ, length, slice_get, IfOk};
ghost use Rattle.std.specs.List.Sorted.{IsPermutation, IsNonDecreasingBy};
ghost use Rattle.mc_rings.specs.Blocks.{block_key};

use crate::block_tree::BlockTree;
use mc_base::{AtomId, NoMemory};
use mc_mol::Forest;
use std::alloc::Global;

/// The atoms block by block, those without a block above them first.
pub fn block_order(
    alloc: Global,
    forest: &Forest,
    tree: &BlockTree,
) -> Result<Vec<AtomId>, NoMemory>
    ensures permuted { IfOk result (λ order. IsPermutation forest.now.order.items order.items) }
    ensures sorted { IfOk result (λ order. IsNonDecreasingBy (λ atom. block_key (slice_get tree.now.above.items atom.0)) order.items) }
{
    let mut order = copied(alloc, &forest.order)?;
    order.sort_unstable_by_key(|atom| block_key(tree, *atom));
    Ok(order)
}

fn copied(alloc: Global, atoms: &[AtomId]) -> Result<Vec<AtomId>, NoMemory>
    ensures { IfOk result (λ copy. copy.items ≡ atoms.now) }
{
    let mut copy = Vec::new(alloc);
    for atom in atoms {
        copy.push(*atom)?;
    }
    Ok(copy)
}

fn block_key(tree: &BlockTree, atom: AtomId) -> u64
    ensures { result ≡ block_key (slice_get tree.now.above.items atom.0) }
{
    match tree.above.get(atom.0 as usize) {
        Some(Some(block)) => *block as u64 + 1,
        _ => 0,
    }
}
