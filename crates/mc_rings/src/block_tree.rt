ghost use Rattle.std.specs.Prelude.{◌≡◌, ◌<◌, ◌≤◌, ℕ, true, length, slice_get, IfOk, Some};
ghost use Rattle.mc_mol.specs.Molecule.{are_joined};
ghost use Rattle.mc_rings.specs.Counts.{AreBelow};
ghost use Rattle.mc_mol.specs.Forests.{IsForest, IsLater};
ghost use Rattle.mc_rings.specs.Rings.{AreBlocks};
ghost use Rattle.mc_mol.specs.declared.limits.TheConstants.{ATOM_LIMIT};
ghost use Rattle.mc_mol.specs.Lows.{AreLows};
ghost use Rattle.mc_rings.specs.Blocks.{Blocked, BlockOf, LowerEnd};

use mc_base::{AtomId, BondId, NoMemory};
use mc_mol::{Bond, Forest, Graph, rises};
use std::alloc::Global;

/// The blocks of a molecule, as they hang one below the other.
#[derive(Drop)]
pub struct BlockTree {
    /// for each block the atom whose bond to its parent is the block's first
    pub heads: Vec<AtomId>,
    /// for each block its first atom
    pub firsts: Vec<AtomId>,
    /// for each atom the block of the bond to its parent
    pub above: Vec<Option<u32>>,
}

impl BlockTree {
    ghost use Rattle.std.specs.Prelude.{◌≡◌, ◌+◌, ◌<◌, ◌≤◌, [], ℕ, Bool, length, slice_get, replicate, None, Some, OnOk, IfOk};
    ghost use Rattle.mc_mol.specs.Numbered.{Mark};
    ghost use Rattle.mc_mol.specs.Forests.{IsForest};
    ghost use Rattle.mc_mol.specs.declared.limits.TheConstants.{ATOM_LIMIT};
    ghost use Rattle.mc_mol.specs.Lows.{AreLows};
    ghost use Rattle.mc_rings.specs.Blocks.{Blocked, Begins};

    fn new(alloc: Global, count: usize) -> Result<BlockTree, NoMemory>
        ensures heads { IfOk result (λ tree. tree.heads.items ≡ []) }
        ensures firsts { IfOk result (λ tree. tree.firsts.items ≡ []) }
        ensures above { IfOk result (λ tree. tree.above.items ≡ replicate count None) }
    {
        let above = vec![in alloc; None; count]?;
        Ok(BlockTree {
            heads: Vec::new(alloc),
            firsts: Vec::new(alloc),
            above,
        })
    }

    /// The block of the bond to the parent, or none.
    pub fn above(&self, atom: AtomId) -> Option<u32>
        requires { atom.0 < length self.now.above.items }
        ensures { slice_get self.now.above.items atom.0 ≡ Some result }
    {
        self.above[atom.0 as usize]
    }

    /// The block of the bond between an atom and its parent.
    fn block_below(&mut self, atom: AtomId, parent: AtomId, rises: bool) -> Result<u32, NoMemory>
        requires parent { parent.0 < length self.old.above.items }
        requires few { length self.old.heads.items ≤ ATOM_LIMIT }
        ensures above { self.new.above.items ≡ self.old.above.items }
        ensures block { IfOk result (λ k. Begins self.old.heads.items self.old.firsts.items self.new.heads.items self.new.firsts.items self.old.above.items atom parent rises k) }
    {
        match self.above(parent) {
            Some(block) if rises => Ok(block),
            _ => {
                let block = self.heads.len() as u32;
                self.heads.push(atom)?;
                self.firsts.push(parent)?;
                Ok(block)
            }
        }
    }

    /// Finds the block of the next atom of the order.
    fn add(
        &mut self,
        graph: &Graph<'_>,
        forest: &Forest,
        lows: &[u32],
        atom: AtomId,
    ) -> Result<(), NoMemory>
        requires few { graph.now.atoms ≤ ATOM_LIMIT }
        requires forest { IsForest graph.now.bonds graph.now.atoms forest.now.order.items forest.now.places.items forest.now.parents.items forest.now.roots.items }
        requires lows { AreLows graph.now.bonds graph.now.atoms forest.now.places.items forest.now.parents.items lows.now graph.now.atoms }
        requires place { (i : ℕ) × (Mark forest.now.places.items atom.0 i) × (Blocked graph.now.bonds graph.now.atoms forest.now.places.items forest.now.parents.items self.old.heads.items self.old.firsts.items self.old.above.items i) }
        ensures { OnOk result ((i : ℕ) → Mark forest.now.places.items atom.0 i → Blocked graph.now.bonds graph.now.atoms forest.now.places.items forest.now.parents.items self.old.heads.items self.old.firsts.items self.old.above.items i → Blocked graph.now.bonds graph.now.atoms forest.now.places.items forest.now.parents.items self.new.heads.items self.new.firsts.items self.new.above.items (i + 1)) }
    {
        match forest.parent(atom) {
            None => Ok(()),
            Some(parent) => {
                let rises = rises(graph, forest, lows, atom, parent);
                let block = self.block_below(atom, parent, rises)?;
                self.above[atom.0 as usize] = Some(block);
                Ok(())
            }
        }
    }
}

/// The blocks that a depth-first search finds.
pub fn block_tree(
    alloc: Global,
    graph: &Graph<'_>,
    forest: &Forest,
    lows: &[u32],
) -> Result<BlockTree, NoMemory>
    requires forest { IsForest graph.now.bonds graph.now.atoms forest.now.order.items forest.now.places.items forest.now.parents.items forest.now.roots.items }
    requires lows { AreLows graph.now.bonds graph.now.atoms forest.now.places.items forest.now.parents.items lows.now graph.now.atoms }
    ensures blocked { IfOk result (λ tree. Blocked graph.now.bonds graph.now.atoms forest.now.places.items forest.now.parents.items tree.heads.items tree.firsts.items tree.above.items graph.now.atoms) }
    ensures few { IfOk result (λ tree. length tree.firsts.items ≤ ATOM_LIMIT) }
{
    let count = graph.atom_count() as usize;
    let mut tree = BlockTree::new(alloc, count)?;
    for done in 0..count {
        let atom = forest.atom_at(done);
        tree.add(graph, forest, lows, atom)?;
    }
    Ok(tree)
}

/// The block of each bond.
pub fn bond_blocks(
    alloc: Global,
    graph: &Graph<'_>,
    forest: &Forest,
    tree: &BlockTree,
) -> Result<Vec<u32>, NoMemory>
    requires forest { IsForest graph.now.bonds graph.now.atoms forest.now.order.items forest.now.places.items forest.now.parents.items forest.now.roots.items }
    requires tree { Blocked graph.now.bonds graph.now.atoms forest.now.places.items forest.now.parents.items tree.now.heads.items tree.now.firsts.items tree.now.above.items graph.now.atoms }
    ensures are { IfOk result (λ blocks. AreBlocks graph.now.bonds blocks.items) }
    ensures below { IfOk result (λ blocks. AreBelow blocks.items (length tree.now.firsts.items)) }
    ensures each { IfOk result (λ blocks. (k : ℕ) (bond : Bond) (block : ℕ) → slice_get graph.now.bonds k ≡ Some bond → slice_get blocks.items k ≡ Some block → BlockOf forest.now.places.items tree.now.above.items bond.first.0 bond.second.0 block) }
{
    let mut blocks = Vec::new(alloc);
    for k in 0..graph.bond_count() {
        blocks.push(bond_block(graph, forest, tree, BondId(k)))?;
    }
    Ok(blocks)
}

/// The block of a bond is that of its end that was found later.
fn bond_block(graph: &Graph<'_>, forest: &Forest, tree: &BlockTree, b: BondId) -> u32
    requires bond { b.0 < length graph.now.bonds }
    requires forest { IsForest graph.now.bonds graph.now.atoms forest.now.order.items forest.now.places.items forest.now.parents.items forest.now.roots.items }
    requires tree { Blocked graph.now.bonds graph.now.atoms forest.now.places.items forest.now.parents.items tree.now.heads.items tree.now.firsts.items tree.now.above.items graph.now.atoms }
    ensures { (bond : Bond) → slice_get graph.now.bonds b.0 ≡ Some bond → BlockOf forest.now.places.items tree.now.above.items bond.first.0 bond.second.0 result }
{
    let bond = graph.bond(b);
    if forest.place(bond.first) < forest.place(bond.second) {
        lower_block(graph, forest, tree, bond.first, bond.second)
    } else {
        lower_block(graph, forest, tree, bond.second, bond.first)
    }
}

/// The block of the bond between an atom and one that was found later.
fn lower_block(
    graph: &Graph<'_>,
    forest: &Forest,
    tree: &BlockTree,
    upper: AtomId,
    lower: AtomId,
) -> u32
    requires joined { are_joined graph.now.bonds upper.0 lower.0 ≡ true }
    requires forest { IsForest graph.now.bonds graph.now.atoms forest.now.order.items forest.now.places.items forest.now.parents.items forest.now.roots.items }
    requires tree { Blocked graph.now.bonds graph.now.atoms forest.now.places.items forest.now.parents.items tree.now.heads.items tree.now.firsts.items tree.now.above.items graph.now.atoms }
    requires later { IsLater forest.now.places.items upper.0 lower.0 }
    ensures { LowerEnd forest.now.places.items tree.now.above.items upper.0 lower.0 result }
{
    match tree.above(lower) {
        Some(block) => block,
        None => unreachable!(),
    }
}
