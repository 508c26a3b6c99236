use crate::block_order::block_order;
use crate::block_tree::{block_tree, bond_blocks};
use crate::sizes::ring_sizes;
use mc_base::{AtomId, BondId, NoMemory};
use mc_mol::{Mol, forest_of, lows_of};
use std::alloc::Global;
use std::marker::Model;

/// The rings of a molecule. They are found once, and then looked up.
#[derive(Drop)]
pub struct Rings {
    sizes: Vec<Option<u32>>,
    blocks: Vec<u32>,
    independent: u32,
    order: Vec<AtomId>,
    firsts: Vec<AtomId>,
    above: Vec<Option<u32>>,
}

impl Model for Rings {
    ghost use Rattle.std.specs.Prelude.{◌≤◌, length};
    ghost use Rattle.mc_mol.specs.declared.limits.TheConstants.{ATOM_LIMIT};
    ghost use Rattle.mc_rings.specs.Rings.{RingList};

    ghost Value = { RingList };

    ghost view = { λ r. record { sizes = r.sizes.items; blocks = r.blocks.items; independent = r.independent; order = r.order.items; firsts = r.firsts.items; above = r.above.items } };

    ghost invariant = { λ r. length r.firsts.items ≤ ATOM_LIMIT };
}

impl Rings {
    ghost use Rattle.std.specs.Prelude.{◌≡◌, ◌<◌, ◌↔◌, length, IfOk, IsTrue, Some, None, slice_get};
    ghost use Rattle.mc_rings.specs.Rings.{AreRingsOf};
    ghost use Rattle.mc_rings.specs.Centres.{lies_in_no_ring};
    ghost use Rattle.mc_rings.specs.SidePlaces.{size_allows_sides};

    /// The rings of this molecule.
    pub fn of(alloc: Global, mol: &Mol) -> Result<Rings, NoMemory>
        ensures { IfOk result (λ rings. AreRingsOf mol.now rings) }
    {
        let graph = mol.graph();
        let forest = forest_of(alloc, &graph)?;
        let lows = lows_of(alloc, &graph, &forest)?;
        let tree = block_tree(alloc, &graph, &forest, &lows)?;
        let blocks = bond_blocks(alloc, &graph, &forest, &tree)?;
        let sizes = ring_sizes(alloc, mol, &blocks, tree.firsts.len())?;
        let independent = forest.independent_rings(&graph);
        let order = block_order(alloc, &forest, &tree)?;
        Ok(Rings {
            sizes,
            blocks,
            independent,
            order,
            firsts: tree.firsts,
            above: tree.above,
        })
    }

    /// The block number of a bond.
    pub fn block(&self, b: BondId) -> u32
        requires { b.0 < length self.now.blocks }
        ensures { slice_get self.now.blocks b.0 ≡ Some result }
    {
        self.blocks[b.0 as usize]
    }

    /// The atoms block by block.
    pub fn order(&self) -> &[AtomId]
        ensures { result.now ≡ self.now.order }
    {
        &self.order
    }

    /// The number of blocks: each block number is less.
    pub fn block_count(&self) -> u32
        ensures { result ≡ length self.now.firsts }
    {
        self.firsts.len() as u32
    }

    /// The first atom of a block.
    pub fn first_of(&self, block: u32) -> AtomId
        requires { block < length self.now.firsts }
        ensures { slice_get self.now.firsts block ≡ Some result }
    {
        self.firsts[block as usize]
    }

    /// The block above an atom; none where the atom is the first of its connected part in the order.
    pub fn block_above(&self, a: AtomId) -> Option<u32>
        requires { a.0 < length self.now.above }
        ensures { slice_get self.now.above a.0 ≡ Some result }
    {
        self.above[a.0 as usize]
    }

    /// The number of bonds less the number of atoms plus the number of connected parts.
    pub fn independent(&self) -> u32
        ensures { result ≡ self.now.independent }
    {
        self.independent
    }

    /// The number of bonds of the least closed path through a bond, or none.
    pub fn ring_size(&self, b: BondId) -> Option<u32>
        requires { b.0 < length self.now.sizes }
        ensures { slice_get self.now.sizes b.0 ≡ Some result }
    {
        self.sizes[b.0 as usize]
    }

    /// Whether a bond lies in no ring.
    pub fn is_bridge(&self, b: BondId) -> bool
        requires { b.0 < length self.now.sizes }
        ensures { IsTrue result ↔ (slice_get self.now.sizes b.0 ≡ Some None) }
    {
        self.sizes[b.0 as usize].is_none()
    }

    /// Whether there is such a bond and it lies in no ring.
    pub(crate) fn lies_in_no_ring(&self, b: BondId) -> bool
        ensures { result ≡ lies_in_no_ring self.now.sizes b.0 }
    {
        match self.sizes.get(b.0 as usize) {
            Some(None) => true,
            _ => false,
        }
    }

    /// Whether there is such a bond and it lies in no ring, or in one of at least eight bonds.
    pub(crate) fn size_allows_sides(&self, b: BondId) -> bool
        ensures { result ≡ size_allows_sides (slice_get self.now.sizes b.0) }
    {
        match self.sizes.get(b.0 as usize) {
            Some(None) => true,
            Some(Some(size)) => 8 <= *size,
            None => false,
        }
    }
}
