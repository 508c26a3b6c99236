ghost use Rattle.std.specs.Prelude.{◌≡◌, ◌<◌, ◌≤◌, ℕ, Option, Some, length, slice_get, IfOk};
ghost use Rattle.mc_rings.specs.RingSizes.{RingSizeAt};
ghost use Rattle.mc_rings.specs.Rings.{AreBlocks};
ghost use Rattle.mc_rings.specs.Counts.{AreBelow, Counted};

use crate::search::distances;
use mc_base::{BondId, NoMemory};
use mc_mol::Mol;
use std::alloc::Global;

/// The least length of a closed path through a bond, or none.
pub fn ring_size_of(alloc: Global, mol: &Mol, b: BondId) -> Result<Option<u32>, NoMemory>
    requires { b.0 < length mol.now.bonds }
    ensures { IfOk result (λ size. RingSizeAt mol.now.bonds b.0 size) }
{
    let bond = mol.bond(b);
    let marks = distances(alloc, mol, bond)?;
    match marks[bond.second.0 as usize] {
        None => Ok(None),
        Some(steps) => Ok(Some(steps + 1)),
    }
}

/// The ring size of each bond. A bond that is alone in its block lies in no ring, and no search is made for it.
pub fn ring_sizes(
    alloc: Global,
    mol: &Mol,
    blocks: &[u32],
    block_count: usize,
) -> Result<Vec<Option<u32>>, NoMemory>
    requires blocks { AreBlocks mol.now.bonds blocks.now }
    requires below { AreBelow blocks.now block_count }
    ensures count { IfOk result (λ sizes. length sizes.items ≡ length mol.now.bonds) }
    ensures sizes { IfOk result (λ sizes. (k : ℕ) (size : Option ℕ) → slice_get sizes.items k ≡ Some size → RingSizeAt mol.now.bonds k size) }
{
    let counts = bond_counts(alloc, blocks, block_count)?;
    let mut sizes = Vec::new(alloc);
    for k in 0..mol.bond_count() {
        let size = size_in_block(alloc, mol, blocks, &counts, BondId(k))?;
        sizes.push(size)?;
    }
    Ok(sizes)
}

/// The ring size of a bond, where the number of bonds of its block is known.
fn size_in_block(
    alloc: Global,
    mol: &Mol,
    blocks: &[u32],
    counts: &[u32],
    b: BondId,
) -> Result<Option<u32>, NoMemory>
    requires bond { b.0 < length mol.now.bonds }
    requires blocks { AreBlocks mol.now.bonds blocks.now }
    requires below { AreBelow blocks.now (length counts.now) }
    requires counts { Counted blocks.now counts.now (length blocks.now) }
    ensures { IfOk result (λ size. RingSizeAt mol.now.bonds b.0 size) }
{
    let block = blocks[b.0 as usize];
    if counts[block as usize] < 2 {
        return Ok(None);
    }
    let size = ring_size_of(alloc, mol, b)?;
    Ok(size)
}

/// For each block whether it has no bond, one or more.
fn bond_counts(alloc: Global, blocks: &[u32], block_count: usize) -> Result<Vec<u32>, NoMemory>
    requires { AreBelow blocks.now block_count }
    ensures length { IfOk result (λ counts. length counts.items ≡ block_count) }
    ensures counts { IfOk result (λ counts. Counted blocks.now counts.items (length blocks.now)) }
{
    let mut counts = vec![in alloc; 0; block_count]?;
    for k in 0..blocks.len() {
        let block = blocks[k] as usize;
        counts[block] = one_more(counts[block]);
    }
    Ok(counts)
}

fn one_more(count: u32) -> u32
    ensures grows { count ≤ result }
    ensures one { 1 ≤ result }
    ensures two { 1 ≤ count → 2 ≤ result }
{
    if count < 2 { count + 1 } else { count }
}
