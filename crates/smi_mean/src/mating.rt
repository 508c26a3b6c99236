//! What a matching of the needing atoms places, and the atoms of a barrier.

ghost use Rattle.std.specs.Prelude.{◌≡◌, ◌&&◌, ℕ, ◌<◌, ◌≤◌, List, length, map, get_or, false, IfOk};
ghost use Rattle.std.specs.List.{All};
ghost use Rattle.mc_mol.specs.declared.limits.TheConstants.{ATOM_LIMIT, BOND_LIMIT};
ghost use Rattle.match_barrier.specs.Graph.{has};
ghost use Rattle.match_barrier.specs.Barrier.{count};
ghost use Rattle.smi_graph.specs.Candidates.{marked};
ghost use Rattle.smi_mean.specs.Barriers.{number_of};
ghost use Rattle.smi_mean.specs.NeedGraphs.{AreInRange, numbers_from, is_mated, mated_from, is_chosen, chosen};

use crate::need_graph::{is_edge, node_at};
use mc_base::{AtomId, AtomList, BondId, NoMemory};
use mc_mol::Bond;
use smi_graph::Skeleton;
use std::alloc::{AllocError, Global};

/// Whether a bond is between two needing atoms that are mates.
fn is_mated(needs: &[bool], numbers: &[u32], mates: &[u32], bond: Bond) -> bool
    requires first { bond.first.0 < length needs.now }
    requires second { bond.second.0 < length needs.now }
    requires numbers { numbers.now ≡ numbers_from 0 needs.now }
    requires mates { length mates.now ≡ count (length needs.now) (marked needs.now) }
    ensures { result ≡ is_mated needs.now mates.now bond }
{
    if is_edge(needs, bond) {
        let first = node_at(needs, numbers, bond.first.0);
        let second = node_at(needs, numbers, bond.second.0);
        mates[first as usize] == second
    } else {
        false
    }
}

/// The same of a bond that is a candidate, or isn't.
fn is_placed(needs: &[bool], numbers: &[u32], mates: &[u32], candidate: bool, bond: Bond) -> bool
    requires first { bond.first.0 < length needs.now }
    requires second { bond.second.0 < length needs.now }
    requires numbers { numbers.now ≡ numbers_from 0 needs.now }
    requires mates { length mates.now ≡ count (length needs.now) (marked needs.now) }
    ensures { result ≡ (candidate && is_mated needs.now mates.now bond) }
{
    candidate && is_mated(needs, numbers, mates, bond)
}

/// Of each bond whether it is a candidate between mates.
pub fn mated(
    alloc: Global,
    skeleton: &Skeleton,
    needs: &[bool],
    numbers: &[u32],
    mates: &[u32],
    bonds: &[Bond],
) -> Result<Vec<bool>, AllocError>
    requires numbers { numbers.now ≡ numbers_from 0 needs.now }
    requires mates { length mates.now ≡ count (length needs.now) (marked needs.now) }
    requires in_range { AreInRange (length needs.now) bonds.now }
    requires few { length bonds.now ≤ BOND_LIMIT }
    ensures { IfOk result (λ placed. placed.items ≡ mated_from needs.now mates.now skeleton.now.candidates 0 bonds.now) }
{
    let mut placed = Vec::with_capacity(alloc, bonds.len())?;
    for (k, bond) in bonds.iter().enumerate() {
        let candidate = skeleton.is_candidate(BondId(k as u32));
        placed.push_reserved(is_placed(needs, numbers, mates, candidate, *bond));
    }
    Ok(placed)
}

/// Of each of n numbers whether it is in the set.
fn flags(alloc: Global, n: u32, set: &[u32]) -> Result<Vec<bool>, AllocError>
    requires { All (λ v. v < n) set.now }
    ensures length { IfOk result (λ flags. length flags.items ≡ n) }
    ensures flags { IfOk result (λ flags. (v : ℕ) → v < n → get_or flags.items v false ≡ has set.now v) }
{
    let mut flags = vec![in alloc; false; n as usize]?;
    for v in set {
        flags[*v as usize] = true;
    }
    Ok(flags)
}

/// Whether an atom needs a double bond and its node is in the set.
fn is_chosen(needs: &[bool], numbers: &[u32], flags: &[bool], k: u32) -> bool
    requires below { k < length needs.now }
    requires numbers { numbers.now ≡ numbers_from 0 needs.now }
    requires flags { length flags.now ≡ count (length needs.now) (marked needs.now) }
    ensures { (set : List ℕ) → ((v : ℕ) → v < length flags.now → get_or flags.now v false ≡ has set v) → result ≡ is_chosen needs.now set k }
{
    if needs[k as usize] {
        let node = node_at(needs, numbers, k);
        flags[node as usize]
    } else {
        false
    }
}

/// The atoms of a set of nodes, in increasing order.
pub fn chosen(
    alloc: Global,
    needs: &[bool],
    numbers: &[u32],
    nodes: u32,
    set: &[u32],
) -> Result<AtomList, NoMemory>
    requires few { length needs.now ≤ ATOM_LIMIT }
    requires numbers { numbers.now ≡ numbers_from 0 needs.now }
    requires nodes { nodes ≡ count (length needs.now) (marked needs.now) }
    requires in_range { All (λ v. v < nodes) set.now }
    ensures { IfOk result (λ atoms. map number_of atoms ≡ chosen needs.now set.now) }
{
    let flags = flags(alloc, nodes, set)?;
    let mut atoms = AtomList::new(alloc);
    for k in 0..needs.len() {
        if is_chosen(needs, numbers, &flags, k as u32) {
            atoms.push(AtomId(k as u32))?;
        }
    }
    Ok(atoms)
}
