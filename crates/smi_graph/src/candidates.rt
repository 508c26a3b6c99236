//! Which bonds may be double though no symbol says so.

ghost use Rattle.std.specs.List.{filter};
ghost use Rattle.std.specs.Prelude.{◌≡◌, ◌≤◌, ℕ, true, false, length, map, IfOk};
ghost use Rattle.mc_mol.specs.declared.limits.TheConstants.{ATOM_LIMIT, BOND_LIMIT};
ghost use Rattle.mc_mol.specs.declared.parts.Bond.{Bond as Joining};
ghost use Rattle.smi_graph.specs.Candidates.{is_lower, joins_lower, is_unmarked_or_aromatic, is_lower_bond, lower_bonds, marked, AreCandidates};
ghost use Rattle.smi_graph.specs.Links.{bond_of};
ghost use Rattle.smi_graph.specs.Skeletons.{AreBonds};
ghost use Rattle.smi_graph.specs.Spreading.{spread, AreOnPaths};

use crate::{SkelAtom, TextBond};
use mc_base::AtomId;
use mc_mol::{Adjacency, Bond, Graph, bonds_on_closed_paths};
use smi_lex::BondMark;
use std::alloc::{AllocError, Global};

fn is_lower(atoms: &[SkelAtom], a: AtomId) -> bool
    ensures { result ≡ is_lower atoms.now a.0 }
{
    match atoms.get(a.0 as usize) {
        Some(atom) => atom.lower,
        None => false,
    }
}

/// Whether both ends of a bond are in lower case.
pub fn joins_lower(atoms: &[SkelAtom], bond: TextBond) -> bool
    ensures { result ≡ joins_lower atoms.now bond }
{
    is_lower(atoms, bond.first) && is_lower(atoms, bond.second)
}

fn is_unmarked_or_aromatic(mark: Option<BondMark>) -> bool
    ensures { result ≡ is_unmarked_or_aromatic mark }
{
    match mark {
        None | Some(BondMark::Aromatic) => true,
        Some(
            BondMark::Single
            | BondMark::Double
            | BondMark::Triple
            | BondMark::Quadruple
            | BondMark::Slash
            | BondMark::Backslash,
        ) => false,
    }
}

fn is_lower_bond(atoms: &[SkelAtom], bond: TextBond) -> bool
    ensures { result ≡ is_lower_bond atoms.now bond }
{
    is_unmarked_or_aromatic(bond.symbol()) && joins_lower(atoms, bond)
}

/// The unmarked and `:` bonds between lower-case atoms.
fn lower_bonds(
    alloc: Global,
    atoms: &[SkelAtom],
    bonds: &[TextBond],
) -> Result<Vec<Bond>, AllocError>
    ensures { IfOk result (λ found. found.items ≡ lower_bonds atoms.now bonds.now) }
{
    let mut found = Vec::new(alloc);
    for bond in bonds {
        if is_lower_bond(atoms, *bond) {
            found.push(bond.bond())?;
        }
    }
    Ok(found)
}

/// For each bond whether it lies on a closed path of them.
fn lie_on_closed_paths(alloc: Global, atoms: usize, bonds: &[Bond]) -> Result<Vec<bool>, AllocError>
    requires few_atoms { atoms ≤ ATOM_LIMIT }
    requires few_bonds { length bonds.now ≤ BOND_LIMIT }
    requires sound { AreBonds atoms bonds.now }
    ensures { IfOk result (λ marks. AreOnPaths bonds.now marks.items) }
{
    let adjacency = Adjacency::of_bonds(alloc, atoms, bonds)?;
    let graph = Graph::new(bonds, &adjacency.lists);
    bonds_on_closed_paths(alloc, &graph)
}

/// Whether a list marks a bond; it marks none behind it.
pub fn is_marked(marks: &[bool], k: usize) -> bool
    ensures { result ≡ marked marks.now k }
{
    match marks.get(k) {
        Some(mark) => *mark,
        None => false,
    }
}

/// The marks of the unmarked and `:` bonds between lower-case atoms, put at their places among all bonds.
fn spread(
    alloc: Global,
    atoms: &[SkelAtom],
    bonds: &[TextBond],
    marks: &[bool],
) -> Result<Vec<bool>, AllocError>
    ensures { IfOk result (λ found. found.items ≡ spread (is_lower_bond atoms.now) bonds.now marks.now 0) }
{
    let mut found = Vec::with_capacity(alloc, bonds.len())?;
    let mut next = 0usize;
    for bond in bonds {
        let is_one = is_lower_bond(atoms, *bond);
        found.push_reserved(is_one && is_marked(marks, next));
        next += is_one as usize;
    }
    Ok(found)
}

/// For each bond whether it is a candidate. `are_plain` says that no atom is in lower case, and then there is none.
#[tactic(auto, using(crate::proofs::CandidateMarks::few_lower, crate::proofs::CandidateMarks::none_are))]
pub fn candidates(
    alloc: Global,
    atoms: &[SkelAtom],
    bonds: &[TextBond],
    are_plain: bool,
) -> Result<Vec<bool>, AllocError>
    requires few_atoms { length atoms.now ≤ ATOM_LIMIT }
    requires few_bonds { length bonds.now ≤ BOND_LIMIT }
    requires sound { AreBonds (length atoms.now) (map bond_of bonds.now) }
    requires plain { are_plain ≡ true → (k : ℕ) → is_lower atoms.now k ≡ false }
    ensures { IfOk result (λ found. AreCandidates atoms.now bonds.now found.items) }
{
    if are_plain {
        return Ok(Vec::new(alloc));
    }
    let lower = lower_bonds(alloc, atoms, bonds)?;
    let on_paths = lie_on_closed_paths(alloc, atoms.len(), &lower)?;
    let found = spread(alloc, atoms, bonds, &on_paths)?;
    Ok(found)
}
