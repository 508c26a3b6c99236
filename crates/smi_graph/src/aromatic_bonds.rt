ghost use Rattle.std.specs.Prelude.{◌≡◌, ℕ, ◌<◌, ◌^◌, ◌-◌, true, false, length, slice_get};
ghost use Rattle.smi_graph.specs.Candidates.{bond_fails, is_aromatic, is_aromatic_at_upper};
ghost use Rattle.smi_graph.specs.Faults.{IsFirstFault};
ghost use Rattle.smi_graph.specs.Firsts.{IsFirstOf};
ghost use Rattle.smi_graph.specs.Rules.{AromaticAt};

use crate::candidates::joins_lower;
use crate::first_faults::Fault;
use crate::{SkelAtom, TextBond};
use mc_base::Kind;
use smi_lex::BondMark;

fn is_aromatic(mark: Option<BondMark>) -> bool
    ensures { result ≡ is_aromatic mark }
{
    matches!(mark, Some(BondMark::Aromatic))
}

fn is_aromatic_at_upper(atoms: &[SkelAtom], bond: TextBond) -> bool
    ensures { result ≡ is_aromatic_at_upper atoms.now bond }
{
    is_aromatic(bond.symbol()) && !joins_lower(atoms, bond)
}

/// The first `:` bond that has an end in upper case.
fn first_at_upper(atoms: &[SkelAtom], bonds: &[TextBond]) -> Option<usize>
    ensures { IsFirstOf (λ k. bond_fails atoms.now (slice_get bonds.now k)) (length bonds.now) result }
{
    for (k, bond) in bonds.iter().enumerate() {
        if is_aromatic_at_upper(atoms, *bond) {
            return Some(k);
        }
    }
    None
}

/// The first `:` bond that has an end in upper case; its place is the bond, from 1. `are_plain` says that no symbol is
/// `:`, as in nearly all texts none is.
pub fn aromatic_fault(atoms: &[SkelAtom], bonds: &[TextBond], are_plain: bool) -> Option<Fault>
    requires few { length bonds.now < 2 ^ 32 - 1 }
    requires plain { are_plain ≡ true → (k : ℕ) → bond_fails atoms.now (slice_get bonds.now k) ≡ false }
    ensures { IsFirstFault (AromaticAt atoms.now bonds.now) result }
{
    if are_plain {
        return None;
    }
    match first_at_upper(atoms, bonds) {
        Some(k) => Some(Fault {
            kind: Kind::AromaticBond,
            place: k as u32 + 1,
        }),
        None => None,
    }
}
