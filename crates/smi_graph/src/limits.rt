ghost use Rattle.std.specs.List.{list_all};
ghost use Rattle.std.specs.Prelude.{◌≡◌, map, ◌<◌, ◌≤◌, ◌^◌, ◌-◌, IfOk, IfSome, IfNone, length, slice_get};
ghost use Rattle.mc_base.specs.declared.span.Span.{Span as Part};
ghost use Rattle.mc_mol.specs.declared.limits.TheConstants.{ATOM_LIMIT, BOND_LIMIT, RING_LIMIT};
ghost use Rattle.mc_mol.specs.Parts.{independent_rings};
ghost use Rattle.smi_graph.specs.Faults.{IsFirstFault};
ghost use Rattle.smi_graph.specs.Firsts.{IsFirstOf};
ghost use Rattle.smi_graph.specs.Links.{bond_of};
ghost use Rattle.smi_graph.specs.Reading.{held_atom, is_within_limits};
ghost use Rattle.smi_graph.specs.Roles.{atom_of};
ghost use Rattle.smi_graph.specs.Rules.{fails, has_high_isotope, has_high_class, has_high_charge, BeyondAt};
ghost use Rattle.smi_graph.specs.Skeletons.{AreBonds};

use crate::first_faults::Fault;
use crate::{SkelAtom, TextBond, bonds_with_orders};
use mc_base::Kind;
use mc_mol::{
    ATOM_LIMIT, BOND_LIMIT, CHARGE_LIMIT, CLASS_LIMIT, ISOTOPE_LIMIT, RING_LIMIT, independent_rings,
};
use smi_lex::TokenKind;
use std::alloc::{AllocError, Global};

/// The first atom whose isotope is above the limit.
fn first_high_isotope(atoms: &[SkelAtom]) -> Option<usize>
    ensures { IsFirstOf (λ k. fails has_high_isotope (slice_get atoms.now k)) (length atoms.now) result }
{
    atoms.iter().position(|atom| atom.isotope > ISOTOPE_LIMIT)
}

/// The first atom whose class is above the limit.
fn first_high_class(atoms: &[SkelAtom]) -> Option<usize>
    ensures { IsFirstOf (λ k. fails has_high_class (slice_get atoms.now k)) (length atoms.now) result }
{
    atoms.iter().position(|atom| atom.class > CLASS_LIMIT)
}

/// The first atom whose charge is beyond the limit.
fn first_high_charge(atoms: &[SkelAtom]) -> Option<usize>
    ensures { IsFirstOf (λ k. fails has_high_charge (slice_get atoms.now k)) (length atoms.now) result }
{
    atoms
        .iter()
        .position(|atom| atom.charge.unsigned_abs() > CHARGE_LIMIT)
}

/// Whether the values of the atom that a token is are within their limits.
#[inline(always)]
pub fn is_within(kind: TokenKind) -> bool
    ensures { (span : Part) → result ≡ list_all is_within_limits (map held_atom (atom_of kind span)) }
{
    match kind {
        TokenKind::Bracket {
            isotope,
            charge,
            class,
            ..
        } => isotope <= ISOTOPE_LIMIT as u32
            && class <= CLASS_LIMIT as u32
            && charge.unsigned_abs() <= CHARGE_LIMIT,
        TokenKind::Bare { .. }
        | TokenKind::Bond(_)
        | TokenKind::Ring(_)
        | TokenKind::Enter
        | TokenKind::Leave
        | TokenKind::Dot => true,
    }
}

/// The number of independent rings where it is above the limit.
fn rings_above(
    alloc: Global,
    atoms: &[SkelAtom],
    bonds: &[TextBond],
) -> Result<Option<u32>, AllocError>
    requires sound { AreBonds (length atoms.now) (map bond_of bonds.now) }
    requires few_atoms { length atoms.now ≤ ATOM_LIMIT }
    requires few_bonds { length bonds.now ≤ BOND_LIMIT }
    ensures above { IfOk result (λ found. IfSome found (λ rings. (rings ≡ independent_rings (map bond_of bonds.now) (length atoms.now)) × (RING_LIMIT < rings))) }
    ensures few { IfOk result (λ found. IfNone found (independent_rings (map bond_of bonds.now) (length atoms.now) ≤ RING_LIMIT)) }
{
    // no more rings than bonds
    if bonds.len() <= RING_LIMIT as usize {
        return Ok(None);
    }
    let bonds = bonds_with_orders(alloc, bonds)?;
    let rings = independent_rings(alloc, &bonds, atoms.len() as u32)?;
    if rings > RING_LIMIT {
        Ok(Some(rings))
    } else {
        Ok(None)
    }
}

/// The first limit that these atoms and bonds exceed; its place is the number, or an atom from 1. `are_within`
/// says that the values of all atoms are within theirs, as those of nearly all texts are.
pub fn limit_fault(
    alloc: Global,
    atoms: &[SkelAtom],
    bonds: &[TextBond],
    are_within: bool,
) -> Result<Option<Fault>, AllocError>
    requires sound { AreBonds (length atoms.now) (map bond_of bonds.now) }
    requires few_atoms { length atoms.now < 2 ^ 32 - 1 }
    requires few_bonds { length bonds.now < 2 ^ 32 - 1 }
    requires within { are_within ≡ list_all is_within_limits atoms.now }
    ensures { IfOk result (IsFirstFault (BeyondAt atoms.now (map bond_of bonds.now))) }
{
    if atoms.len() > ATOM_LIMIT {
        return Ok(Some(Fault {
            kind: Kind::LimitAtoms,
            place: atoms.len() as u32,
        }));
    }
    if bonds.len() > BOND_LIMIT {
        return Ok(Some(Fault {
            kind: Kind::LimitBonds,
            place: bonds.len() as u32,
        }));
    }
    if let Some(rings) = rings_above(alloc, atoms, bonds)? {
        return Ok(Some(Fault {
            kind: Kind::LimitRings,
            place: rings,
        }));
    }
    if are_within {
        return Ok(None);
    }
    if let Some(k) = first_high_isotope(atoms) {
        return Ok(Some(Fault {
            kind: Kind::LimitIsotope,
            place: k as u32 + 1,
        }));
    }
    if let Some(k) = first_high_class(atoms) {
        return Ok(Some(Fault {
            kind: Kind::LimitClass,
            place: k as u32 + 1,
        }));
    }
    if let Some(k) = first_high_charge(atoms) {
        return Ok(Some(Fault {
            kind: Kind::LimitCharge,
            place: k as u32 + 1,
        }));
    }
    Ok(None)
}
