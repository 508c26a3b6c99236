ghost use Rattle.std.specs.List.{list_all};
ghost use Rattle.std.specs.Prelude.{◌≡◌, ◌<◌, ◌≤◌, All, IfOk, length, nat_le, true};
ghost use Rattle.mc_mol.specs.declared.limits.TheConstants.{ATOM_LIMIT};
ghost use Rattle.mc_mol.specs.WellFormed.{IsMolecule};
ghost use Rattle.smi_mean.specs.Sound.{IsSound};
ghost use Rattle.smi_mean.specs.Written.{written_text, written_order};
ghost use Rattle.smi_write.specs.CentreMarks.{CentresFit};
ghost use Rattle.smi_write.specs.ReadBack.{IsReadBack};

use crate::order::order;
use crate::text::text_of;
use mc_base::{AtomList, NoMemory, Written};
use mc_mol::Mol;
use std::alloc::Global;

/// The text and the order of any molecule whose centres may be centres, whether or not it is within the limits.
pub fn written_form(alloc: Global, mol: &Mol) -> Result<Written, NoMemory>
    ensures text { IfOk result (λ written. CentresFit mol.now → written.text ≡ written_text mol.now) }
    ensures order { IfOk result (λ written. written.order ≡ written_order mol.now) }
    ensures in_range { IfOk result (λ written. All (λ atom. atom.0 < length mol.now.atoms) written.order) }
    ensures molecule { IsMolecule mol.now }
{
    let written = order(alloc, mol)?;
    let text = text_of(alloc, mol, &written)?;
    Ok(Written {
        text,
        order: AtomList::from_vec(written.atoms),
    })
}

/// The one text in which a molecule is written, and its atoms in the order in which they stand in it.
pub fn write_smiles(alloc: Global, mol: &Mol) -> Result<Written, NoMemory>
    requires { IsSound mol.now }
    ensures text { IfOk result (λ written. written.text ≡ written_text mol.now) }
    ensures order { IfOk result (λ written. written.order ≡ written_order mol.now) }
    ensures in_range { IfOk result (λ written. All (λ atom. atom.0 < length mol.now.atoms) written.order) }
    ensures few { length mol.now.atoms ≤ ATOM_LIMIT }

    // No blank and no line end stands in the text.
    ensures no_blanks { IfOk result (λ written. list_all (λ byte. nat_le 33 byte) written.text ≡ true) }

    // The text stands for the same molecule and for no other.
    ensures reads { IfOk result (λ written. IsReadBack mol.now written.text written.order) }
{
    let written = written_form(alloc, mol)?;
    Ok(written)
}
