//! The marks that begin at an atom.
ghost use Rattle.std.specs.Prelude.{◌≡◌, get_or};
ghost use Rattle.std.specs.List.{list_any};
ghost use Rattle.ct_sd.specs.declared.table.DrawMark.TheVariants.{Plain};
ghost use Rattle.ct_geometry.specs.Wedges.{begins, carries, is_drawn_as_centre, is_wavy, is_wedge};

use ct_sd::DrawMark;
use mc_base::{AtomId, BondId};
use mc_mol::{HalfEdge, Mol};

/// Up or down.
pub fn is_wedge(mark: DrawMark) -> bool
    ensures { result ≡ is_wedge mark }
{
    match mark {
        DrawMark::Up | DrawMark::Down => true,
        _ => false,
    }
}

pub fn is_wavy(mark: DrawMark) -> bool
    ensures { result ≡ is_wavy mark }
{
    match mark {
        DrawMark::Wavy => true,
        _ => false,
    }
}

pub fn mark_of(marks: &[DrawMark], k: BondId) -> DrawMark
    ensures { result ≡ get_or marks.now k.0 Plain }
{
    match marks.get(k.0 as usize) {
        Some(mark) => *mark,
        None => DrawMark::Plain,
    }
}

/// The mark that begins at the atom, of the bond of one of its half-edges.
pub fn mark_at(mol: &Mol, marks: &[DrawMark], a: AtomId, half: HalfEdge) -> DrawMark
    ensures { result ≡ begins mol.now.bonds marks.now a.0 half.bond.0 }
{
    if half.bond.0 < mol.bond_count() && mol.bond(half.bond).first.0 == a.0 {
        mark_of(marks, half.bond)
    } else {
        DrawMark::Plain
    }
}

/// Whether an up or down bond begins at the atom, by this half-edge.
pub fn carries(mol: &Mol, marks: &[DrawMark], a: AtomId, half: HalfEdge) -> bool
    ensures { result ≡ carries (begins mol.now.bonds marks.now a.0) half }
{
    is_wedge(mark_at(mol, marks, a, half))
}

fn is_wavy_at(mol: &Mol, marks: &[DrawMark], a: AtomId, half: HalfEdge) -> bool
    ensures { result ≡ is_wavy (begins mol.now.bonds marks.now a.0 half.bond.0) }
{
    is_wavy(mark_at(mol, marks, a, half))
}

fn has_wedge(mol: &Mol, marks: &[DrawMark], a: AtomId, halves: &[HalfEdge]) -> bool
    ensures { result ≡ list_any (λ half. carries (begins mol.now.bonds marks.now a.0) half) halves.now }
{
    halves.iter().any(|half| carries(mol, marks, a, *half))
}

fn has_wavy(mol: &Mol, marks: &[DrawMark], a: AtomId, halves: &[HalfEdge]) -> bool
    ensures { result ≡ list_any (λ half. is_wavy (begins mol.now.bonds marks.now a.0 half.bond.0)) halves.now }
{
    halves.iter().any(|half| is_wavy_at(mol, marks, a, *half))
}

/// Whether an up or down bond begins at the atom and no wavy one.
pub fn is_drawn_as_centre(mol: &Mol, marks: &[DrawMark], a: AtomId, halves: &[HalfEdge]) -> bool
    ensures { result ≡ is_drawn_as_centre (begins mol.now.bonds marks.now a.0) halves.now }
{
    has_wedge(mol, marks, a, halves) && !has_wavy(mol, marks, a, halves)
}
