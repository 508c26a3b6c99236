//! The table of a molecule that is drawn with wedges, as the record of a CTfile would give it.
ghost use Rattle.std.specs.Prelude.{◌≡◌, ◌<◌, ◌≤◌, IfOk, length};
ghost use Rattle.ct_sd.specs.Tables.{IsTable};
ghost use Rattle.lay_wedge.specs.TableRows.{IsRowOf, AreRowsOf};

use ct_geometry::Wedge;
use ct_sd::{DrawMark, Table, TableAtom, TableAtoms, TableBond, TableBonds};
use mc_base::{AtomId, BondId, NoMemory, Text};
use mc_mol::{Bond, Drawing, Mol, Point};
use std::alloc::Global;

/// Bond orders and hydrogens of an atom together.
fn valence(mol: &Mol, a: AtomId) -> u8
    requires { a.0 < length mol.now.atoms }
{
    let mut sum = mol.atom(a).hydrogens;
    for half in mol.bonds_of(a) {
        if half.bond.0 < mol.bond_count() {
            sum = sum.wrapping_add(mol.bond(half.bond).order);
        }
    }
    sum
}

fn point(drawing: &Drawing, a: AtomId) -> Point {
    match drawing.as_slice().get(a.0 as usize) {
        Some(point) => *point,
        None => Point { x: 0, y: 0 },
    }
}

fn atom_of(mol: &Mol, drawing: &Drawing, a: AtomId) -> TableAtom
    requires { a.0 < length mol.now.atoms }
{
    let atom = mol.atom(a);
    let point = point(drawing, a);
    TableAtom {
        element: atom.element,
        isotope: u32::from(atom.isotope),
        charge: i32::from(atom.charge),
        class: u32::from(atom.class),
        valence: Some(valence(mol, a)),
        x: point.x,
        y: point.y,
        z: 0,
        line: 0,
    }
}

fn atoms_of(alloc: Global, mol: &Mol, drawing: &Drawing) -> Result<Vec<TableAtom>, NoMemory>
    ensures { IfOk result (λ atoms. length atoms.items ≡ length mol.now.atoms) }
{
    let mut atoms = Vec::new(alloc);
    for a in 0..mol.atom_count() {
        atoms.push(atom_of(mol, drawing, AtomId(a)))?;
    }
    Ok(atoms)
}

/// The row of a bond that begins at the narrow end of its wedge.
fn row_of(bond: Bond, wedge: Wedge) -> TableBond
    ensures { IsRowOf bond result }
{
    let turned = wedge.narrow.0 == bond.second.0;
    TableBond {
        first: if turned { bond.second.0 } else { bond.first.0 },
        second: if turned { bond.first.0 } else { bond.second.0 },
        order: bond.order.clamp(1, 3),
        mark: wedge.mark,
        line: 0,
    }
}

/// A double bond without sides is marked as either; each other one is drawn as it is planned.
fn drawn_as(mol: &Mol, wedges: &[Wedge], k: BondId) -> Wedge {
    let planned = match wedges.get(k.0 as usize) {
        Some(wedge) => *wedge,
        None => Wedge {
            mark: DrawMark::Plain,
            narrow: AtomId(0),
        },
    };
    if k.0 < mol.bond_count() && mol.bond(k).order == 2 && mol.sides(k).is_none() {
        return Wedge {
            mark: DrawMark::Either,
            narrow: planned.narrow,
        };
    }
    planned
}

#[tactic(auto, using(crate::proofs::TableRows::rows_more))]
fn rows_of(alloc: Global, mol: &Mol, wedges: &[Wedge]) -> Result<Vec<TableBond>, NoMemory>
    ensures { IfOk result (λ rows. AreRowsOf mol.now.bonds (length mol.now.bonds) rows.items) }
{
    let mut rows = Vec::new(alloc);
    for k in 0..mol.bond_count() {
        rows.push(row_of(mol.bond(BondId(k)), drawn_as(mol, wedges, BondId(k))))?;
    }
    Ok(rows)
}

/// The table of a molecule, its drawing and its wedges.
pub fn table_of(
    alloc: Global,
    mol: &Mol,
    drawing: &Drawing,
    wedges: &[Wedge],
) -> Result<Table, NoMemory>
    ensures { IfOk result IsTable }
{
    let _count = mol.atom_count();
    let atoms = atoms_of(alloc, mol, drawing)?;
    let rows = rows_of(alloc, mol, wedges)?;
    Ok(Table {
        atoms: TableAtoms::from_vec(atoms),
        bonds: TableBonds::from_vec(rows),
        name: Text::new(alloc),
    })
}
