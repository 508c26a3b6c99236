ghost use Rattle.std.specs.Prelude.{◌≡◌, ◌<◌, ◌≤◌, ℕ, IfOk, IfErr, length, slice_get};
ghost use Rattle.ct_sd.specs.Faults.{AreNone};
ghost use Rattle.mc_base.specs.declared.kind.Kind.{Kind as Reason};
ghost use Rattle.mc_mol.specs.declared.limits.TheConstants.{BOND_LIMIT};
ghost use Rattle.mc_mol.specs.Parts.{count_below};
ghost use Rattle.mc_rings.specs.Rings.{AreRingsOf};
ghost use Rattle.mc_rings.specs.Sound.{IsSound};
ghost use Rattle.ct_geometry.specs.Stands.{IsReadOf, IsRefused, StandsAt, carries_centre, idle_count, is_idle, is_ring_side, is_some, kept_wedge, kept_wedges, centres_of, sides_of_bonds};
ghost use Rattle.ct_sd.specs.Tables.{IsTable};
ghost use Rattle.ct_geometry.specs.TableFaults.{limit_faults};
ghost use Rattle.ct_geometry.specs.Tables.{drawing_of, marks_of, without_stereo};

use crate::marks::{is_wedge, mark_of};
use crate::stereo::{read_centres, read_sides, set_centres, set_sides};
use crate::table_graph::{drawing_of, marks_of, read_graph};
use crate::table_sides::{is_bridge, is_either};
use crate::{Wedge, Wedges};
use ct_sd::{DrawMark, Table, TableBond};
use mc_base::{AtomId, BondId, NoMemory, Stop};
use mc_mol::{Drawing, Mol, Sides, Slot};
use mc_rings::{Rings, may_have_sides};
use std::alloc::Global;

/// What a table is read as: the molecule that it stands for with its rings, its drawing, and the wedges that begin at
/// centres. `idle` counts the bonds marked up or down whose first atom is no centre, `ring` the double bonds in rings that
/// could have sides and have no either mark.
#[derive(Drop)]
pub struct CtRead {
    pub mol: Mol,
    pub rings: Rings,
    pub drawing: Drawing,
    pub wedges: Wedges,
    pub idle: u32,
    pub ring: u32,
}

/// A table's molecule without stereo, and what its stereo is read from.
#[derive(Drop)]
struct Drawn {
    mol: Mol,
    rings: Rings,
    drawing: Drawing,
    marks: Vec<DrawMark>,
}

/// What a drawing says of the atoms and bonds.
#[derive(Drop)]
struct Stereo {
    centres: Vec<Option<[Slot; 4]>>,
    sides: Vec<Option<Sides>>,
}

/// The molecule of a table without stereo with its rings and drawing, or the first kind that stands in its atoms and bonds.
#[tactic(auto, using(crate::proofs::Standing::refused_by_limit))]
fn read_drawn(alloc: Global, table: &Table) -> Result<Drawn, Stop>
    requires { IsTable table.now }
    ensures mol { IfOk result (λ drawn. drawn.mol ≡ without_stereo table.now) }
    ensures rings { IfOk result (λ drawn. AreRingsOf (without_stereo table.now) drawn.rings) }
    ensures drawing { IfOk result (λ drawn. drawn.drawing ≡ drawing_of table.now) }
    ensures marks { IfOk result (λ drawn. drawn.marks.items ≡ marks_of table.now) }
    ensures accepted { IfOk result (λ _. AreNone (limit_faults table.now)) }
    ensures err { IfErr result (IsRefused table.now) }
{
    let mol = read_graph(alloc, table)?;
    let rings = Rings::of(alloc, &mol)?;
    let drawing = drawing_of(alloc, table.atoms.as_slice())?;
    let marks = marks_of(alloc, table.bonds.as_slice())?;
    Ok(Drawn {
        mol,
        rings,
        drawing,
        marks,
    })
}

/// Whether a mark is up or down and its bond begins at a centre.
fn carries_centre(centres: &[Option<[Slot; 4]>], bond: TableBond) -> bool
    ensures { result ≡ carries_centre centres.now bond }
{
    is_wedge(bond.mark) && is_some(centres, bond.first)
}

fn is_some(centres: &[Option<[Slot; 4]>], a: u32) -> bool
    ensures { result ≡ is_some (slice_get centres.now a) }
{
    match centres.get(a as usize) {
        Some(Some(_)) => true,
        _ => false,
    }
}

fn kept_wedge(centres: &[Option<[Slot; 4]>], bond: TableBond) -> Wedge
    ensures { result ≡ kept_wedge centres.now bond }
{
    let mark = if carries_centre(centres, bond) {
        bond.mark
    } else {
        DrawMark::Plain
    };
    Wedge {
        mark,
        narrow: AtomId(bond.first),
    }
}

/// The up and down marks that begin at centres.
fn kept_wedges(
    alloc: Global,
    centres: &[Option<[Slot; 4]>],
    bonds: &[TableBond],
) -> Result<Wedges, NoMemory>
    ensures { IfOk result (λ wedges. wedges ≡ kept_wedges centres.now bonds.now) }
{
    let mut found = Vec::with_capacity(alloc, bonds.len())?;
    for bond in bonds {
        found.push_reserved(kept_wedge(centres, *bond));
    }
    Ok(Wedges::from_vec(found))
}

fn is_idle(centres: &[Option<[Slot; 4]>], bond: TableBond) -> bool
    ensures { result ≡ is_idle centres.now bond }
{
    is_wedge(bond.mark) && !is_some(centres, bond.first)
}

/// How many bonds are marked up or down whose first atom is no centre.
fn idle_count(centres: &[Option<[Slot; 4]>], bonds: &[TableBond]) -> u32
    requires { length bonds.now ≤ BOND_LIMIT }
    ensures { result ≡ idle_count centres.now bonds.now }
{
    bonds.iter().filter(|bond| is_idle(centres, **bond)).count() as u32
}

/// Whether a bond could have sides, lies in a ring and has no either mark.
fn is_ring_side(mol: &Mol, rings: &Rings, marks: &[DrawMark], k: BondId) -> bool
    requires bond { k.0 < length mol.now.bonds }
    requires rings { AreRingsOf mol.now rings.now }
    ensures { result ≡ is_ring_side mol.now rings.now.sizes marks.now k.0 }
{
    may_have_sides(mol, rings, k) && !is_bridge(rings, k) && !is_either(mark_of(marks, k))
}

/// How many bonds are such.
fn ring_count(mol: &Mol, rings: &Rings, marks: &[DrawMark]) -> u32
    requires { AreRingsOf mol.now rings.now }
    ensures { result ≡ count_below (is_ring_side mol.now rings.now.sizes marks.now) (length mol.now.bonds) }
{
    let mut count = 0;
    for k in 0..mol.bond_count() {
        if is_ring_side(mol, rings, marks, BondId(k)) {
            count += 1;
        }
    }
    count
}

/// The centres and sides that the drawing of a table says, or the first ambiguous centre.
#[tactic(auto, using(crate::proofs::Standing::sides_are))]
fn read_stereo(alloc: Global, table: &Table, drawn: &Drawn) -> Result<Stereo, Stop>
    requires mol { drawn.now.mol ≡ without_stereo table.now }
    requires rings { AreRingsOf (without_stereo table.now) drawn.now.rings }
    requires drawing { drawn.now.drawing ≡ drawing_of table.now }
    requires marks { drawn.now.marks.items ≡ marks_of table.now }
    requires accepted { AreNone (limit_faults table.now) }
    ensures centres { IfOk result (λ stereo. stereo.centres.items ≡ centres_of table.now drawn.now.rings.sizes) }
    ensures sides { IfOk result (λ stereo. stereo.sides.items ≡ sides_of_bonds table.now drawn.now.rings.sizes) }
    ensures accepted { IfOk result (λ _. (kind : Reason) (place : ℕ) → StandsAt table.now kind place → ⊥) }
    ensures err { IfErr result (IsRefused table.now) }
{
    let centres = match read_centres(
        alloc,
        &drawn.mol,
        &drawn.rings,
        &drawn.drawing,
        &drawn.marks,
    ) {
        Ok(centres) => centres,
        Err(stop) => return Err(stop),
    };
    let sides = read_sides(
        alloc,
        &drawn.mol,
        &drawn.rings,
        &drawn.drawing,
        &drawn.marks,
    )?;
    Ok(Stereo { centres, sides })
}

/// Gives the molecule of a table its centres and sides.
#[tactic(auto, using(crate::proofs::Given::centres_count, crate::proofs::Given::centres_fit, crate::proofs::Given::sides_count, crate::proofs::Given::sides_fit_in, crate::proofs::Standing::with_both))]
fn set_stereo(table: &Table, rings: &Rings, mol: &mut Mol, stereo: &Stereo)
    requires table { IsTable table.now }
    requires mol { mol.old ≡ without_stereo table.now }
    requires centres { stereo.now.centres.items ≡ centres_of table.now rings.now.sizes }
    requires sides { stereo.now.sides.items ≡ sides_of_bonds table.now rings.now.sizes }
    ensures { mol.new ≡ record (without_stereo table.now) { centres = centres_of table.now rings.now.sizes; sides = sides_of_bonds table.now rings.now.sizes } }
{
    set_centres(mol, &stereo.centres);
    set_sides(mol, &stereo.sides);
}

/// What a table is read as, with its stereo.
#[tactic(auto, using(crate::proofs::Standing::is_read, crate::proofs::Standing::is_sound, crate::proofs::Standing::ring_count_is))]
fn finish(alloc: Global, table: &Table, drawn: Drawn, stereo: Stereo) -> Result<CtRead, NoMemory>
    requires table { IsTable table.now }
    requires mol { drawn.mol ≡ without_stereo table.now }
    requires rings { AreRingsOf (without_stereo table.now) drawn.rings }
    requires drawing { drawn.drawing ≡ drawing_of table.now }
    requires marks { drawn.marks.items ≡ marks_of table.now }
    requires centres { stereo.centres.items ≡ centres_of table.now drawn.rings.sizes }
    requires sides { stereo.sides.items ≡ sides_of_bonds table.now drawn.rings.sizes }
    requires limits { AreNone (limit_faults table.now) }
    requires accepted { (kind : Reason) (place : ℕ) → StandsAt table.now kind place → ⊥ }
    ensures ok { IfOk result (IsReadOf table.now) }
    ensures sound { IfOk result (λ ct. IsSound ct.mol ct.rings) }
{
    let Drawn {
        mut mol,
        rings,
        drawing,
        marks,
    } = drawn;
    let bonds = table.bonds.as_slice();
    let ring = ring_count(&mol, &rings, &marks);
    let idle = idle_count(&stereo.centres, bonds);
    let wedges = kept_wedges(alloc, &stereo.centres, bonds)?;
    set_stereo(table, &rings, &mut mol, &stereo);
    Ok(CtRead {
        mol,
        rings,
        drawing,
        wedges,
        idle,
        ring,
    })
}

/// What a table stands for, or the first kind that stands in it.
pub fn read_ct(alloc: Global, table: &Table) -> Result<CtRead, Stop>
    requires { IsTable table.now }
    ensures ok { IfOk result (IsReadOf table.now) }
    ensures sound { IfOk result (λ ct. IsSound ct.mol ct.rings) }
    ensures err { IfErr result (IsRefused table.now) }
{
    let drawn = read_drawn(alloc, table)?;
    let stereo = read_stereo(alloc, table, &drawn)?;
    Ok(finish(alloc, table, drawn, stereo)?)
}
