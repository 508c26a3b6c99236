//! Tables of four atoms, as they are read.
ghost use Rattle.std.specs.Prelude.{◌≡◌, length, IfOk};
ghost use Rattle.ct_sd.specs.Tables.{IsTable};

use crate::{CtRead, read_ct};
use ct_sd::{DrawMark, Table, TableAtom, TableAtoms, TableBond, TableBonds};
use mc_base::{AtomId, BondId, Kind, NoMemory, Stop, Text};
use mc_elements::Element;
use mc_mol::{Sides, Slot};
use std::alloc::Global;
use std::process::Abort;
use std::test::Fail;

fn atom(element: Element, x: i64, y: i64) -> TableAtom {
    TableAtom {
        element,
        isotope: 0,
        charge: 0,
        class: 0,
        valence: None,
        x,
        y,
        z: 0,
        line: 0,
    }
}

/// A carbon atom below its three neighbours, which stand in a gap of three quarters of a turn.
fn gap() -> [TableAtom; 4] {
    [
        atom(Element::C, 0, 0),
        atom(Element::F, -10_000, 10_000),
        atom(Element::Cl, 0, 10_000),
        atom(Element::Br, 10_000, 10_000),
    ]
}

fn bond(first: u32, second: u32, order: u8, mark: DrawMark) -> TableBond
    ensures { result ≡ record { first = first; second = second; order = order; mark = mark; line = 0 } }
{
    TableBond {
        first,
        second,
        order,
        mark,
        line: 0,
    }
}

/// Single bonds from the first atom to the three others.
#[tactic(auto, using(crate::proofs::SmallTables::star_is_table))]
fn star(alloc: Global, atoms: [TableAtom; 4], marks: [DrawMark; 3]) -> Result<Table, NoMemory>
    ensures { IfOk result (λ table. IsTable table) }
{
    let atoms = Vec::from_array(alloc, atoms)?;
    let [first, second, third] = marks;
    let bonds = [
        bond(0, 1, 1, first),
        bond(0, 2, 1, second),
        bond(0, 3, 1, third),
    ];
    Ok(Table {
        atoms: TableAtoms::from_vec(atoms),
        bonds: TableBonds::from_vec(Vec::from_array(alloc, bonds)?),
        name: Text::new(alloc),
    })
}

/// A double bond with a neighbour at each end.
#[tactic(auto, using(crate::proofs::SmallTables::ethene_is_table))]
fn ethene(alloc: Global, atoms: [TableAtom; 4], marks: [DrawMark; 3]) -> Result<Table, NoMemory>
    ensures { IfOk result (λ table. IsTable table) }
{
    let atoms = Vec::from_array(alloc, atoms)?;
    let [first, second, third] = marks;
    let bonds = [
        bond(0, 1, 2, first),
        bond(0, 2, 1, second),
        bond(1, 3, 1, third),
    ];
    Ok(Table {
        atoms: TableAtoms::from_vec(atoms),
        bonds: TableBonds::from_vec(Vec::from_array(alloc, bonds)?),
        name: Text::new(alloc),
    })
}

fn is_refused(
    rt: &(impl Abort + AllocGlobal),
    answer: Result<CtRead, Stop>,
    kind: Kind,
    place: u32,
) -> Result<(), Fail> {
    match answer {
        Err(Stop::Refused(refusal)) => {
            assert_eq!(rt; refusal.kind, kind);
            assert_eq!(rt; refusal.place, place);
            Ok(())
        }
        _ => panic!(rt; "not refused"),
    }
}

fn at(atom: u32) -> Slot {
    Slot::At(AtomId(atom))
}

/// The carbon atom is this centre, and has one hydrogen; so many marks are idle.
fn is_centre(
    rt: &(impl Abort + AllocGlobal),
    answer: Result<CtRead, Stop>,
    centre: Option<[Slot; 4]>,
    idle: u32,
) -> Result<(), Fail> {
    match answer {
        Ok(read) => {
            assert!(rt; read.mol.atom_count() > 0);
            assert_eq!(rt; read.mol.centre(AtomId(0)), centre);
            assert_eq!(rt; read.mol.atom(AtomId(0)).hydrogens, 1);
            assert_eq!(rt; read.idle, idle);
            Ok(())
        }
        _ => panic!(rt; "not read"),
    }
}

/// The gap's table with these marks.
fn read_gap(rt: &(impl Abort + AllocGlobal), marks: [DrawMark; 3]) -> Result<CtRead, Stop> {
    let table = star(rt.alloc(), gap(), marks)?;
    read_ct(rt.alloc(), &table)
}

#[test]
fn wedges(rt: HostRuntime) -> Result<(), Fail> {
    let (plain, up, down, wavy) = (
        DrawMark::Plain,
        DrawMark::Up,
        DrawMark::Down,
        DrawMark::Wavy,
    );
    let list = Some([at(1), Slot::Rest, at(3), at(2)]);
    is_centre(&rt, read_gap(&rt, [up, plain, plain]), list, 0)?;
    let other = Some([at(1), Slot::Rest, at(2), at(3)]);
    is_centre(&rt, read_gap(&rt, [down, plain, plain]), other, 0)?;
    is_centre(&rt, read_gap(&rt, [up, plain, wavy]), None, 1)?;
    is_refused(
        &rt,
        read_gap(&rt, [plain, up, plain]),
        Kind::AmbiguousCentre,
        1,
    )?;
    is_refused(
        &rt,
        read_gap(&rt, [up, plain, down]),
        Kind::AmbiguousCentre,
        1,
    )
}

/// The gap's table with this valence field of its first atom.
fn read_valence(rt: &(impl Abort + AllocGlobal), valence: u8) -> Result<CtRead, Stop> {
    let mut atoms = gap();
    atoms[0].valence = Some(valence);
    let table = star(rt.alloc(), atoms, [DrawMark::Plain; 3])?;
    read_ct(rt.alloc(), &table)
}

#[test]
fn valence_fields(rt: HostRuntime) -> Result<(), Fail> {
    is_centre(&rt, read_valence(&rt, 4), None, 0)?;
    is_refused(&rt, read_valence(&rt, 2), Kind::ValenceShort, 1)?;
    is_refused(&rt, read_valence(&rt, 13), Kind::LimitHydrogens, 1)
}

/// A double bond whose neighbours stand at this height, with this mark.
fn read_ethene(
    rt: &(impl Abort + AllocGlobal),
    height: i64,
    mark: DrawMark,
) -> Result<CtRead, Stop> {
    let atoms = [
        atom(Element::C, 0, 0),
        atom(Element::C, 10_000, 0),
        atom(Element::F, -5_000, 5_000),
        atom(Element::F, 15_000, height),
    ];
    let table = ethene(rt.alloc(), atoms, [mark, DrawMark::Plain, DrawMark::Plain])?;
    read_ct(rt.alloc(), &table)
}

/// The double bond has its two neighbours together or not, or no sides.
fn has_sides(
    rt: &(impl Abort + AllocGlobal),
    answer: Result<CtRead, Stop>,
    together: Option<bool>,
) -> Result<(), Fail> {
    match answer {
        Ok(read) => {
            assert!(rt; read.mol.bond_count() > 0);
            let sides = match together {
                Some(together) => Some(Sides {
                    first: AtomId(2),
                    second: AtomId(3),
                    together,
                }),
                None => None,
            };
            assert_eq!(rt; read.mol.sides(BondId(0)), sides);
            Ok(())
        }
        _ => panic!(rt; "not read"),
    }
}

#[test]
fn drawn_sides(rt: HostRuntime) -> Result<(), Fail> {
    has_sides(&rt, read_ethene(&rt, 5_000, DrawMark::Plain), Some(true))?;
    has_sides(&rt, read_ethene(&rt, -5_000, DrawMark::Plain), Some(false))?;
    has_sides(&rt, read_ethene(&rt, 0, DrawMark::Plain), None)?;
    has_sides(&rt, read_ethene(&rt, 5_000, DrawMark::Either), None)
}
