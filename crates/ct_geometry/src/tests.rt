//! Drawings against a plain program that lifts the wedge's end out of the plane and takes the sign of a volume.
ghost use Rattle.std.specs.Prelude.{◌≡◌, ◌<◌, length, IfOk};
ghost use Rattle.mc_rings.specs.Rings.{AreRingsOf};
ghost use Rattle.ct_geometry.specs.Bounds.{ArePlaces, IsPlace};

mod tables;

use crate::*;
use ct_sd::DrawMark;
use mc_base::{AtomId, NoMemory};
use mc_elements::Element;
use mc_mol::{Atom, Drawing, Mol, Point, Slot, is_even_permutation};
use mc_rings::Rings;
use std::alloc::Global;
use std::test::Fail;

/// The eight places round an atom in the middle of a grid of nine.
const GRID: [(i64, i64); 8] = [
    (1, 0),
    (1, 1),
    (0, 1),
    (-1, 1),
    (-1, 0),
    (-1, -1),
    (0, -1),
    (1, -1),
];

fn atom() -> Atom {
    Atom {
        element: Element::C,
        isotope: 0,
        charge: 0,
        hydrogens: 0,
        class: 0,
    }
}

/// Joins atom 0 to another one by a single bond.
fn join(mol: &mut Mol, to: AtomId) {
    if to.0 < mol.atom_count() && 0 < mol.atom_count() {
        if let Some(_) = mol.centre(AtomId(0)) {
            return;
        }
        if let Some(_) = mol.centre(to) {
            return;
        }
        let _ = mol.add_bond(AtomId(0), to, 1);
    }
}

/// An atom with so many neighbours.
fn star(alloc: Global, neighbours: u32) -> Result<Mol, NoMemory> {
    let mut mol = Mol::new(alloc);
    for _ in 0..neighbours.wrapping_add(1) {
        match mol.add_atom(atom()) {
            Ok(to) => join(&mut mol, to),
            Err(_) => return Err(NoMemory),
        }
    }
    Ok(mol)
}

fn point(place: (i64, i64)) -> Point
    ensures { IsPlace result }
{
    Point {
        x: place.0.clamp(-99_999_999, 999_999_999),
        y: place.1.clamp(-99_999_999, 999_999_999),
    }
}

/// Atom 0 in the middle, and the others round it.
#[tactic(auto, using(crate::proofs::Loops::places_more))]
fn drawn(alloc: Global, middle: (i64, i64), places: &[(i64, i64)]) -> Result<Drawing, NoMemory>
    ensures { IfOk result (λ drawing. ArePlaces drawing) }
{
    let mut drawing = Drawing::new(alloc);
    drawing.push(point(middle))?;
    for place in places {
        drawing.push(point((
            middle.0.wrapping_add(place.0),
            middle.1.wrapping_add(place.1),
        )))?;
    }
    Ok(drawing)
}

/// What is read of atom 0.
fn read(mol: &Mol, rings: &Rings, drawing: &Drawing, marks: &[DrawMark]) -> WedgeRead
    requires rings { AreRingsOf mol.now rings.now }
    requires places { ArePlaces drawing.now }
{
    if 0 < mol.atom_count() {
        centre_of_wedges(mol, rings, drawing, marks, AtomId(0))
    } else {
        WedgeRead::None
    }
}

/// The same of a star with these neighbours, in the order of their bonds.
fn read_star(
    alloc: Global,
    middle: (i64, i64),
    places: &[(i64, i64)],
    marks: &[DrawMark],
) -> Result<WedgeRead, NoMemory> {
    let mol = star(alloc, if places.len() == 3 { 3 } else { 4 })?;
    let rings = Rings::of(alloc, &mol)?;
    let drawing = drawn(alloc, middle, places)?;
    Ok(read(&mol, &rings, &drawing, marks))
}

/// Where a neighbour stands when the wedge's end is lifted out of the plane.
fn lifted(place: (i64, i64), height: i64) -> [i64; 3] {
    [place.0, place.1, height]
}

fn less(p: [i64; 3], q: [i64; 3]) -> [i64; 3] {
    [
        p[0].wrapping_sub(q[0]),
        p[1].wrapping_sub(q[1]),
        p[2].wrapping_sub(q[2]),
    ]
}

fn minor(a: i64, b: i64, c: i64, d: i64) -> i64 {
    a.wrapping_mul(d).wrapping_sub(b.wrapping_mul(c))
}

fn volume(p: [i64; 3], q: [i64; 3], r: [i64; 3]) -> i64 {
    p[0].wrapping_mul(minor(q[1], q[2], r[1], r[2]))
        .wrapping_sub(p[1].wrapping_mul(minor(q[0], q[2], r[0], r[2])))
        .wrapping_add(p[2].wrapping_mul(minor(q[0], q[1], r[0], r[1])))
}

/// The place of a slot: neighbour k from 1 stands at entry k - 1, the rest opposite to all.
fn stands(slot: Slot, ends: &[[i64; 3]]) -> [i64; 3] {
    match slot {
        Slot::At(to) => match ends.get((to.0 as usize).wrapping_sub(1)) {
            Some(end) => *end,
            None => [0, 0, 0],
        },
        Slot::Rest => {
            let mut x: i64 = 0;
            let mut y: i64 = 0;
            let mut z: i64 = 0;
            for end in ends {
                x = x.wrapping_sub(end[0]);
                y = y.wrapping_sub(end[1]);
                z = z.wrapping_sub(end[2]);
            }
            [x, y, z]
        }
    }
}

/// Seen from the first place the other three stand anticlockwise.
fn is_anticlockwise(list: &[Slot; 4], ends: &[[i64; 3]]) -> bool {
    let first = stands(list[0], ends);
    volume(
        less(stands(list[1], ends), first),
        less(stands(list[2], ends), first),
        less(stands(list[3], ends), first),
    ) < 0
}

fn height(mark: DrawMark) -> i64 {
    match mark {
        DrawMark::Up => 1,
        _ => -1,
    }
}

fn plane(p: (i64, i64), q: (i64, i64)) -> i64 {
    minor(p.0, p.1, q.0, q.1).signum()
}

/// Whether w stands between p and q where these are no more than half a turn apart.
fn is_between(p: (i64, i64), w: (i64, i64), q: (i64, i64)) -> bool {
    let turn = plane(p, q);
    turn == 0 || (plane(p, w) == turn && plane(w, q) == turn)
}

/// One wedge at three neighbours reads as the volume says, or is ambiguous where it stands between the other two.
fn three_are_right(
    mol: &Mol,
    rings: &Rings,
    alloc: Global,
    w: (i64, i64),
    p: (i64, i64),
    q: (i64, i64),
    mark: DrawMark,
) -> Result<bool, NoMemory>
    requires rings { AreRingsOf mol.now rings.now }
{
    let drawing = drawn(alloc, (5, -3), &[w, p, q])?;
    let ends = [lifted(w, height(mark)), lifted(p, 0), lifted(q, 0)];
    Ok(
        match read(
            mol,
            rings,
            &drawing,
            &[mark, DrawMark::Plain, DrawMark::Plain],
        ) {
            WedgeRead::None => false,
            WedgeRead::Ambiguous => is_between(p, w, q),
            WedgeRead::Centre(list) => !is_between(p, w, q) && is_anticlockwise(&list, &ends),
        },
    )
}

#[test]
fn three_neighbours_on_a_grid(rt: HostRuntime) -> Result<(), Fail> {
    let mol = star(rt.alloc(), 3)?;
    let rings = Rings::of(rt.alloc(), &mol)?;
    for i in 0..8 {
        for j in 0..8 {
            for k in 0..8 {
                if i != j && j != k && i != k {
                    let up = three_are_right(
                        &mol,
                        &rings,
                        rt.alloc(),
                        GRID[i],
                        GRID[j],
                        GRID[k],
                        DrawMark::Up,
                    )?;
                    let down = three_are_right(
                        &mol,
                        &rings,
                        rt.alloc(),
                        GRID[i],
                        GRID[j],
                        GRID[k],
                        DrawMark::Down,
                    )?;
                    assert_eq!(rt; (up, down), (true, true));
                }
            }
        }
    }
    Ok(())
}

/// One wedge at four neighbours reads as the volume says.
fn four_are_right(
    mol: &Mol,
    rings: &Rings,
    alloc: Global,
    places: &[(i64, i64); 4],
    mark: DrawMark,
) -> Result<bool, NoMemory>
    requires rings { AreRingsOf mol.now rings.now }
{
    let drawing = drawn(alloc, (0, 0), places)?;
    let marks = [DrawMark::Plain, mark, DrawMark::Plain, DrawMark::Plain];
    let ends = [
        lifted(places[0], 0),
        lifted(places[1], height(mark)),
        lifted(places[2], 0),
        lifted(places[3], 0),
    ];
    Ok(match read(mol, rings, &drawing, &marks) {
        WedgeRead::Centre(list) => is_anticlockwise(&list, &ends),
        _ => false,
    })
}

#[test]
fn four_neighbours_in_all_orders(rt: HostRuntime) -> Result<(), Fail> {
    let mol = star(rt.alloc(), 4)?;
    let rings = Rings::of(rt.alloc(), &mol)?;
    for i in 0..4 {
        for j in 0..4 {
            for k in 0..4 {
                if i != j && j != k && i != k {
                    let last = 6 - i - j - k;
                    let places = [GRID[2 * i], GRID[2 * j], GRID[2 * k], GRID[(2 * last) % 8]];
                    let up = four_are_right(&mol, &rings, rt.alloc(), &places, DrawMark::Up)?;
                    let down = four_are_right(&mol, &rings, rt.alloc(), &places, DrawMark::Down)?;
                    assert_eq!(rt; (up, down), (true, true));
                }
            }
        }
    }
    Ok(())
}

fn neighbour(k: u32) -> Slot {
    Slot::At(AtomId(k))
}

/// Neighbours in the north-west, the north and the north-east.
const GAP: [(i64, i64); 3] = [(-10_000, 10_000), (0, 10_000), (10_000, 10_000)];

#[test]
fn wedges_beside_a_gap(rt: HostRuntime) -> Result<(), Fail> {
    let (plain, up, down, wavy) = (
        DrawMark::Plain,
        DrawMark::Up,
        DrawMark::Down,
        DrawMark::Wavy,
    );
    let list = [neighbour(1), Slot::Rest, neighbour(3), neighbour(2)];
    let turned = [neighbour(1), Slot::Rest, neighbour(2), neighbour(3)];
    for (marks, wanted) in [
        ([up, plain, plain], WedgeRead::Centre(list)),
        ([down, plain, plain], WedgeRead::Centre(turned)),
        ([plain, up, plain], WedgeRead::Ambiguous),
        ([up, plain, down], WedgeRead::Ambiguous),
        ([up, plain, up], WedgeRead::Centre(list)),
        ([up, wavy, plain], WedgeRead::None),
        ([plain, plain, plain], WedgeRead::None),
    ] {
        assert_eq!(rt; read_star(rt.alloc(), (0, 0), &GAP, &marks), Ok(wanted));
    }
    Ok(())
}

/// The list of an up wedge at the first of three neighbours, of a drawing that was changed.
fn up_list(
    alloc: Global,
    middle: (i64, i64),
    places: [(i64, i64); 3],
) -> Result<WedgeRead, NoMemory> {
    read_star(
        alloc,
        middle,
        &places,
        &[DrawMark::Up, DrawMark::Plain, DrawMark::Plain],
    )
}

fn opposite(z: i64) -> i64 {
    0i64.wrapping_sub(z)
}

fn quarter(place: (i64, i64)) -> (i64, i64) {
    (opposite(place.1), place.0)
}

fn stretched(place: (i64, i64)) -> (i64, i64) {
    (place.0.wrapping_mul(700), place.1.wrapping_mul(700))
}

fn mirrored(place: (i64, i64)) -> (i64, i64) {
    (opposite(place.0), place.1)
}

fn has_other_hand(first: WedgeRead, second: WedgeRead) -> bool {
    match (first, second) {
        (WedgeRead::Centre(p), WedgeRead::Centre(q)) => !is_even_permutation(&p, &q),
        (WedgeRead::Ambiguous, WedgeRead::Ambiguous) => true,
        _ => false,
    }
}

#[test]
fn changed_drawings(rt: HostRuntime) -> Result<(), Fail> {
    for (a, b, c) in [(0, 1, 2), (0, 3, 5), (2, 0, 6), (1, 4, 7), (3, 2, 1)] {
        let places = [GRID[a], GRID[b], GRID[c]];
        let plain = up_list(rt.alloc(), (0, 0), places)?;
        let turned = [quarter(places[0]), quarter(places[1]), quarter(places[2])];
        assert_eq!(rt; up_list(rt.alloc(), (0, 0), turned), Ok(plain));
        assert_eq!(rt; up_list(rt.alloc(), (70_000, -999), places), Ok(plain));
        let large = [
            stretched(places[0]),
            stretched(places[1]),
            stretched(places[2]),
        ];
        assert_eq!(rt; up_list(rt.alloc(), (0, 0), large), Ok(plain));
        let other = [
            mirrored(places[0]),
            mirrored(places[1]),
            mirrored(places[2]),
        ];
        let other = up_list(rt.alloc(), (0, 0), other)?;
        assert_eq!(rt; has_other_hand(plain, other), true);
    }
    Ok(())
}

#[test]
fn rays_that_have_one_direction(rt: HostRuntime) -> Result<(), Fail> {
    let mut rays = [(1, 0), (0, 1), (2, 0)];
    assert_eq!(rt; ray_order(&mut rays), false);
    assert_eq!(rt; rays, [(1, 0), (0, 1), (2, 0)]);
    let mut rays = [(1, 0), (0, -1), (-3, 0), (2, 7)];
    assert_eq!(rt; ray_order(&mut rays), true);
    assert_eq!(rt; rays, [(1, 0), (2, 7), (-3, 0), (0, -1)]);
    Ok(())
}

#[test]
fn sides_of_a_line(rt: HostRuntime) -> Result<(), Fail> {
    assert_eq!(rt; side((1, 1), (3, 1), (2, 5)), 1);
    assert_eq!(rt; side((1, 1), (3, 1), (9, 0)), -1);
    assert_eq!(rt; side((1, 1), (3, 1), (9, 1)), 0);
    Ok(())
}

/// Whether a star drawn like this gives what a drawing must.
fn star_is_drawn(
    alloc: Global,
    neighbours: u32,
    middle: (i64, i64),
    places: &[(i64, i64)],
) -> Result<bool, NoMemory> {
    let mol = star(alloc, neighbours)?;
    let drawing = drawn(alloc, middle, places)?;
    Ok(is_drawn(&mol, &drawing))
}

#[test]
fn drawings_of_stars(rt: HostRuntime) -> Result<(), Fail> {
    for (middle, places, wanted) in [
        ((1, 1), [(-1, 0), (1, 0), (0, -1)], true),
        // two in one place, one in the atom's own, two in one direction
        ((1, 1), [(-1, 0), (-1, 0), (0, -1)], false),
        ((1, 1), [(-1, 0), (0, 0), (0, -1)], false),
        ((2, 2), [(-1, -1), (-2, -2), (1, 0)], false),
        // the least x isn't 0, nor is the least y
        ((2, 1), [(-1, 0), (1, 0), (0, -1)], false),
        ((1, 2), [(-1, 0), (1, 0), (0, -1)], false),
    ] {
        assert_eq!(rt; star_is_drawn(rt.alloc(), 3, middle, &places)?, wanted);
    }
    let places = [(-1, 0), (1, 0), (0, -1)];
    assert_eq!(rt; star_is_drawn(rt.alloc(), 2, (1, 1), &places)?, false);
    assert_eq!(rt; star_is_drawn(rt.alloc(), 4, (1, 1), &places)?, false);
    let none = Drawing::new(rt.alloc());
    assert_eq!(rt; is_drawn(&Mol::new(rt.alloc()), &none), true);
    Ok(())
}

/// Whether two atoms that are joined are drawn, the one at 0 and the other at this place.
fn two_are_drawn(alloc: Global, place: (i64, i64)) -> Result<bool, NoMemory> {
    let mol = star(alloc, 1)?;
    let mut drawing = Drawing::new(alloc);
    drawing.push(Point { x: 0, y: 0 })?;
    drawing.push(Point {
        x: place.0,
        y: place.1,
    })?;
    Ok(is_drawn(&mol, &drawing))
}

#[test]
fn limits_of_drawings(rt: HostRuntime) -> Result<(), Fail> {
    for (place, wanted) in [
        ((999_999_999, 0), true),
        ((1_000_000_000, 0), false),
        ((0, 1_000_000_000), false),
        ((-1, 0), false),
        ((0, -1), false),
        ((i64::MIN, 0), false),
        ((i64::MAX, i64::MAX), false),
        ((0, 0), false),
    ] {
        assert_eq!(rt; two_are_drawn(rt.alloc(), place)?, wanted);
    }
    Ok(())
}
