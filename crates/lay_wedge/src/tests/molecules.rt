//! Molecules with centres, drawn on a parabola.
ghost use Rattle.std.specs.Prelude.{◌≡◌, ◌<◌, ◌==◌, true, length};
ghost use Rattle.std.specs.List.{list_all, list_any};
ghost use Rattle.mc_mol.specs.declared.parts.Slot.TheVariants.{At};
ghost use Rattle.mc_mol.specs.Permutations.{same_slot, stands_in};
ghost use Rattle.mc_mol.specs.WellFormed.{IsPlaceList};
ghost use Rattle.lay_wedge.specs.Fitting.{are_different, leads_to, may_be_list};

use crate::tests::choices::sites_of;
use mc_base::{AtomId, NoMemory};
use mc_elements::Element;
use mc_mol::{Atom, Drawing, HalfEdge, Mol, Point, Slot};
use std::alloc::Global;

/// Two atoms and the order of their bond.
pub type Joined = (u32, u32, u8);

/// A carbon, told from others by its isotope and class.
fn carbon(number: u32) -> Atom {
    Atom {
        element: Element::C,
        isotope: (number % 256) as u16,
        charge: 0,
        hydrogens: 0,
        class: (number % 512) as u16,
    }
}

/// Carbons that all differ.
pub fn carbons(alloc: Global, count: u32) -> Result<Mol, NoMemory> {
    let mut mol = Mol::new(alloc);
    for a in 0..count {
        match mol.add_atom(carbon(a)) {
            Ok(_) => {}
            Err(_) => return Err(NoMemory),
        }
    }
    Ok(mol)
}

/// Adds a bond where it can be.
pub fn join(mol: &mut Mol, u: u32, v: u32, order: u8) -> bool {
    if u >= mol.atom_count() || v >= mol.atom_count() || order < 1 || order > 4 {
        return false;
    }
    if let Some(_) = mol.centre(AtomId(u)) {
        return false;
    }
    if let Some(_) = mol.centre(AtomId(v)) {
        return false;
    }
    mol.add_bond(AtomId(u), AtomId(v), order).is_ok()
}

pub fn molecule(alloc: Global, count: u32, bonds: &[Joined]) -> Result<Mol, NoMemory> {
    let mut mol = carbons(alloc, count)?;
    for (u, v, order) in bonds {
        let _ = join(&mut mol, *u, *v, *order);
    }
    Ok(mol)
}

fn is_same(p: Slot, q: Slot) -> bool
    ensures { result ≡ same_slot p q }
{
    match (p, q) {
        (Slot::At(a), Slot::At(b)) => a.0 == b.0,
        (Slot::Rest, Slot::Rest) => true,
        (Slot::At(_), Slot::Rest) => false,
        (Slot::Rest, Slot::At(_)) => false,
    }
}

fn stands_in(places: &[Slot], p: Slot) -> bool
    ensures { result ≡ stands_in places.now p }
{
    places.iter().any(|q| is_same(p, *q))
}

fn are_different(places: &[Slot; 4]) -> bool
    ensures { result ≡ are_different places.now }
{
    let [p, q, r, s] = *places;
    !stands_in(&[q, r, s], p) && !stands_in(&[r, s], q) && !stands_in(&[s], r)
}

fn finds(halves: &[HalfEdge], v: AtomId) -> bool
    ensures { result ≡ list_any (λ half. half.to.0 == v.0) halves.now }
{
    halves.iter().any(|half| half.to.0 == v.0)
}

fn leads_to(halves: &[HalfEdge], slot: Slot) -> bool
    ensures { result ≡ leads_to halves.now slot }
{
    match slot {
        Slot::At(v) => finds(halves, v),
        Slot::Rest => true,
    }
}

fn all_lead(halves: &[HalfEdge], places: &[Slot; 4]) -> bool
    ensures { result ≡ list_all (leads_to halves.now) places.now }
{
    places.iter().all(|slot| leads_to(halves, *slot))
}

fn all_stand(halves: &[HalfEdge], places: &[Slot; 4]) -> bool
    ensures { result ≡ list_all (λ half. stands_in places.now (At half.to)) halves.now }
{
    halves
        .iter()
        .all(|half| stands_in(places, Slot::At(half.to)))
}

/// Whether these places are the neighbours, and no other atoms.
fn may_be_list(halves: &[HalfEdge], places: &[Slot; 4]) -> bool
    ensures { result ≡ may_be_list halves.now places.now }
{
    are_different(places) && all_lead(halves, places) && all_stand(halves, places)
}

/// Whether these places may be the list of the atom.
#[tactic(auto, using(crate::proofs::Fitted::list_fits))]
fn fits(mol: &Mol, a: AtomId, places: &[Slot; 4]) -> bool
    requires { a.0 < length mol.now.atoms }
    ensures { result ≡ true → IsPlaceList mol.now.bonds a.0 places.now }
{
    let _count = mol.atom_count();
    may_be_list(mol.bonds_of(a), places)
}

/// Makes an atom a centre, where this may be its list.
fn make_centre(mol: &mut Mol, a: AtomId, places: [Slot; 4]) -> bool {
    if a.0 >= mol.atom_count() || !fits(mol, a, &places) {
        return false;
    }
    mol.set_centre(a, places);
    true
}

/// The neighbours of an atom in the order of their bonds, and the rest where there are three.
fn in_bond_order(mol: &Mol, a: AtomId) -> Option<[Slot; 4]> {
    if a.0 >= mol.atom_count() {
        return None;
    }
    match mol.bonds_of(a) {
        [p, q, r] => Some([Slot::At(p.to), Slot::At(q.to), Slot::At(r.to), Slot::Rest]),
        [p, q, r, s] => Some([
            Slot::At(p.to),
            Slot::At(q.to),
            Slot::At(r.to),
            Slot::At(s.to),
        ]),
        _ => None,
    }
}

/// The same centre with the other hand.
fn mirrored(places: [Slot; 4]) -> [Slot; 4] {
    let [p, q, r, s] = places;
    [q, p, r, s]
}

/// Whether an atom is made a centre: with its neighbours in the order of their bonds, or with the other hand.
#[derive(Clone, Copy)]
pub enum Hand {
    None,
    InBondOrder,
    Mirrored,
}

/// Makes an atom a centre of this hand, with its neighbours in the order of their bonds or mirrored.
pub fn make_centre_at(mol: &mut Mol, a: AtomId, hand: Hand) {
    if let Some(places) = in_bond_order(mol, a) {
        let _ = match hand {
            Hand::None => false,
            Hand::InBondOrder => make_centre(mol, a, places),
            Hand::Mirrored => make_centre(mol, a, mirrored(places)),
        };
    }
}

/// Makes atoms that may be centres such, by these hands in turn.
pub fn dress(alloc: Global, mol: &mut Mol, hands: &[Hand]) -> Result<(), NoMemory> {
    let sites = sites_of(alloc, mol)?;
    for (k, a) in sites.centres.iter().enumerate() {
        match hands.get(k % hands.len().max(1)) {
            Some(hand) => make_centre_at(mol, AtomId(*a), *hand),
            None => {}
        }
    }
    Ok(())
}

/// A drawing by hand.
pub fn drawn(alloc: Global, points: &[(i64, i64)]) -> Result<Drawing, NoMemory> {
    let mut drawing = Drawing::new(alloc);
    for (x, y) in points {
        drawing.push(Point { x: *x, y: *y })?;
    }
    Ok(drawing)
}

fn on_parabola(place: u32) -> Point {
    let x = place as i64;
    Point {
        x,
        y: x.wrapping_mul(x),
    }
}

/// Each atom at its place in a row, on the parabola.
pub fn drawn_in_row(alloc: Global, row: &[u32]) -> Result<Drawing, NoMemory> {
    let mut drawing = Drawing::new(alloc);
    for place in row {
        drawing.push(on_parabola(*place))?;
    }
    Ok(drawing)
}
