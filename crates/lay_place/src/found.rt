//! What stands already of the bonds that ask something of the next atom.
ghost use Rattle.std.specs.Prelude.{◌≡◌, ◌<◌, ℕ, ◌⊎◌, length, IfSome, IfNone, false, slice_get, Some};
ghost use Rattle.mc_mol.specs.declared.parts.HalfEdge.{HalfEdge as Leading};
ghost use Rattle.mc_mol.specs.HalfEdges.{half_edges};
ghost use Rattle.mc_mol.specs.Numbered.{Mark};
ghost use Rattle.lay_place.specs.Search.{FoundPlaced, leads_to_placed, FoundAsking, asks_here, IsEndWish, NoEnd, IsPartedBy, NoParted, IsSideWish, NoSide, FoundTold, NoTold, IsTold, NotTold};

use crate::asking::{is_free, named_at};
use crate::curve::Curve;
use crate::wish::{Wish, is_inside, same};
use mc_base::{AtomId, BondId};
use mc_mol::{HalfEdge, Mol};
use mc_rings::Rings;

/// An atom that has its place.
#[derive(Clone, Copy)]
pub struct Placed {
    pub atom: AtomId,
    pub place: u32,
}

/// The place of an atom that has a side at a double bond, and the side.
#[derive(Clone, Copy)]
pub struct Told {
    pub place: u32,
    pub side: bool,
}

/// The first half-edge of a bond other than k to a placed atom other than one.
fn find_placed(halves: &[HalfEdge], curve: &Curve, k: BondId, skip: AtomId) -> Option<Placed>
    ensures found { IfSome result (λ f. FoundPlaced halves.now curve.now k.0 skip.0 f.atom.0 f.place) }
    ensures none { IfNone result ((i : ℕ) (half : Leading) → slice_get halves.now i ≡ Some half → leads_to_placed curve.now k.0 skip.0 half ≡ false) }
{
    for half in halves {
        if half.bond.0 != k.0 && half.to.0 != skip.0 {
            if let Some(place) = curve.place(half.to) {
                return Some(Placed {
                    atom: half.to,
                    place,
                });
            }
        }
    }
    None
}

/// The half-edge of a bond other than k that asks at e and leads to a placed atom.
#[tactic(auto, using(crate::proofs::HalfFacts::bond_within, crate::proofs::HalfFacts::atom_within, crate::proofs::HalfFacts::there))]
fn find_asking(mol: &Mol, rings: &Rings, curve: &Curve, k: BondId, e: AtomId) -> Option<HalfEdge>
    requires atom { e.0 < length mol.now.atoms }
    requires sizes { length rings.now.sizes ≡ length mol.now.bonds }
    ensures found { IfSome result (λ half. FoundAsking mol.now rings.now.sizes curve.now k.0 e.0 half) }
    ensures bond { IfSome result (λ half. half.bond.0 < length mol.now.bonds) }
    ensures far { IfSome result (λ half. half.to.0 < length mol.now.atoms) }
    ensures none { IfNone result ((i : ℕ) (half : Leading) → slice_get (half_edges mol.now e.0) i ≡ Some half → asks_here mol.now rings.now.sizes curve.now k.0 e.0 half ≡ false) }
{
    let halves = mol.bonds_of(e);
    for half in halves {
        if asks_here(mol, rings, curve, k, e, *half) {
            return Some(*half);
        }
    }
    None
}

fn asks_here(mol: &Mol, rings: &Rings, curve: &Curve, k: BondId, e: AtomId, half: HalfEdge) -> bool
    requires atom { e.0 < length mol.now.atoms }
    requires bond { half.bond.0 < length mol.now.bonds }
    requires sizes { length rings.now.sizes ≡ length mol.now.bonds }
    ensures { result ≡ asks_here mol.now rings.now.sizes curve.now k.0 e.0 half }
{
    half.bond.0 != k.0
        && is_free(mol, rings, half.bond)
        && curve.has(half.to)
        && named_at(mol, half.bond, e).is_some()
}

/// What bond k asks of its second end, where it asks at its first end u: u and two other neighbours of it are placed.
#[tactic(auto, using(crate::proofs::HalfFacts::end_unplaced, crate::proofs::HalfFacts::end_unfree, crate::proofs::HalfFacts::end_unnamed, crate::proofs::HalfFacts::end_parted))]
pub fn as_end(mol: &Mol, rings: &Rings, curve: &Curve, k: BondId, u: AtomId) -> Option<Wish>
    requires bond { k.0 < length mol.now.bonds }
    requires atom { u.0 < length mol.now.atoms }
    requires sizes { length rings.now.sizes ≡ length mol.now.bonds }
    ensures found { IfSome result (λ wish. IsEndWish mol.now rings.now.sizes curve.now k.0 u.0 wish) }
    ensures none { IfNone result (NoEnd mol.now rings.now.sizes curve.now k.0 u.0) }
{
    if !is_free(mol, rings, k) {
        return None;
    }
    match curve.place(u) {
        None => None,
        Some(end) => match named_at(mol, k, u) {
            None => None,
            Some(_) => parted_at(mol.bonds_of(u), curve, k, u, end),
        },
    }
}

/// The same, where the bond asks at u.
fn parted_at(halves: &[HalfEdge], curve: &Curve, k: BondId, u: AtomId, end: u32) -> Option<Wish>
    requires mark { Mark curve.now u.0 end }
    ensures found { IfSome result (λ wish. IsPartedBy halves.now curve.now k.0 u.0 end wish) }
    ensures none { IfNone result (NoParted halves.now curve.now k.0 u.0) }
{
    match find_placed(halves, curve, k, u) {
        None => None,
        Some(one) => match find_placed(halves, curve, k, one.atom) {
            None => None,
            Some(other) => Some(Wish::Parting {
                end,
                one: one.place,
                other: other.place,
            }),
        },
    }
}

/// What another bond than k, which asks at v's neighbour e, asks of v: its ends and an atom that has a side are placed.
#[tactic(auto, using(crate::proofs::HalfFacts::side_unplaced, crate::proofs::HalfFacts::side_unasked))]
pub fn as_side(
    mol: &Mol,
    rings: &Rings,
    curve: &Curve,
    k: BondId,
    e: AtomId,
    v: AtomId,
) -> Option<Wish>
    requires atom { e.0 < length mol.now.atoms }
    requires sizes { length rings.now.sizes ≡ length mol.now.bonds }
    ensures found { IfSome result (λ wish. IsSideWish mol.now rings.now.sizes curve.now k.0 e.0 v.0 wish) }
    ensures none { IfNone result (NoSide mol.now rings.now.sizes curve.now k.0 e.0) }
{
    match curve.place(e) {
        None => None,
        Some(near) => match find_asking(mol, rings, curve, k, e) {
            None => None,
            Some(half) => beside_at(mol, rings, curve, k, e, v, near, half),
        },
    }
}

/// The same with the half-edge of the bond that asks.
#[tactic(auto, using(crate::proofs::HalfFacts::side_far_unplaced, crate::proofs::HalfFacts::side_unnamed))]
fn beside_at(
    mol: &Mol,
    rings: &Rings,
    curve: &Curve,
    k: BondId,
    e: AtomId,
    v: AtomId,
    near: u32,
    half: HalfEdge,
) -> Option<Wish>
    requires atom { e.0 < length mol.now.atoms }
    requires far { half.to.0 < length mol.now.atoms }
    requires bond { half.bond.0 < length mol.now.bonds }
    requires asking { FoundAsking mol.now rings.now.sizes curve.now k.0 e.0 half }
    requires mark { Mark curve.now e.0 near }
    ensures found { IfSome result (λ wish. IsSideWish mol.now rings.now.sizes curve.now k.0 e.0 v.0 wish) }
    ensures none { IfNone result (NoSide mol.now rings.now.sizes curve.now k.0 e.0) }
{
    match curve.place(half.to) {
        None => None,
        Some(far) => match named_at(mol, half.bond, e) {
            None => None,
            Some(named) => match find_told(mol, curve, half.bond, e, half.to) {
                None => None,
                Some(told) => {
                    let stands = is_inside(near, told.place, far);
                    let inside = same(stands, same(named.side_of(v), told.side));
                    Some(Wish::Beside { near, far, inside })
                }
            },
        },
    }
}

/// A placed neighbour of one end or the other of bond k that has a side.
fn find_told(mol: &Mol, curve: &Curve, k: BondId, e: AtomId, p: AtomId) -> Option<Told>
    requires bond { k.0 < length mol.now.bonds }
    requires first { e.0 < length mol.now.atoms }
    requires second { p.0 < length mol.now.atoms }
    ensures found { IfSome result (λ t. IsTold mol.now curve.now k.0 e.0 p.0 t.place t.side) }
    ensures none { IfNone result (NotTold mol.now curve.now k.0 e.0 p.0) }
{
    match find_told_at(mol, curve, k, e) {
        Some(told) => Some(told),
        None => find_told_at(mol, curve, k, p),
    }
}

fn find_told_at(mol: &Mol, curve: &Curve, k: BondId, f: AtomId) -> Option<Told>
    requires bond { k.0 < length mol.now.bonds }
    requires atom { f.0 < length mol.now.atoms }
    ensures found { IfSome result (λ t. FoundTold mol.now curve.now k.0 f.0 t.place t.side) }
    ensures none { IfNone result (NoTold mol.now curve.now k.0 f.0) }
{
    let halves = mol.bonds_of(f);
    match named_at(mol, k, f) {
        None => None,
        Some(named) => match find_placed(halves, curve, k, f) {
            None => None,
            Some(found) => Some(Told {
                place: found.place,
                side: named.side_of(found.atom),
            }),
        },
    }
}
