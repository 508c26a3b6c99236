//! Where the next atom comes to stand.
ghost use Rattle.std.specs.Prelude.{◌≡◌, ◌<◌, ◌≤◌, ◌⊎◌, length, IfSome, IfNone, true, slice_get, Some};
ghost use Rattle.lay_place.specs.Wanted.{MayBePlaced, FreeDouble, Wanted};
ghost use Rattle.lay_place.specs.Walk.{IsBefore};
ghost use Rattle.lay_place.specs.Asks.{Suits};
ghost use Rattle.lay_place.specs.Curve.{IsRow, place_of};
ghost use Rattle.lay_place.specs.Wishes.{meets, IsOpen, IsWish};
ghost use Rattle.lay_place.specs.Search.{IsEndWish, NoEnd, IsSideWish, NoSide};

use crate::curve::Curve;
use crate::found::{as_end, as_side};
use crate::wish::Wish;
use mc_base::AtomId;
use mc_mol::{HalfEdge, Mol};
use mc_rings::Rings;

/// The place in the row for the next atom v of the order, behind the `done` atoms that have theirs: any place, but where v
/// is the last end, or the last neighbour with a side, of a bond that asks.
pub fn next_place(mol: &Mol, rings: &Rings, curve: &Curve, v: AtomId, done: u32) -> u32
    requires may { MayBePlaced mol.now rings.now }
    requires at_v { slice_get rings.now.order done ≡ Some v }
    requires row { IsRow mol.now rings.now done curve.now }
    ensures low { result ≤ done }
    ensures suits { Suits (FreeDouble mol.now rings.now.sizes) (Wanted mol.now rings.now.sizes) (IsBefore rings.now.order done) (place_of curve.now) v.0 result }
{
    let wish = wish_of(mol, rings, curve, v, done);
    widest(mol, curve, v, done, wish)
}

/// What the double bonds ask of the next atom.
fn wish_of(mol: &Mol, rings: &Rings, curve: &Curve, v: AtomId, done: u32) -> Wish
    requires may { MayBePlaced mol.now rings.now }
    requires at_v { slice_get rings.now.order done ≡ Some v }
    requires row { IsRow mol.now rings.now done curve.now }
    ensures { IsWish mol.now rings.now done curve.now v.0 result }
{
    let halves = mol.bonds_of(v);
    for half in halves {
        if let Some(wish) = wish_at(mol, rings, curve, v, *half) {
            return wish;
        }
    }
    Wish::Anywhere
}

/// What is asked of v by the bonds of the neighbour to which a half-edge leads.
fn wish_at(mol: &Mol, rings: &Rings, curve: &Curve, v: AtomId, half: HalfEdge) -> Option<Wish>
    requires bond { half.bond.0 < length mol.now.bonds }
    requires far { half.to.0 < length mol.now.atoms }
    requires sizes { length rings.now.sizes ≡ length mol.now.bonds }
    ensures found { IfSome result (λ wish. IsEndWish mol.now rings.now.sizes curve.now half.bond.0 half.to.0 wish ⊎ IsSideWish mol.now rings.now.sizes curve.now half.bond.0 half.to.0 v.0 wish) }
    ensures no_end { IfNone result (NoEnd mol.now rings.now.sizes curve.now half.bond.0 half.to.0) }
    ensures no_side { IfNone result (NoSide mol.now rings.now.sizes curve.now half.bond.0 half.to.0) }
{
    match as_end(mol, rings, curve, half.bond, half.to) {
        Some(wish) => Some(wish),
        None => as_side(mol, rings, curve, half.bond, half.to, v),
    }
}

/// How many places are tried for an atom.
const TRIED: u32 = 64;

/// Of some places that are as wished the one that is farthest from v's neighbours and from theirs, so that rays differ by
/// much and others read the drawing as well.
fn widest(mol: &Mol, curve: &Curve, v: AtomId, done: u32, wish: Wish) -> u32
    requires atom { v.0 < length mol.now.atoms }
    requires few { done < 4999 }
    requires wish { IsOpen wish done }
    ensures low { result ≤ done }
    ensures meets { meets wish result ≡ true }
{
    let mut best = wish.first(done);
    let mut most = distance(mol, curve, v, best);
    let step = done / (TRIED - 1) + 1;
    for i in 0..TRIED {
        let place = step.wrapping_mul(i);
        if place > done {
            break;
        }
        if wish.is_met(place) {
            let here = distance(mol, curve, v, place);
            if here > most {
                best = place;
                most = here;
            }
        }
    }
    best
}

/// How far a place is from the nearest placed neighbour of v, and from the neighbours of these.
#[tactic(auto, using(crate::proofs::HalfFacts::atom_within))]
fn distance(mol: &Mol, curve: &Curve, v: AtomId, place: u32) -> u32
    requires { v.0 < length mol.now.atoms }
{
    let mut least = u32::MAX;
    let halves = mol.bonds_of(v);
    for half in halves {
        if curve.has(half.to) {
            let there = nearest(mol, curve, half.to, place);
            least = least.min(there).min(gap(curve, half.to, place));
        }
    }
    least
}

/// The neighbours of an atom that are looked at: all that an atom has but for odd ones.
const LOOKED_AT: usize = 8;

/// The same for the neighbours of one atom.
fn nearest(mol: &Mol, curve: &Curve, e: AtomId, place: u32) -> u32
    requires { e.0 < length mol.now.atoms }
{
    let mut least = u32::MAX;
    for half in mol.bonds_of(e).iter().take(LOOKED_AT) {
        least = least.min(gap(curve, half.to, place));
    }
    least
}

/// Twice the distance from an atom's place to where another one comes in: directly before the place, or behind it.
fn gap(curve: &Curve, a: AtomId, place: u32) -> u32 {
    match curve.place(a) {
        Some(there) => {
            let middle = there.wrapping_mul(2).wrapping_add(1);
            middle.abs_diff(place.wrapping_mul(2))
        }
        None => u32::MAX,
    }
}
