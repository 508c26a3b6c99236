//! The double bonds that ask for sides, and the neighbours that they name.
ghost use Rattle.std.specs.Prelude.{◌≡◌, ◌<◌, ◌==◌, not, filter, length};
ghost use Rattle.mc_mol.specs.declared.parts.HalfEdge.{HalfEdge as Leading};
ghost use Rattle.lay_place.specs.Wanted.{named_at, first_named};
ghost use Rattle.lay_place.specs.Search.{is_free};

use crate::wish::same;
use mc_base::{AtomId, BondId};
use mc_mol::{HalfEdge, Mol};
use mc_rings::Rings;

/// The neighbour that is named at an end of a double bond, and its side. The end's other neighbour has the other side.
#[derive(Clone, Copy)]
pub struct Named {
    pub atom: AtomId,
    pub side: bool,
}

impl Named {
    ghost use Rattle.std.specs.Prelude.{◌≡◌};
    ghost use Rattle.lay_place.specs.Wanted.{side_from};

    /// The side of a neighbour of this end.
    pub fn side_of(self, a: AtomId) -> bool
        ensures { result ≡ side_from self a.0 }
    {
        same(self.side, a.0 == self.atom.0)
    }
}

/// Whether the bond is double and lies in no ring.
pub fn is_free(mol: &Mol, rings: &Rings, k: BondId) -> bool
    requires bond { k.0 < length mol.now.bonds }
    requires size { k.0 < length rings.now.sizes }
    ensures { result ≡ is_free mol.now rings.now.sizes k.0 }
{
    mol.bond(k).order == 2 && rings.ring_size(k).is_none()
}

/// The named neighbour of an end at which the bond asks: of a specified bond, or of a centre with three neighbours.
pub fn named_at(mol: &Mol, k: BondId, a: AtomId) -> Option<Named>
    requires bond { k.0 < length mol.now.bonds }
    requires atom { a.0 < length mol.now.atoms }
    ensures { result ≡ named_at mol.now k.0 a.0 }
{
    let bond = mol.bond(k);
    match mol.sides(k) {
        Some(sides) => {
            if bond.first.0 == a.0 {
                Some(Named {
                    atom: sides.first,
                    side: true,
                })
            } else {
                Some(Named {
                    atom: sides.second,
                    side: sides.together,
                })
            }
        }
        None => {
            let halves = mol.bonds_of(a);
            match mol.centre(a) {
                Some(_) if halves.len() == 3 => first_named(halves, k),
                _ => None,
            }
        }
    }
}

fn first_named(halves: &[HalfEdge], k: BondId) -> Option<Named>
    ensures { result ≡ first_named (filter (λ (half : Leading). not (half.bond.0 == k.0)) halves.now) }
{
    for half in halves {
        if half.bond.0 != k.0 {
            return Some(Named {
                atom: half.to,
                side: true,
            });
        }
    }
    None
}
