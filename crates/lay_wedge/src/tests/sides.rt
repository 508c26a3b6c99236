//! Double bonds of which the sides are specified.
ghost use Rattle.std.specs.Prelude.{◌≡◌, ◌<◌, length, true};
ghost use Rattle.mc_mol.specs.Molecule.{are_joined};
ghost use Rattle.mc_mol.specs.WellFormed.{SidesFit};

use mc_base::{AtomId, BondId};
use mc_mol::{Bond, Mol, Sides};

fn is_joined(mol: &Mol, u: AtomId, v: AtomId) -> bool
    ensures { result ≡ true → are_joined mol.now.bonds u.0 v.0 ≡ true }
{
    u.0 < mol.atom_count() && u.0 != v.0 && mol.are_joined(u, v)
}

/// Whether these may be the sides of the bond.
#[tactic(auto, using(crate::proofs::Fitted::sides_fit))]
fn may_be_sides(mol: &Mol, k: BondId, sides: Sides) -> bool
    requires { k.0 < length mol.now.bonds }
    ensures { result ≡ true → SidesFit mol.now.bonds k.0 sides }
{
    let bond = mol.bond(k);
    bond.order == 2
        && is_joined(mol, bond.first, sides.first)
        && is_joined(mol, bond.second, sides.second)
        && sides.first.0 != bond.second.0
        && sides.second.0 != bond.first.0
}

/// The neighbours of one end of a bond but for its other end: the first one, and the last one where there are several.
#[derive(Clone, Copy)]
struct FirstAndLast {
    first: AtomId,
    last: Option<AtomId>,
}

fn others(mol: &Mol, end: AtomId, other: AtomId) -> Option<FirstAndLast> {
    let mut found: Option<FirstAndLast> = None;
    if end.0 < mol.atom_count() {
        for half in mol.bonds_of(end) {
            if half.to.0 != other.0 {
                found = Some(match found {
                    None => FirstAndLast {
                        first: half.to,
                        last: None,
                    },
                    Some(others) => FirstAndLast {
                        first: others.first,
                        last: Some(half.to),
                    },
                });
            }
        }
    }
    found
}

fn set_sides(mol: &mut Mol, k: BondId, sides: Sides) -> bool {
    if k.0 >= mol.bond_count() || !may_be_sides(mol, k, sides) {
        return false;
    }
    mol.set_sides(k, sides);
    true
}

/// Gives a double bond its sides: whether the first other neighbours of its ends stand together.
pub fn specify(mol: &mut Mol, k: BondId, together: bool) -> bool {
    if k.0 >= mol.bond_count() {
        return false;
    }
    let Bond { first, second, .. } = mol.bond(k);
    match (others(mol, first, second), others(mol, second, first)) {
        (Some(p), Some(q)) => set_sides(
            mol,
            k,
            Sides {
                first: p.first,
                second: q.first,
                together,
            },
        ),
        _ => false,
    }
}

fn place_in(row: &[u32], a: AtomId) -> u32 {
    match row.get(a.0 as usize) {
        Some(place) => *place,
        None => 0,
    }
}

/// On a parabola an atom stands on the inner side of a bond where its place in the row lies between those of the ends.
fn is_inside(row: &[u32], bond: Bond, a: AtomId) -> bool {
    let u = place_in(row, bond.first);
    let v = place_in(row, bond.second);
    let place = place_in(row, a);
    u.min(v) < place && place < u.max(v)
}

/// On which side the first other neighbour of an end stands; none where the second one is there too.
fn side_of(row: &[u32], bond: Bond, others: FirstAndLast) -> Option<bool> {
    let side = is_inside(row, bond, others.first);
    match others.last {
        Some(last) if is_inside(row, bond, last) == side => None,
        _ => Some(side),
    }
}

/// Gives a double bond the sides that this row draws, where it draws any.
pub fn specify_in_row(mol: &mut Mol, k: BondId, row: &[u32]) -> bool {
    if k.0 >= mol.bond_count() {
        return false;
    }
    let bond = mol.bond(k);
    match (
        others(mol, bond.first, bond.second),
        others(mol, bond.second, bond.first),
    ) {
        (Some(p), Some(q)) => match (side_of(row, bond, p), side_of(row, bond, q)) {
            (Some(first), Some(second)) => specify(mol, k, first == second),
            _ => false,
        },
        _ => false,
    }
}
