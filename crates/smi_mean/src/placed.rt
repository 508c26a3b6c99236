//! The molecule of a skeleton under a placement of double bonds.

ghost use Rattle.std.specs.Prelude.{◌≡◌, ℕ, ◌≤◌, ◌<◌, IfOk, IfErr, length, get_or, map};
ghost use Rattle.mc_mol.specs.Molecule.{bond_sum};
ghost use Rattle.smi_graph.specs.Links.{bond_of};
ghost use Rattle.smi_mean.specs.Meaning.{atoms_with as atoms_meant};
ghost use Rattle.smi_mean.specs.Meant.{IsUnmarkedUnder, AreRightMarks, CantBeMarked, CantBePlaced, molecule_under};
ghost use Rattle.smi_mean.specs.MeantCentres.{MarkFits};
ghost use Rattle.smi_mean.specs.Placements.{IsPlacement, raised_bond, raised, meaning_under};

use crate::atoms::atoms_with;
use crate::centres::{set_centres, with_marks};
use crate::molecule::molecule;
use crate::need::needs_in_order;
use crate::place::{Placing, place};
use mc_base::{AtomList, Kind, NoMemory, Refusal, Stop};
use mc_mol::{Atom, Bond, Mol, bond_sums};
use smi_graph::{Skeleton, bonds_with_orders};
use std::alloc::{AllocError, Global};

fn raised_bond(is_placed: bool, bond: Bond) -> Bond
    ensures { result ≡ raised_bond is_placed bond }
{
    Bond {
        first: bond.first,
        second: bond.second,
        order: if is_placed { 2 } else { bond.order },
    }
}

/// The bonds, of which the placed ones are double.
fn raised(alloc: Global, placed: &[bool], bonds: &[Bond]) -> Result<Vec<Bond>, AllocError>
    requires { length placed.now ≡ length bonds.now }
    ensures { IfOk result (λ found. found.items ≡ raised placed.now bonds.now) }
{
    let mut found = Vec::with_capacity(alloc, bonds.len())?;
    for (k, bond) in bonds.iter().enumerate() {
        found.push_reserved(raised_bond(placed[k], *bond));
    }
    Ok(found)
}

/// The molecule of these atoms and bonds of a skeleton, of which the placed bonds are double, without stereo.
fn molecule_under(
    alloc: Global,
    skeleton: &Skeleton,
    atoms: Vec<Atom>,
    bonds: &[Bond],
    placed: &[bool],
) -> Result<Mol, NoMemory>
    requires marks { length placed.now ≡ length skeleton.now.bonds }
    requires atoms { atoms.items ≡ atoms_meant (map bond_of skeleton.now.bonds) 0 skeleton.now.atoms }
    requires count { length atoms.items ≡ length skeleton.now.atoms }
    requires bonds { bonds.now ≡ map bond_of skeleton.now.bonds }
    ensures { IfOk result (λ mol. mol ≡ meaning_under skeleton.now.atoms (map bond_of skeleton.now.bonds) placed.now) }
{
    let _limits = skeleton.bonds();
    let bonds = raised(alloc, placed, bonds)?;
    molecule(alloc, atoms, bonds)
}

/// The molecule of a skeleton in which these bonds are double, without stereo.
pub fn unmarked_with(alloc: Global, skeleton: &Skeleton, double: &[bool]) -> Result<Mol, NoMemory>
    requires { length double.now ≡ length skeleton.now.bonds }
    ensures { IfOk result (λ mol. mol ≡ meaning_under skeleton.now.atoms (map bond_of skeleton.now.bonds) double.now) }
{
    let bonds = bonds_with_orders(alloc, skeleton.bonds())?;
    let sums = bond_sums(alloc, &bonds, skeleton.atoms().len())?;
    let atoms = atoms_with(alloc, &bonds, &sums, skeleton.atoms())?;
    molecule_under(alloc, skeleton, atoms, &bonds, double)
}

/// The molecule of a skeleton in which these bonds are double, whether they are a placement or not.
pub fn molecule_with(alloc: Global, skeleton: &Skeleton, double: &[bool]) -> Result<Mol, NoMemory>
    requires count { length double.now ≡ length skeleton.now.bonds }
    requires marks { (k : ℕ) → k < length skeleton.now.atoms → MarkFits skeleton.now k }
    ensures { IfOk result (λ mol. mol ≡ molecule_under skeleton.now double.now) }
{
    let _limits = skeleton.bonds();
    let mut mol = unmarked_with(alloc, skeleton, double)?;
    set_centres(&mut mol, skeleton);
    Ok(mol)
}

/// The molecule of a skeleton under a placement, which says of each bond whether it is double; or the refusal of the first
/// mark at an atom that may be no centre.
pub fn mean_of(alloc: Global, skeleton: &Skeleton, double: &[bool]) -> Result<Mol, Stop>
    requires { IsPlacement skeleton.now.atoms skeleton.now.bonds double.now }
    ensures ok { IfOk result (λ mol. mol ≡ molecule_under skeleton.now double.now) }
    ensures right { IfOk result (AreRightMarks skeleton.now) }
    ensures err { IfErr result (CantBeMarked skeleton.now (meaning_under skeleton.now.atoms (map bond_of skeleton.now.bonds) double.now)) }
{
    let mol = unmarked_with(alloc, skeleton, double)?;
    with_marks(alloc, skeleton, mol)
}

/// The refusal of a text whose atoms have no placement.
fn no_placement(barrier: AtomList, odd: u32) -> Stop
    ensures { result ≡ Stop.Refused (record { kind = Kind.NoPlacement; place = 0; barrier = barrier; odd = odd }) }
{
    Stop::Refused(Refusal {
        kind: Kind::NoPlacement,
        place: 0,
        barrier,
        odd,
    })
}

/// The molecule of these atoms and bonds of a skeleton under some placement, without stereo, or the refusal where there is
/// none.
#[tactic(auto, using(crate::proofs::Placing::is_under, crate::proofs::Placing::cant_be_placed))]
pub fn placed_molecule(
    alloc: Global,
    skeleton: &Skeleton,
    atoms: Vec<Atom>,
    bonds: &[Bond],
    sums: &[u32],
) -> Result<Mol, Stop>
    requires atoms { atoms.items ≡ atoms_meant (map bond_of skeleton.now.bonds) 0 skeleton.now.atoms }
    requires count { length atoms.items ≡ length skeleton.now.atoms }
    requires bonds { bonds.now ≡ map bond_of skeleton.now.bonds }
    requires sums_count { length sums.now ≡ length skeleton.now.atoms }
    requires small { (k : ℕ) → get_or sums.now k 0 ≤ 65535 }
    requires sums { (k : ℕ) → k < length skeleton.now.atoms → get_or sums.now k 0 ≡ bond_sum bonds.now k }
    ensures ok { IfOk result (IsUnmarkedUnder skeleton.now) }
    ensures err { IfErr result (CantBePlaced skeleton.now) }
{
    let needs = needs_in_order(alloc, skeleton.atoms(), bonds, sums)?;
    match place(alloc, skeleton, &needs, bonds)? {
        Placing::Placed(placed) => {
            let mol = molecule_under(alloc, skeleton, atoms, bonds, &placed)?;
            Ok(mol)
        }
        Placing::Barred(barrier, odd) => Err(no_placement(barrier, odd)),
    }
}
