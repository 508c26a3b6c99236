//! The molecule of a table as far as its atoms and bonds go.
ghost use Rattle.std.specs.Prelude.{◌≡◌, ℕ, ◌+◌, ◌≤◌, ◌<◌, IfOk, IfErr, AllPairs, All, None, true, false, length, get_or, map};
ghost use Rattle.ct_sd.specs.Faults.{AreNone, IsRefused, first_of};
ghost use Rattle.mc_mol.specs.declared.limits.TheConstants.{ATOM_LIMIT, BOND_LIMIT};
ghost use Rattle.mc_mol.specs.declared.parts.Bond.{Bond as Joining};
ghost use Rattle.mc_mol.specs.Molecule.{bond_sum, joins};
ghost use Rattle.mc_mol.specs.Parts.{independent_rings};
ghost use Rattle.mc_mol.specs.WellFormed.{IsBond};
ghost use Rattle.ct_geometry.specs.Bounds.{ArePlaces};
ghost use Rattle.ct_geometry.specs.Tables.{bond_of, bonds_of, drawing_of, marks_of, mark_of, point_of, without_stereo};
ghost use Rattle.ct_sd.specs.Tables.{IsTable};
ghost use Rattle.ct_geometry.specs.TableFaults.{atom_faults, limit_faults, ring_faults};

use crate::table_atoms::atoms_with;
use crate::table_faults::{note_atoms, note_rings};
use ct_sd::{DrawMark, FirstFault, Table, TableAtom, TableBond};
use mc_base::{AtomId, NoMemory, Stop};
use mc_mol::{Bond, Drawing, Mol, Point, RING_LIMIT, bond_sums, independent_rings};
use std::alloc::{AllocError, Global};

fn bond_of(bond: TableBond) -> Bond
    ensures { result ≡ bond_of bond }
{
    Bond {
        first: AtomId(bond.first),
        second: AtomId(bond.second),
        order: bond.order,
    }
}

fn bonds_of(alloc: Global, bonds: &[TableBond]) -> Result<Vec<Bond>, AllocError>
    ensures { IfOk result (λ found. found.items ≡ bonds_of bonds.now) }
{
    let mut found = Vec::with_capacity(alloc, bonds.len())?;
    for bond in bonds {
        found.push_reserved(bond_of(*bond));
    }
    Ok(found)
}

/// How the bonds of a table are drawn.
pub fn marks_of(alloc: Global, bonds: &[TableBond]) -> Result<Vec<DrawMark>, AllocError>
    ensures { IfOk result (λ found. found.items ≡ map mark_of bonds.now) }
{
    let mut found = Vec::with_capacity(alloc, bonds.len())?;
    for bond in bonds {
        found.push_reserved(bond.mark);
    }
    Ok(found)
}

/// Where the atoms of a table are drawn.
pub fn drawing_of(alloc: Global, atoms: &[TableAtom]) -> Result<Drawing, NoMemory>
    ensures { IfOk result (λ drawing. drawing ≡ map point_of atoms.now) }
{
    let mut found = Vec::with_capacity(alloc, atoms.len())?;
    for atom in atoms {
        found.push_reserved(Point {
            x: atom.x,
            y: atom.y,
        });
    }
    Ok(Drawing::from_vec(found))
}

/// Notes too many independent rings. Each takes a bond, so that few bonds have few.
#[tactic(auto, using(crate::proofs::FewRings::few_rings))]
fn note_ring_limit(
    alloc: Global,
    bonds: &[Bond],
    atoms: u32,
    faults: &mut FirstFault,
) -> Result<(), AllocError>
    requires few_atoms { atoms ≤ ATOM_LIMIT }
    requires few_bonds { length bonds.now ≤ BOND_LIMIT }
    requires bonds { All (IsBond atoms) bonds.now }
    requires once { AllPairs (λ (b c : Joining). joins b c.first.0 c.second.0 ≡ false) bonds.now }
    ensures { IfOk result (λ _. faults.new.fault ≡ first_of faults.old.fault (ring_faults (independent_rings bonds.now atoms))) }
{
    if bonds.len() > RING_LIMIT as usize {
        note_rings(independent_rings(alloc, bonds, atoms)?, faults);
    }
    Ok(())
}

/// The first kind that stands in the atoms and bonds of a table, which these bonds and bond sums are of.
fn first_limit(
    alloc: Global,
    bonds: &[Bond],
    sums: &[u32],
    atoms: &[TableAtom],
) -> Result<FirstFault, AllocError>
    requires few_atoms { length atoms.now ≤ ATOM_LIMIT }
    requires few_bonds { length bonds.now ≤ BOND_LIMIT }
    requires bonds { All (IsBond (length atoms.now)) bonds.now }
    requires once { AllPairs (λ (b c : Joining). joins b c.first.0 c.second.0 ≡ false) bonds.now }
    requires count { length sums.now ≡ length atoms.now }
    requires small { (k : ℕ) → get_or sums.now k 0 ≤ 65535 }
    requires sums { (k : ℕ) → k < length atoms.now → get_or sums.now k 0 ≡ bond_sum bonds.now k }
    ensures { IfOk result (λ first. first.fault ≡ first_of (first_of None (ring_faults (independent_rings bonds.now (length atoms.now)))) (atom_faults bonds.now 0 atoms.now)) }
{
    let mut faults = FirstFault::none();
    note_ring_limit(alloc, bonds, atoms.len() as u32, &mut faults)?;
    note_atoms(bonds, sums, atoms, &mut faults);
    Ok(faults)
}

/// The molecule of a table as far as its atoms and bonds go, or the first kind that stands in these.
#[tactic(auto, using(crate::proofs::Accepted::limits_joined, crate::proofs::Accepted::values_within))]
pub fn read_graph(alloc: Global, table: &Table) -> Result<Mol, Stop>
    requires { IsTable table.now }
    ensures ok { IfOk result (λ mol. mol ≡ without_stereo table.now) }
    ensures accepted { IfOk result (λ _. AreNone (limit_faults table.now)) }
    ensures err { IfErr result (IsRefused (limit_faults table.now)) }
{
    let atoms = table.atoms.as_slice();
    let bonds = bonds_of(alloc, table.bonds.as_slice())?;
    let sums = bond_sums(alloc, &bonds, atoms.len())?;
    first_limit(alloc, &bonds, &sums, atoms)?.accept(alloc)?;
    let atoms = atoms_with(alloc, &bonds, &sums, atoms)?;
    Ok(Mol::of(alloc, atoms, bonds)?)
}
