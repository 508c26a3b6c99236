ghost use Rattle.std.specs.Prelude.{◌<◌, ◌-◌, ◌^◌, length};

mod centres;
mod plain;

use crate::{is_barrier_in, is_placement, mean_of, needs, read_smiles};
use mc_base::{AtomId, BondId, Kind, Refusal, Stop};
use mc_elements::Element;
use mc_mol::Mol;
use smi_graph::{Skeleton, read_skeleton};
use std::process::Abort;
use std::test::Fail;

/// The hydrogens of the atoms of a text that stands for a molecule of this many atoms.
fn has_hydrogens(rt: &(impl Abort + AllocGlobal), line: &[u8], hydrogens: &[u8]) -> Result<(), Fail>
    requires { length line.now < 2 ^ 32 - 1 }
{
    match read_smiles(rt.alloc(), line) {
        Ok(read) => {
            assert!(rt; read.mol.atom_count() as usize == hydrogens.len());
            for k in 0..read.mol.atom_count() {
                assert!(rt; read.mol.atom(AtomId(k)).hydrogens == hydrogens[k as usize]);
            }
            Ok(())
        }
        Err(_) => {
            assert!(rt; false);
            Ok(())
        }
    }
}

fn is_refused(
    rt: &(impl Abort + AllocGlobal),
    line: &[u8],
    kind: Kind,
    place: u32,
) -> Result<(), Fail>
    requires { length line.now < 2 ^ 32 - 1 }
{
    match read_smiles(rt.alloc(), line) {
        Ok(_read) => assert!(rt; false),
        Err(Stop::NoMemory) => assert!(rt; false),
        Err(Stop::Refused(refusal)) => {
            assert!(rt; refusal.kind == kind);
            assert!(rt; refusal.place == place);
        }
    }
    Ok(())
}

#[test]
fn hydrogens(rt: HostRuntime) -> Result<(), Fail> {
    has_hydrogens(&rt, b"CNOF", &[3, 1, 0, 0])?;
    has_hydrogens(&rt, b"C=C-C#N", &[2, 1, 0, 0])?;
    has_hydrogens(&rt, b"CN(=O)=O", &[3, 0, 0, 0])?;
    has_hydrogens(&rt, b"S(C)(C)C", &[1, 3, 3, 3])?;
    has_hydrogens(&rt, b"B.P.Br", &[3, 3, 1])?;
    has_hydrogens(&rt, b"[CH3][C].[NH4+]", &[3, 0, 4])
}

#[test]
fn limits_of_an_atom(rt: HostRuntime) -> Result<(), Fail> {
    is_refused(&rt, b"[HH1]", Kind::HydrogenOnHydrogen, 1)?;
    is_refused(&rt, b"C[HH]", Kind::HydrogenOnHydrogen, 2)?;
    is_refused(&rt, b"C[CH9](=C)(=C)(C)C", Kind::LimitValence, 2)?;
    // the limit of valence stands before a hydrogen's hydrogens
    is_refused(&rt, b"[HH]C[CH9](=C)(=C)(C)C", Kind::LimitValence, 3)?;
    has_hydrogens(&rt, b"C[CH9](=C)(=C)", &[3, 9, 2, 2])
}

#[test]
fn fields_of_an_atom(rt: HostRuntime) -> Result<(), Fail> {
    match read_smiles(rt.alloc(), b"[13CH3-:7]$[Fe+2] the name") {
        Ok(read) => {
            assert!(rt; read.mol.atom_count() == 2);
            assert!(rt; read.mol.bond_count() == 1);
            let carbon = read.mol.atom(AtomId(0));
            assert!(rt; carbon.element == Element::C);
            assert!(rt; carbon.isotope == 13);
            assert!(rt; carbon.charge == -1);
            assert!(rt; carbon.hydrogens == 3);
            assert!(rt; carbon.class == 7);
            assert!(rt; read.mol.atom(AtomId(1)).charge == 2);
            assert!(rt; read.mol.bond(BondId(0)).order == 4);
            assert!(rt; read.name.from == 18);
            assert!(rt; read.name.to == 26);
        }
        Err(_) => assert!(rt; false),
    }
    Ok(())
}

#[test]
fn lower_case_without_a_need(rt: HostRuntime) -> Result<(), Fail> {
    // a bare lower-case atom leaves one valence for a double bond that it may have elsewhere
    has_hydrogens(&rt, b"c1(=O)c(=O)c1=O", &[0; 6])?;
    has_hydrogens(&rt, b"o1oo1", &[0; 3])?;
    has_hydrogens(&rt, b"[nH]1[nH][nH]1", &[1; 3])?;
    has_hydrogens(&rt, b"[cH2]1[cH2]s1", &[2, 2, 0])?;
    has_hydrogens(&rt, b"[se]1[se][se]1", &[0; 3])?;
    Ok(())
}

/// Which atoms of a text need a double bond.
fn need(rt: &(impl Abort + AllocGlobal), text: &[u8], which: &[bool]) -> Result<(), Fail>
    requires { length text.now < 2 ^ 32 - 1 }
{
    match read_skeleton(rt.alloc(), text) {
        Ok(skeleton) => {
            assert!(rt; skeleton.atom_count() as usize == which.len());
            for a in 0..skeleton.atom_count() {
                assert!(rt; needs(&skeleton, AtomId(a)) == which[a as usize]);
            }
        }
        Err(_) => assert!(rt; false),
    }
    Ok(())
}

#[test]
fn needs_of_atoms(rt: HostRuntime) -> Result<(), Fail> {
    need(&rt, b"c1ccccc1", &[true; 6])?;
    // pyridine, pyrrole, pyridinium, furan
    need(&rt, b"n1ccccc1", &[true; 6])?;
    need(&rt, b"[nH]1cccc1", &[false, true, true, true, true])?;
    need(&rt, b"[nH+]1ccccc1", &[true; 6])?;
    need(&rt, b"o1cccc1", &[false, true, true, true, true])?;
    need(&rt, b"[o+]1ccccc1", &[true; 6])?;
    need(&rt, b"[se]1cccc1", &[false, true, true, true, true])?;
    // an atom in brackets has the hydrogens that it writes, and no others
    need(&rt, b"[c]1ccccc1", &[false, true, true, true, true, true])?;
    need(&rt, b"[cH]1ccccc1", &[true; 6])?;
    // a double bond outside fills the need
    need(&rt, b"c1(=O)cc1", &[false, false, true, true])?;
    need(
        &rt,
        b"c12c3oc1oc2o3",
        &[true, true, false, true, false, true, false],
    )?;
    need(&rt, b"CC=C", &[false; 3])
}

/// The barrier of a text that has no placement, and its number of odd parts.
fn has_barrier(
    rt: &(impl Abort + AllocGlobal),
    line: &[u8],
    atoms: &[u32],
    odd: u32,
) -> Result<(), Fail>
    requires { length line.now < 2 ^ 32 - 1 }
{
    match read_smiles(rt.alloc(), line) {
        Ok(_read) => assert!(rt; false),
        Err(Stop::NoMemory) => assert!(rt; false),
        Err(Stop::Refused(refusal)) => {
            assert!(rt; refusal.kind == Kind::NoPlacement);
            assert!(rt; refusal.place == 0);
            assert!(rt; refusal.odd == odd);
            assert!(rt; refusal.barrier.len() == atoms.len());
            for k in 0..atoms.len() {
                assert!(rt; refusal.barrier.as_slice()[k].0 == atoms[k]);
            }
        }
    }
    Ok(())
}

#[test]
fn texts_without_a_placement(rt: HostRuntime) -> Result<(), Fail> {
    has_barrier(&rt, b"c1cccc1", &[], 1)?;
    // four needing atoms, a star
    has_barrier(&rt, b"c12c3oc1oc2o3", &[0], 3)?;
    // no candidate, since the bond lies on no closed path of such bonds
    has_barrier(&rt, b"cc", &[], 2)?;
    has_barrier(&rt, b"c1=cc=cc=c1", &[], 6)?;
    has_barrier(&rt, b"[nH2]", &[], 1)?;
    // behind the other kinds
    is_refused(&rt, b"c1cccc1C:C", Kind::AromaticBond, 7)?;
    is_refused(&rt, b"c1cccc1.[HH]", Kind::HydrogenOnHydrogen, 6)?;
    is_refused(&rt, b"c1cccc1C[CH9](=C)(=C)(C)C", Kind::LimitValence, 7)
}

/// The molecule that a text is read as is that of a placement.
fn is_placed(rt: &(impl Abort + AllocGlobal), line: &[u8]) -> Result<(), Fail>
    requires { length line.now < 2 ^ 32 - 1 }
{
    match read_smiles(rt.alloc(), line) {
        Ok(read) => {
            let skeleton = &read.skeleton;
            let mut double = Vec::new(rt.alloc());
            for k in 0..read.mol.bond_count() {
                let placed = skeleton.is_candidate(BondId(k))
                    && read.mol.bond(BondId(k)).order == 2;
                double.push(placed)?;
            }
            assert!(rt; is_placement(skeleton, &double));
        }
        Err(_) => assert!(rt; false, "{line:?}"),
    }
    Ok(())
}

#[test]
fn texts_with_a_placement(rt: HostRuntime) -> Result<(), Fail> {
    for text in [
        "c1ccccc1",
        "c1ccccc1c1ccccc1",
        "n1ccccc1",
        "[nH]1cccc1",
        "c1ccoc1",
        "[se]1cccc1",
        "c1ccc2ccccc2c1",
        "c1cc2cccc3cccc1c23",
        "c1:c:c:c:c:c:1",
        "C1=CC=CC=C1c1ccncc1",
        "[O-][n+]1ccccc1",
        "c1ccc2c(c1)[nH]c1ccccc12",
    ] {
        is_placed(&rt, text.as_bytes())?;
    }
    Ok(())
}

/// The orders of the bonds of a text under these marks, and the hydrogens of each of its atoms; nothing where the marks
/// are no placement.
fn placed(
    rt: &(impl Abort + AllocGlobal),
    text: &[u8],
    double: &[bool],
    orders: &[u8],
    hydrogens: u8,
) -> Result<(), Fail>
    requires { length text.now < 2 ^ 32 - 1 }
{
    match read_skeleton(rt.alloc(), text) {
        Ok(skeleton) => {
            if !is_placement(&skeleton, double) {
                assert!(rt; orders.len() == 0);
                return Ok(());
            }
            match mean_of(rt.alloc(), &skeleton, double) {
                Ok(mol) => {
                    assert!(rt; mol.bond_count() as usize == orders.len());
                    for k in 0..mol.bond_count() {
                        assert!(rt; mol.bond(BondId(k)).order == orders[k as usize]);
                    }
                    for a in 0..mol.atom_count() {
                        assert!(rt; mol.atom(AtomId(a)).hydrogens == hydrogens);
                    }
                }
                Err(_) => assert!(rt; false),
            }
        }
        Err(_) => assert!(rt; false),
    }
    Ok(())
}

#[test]
fn molecules_of_placements(rt: HostRuntime) -> Result<(), Fail> {
    let (t, f) = (true, false);
    placed(
        &rt,
        b"c1ccccc1",
        &[t, f, t, f, t, f],
        &[2, 1, 2, 1, 2, 1],
        1,
    )?;
    placed(
        &rt,
        b"c1ccccc1",
        &[f, t, f, t, f, t],
        &[1, 2, 1, 2, 1, 2],
        1,
    )?;
    // an atom left out, one that lies on two, a mark too few
    placed(&rt, b"c1ccccc1", &[t, f, t, f, f, f], &[], 1)?;
    placed(&rt, b"c1ccccc1", &[t, t, f, f, t, f], &[], 1)?;
    placed(&rt, b"c1ccccc1", &[t, f, t, f, t], &[], 1)?;
    // an atom without a need, and a bond that is no candidate
    placed(&rt, b"o1cccc1", &[t, f, t, f, f], &[], 0)?;
    placed(&rt, b"cc", &[t], &[], 2)
}

/// The molecule's double bonds among the candidates, as a set of bonds.
fn double_candidates(skeleton: &Skeleton, mol: &Mol) -> u64 {
    let mut set = 0;
    for k in 0..mol.bond_count() {
        if skeleton.is_candidate(BondId(k)) && mol.bond(BondId(k)).order == 2 {
            set |= plain::bit(k);
        }
    }
    set
}

/// A refusal has a barrier, by the plain program and by the checker.
fn is_barred(rt: &(impl Abort + AllocGlobal), skeleton: &Skeleton, refusal: &Refusal) {
    let mut set = 0;
    let mut next = 0u64;
    for atom in refusal.barrier.as_slice() {
        assert!(rt; next <= atom.0 as u64);
        next = atom.0 as u64 + 1;
        set |= plain::bit(atom.0);
    }
    assert!(rt; !plain::has_placement(skeleton));
    assert!(rt; plain::is_barrier(skeleton, set, refusal.odd));
    let barrier = refusal.barrier.as_slice();
    match is_barrier_in(rt.alloc(), skeleton, barrier, refusal.odd) {
        Ok(is) => assert!(rt; is),
        Err(_) => assert!(rt; false),
    }
    match is_barrier_in(rt.alloc(), skeleton, barrier, refusal.odd.wrapping_add(1)) {
        Ok(is) => assert!(rt; !is),
        Err(_) => assert!(rt; false),
    }
}

/// The reader answers what the plain program says of a text.
fn agrees(rt: &(impl Abort + AllocGlobal), text: &[u8])
    requires { length text.now < 2 ^ 32 - 1 }
{
    let skeleton = match read_skeleton(rt.alloc(), text) {
        Ok(skeleton) => skeleton,
        Err(_) => return,
    };
    match read_smiles(rt.alloc(), text) {
        Ok(read) => {
            let placed = double_candidates(&skeleton, &read.mol);
            assert!(rt; plain::is_placement(&skeleton, placed), "{text:?}");
        }
        Err(Stop::Refused(refusal)) => {
            assert!(rt; refusal.kind == Kind::NoPlacement, "{text:?}");
            is_barred(rt, &skeleton, &refusal);
        }
        Err(Stop::NoMemory) => assert!(rt; false),
    }
}

const TOKENS: [&[u8]; 10] = [
    b"c", b"n", b"o", b"C", b"[nH]", b"(", b")", b"1", b"=", b":",
];

/// The text of some of the tokens, by the digits of a number.
fn short_text(rt: &(impl Abort + AllocGlobal), length: u32, number: u64) -> Result<Vec<u8>, Fail> {
    let mut text = Vec::new(rt.alloc());
    let mut rest = number;
    for _ in 0..length {
        text.extend_from_slice(TOKENS[(rest % 10) as usize])?;
        rest /= 10;
    }
    Ok(text)
}

#[test]
fn all_short_texts(rt: HostRuntime) -> Result<(), Fail> {
    let mut texts = 1u64;
    for length in 0..6 {
        for number in 0..texts {
            let text = short_text(&rt, length, number)?;
            assert!(&rt; text.len() < 100);
            agrees(&rt, &text);
        }
        texts = texts.saturating_mul(10);
    }
    Ok(())
}

/// All texts of six tokens of which the first is given. A text begins with an atom, so five tokens can be the first.
fn agree_on_six(rt: &(impl Abort + AllocGlobal), first: u64) -> Result<(), Fail>
    requires { first < 10 }
{
    for rest in 0..100000 {
        let text = short_text(rt, 6, first + 10 * rest)?;
        assert!(rt; text.len() < 100);
        agrees(rt, &text);
    }
    Ok(())
}

#[test]
fn texts_of_six_from_carbon(rt: HostRuntime) -> Result<(), Fail> {
    agree_on_six(&rt, 0)
}

#[test]
fn texts_of_six_from_nitrogen(rt: HostRuntime) -> Result<(), Fail> {
    agree_on_six(&rt, 1)
}

#[test]
fn texts_of_six_from_oxygen(rt: HostRuntime) -> Result<(), Fail> {
    agree_on_six(&rt, 2)
}

#[test]
fn texts_of_six_from_upper_case(rt: HostRuntime) -> Result<(), Fail> {
    agree_on_six(&rt, 3)
}

#[test]
fn texts_of_six_from_bracket(rt: HostRuntime) -> Result<(), Fail> {
    agree_on_six(&rt, 4)
}
