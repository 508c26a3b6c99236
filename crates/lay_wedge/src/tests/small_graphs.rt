//! Every molecule of up to five atoms with single and double bonds, with each choice of centres and specified bonds, in rows.
use crate::tests::choices::{Sites, choices, choose, sites_of};
use crate::tests::molecules::{carbons, drawn_in_row, join};
use crate::tests::planned::is_right;
use mc_base::NoMemory;
use mc_mol::Mol;
use std::alloc::Global;
use std::process::Abort;
use std::test::Fail;

/// The molecule of a pattern: for each pair of atoms a digit of three, the order of its bond.
fn molecule(alloc: Global, count: u32, pattern: u32) -> Result<Mol, NoMemory> {
    let mut mol = carbons(alloc, count)?;
    let mut rest = pattern;
    for v in 0..count {
        for u in 0..v {
            let order = rest % 3;
            rest = rest / 3;
            if order > 0 {
                let _ = join(&mut mol, u, v, order as u8);
            }
        }
    }
    Ok(mol)
}

/// The row of this number: each atom is put in before, between or behind those that stand.
fn row_of(alloc: Global, count: u32, number: usize) -> Result<Vec<u32>, NoMemory> {
    let mut row = Vec::new(alloc);
    let mut rest = number;
    for a in 0..count {
        let places = row.len() + 1;
        row.insert(rest % places, a)?;
        rest = rest / places;
    }
    Ok(row)
}

/// The molecule with a choice of centres and sides, planned and read back; none where the row doesn't serve.
fn reads_in_row(alloc: Global, mol: &Mol, number: usize) -> Result<Option<bool>, NoMemory> {
    let row = row_of(alloc, mol.atom_count(), number)?;
    is_right(alloc, mol, &drawn_in_row(alloc, &row)?)
}

/// The same in the first of so many rows, from this one on, that serves.
fn reads_in_some_row(
    alloc: Global,
    mol: &Mol,
    from: usize,
    rows: usize,
) -> Result<Option<bool>, NoMemory> {
    for more in 0..rows {
        if let Some(right) = reads_in_row(alloc, mol, from.wrapping_add(more) % rows)? {
            return Ok(Some(right));
        }
    }
    Ok(None)
}

fn chosen(
    alloc: Global,
    count: u32,
    pattern: u32,
    sites: &Sites,
    choice: u32,
) -> Result<Mol, NoMemory> {
    let mut mol = molecule(alloc, count, pattern)?;
    choose(&mut mol, sites, choice);
    Ok(mol)
}

/// Each choice for a molecule in each row that serves; answers how many were planned.
fn check_rows(
    rt: &(impl Abort + AllocGlobal),
    count: u32,
    pattern: u32,
    rows: usize,
) -> Result<u32, NoMemory> {
    let sites = sites_of(rt.alloc(), &molecule(rt.alloc(), count, pattern)?)?;
    let mut planned: u32 = 0;
    for choice in 1..choices(&sites) {
        let mol = chosen(rt.alloc(), count, pattern, &sites, choice)?;
        for row in 0..rows {
            if let Some(right) = reads_in_row(rt.alloc(), &mol, row)? {
                assert!(rt; right);
                planned = planned.wrapping_add(1);
            }
        }
    }
    Ok(planned)
}

/// Each choice for a molecule in some row; answers how many there are.
fn check_some(
    rt: &(impl Abort + AllocGlobal),
    count: u32,
    pattern: u32,
    rows: usize,
) -> Result<u32, NoMemory> {
    let sites = sites_of(rt.alloc(), &molecule(rt.alloc(), count, pattern)?)?;
    for choice in 0..choices(&sites) {
        let mol = chosen(rt.alloc(), count, pattern, &sites, choice)?;
        let from = pattern.wrapping_add(choice) as usize;
        assert_eq!(rt;
            reads_in_some_row(rt.alloc(), &mol, from, rows)?,
            Some(true)
        );
    }
    Ok(choices(&sites))
}

#[test]
fn up_to_four_atoms(rt: HostRuntime) -> Result<(), Fail> {
    assert_eq!(rt; check_some(&rt, 0, 0, 1)?, 1);
    assert_eq!(rt; check_some(&rt, 1, 0, 1)?, 1);
    let mut planned: u32 = 0;
    for pattern in 0..27 {
        planned = planned.wrapping_add(check_some(&rt, 3, pattern, 6)?);
    }
    for pattern in 0..729 {
        planned = planned.wrapping_add(check_some(&rt, 4, pattern, 24)?);
    }
    assert!(rt; planned > 1_000);
    Ok(())
}

#[test]
fn four_atoms_in_each_row(rt: HostRuntime) -> Result<(), Fail> {
    let mut planned: u32 = 0;
    for pattern in 0..729 {
        planned = planned.wrapping_add(check_rows(&rt, 4, pattern, 24)?);
    }
    assert!(rt; planned > 1_000);
    Ok(())
}

/// The digit of a pair of atoms, and its place value.
fn weight(u: u32, v: u32) -> u32 {
    let high = u.max(v);
    let pairs_before = high.wrapping_mul(high.wrapping_sub(1)) / 2;
    3u32.wrapping_pow(pairs_before.wrapping_add(u.min(v)))
}

/// The pattern of the same molecule when atom a has number row[a].
fn renumbered(pattern: u32, row: &[u32]) -> u32 {
    let mut rest = pattern;
    let mut number: u32 = 0;
    for (v, second) in row.iter().enumerate() {
        for first in row.iter().take(v) {
            number = number.wrapping_add((rest % 3).wrapping_mul(weight(*first, *second)));
            rest = rest / 3;
        }
    }
    number
}

fn bond_sum(pattern: u32, atom: u32) -> u32 {
    let mut rest = pattern;
    let mut sum: u32 = 0;
    for v in 0..5u32 {
        for u in 0..v {
            if u == atom || v == atom {
                sum = sum.wrapping_add(rest % 3);
            }
            rest = rest / 3;
        }
    }
    sum
}

/// Whether the bond sums of five atoms never rise.
fn is_falling(pattern: u32) -> bool {
    let mut last = bond_sum(pattern, 0);
    for a in 1..5u32 {
        let here = bond_sum(pattern, a);
        if here > last {
            return false;
        }
        last = here;
    }
    true
}

/// Whether no other numbering of the five atoms by falling bond sums has a lesser pattern.
fn is_least(alloc: Global, pattern: u32) -> Result<bool, NoMemory> {
    for number in 0..120 {
        let row = row_of(alloc, 5, number)?;
        let other = renumbered(pattern, &row);
        if other < pattern && is_falling(other) {
            return Ok(false);
        }
    }
    Ok(true)
}

/// Each molecule of five atoms, in one of its numberings, of which the first two pairs of atoms are joined like this; answers
/// how many there are.
fn check_five(rt: &(impl Abort + AllocGlobal), first: u32, second: u32) -> Result<u32, NoMemory> {
    let mut molecules: u32 = 0;
    for k in 0..6_561u32 {
        let pattern = k
            .wrapping_mul(9)
            .wrapping_add(second.wrapping_mul(3))
            .wrapping_add(first);
        if is_falling(pattern) && is_least(rt.alloc(), pattern)? {
            molecules = molecules.wrapping_add(1);
            let _ = check_some(rt, 5, pattern, 120)?;
        }
    }
    Ok(molecules)
}

#[test]
fn five_atoms_first_bond_not_double(rt: HostRuntime) -> Result<(), Fail> {
    let mut molecules: u32 = 0;
    for second in 0..3 {
        molecules = molecules.wrapping_add(check_five(&rt, 0, second)?);
        molecules = molecules.wrapping_add(check_five(&rt, 1, second)?);
    }
    assert_eq!(rt; molecules, 302);
    Ok(())
}

#[test]
fn five_atoms_second_bond_not_double(rt: HostRuntime) -> Result<(), Fail> {
    let molecules = check_five(&rt, 2, 0)?;
    assert_eq!(rt; molecules.wrapping_add(check_five(&rt, 2, 1)?), 183);
    Ok(())
}

#[test]
fn five_atoms_first_bonds_double(rt: HostRuntime) -> Result<(), Fail> {
    assert_eq!(rt; check_five(&rt, 2, 2)?, 307);
    Ok(())
}
