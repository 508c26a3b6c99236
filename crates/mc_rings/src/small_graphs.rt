//! Every graph of a few atoms: the rings agree with a plain search over all lists of atoms.
ghost use Rattle.std.specs.Prelude.{◌<◌, ◌+◌};

use crate::Rings;
use crate::order_checks::{block, check_order};
use crate::tests::molecule;
use mc_base::BondId;
use std::alloc::Global;
use std::process::Abort;
use std::test::Fail;

type Pair = (u32, u32);

fn is_pair(pair: Pair, u: u32, v: u32) -> bool {
    (pair.0 == u && pair.1 == v) || (pair.0 == v && pair.1 == u)
}

/// For each atom and each other one whether they are joined.
fn table_of(alloc: Global, count: u32, pairs: &[Pair]) -> Result<Vec<bool>, mc_base::NoMemory> {
    let mut table = Vec::new(alloc);
    for u in 0..count {
        for v in 0..count {
            let are = pairs.iter().any(|pair| is_pair(*pair, u, v));
            table.push(are)?;
        }
    }
    Ok(table)
}

fn joined(table: &[bool], count: u32, u: u32, v: u32) -> bool {
    match table.get(u.wrapping_mul(count).wrapping_add(v) as usize) {
        Some(are) => *are,
        None => false,
    }
}

/// The graph of a pattern: a bit for each pair of atoms.
fn pairs_of(alloc: Global, count: u32, pattern: u32) -> Result<Vec<Pair>, mc_base::NoMemory> {
    let mut pairs = Vec::new(alloc);
    let mut rest = pattern;
    for v in 0..count {
        for u in 0..v {
            if rest % 2 == 1 {
                pairs.push((u, v))?;
            }
            rest = rest / 2;
        }
    }
    Ok(pairs)
}

fn with(alloc: Global, list: &[u32], atom: u32) -> Result<Vec<u32>, mc_base::NoMemory> {
    let mut longer = Vec::new(alloc);
    for a in list {
        longer.push(*a)?;
    }
    longer.push(atom)?;
    Ok(longer)
}

/// Each list with one more atom that isn't in it yet. The first is the least, since a closed path can be begun there.
fn longer_lists(
    alloc: Global,
    lists: &[Vec<u32>],
    count: u32,
) -> Result<Vec<Vec<u32>>, mc_base::NoMemory> {
    let mut longer = Vec::new(alloc);
    for list in lists {
        for a in 0..count {
            if (list.is_empty() || atom(list, 0) < a) && !list.contains(&a) {
                let next = with(alloc, list, a)?;
                longer.push(next)?;
            }
        }
    }
    Ok(longer)
}

fn atom(list: &[u32], k: usize) -> u32 {
    match list.get(k) {
        Some(a) => *a,
        None => 0,
    }
}

/// The atom behind the one at this place, round the list.
fn behind(list: &[u32], k: usize) -> u32 {
    match list.get(k).and(list.get(k.saturating_add(1))) {
        Some(a) => *a,
        None => atom(list, 0),
    }
}

fn is_closed(table: &[bool], count: u32, list: &[u32]) -> bool {
    for k in 0..list.len() {
        if !joined(table, count, atom(list, k), behind(list, k)) {
            return false;
        }
    }
    list.len() >= 3
}

fn uses(list: &[u32], pair: Pair) -> bool {
    for k in 0..list.len() {
        if is_pair(pair, atom(list, k), behind(list, k)) {
            return true;
        }
    }
    false
}

/// The lists that are closed paths.
fn closed_paths(
    alloc: Global,
    table: &[bool],
    count: u32,
    lists: &[Vec<u32>],
) -> Result<Vec<Vec<u32>>, mc_base::NoMemory> {
    let mut closed = Vec::new(alloc);
    for list in lists {
        if is_closed(table, count, list) {
            let copy = copied(alloc, list)?;
            closed.push(copy)?;
        }
    }
    Ok(closed)
}

fn copied(alloc: Global, list: &[u32]) -> Result<Vec<u32>, mc_base::NoMemory> {
    let mut copy = Vec::new(alloc);
    for a in list {
        copy.push(*a)?;
    }
    Ok(copy)
}

/// The least length of a list that uses the pair, 0 where there is none.
fn least(closed: &[Vec<u32>], pair: Pair) -> usize {
    let mut least = 0;
    for list in closed {
        if uses(list, pair) && (least == 0 || list.len() < least) {
            least = list.len();
        }
    }
    least
}

fn share(closed: &[Vec<u32>], p: Pair, q: Pair) -> bool {
    closed.iter().any(|list| uses(list, p) && uses(list, q))
}

fn pair(pairs: &[Pair], k: u32) -> Pair {
    match pairs.get(k as usize) {
        Some(pair) => *pair,
        None => (0, 0),
    }
}

/// Ring sizes, bridges, blocks and the block order of one graph.
fn check_graph(
    rt: &(impl Abort + AllocGlobal),
    count: u32,
    pairs: &[Pair],
    lists: &[Vec<u32>],
) -> Result<(), Fail> {
    let mol = molecule(rt, count, pairs)?;
    let rings = Rings::of(rt.alloc(), &mol)?;
    let table = table_of(rt.alloc(), count, pairs)?;
    let closed = closed_paths(rt.alloc(), &table, count, lists)?;
    for k in 0..mol.bond_count() {
        let size = least(&closed, pair(pairs, k));
        assert_eq!(rt; rings.ring_size(BondId(k)).unwrap_or(0) as usize, size);
        assert_eq!(rt; rings.is_bridge(BondId(k)), size == 0);
        for l in 0..k {
            let shared = share(&closed, pair(pairs, k), pair(pairs, l));
            assert_eq!(rt; block(&mol, &rings, k) == block(&mol, &rings, l), shared);
        }
    }
    check_order(rt, &mol, &rings)?;
    Ok(())
}

/// All lists of at least three different atoms, the first of them the least.
fn all_lists(alloc: Global, count: u32) -> Result<Vec<Vec<u32>>, mc_base::NoMemory>
    requires { count < 10 }
{
    let mut level = Vec::new(alloc);
    let empty = Vec::new(alloc);
    level.push(empty)?;
    let mut lists = Vec::new(alloc);
    for length in 1..count + 1 {
        level = longer_lists(alloc, &level, count)?;
        if length >= 3 {
            for list in &level {
                let copy = copied(alloc, list)?;
                lists.push(copy)?;
            }
        }
    }
    Ok(lists)
}

/// All graphs of so many atoms, whose patterns are below a number.
fn check_graphs(rt: &(impl Abort + AllocGlobal), count: u32, patterns: u32) -> Result<(), Fail>
    requires { count < 10 }
{
    let lists = all_lists(rt.alloc(), count)?;
    for pattern in 0..patterns {
        let pairs = pairs_of(rt.alloc(), count, pattern)?;
        check_graph(rt, count, &pairs, &lists)?;
    }
    Ok(())
}

fn degree(pairs: &[Pair], u: u32) -> usize {
    pairs
        .iter()
        .filter(|pair| pair.0 == u || pair.1 == u)
        .count()
}

/// Whether no atom has more neighbours than the one before it: each graph can be numbered so.
fn degrees_fall(count: u32, pairs: &[Pair]) -> bool {
    for u in 1..count {
        if degree(pairs, u - 1) < degree(pairs, u) {
            return false;
        }
    }
    true
}

/// The same of those whose atoms are numbered by falling numbers of neighbours.
fn check_sorted_graphs(
    rt: &(impl Abort + AllocGlobal),
    count: u32,
    patterns: u32,
) -> Result<(), Fail>
    requires { count < 10 }
{
    let lists = all_lists(rt.alloc(), count)?;
    for pattern in 0..patterns {
        let pairs = pairs_of(rt.alloc(), count, pattern)?;
        if degrees_fall(count, &pairs) {
            check_graph(rt, count, &pairs, &lists)?;
        }
    }
    Ok(())
}

#[test]
fn graphs_of_few_atoms(rt: HostRuntime) -> Result<(), Fail> {
    check_graphs(&rt, 0, 1)?;
    check_graphs(&rt, 1, 1)?;
    check_graphs(&rt, 2, 2)?;
    check_graphs(&rt, 3, 8)?;
    check_graphs(&rt, 4, 64)?;
    check_graphs(&rt, 5, 1024)?;
    Ok(())
}

/// Every graph of six atoms, but for the numbers of its atoms.
#[test]
fn graphs_of_six_atoms(rt: HostRuntime) -> Result<(), Fail> {
    check_sorted_graphs(&rt, 6, 32768)?;
    Ok(())
}
