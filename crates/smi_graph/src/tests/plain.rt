//! The rules once more, as a plain program over texts of `C`, `(`, `)`, `1`, `=`, `-` and `.`, in which each
//! byte is a token. It counts and looks for each place anew, and keeps nothing.

use mc_base::Kind;
use std::alloc::{AllocError, Global};

fn at(text: &[u8], i: usize) -> Option<u8> {
    match text.get(i) {
        Some(byte) => Some(*byte),
        None => None,
    }
}

/// The token directly before a place.
fn latest(text: &[u8], i: usize) -> Option<u8> {
    if i == 0 { None } else { at(text, i - 1) }
}

/// How often a token stands before a place.
fn count(text: &[u8], token: u8, i: usize) -> usize {
    text.iter().take(i).filter(|byte| **byte == token).count()
}

/// The `(` less the `)` up to a token.
fn depth(text: &[u8], i: usize) -> i128 {
    let behind = i.saturating_add(1);
    count(text, b'(', behind) as i128 - count(text, b')', behind) as i128
}

/// Whether the depth never falls below that of token `j` up to token `i`.
fn is_open(text: &[u8], j: usize, i: usize) -> bool {
    for k in j..i {
        if depth(text, k) < depth(text, j) {
            return false;
        }
    }
    true
}

/// The latest open earlier atom, unless a dot stands directly before.
fn predecessor(text: &[u8], i: usize) -> Option<usize> {
    let mut found = None;
    if latest(text, i) == Some(b'.') {
        return found;
    }
    for j in 0..i {
        if at(text, j) == Some(b'C') && is_open(text, j, i) {
            found = Some(count(text, b'C', j));
        }
    }
    found
}

fn is_misplaced(text: &[u8], i: usize) -> bool {
    let next = at(text, i);
    if next == Some(b')') && depth(text, i) < 0 {
        return true;
    }
    let may_stand = match latest(text, i) {
        None => matches!(next, None | Some(b'C')),
        Some(b'C' | b'1') => true,
        Some(b'=' | b'-') => match next {
            Some(b'C') => true,
            Some(b'1') => matches!(latest(text, i.saturating_sub(1)), Some(b'C' | b'1')),
            _ => false,
        },
        Some(b'(') => matches!(next, Some(b'C' | b'=' | b'-' | b'.')),
        Some(b')') => next != Some(b'1'),
        Some(_) => next == Some(b'C'),
    };
    !may_stand
}

/// Whether a `(` is never closed: the depth never falls below its own again.
fn is_unclosed(text: &[u8], i: usize) -> bool {
    at(text, i) == Some(b'(') && is_open(text, i, text.len())
}

/// The opening number that the number at a place closes.
fn opening(text: &[u8], i: usize) -> Option<usize> {
    let mut found = None;
    if at(text, i) != Some(b'1') || count(text, b'1', i) % 2 == 0 {
        return found;
    }
    for j in 0..i {
        if at(text, j) == Some(b'1') {
            found = Some(j);
        }
    }
    found
}

/// Whether a number opens and none behind it closes it.
fn stays_open(text: &[u8], i: usize) -> bool {
    let earlier = count(text, b'1', i);
    at(text, i) == Some(b'1')
        && earlier % 2 == 0
        && count(text, b'1', text.len()).saturating_sub(1) == earlier
}

fn mark(text: &[u8], i: usize) -> Option<u8> {
    match latest(text, i) {
        Some(b'-') => Some(1),
        Some(b'=') => Some(2),
        _ => None,
    }
}

/// The number of the atom beside which a ring number stands.
fn beside(text: &[u8], i: usize) -> usize {
    count(text, b'C', i).saturating_sub(1)
}

fn clashes(text: &[u8], i: usize) -> bool {
    match opening(text, i) {
        Some(j) => match mark(text, j) {
            Some(order) => mark(text, i).unwrap_or(order) != order,
            None => false,
        },
        None => false,
    }
}

/// The bond that a token completes: its first atom, its second atom and its order.
pub fn bond_at(text: &[u8], i: usize) -> Option<(usize, usize, u8)> {
    if at(text, i) == Some(b'C') {
        return match predecessor(text, i) {
            Some(first) => Some((first, count(text, b'C', i), mark(text, i).unwrap_or(1))),
            None => None,
        };
    }
    match opening(text, i) {
        Some(j) => {
            let order = mark(text, j).or(mark(text, i)).unwrap_or(1);
            Some((beside(text, j), beside(text, i), order))
        }
        None => None,
    }
}

/// Whether a token before a place joins two atoms.
fn are_joined(text: &[u8], u: usize, v: usize, i: usize) -> bool {
    for k in 0..i {
        if let Some((first, second, _)) = bond_at(text, k) {
            if first == u && second == v || first == v && second == u {
                return true;
            }
        }
    }
    false
}

fn pairs_again(text: &[u8], i: usize) -> bool {
    match opening(text, i) {
        Some(j) => {
            let u = beside(text, j);
            let v = beside(text, i);
            u == v || are_joined(text, u, v, i)
        }
        None => false,
    }
}

fn stands(text: &[u8], kind: Kind, i: usize) -> bool {
    match kind {
        Kind::BadOrder => is_misplaced(text, i),
        Kind::ParenOpen => is_unclosed(text, i),
        Kind::RingOpen => stays_open(text, i),
        Kind::RingClash => clashes(text, i),
        _ => pairs_again(text, i),
    }
}

/// The first kind that stands, at its least place.
pub fn fault(text: &[u8]) -> Option<(Kind, usize)> {
    for kind in [
        Kind::BadOrder,
        Kind::ParenOpen,
        Kind::RingOpen,
        Kind::RingClash,
        Kind::RingPair,
    ] {
        for i in 0..=text.len() {
            if stands(text, kind, i) {
                return Some((kind, i + 1));
            }
        }
    }
    None
}

/// The atom beside which a ring number stands that pairs with the one at a place.
fn partner(text: &[u8], i: usize) -> Option<usize> {
    if let Some(j) = opening(text, i) {
        return Some(beside(text, j));
    }
    for j in i.saturating_add(1)..text.len() {
        if at(text, j) == Some(b'1') {
            return Some(beside(text, j));
        }
    }
    None
}

/// The predecessor of an atom.
pub fn predecessor_of(text: &[u8], atom: usize) -> Option<usize> {
    for i in 0..text.len() {
        if at(text, i) == Some(b'C') && count(text, b'C', i) == atom {
            return predecessor(text, i);
        }
    }
    None
}

/// The neighbours of an atom: its predecessor; its ring partners in the order in which their numbers stand at it; and
/// the atoms whose predecessor it is, in the order of the text.
pub fn neighbours(alloc: Global, text: &[u8], atom: usize) -> Result<Vec<usize>, AllocError> {
    let mut found = Vec::new(alloc);
    if let Some(first) = predecessor_of(text, atom) {
        found.push(first)?;
    }
    for i in 0..text.len() {
        if at(text, i) == Some(b'1') && beside(text, i) == atom {
            if let Some(other) = partner(text, i) {
                found.push(other)?;
            }
        }
    }
    for i in 0..text.len() {
        if at(text, i) == Some(b'C') && predecessor(text, i) == Some(atom) {
            found.push(count(text, b'C', i))?;
        }
    }
    Ok(found)
}
