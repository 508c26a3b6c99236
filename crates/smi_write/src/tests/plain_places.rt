//! The places of a centre once more, as a plain program over texts whose atoms stand in brackets, each with a class of one
//! digit. It counts and looks for each place anew, and keeps nothing.

use std::alloc::{AllocError, Global};

/// The place that is no neighbour.
pub const REST: u8 = b'0';

fn at(text: &[u8], i: usize) -> Option<u8> {
    match text.get(i) {
        Some(byte) => Some(*byte),
        None => None,
    }
}

/// How often a byte stands before a place.
fn count(text: &[u8], byte: u8, i: usize) -> usize {
    text.iter().take(i).filter(|found| **found == byte).count()
}

/// Whether a place lies between two brackets.
fn is_inside(text: &[u8], i: usize) -> bool {
    count(text, b'[', i) != count(text, b']', i)
}

/// The last place of a byte before a place.
fn last(text: &[u8], byte: u8, i: usize) -> Option<usize> {
    let mut found = None;
    for j in 0..i {
        if at(text, j) == Some(byte) {
            found = Some(j);
        }
    }
    found
}

/// The first place of a byte from a place on.
fn first(text: &[u8], byte: u8, i: usize) -> usize {
    for j in i..text.len() {
        if at(text, j) == Some(byte) {
            return j;
        }
    }
    text.len()
}

/// The class of the atom whose bracket opens at a place.
fn class(text: &[u8], i: usize) -> u8 {
    let end = first(text, b']', i);
    at(text, end.saturating_sub(1)).unwrap_or(REST)
}

/// The `(` less the `)` up to a place.
fn depth(text: &[u8], i: usize) -> i128 {
    let behind = i.saturating_add(1);
    count(text, b'(', behind) as i128 - count(text, b')', behind) as i128
}

/// Whether the depth never falls below that of place `j` up to place `i`.
fn is_open(text: &[u8], j: usize, i: usize) -> bool {
    for k in j..i {
        if depth(text, k) < depth(text, j) {
            return false;
        }
    }
    true
}

/// The latest open earlier atom of the one at a place, unless a dot stands directly before.
fn predecessor(text: &[u8], i: usize) -> Option<usize> {
    let mut found = None;
    if i > 0 && at(text, i - 1) == Some(b'.') {
        return found;
    }
    for j in 0..i {
        if at(text, j) == Some(b'[') && is_open(text, j, i) {
            found = Some(j);
        }
    }
    found
}

/// The digit at a place, 0 where there is none.
fn digit(text: &[u8], i: usize) -> u16 {
    match at(text, i) {
        Some(byte) if byte.is_ascii_digit() => byte.saturating_sub(b'0') as u16,
        _ => 0,
    }
}

/// Whether the digit at a place belongs to a `%` before it.
fn is_behind_percent(text: &[u8], i: usize) -> bool {
    i > 0 && at(text, i - 1) == Some(b'%') || i > 1 && at(text, i - 2) == Some(b'%')
}

/// The ring number that begins at a place.
fn ring_number(text: &[u8], i: usize) -> Option<u16> {
    if is_inside(text, i) {
        return None;
    }
    match at(text, i) {
        Some(b'%') => {
            let tens = digit(text, i.saturating_add(1));
            Some(
                tens.saturating_mul(10)
                    .saturating_add(digit(text, i.saturating_add(2))),
            )
        }
        Some(byte) if byte.is_ascii_digit() && !is_behind_percent(text, i) => {
            Some(digit(text, i))
        }
        _ => None,
    }
}

/// How often a ring number stands before a place.
fn earlier(text: &[u8], number: u16, i: usize) -> usize {
    let mut found: usize = 0;
    for j in 0..i {
        if ring_number(text, j) == Some(number) {
            found = found.saturating_add(1);
        }
    }
    found
}

/// The class of the atom beside which a ring number stands.
fn beside(text: &[u8], i: usize) -> u8 {
    match last(text, b'[', i) {
        Some(atom) => class(text, atom),
        None => REST,
    }
}

/// The class of the atom beside which the partner of a ring number stands: the equal number before it where that is open,
/// and else the next one.
fn partner(text: &[u8], number: u16, i: usize) -> u8 {
    let mut before = None;
    let opens = earlier(text, number, i) % 2 == 0;
    for j in 0..text.len() {
        if ring_number(text, j) == Some(number) {
            if opens && j > i {
                return beside(text, j);
            }
            if j < i {
                before = Some(j);
            }
        }
    }
    match before {
        Some(j) => beside(text, j),
        None => REST,
    }
}

/// The place of the bracket of the centre, which is the one with an `@`.
fn centre(text: &[u8]) -> usize {
    last(text, b'[', first(text, b'@', 0)).unwrap_or(0)
}

/// The ring partners of the atom at a place, in the order in which their numbers stand at it.
fn add_partners(list: &mut Vec<u8>, text: &[u8], atom: usize) -> Result<(), AllocError> {
    for i in atom..text.len() {
        if let Some(number) = ring_number(text, i) {
            if last(text, b'[', i) == Some(atom) {
                list.push(partner(text, number, i))?;
            }
        }
    }
    Ok(())
}

/// The atoms whose predecessor the atom at a place is, in the order of the text.
fn add_followers(list: &mut Vec<u8>, text: &[u8], atom: usize) -> Result<(), AllocError> {
    for i in 0..text.len() {
        if at(text, i) == Some(b'[') && predecessor(text, i) == Some(atom) {
            list.push(class(text, i))?;
        }
    }
    Ok(())
}

/// The places of the centre in the order of the text: the predecessor; the rest, where it has a hydrogen or three
/// neighbours; the ring partners; the branches and the next atom. With `@@` the last two are exchanged.
pub fn places(alloc: Global, text: &[u8]) -> Result<Vec<u8>, AllocError> {
    let atom = centre(text);
    let end = first(text, b']', atom);
    let mut others = Vec::new(alloc);
    add_partners(&mut others, text, atom)?;
    add_followers(&mut others, text, atom)?;
    let mut list = Vec::new(alloc);
    if let Some(before) = predecessor(text, atom) {
        list.push(class(text, before))?;
    }
    if first(text, b'H', atom) < end || list.len() + others.len() == 3 {
        list.push(REST)?;
    }
    list.extend_from_slice(&others)?;
    let marks = count(text, b'@', text.len());
    let count = list.len();
    if marks == 2 && count >= 2 {
        list.swap(count - 1, count - 2);
    }
    Ok(list)
}

/// The place of a class in a list, and the list's length where it isn't there.
fn place_in(list: &[u8], class: u8) -> usize {
    list.iter()
        .position(|found| *found == class)
        .unwrap_or(list.len())
}

/// How many of the classes behind a place stand before its own in the other list.
fn turned(list: &[u8], other: &[u8], i: usize) -> usize {
    let mut found: usize = 0;
    let own = place_in(other, at(list, i).unwrap_or(REST));
    for j in i.saturating_add(1)..list.len() {
        if place_in(other, at(list, j).unwrap_or(REST)) < own {
            found = found.saturating_add(1);
        }
    }
    found
}

/// Whether two lists of four places are even permutations of each other.
pub fn say_the_same(list: &[u8], other: &[u8]) -> bool {
    let mut found: usize = 0;
    for i in 0..list.len() {
        if place_in(other, at(list, i).unwrap_or(REST)) == other.len() {
            return false;
        }
        found = found.saturating_add(turned(list, other, i));
    }
    list.len() == 4 && other.len() == 4 && found % 2 == 0
}
