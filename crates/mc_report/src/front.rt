ghost use Rattle.std.specs.Prelude.{◌≡◌, ◌+◌, ◌≤◌, [], length, IfOk, IfSome, option_copied};
ghost use Rattle.mc_report.specs.Fronts.{word_front, digits_front, number_front, labelled, number_view, atom_front, atom_view, goes_on, list_view, FindsList};

use mc_base::{AtomId, AtomList, NoMemory, starts_digit};
use std::alloc::Global;

/// What is behind a word at the front.
pub fn word_front<'a>(text: &'a [u8], word: &[u8]) -> Option<&'a [u8]>
    ensures value { option_copied result ≡ word_front word.now text.now }
    ensures shorter { IfSome result (λ rest. length rest.now + length word.now ≡ length text.now) }
{
    for (i, byte) in word.iter().enumerate() {
        if i >= text.len() {
            return None;
        }
        if text[i] != *byte {
            return None;
        }
    }
    Some(&text[word.len()..])
}

/// The number that digits at the front write, where it isn't above the most, and what is behind them.
fn digits_front(text: &[u8], most: u64) -> Option<(u64, &[u8])>
    ensures value { number_view result ≡ digits_front most 0 text.now }
    ensures within { IfSome result (λ number. number.0 ≤ most) }
    ensures shorter { IfSome result (λ number. length number.1.now ≤ length text.now) }
{
    let mut value = 0u64;
    for (i, byte) in text.iter().enumerate() {
        if !byte.is_ascii_digit() {
            return Some((value, &text[i..]));
        }
        let more = u128::from(value) * 10 + u128::from(*byte - b'0');
        if more > u128::from(most) {
            return None;
        }
        value = more as u64;
    }
    Some((value, &[]))
}

/// A number without leading zeros at the front, where it isn't above the most, and what is behind it.
pub fn number_front(text: &[u8], most: u64) -> Option<(u64, &[u8])>
    ensures value { number_view result ≡ number_front most text.now }
    ensures within { IfSome result (λ number. number.0 ≤ most) }
    ensures shorter { IfSome result (λ number. length number.1.now ≤ length text.now) }
{
    match text {
        [b'0', rest @ ..] => if starts_digit(rest) {
            None
        } else {
            Some((0, rest))
        },
        [byte, ..] => if byte.is_ascii_digit() {
            digits_front(text, most)
        } else {
            None
        },
        [] => None,
    }
}

/// A number behind a word, and what is behind both.
pub fn labelled<'a>(text: &'a [u8], word: &[u8], most: u64) -> Option<(u64, &'a [u8])>
    ensures value { number_view result ≡ labelled most word.now text.now }
    ensures within { IfSome result (λ number. number.0 ≤ most) }
{
    number_front(word_front(text, word)?, most)
}

/// The greatest number of an atom, counted from 1, and of a count.
pub const MOST_COUNT: u64 = 4_294_967_295;

/// An atom, counted from 1, and what is behind it.
fn atom_front(text: &[u8]) -> Option<(AtomId, &[u8])>
    ensures value { atom_view result ≡ atom_front text.now }
    ensures shorter { IfSome result (λ atom. length atom.1.now ≤ length text.now) }
{
    let (number, rest) = number_front(text, MOST_COUNT)?;
    if number == 0 {
        return None;
    }
    Some((AtomId((number - 1) as u32), rest))
}

/// Whether a list of atoms goes on here.
fn goes_on(text: &[u8]) -> bool
    ensures { result ≡ goes_on text.now }
{
    match text {
        [byte, ..] => byte.is_ascii_digit() || *byte == b',',
        [] => false,
    }
}

/// An empty list with room for the atoms of a map that this text begins with: of different atoms only nine are
/// written in less than three bytes, a comma among them, and more than nine bytes stand behind a map.
fn list_with_room(alloc: Global, text: &[u8]) -> Result<AtomList, NoMemory>
    ensures { IfOk result (λ atoms. atoms ≡ []) }
{
    let atoms = Vec::with_capacity(alloc, text.len() / 3)?;
    Ok(AtomList::from_vec(atoms))
}

/// A list of atoms, counted from 1 and parted by commas, and what is behind it.
pub fn numbers_front(alloc: Global, text: &[u8]) -> Result<Option<(AtomList, &[u8])>, NoMemory>
    ensures { IfOk result (λ found. FindsList text.now (list_view found)) }
{
    if !goes_on(text) {
        return Ok(Some((AtomList::new(alloc), text)));
    }
    let mut atoms = list_with_room(alloc, text)?;
    let mut rest = text;
    loop {
        match atom_front(rest) {
            Some((atom, behind)) => {
                atoms.push(atom)?;
                match word_front(behind, b",") {
                    Some(more) => rest = more,
                    None => return Ok(Some((atoms, behind))),
                }
            }
            None => return Ok(None),
        }
    }
}
