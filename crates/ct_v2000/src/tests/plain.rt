//! The rules of V2000 records once more, as a plain program over the whole list of lines: each question looks at the
//! lines anew, and of what stands the least kind at its least line is kept.

use mc_base::Kind;
use mc_elements::{Element, reference_mass};

/// The least kind that was found, at its least line.
#[derive(Drop)]
pub struct Found {
    pub first: Option<(Kind, usize)>,
}

impl Found {
    fn add(&mut self, test: bool, kind: Kind, line: usize) {
        let sooner = match self.first {
            None => true,
            Some((other, place)) => {
                kind.number() < other.number() || kind == other && line < place
            }
        };
        if test && sooner {
            self.first = Some((kind, line));
        }
    }
}

/// What the counts line counts.
#[derive(Clone, Copy)]
struct Counts {
    atoms: usize,
    bonds: usize,
    lists: usize,
    stexts: usize,
}

/// Which fields of the atom block are replaced.
#[derive(Clone, Copy)]
struct Replaced {
    charges: bool,
    masses: bool,
}

// ---- columns

/// Line k, from 1.
fn line_of<'a>(lines: &[&'a [u8]], k: usize) -> &'a [u8] {
    match lines.get(k.wrapping_sub(1)) {
        Some(line) => line,
        None => b"",
    }
}

fn is_blank(byte: u8) -> bool {
    byte == b' ' || byte == b'\t'
}

fn without_blanks(text: &[u8]) -> &[u8] {
    match text.iter().position(|byte| !is_blank(*byte)) {
        Some(from) => match text.iter().rposition(|byte| !is_blank(*byte)) {
            Some(to) if from <= to && to < text.len() => &text[from..=to],
            _ => b"",
        },
        None => b"",
    }
}

/// What stands in columns that count from 1, without the blanks around it.
fn column(line: &[u8], from: usize, to: usize) -> &[u8] {
    let start = from.saturating_sub(1);
    let end = if to < line.len() { to } else { line.len() };
    if start < end {
        without_blanks(&line[start..end])
    } else {
        b""
    }
}

/// A line begins with a word, where spaces follow it.
fn begins(line: &[u8], word: &[u8]) -> bool {
    for (i, byte) in word.iter().enumerate() {
        let own = match line.get(i) {
            Some(own) => *own,
            None => b' ',
        };
        if own != *byte {
            return false;
        }
    }
    true
}

fn is_end(line: &[u8]) -> bool {
    line.starts_with(b"M  END") && column(line, 7, line.len()).is_empty()
}

// ---- numbers

fn without_sign(text: &[u8]) -> &[u8] {
    match text {
        [b'-' | b'+', rest @ ..] => rest,
        _ => text,
    }
}

fn are_digits(text: &[u8]) -> bool {
    text.iter().all(|byte| byte.is_ascii_digit())
}

/// A whole number; a blank one is 0.
fn whole(line: &[u8], from: usize, to: usize) -> Option<i64> {
    let text = column(line, from, to);
    let digits = without_sign(text);
    if text.is_empty() {
        return Some(0);
    }
    if digits.is_empty() || digits.len() > 12 || !are_digits(digits) {
        return None;
    }
    let mut value = 0i64;
    for digit in digits {
        value = value
            .saturating_mul(10)
            .saturating_add(i64::from(*digit).saturating_sub(48));
    }
    if text.starts_with(b"-") {
        Some(0i64.saturating_sub(value))
    } else {
        Some(value)
    }
}

fn value(line: &[u8], from: usize, to: usize) -> i64 {
    whole(line, from, to).unwrap_or(0)
}

fn is_within(line: &[u8], from: usize, to: usize, least: i64, most: i64) -> bool {
    match whole(line, from, to) {
        Some(number) => least <= number && number <= most,
        None => false,
    }
}

fn is_any(line: &[u8], from: usize, to: usize) -> bool {
    is_within(line, from, to, -999_999_999_999, 999_999_999_999)
}

/// A number with a point is of its grammar.
fn is_fixed(line: &[u8], from: usize, to: usize) -> bool {
    let text = column(line, from, to);
    let number = without_sign(text);
    let parts = match number.iter().position(|byte| *byte == b'.') {
        Some(at) if at < number.len() => (&number[..at], &number[at + 1..]),
        _ => (number, b"".as_slice()),
    };
    let digits = parts.0.len().saturating_add(parts.1.len());
    text.is_empty()
        || are_digits(parts.0) && are_digits(parts.1) && parts.0.len() <= 12 && digits > 0
}

/// One of its first four digits behind the point, or a digit before it, isn't 0.
fn is_zero(line: &[u8], from: usize, to: usize) -> bool {
    let text = column(line, from, to);
    let point = match text.iter().position(|byte| *byte == b'.') {
        Some(at) => at,
        None => text.len(),
    };
    for (i, byte) in text.iter().enumerate() {
        if b'1' <= *byte && *byte <= b'9' && i <= point.saturating_add(4) {
            return false;
        }
    }
    true
}

// ---- the counts line

fn counts_of(lines: &[&[u8]]) -> Option<Counts> {
    let line = line_of(lines, 4);
    let well_formed = is_within(line, 1, 3, 0, 999)
        && is_within(line, 4, 6, 0, 999)
        && is_within(line, 7, 9, 0, 999)
        && is_within(line, 16, 18, 0, 999);
    if !well_formed {
        return None;
    }
    Some(Counts {
        atoms: usize::try_from(value(line, 1, 3)).unwrap_or(0),
        bonds: usize::try_from(value(line, 4, 6)).unwrap_or(0),
        lists: usize::try_from(value(line, 7, 9)).unwrap_or(0),
        stexts: usize::try_from(value(line, 16, 18)).unwrap_or(0),
    })
}

impl Counts {
    fn lines_before(self) -> usize {
        4usize
            .saturating_add(self.atoms)
            .saturating_add(self.bonds)
            .saturating_add(self.lists)
            .saturating_add(self.stexts.saturating_mul(2))
    }
}

// ---- the property block

fn is_alias(line: &[u8]) -> bool {
    begins(line, b"A  ") || begins(line, b"G  ")
}

/// The number of the line that ends the property block, which begins behind so many lines.
fn end_of(lines: &[&[u8]], before: usize) -> Option<usize> {
    let mut passed = false;
    for k in before..lines.len() {
        let line = line_of(lines, k.saturating_add(1));
        if !passed && is_end(line) {
            return Some(k.saturating_add(1));
        }
        passed = !passed && is_alias(line);
    }
    None
}

/// Whether a line of the property block, which no alias passes, begins with a word.
fn some_line(lines: &[&[u8]], before: usize, end: usize, word: &[u8]) -> bool {
    let mut passed = false;
    for k in before..end {
        let line = line_of(lines, k.saturating_add(1));
        if !passed && begins(line, word) {
            return true;
        }
        passed = !passed && is_alias(line);
    }
    false
}

fn is_query_line(line: &[u8]) -> bool {
    let words: [&[u8]; 10] = [
        b"M  ALS", b"M  RGP", b"M  LOG", b"M  APO", b"M  AAL", b"M  RBC", b"M  SUB", b"M  UNS",
        b"M  LIN", b"M  $3D",
    ];
    words.iter().any(|word| begins(line, word))
}

/// Where entry i of a property line begins: the column before its first.
fn entry_start(i: i64) -> usize {
    usize::try_from(i.saturating_mul(8))
        .unwrap_or(0)
        .saturating_add(9)
}

/// The entries of a line for charges, masses or radicals.
fn look_at_entries(line: &[u8], k: usize, atoms: usize, found: &mut Found) {
    if !is_within(line, 7, 9, 1, 8) {
        found.add(true, Kind::BadField, k);
        return;
    }
    for i in 0..value(line, 7, 9) {
        look_at_entry(line, k, entry_start(i), atoms, found);
    }
}

fn look_at_entry(line: &[u8], k: usize, start: usize, atoms: usize, found: &mut Found) {
    let (a, b) = (start.saturating_add(1), start.saturating_add(4));
    let (c, d) = (start.saturating_add(5), start.saturating_add(8));
    let is_blank = column(line, a, b).is_empty() || column(line, c, d).is_empty();
    let most = i64::try_from(atoms).unwrap_or(0);
    let bad = is_blank || !is_any(line, a, b) || !is_any(line, c, d);
    let number = value(line, c, d);
    found.add(bad, Kind::BadField, k);
    found.add(begins(line, b"M  ISO") && number < 0, Kind::BadField, k);
    found.add(begins(line, b"M  RAD") && number != 0, Kind::Radical, k);
    found.add(!is_within(line, a, b, 1, most), Kind::AtomNumber, k);
}

fn look_at_sgroups(line: &[u8], k: usize, found: &mut Found) {
    if !is_within(line, 7, 9, 1, 8) {
        found.add(true, Kind::BadField, k);
        return;
    }
    for i in 0..value(line, 7, 9) {
        let start = entry_start(i);
        let group = is_any(line, start.saturating_add(1), start.saturating_add(4));
        let name = column(line, start.saturating_add(5), start.saturating_add(8));
        found.add(!group, Kind::BadField, k);
        found.add(
            name != b"SUP".as_slice() && name != b"DAT".as_slice(),
            Kind::Sgroup,
            k,
        );
    }
}

fn look_at_property(line: &[u8], k: usize, atoms: usize, found: &mut Found) {
    if begins(line, b"M  CHG") || begins(line, b"M  ISO") || begins(line, b"M  RAD") {
        look_at_entries(line, k, atoms, found);
    } else if begins(line, b"M  STY") {
        look_at_sgroups(line, k, found);
    } else if is_query_line(line) {
        found.add(true, Kind::Query, k);
    } else if is_alias(line) {
        found.add(true, Kind::Alias, k);
    } else if !begins(line, b"V  ") && !begins(line, b"M  ") {
        found.add(!without_blanks(line).is_empty(), Kind::BadField, k);
    }
}

fn look_at_properties(lines: &[&[u8]], before: usize, end: usize, atoms: usize, found: &mut Found) {
    let mut passed = false;
    for k in before..end {
        let line = line_of(lines, k.saturating_add(1));
        if !passed && !is_end(line) {
            look_at_property(line, k.saturating_add(1), atoms, found);
        }
        passed = !passed && is_alias(line);
    }
}

// ---- the atom block

fn is_query_symbol(text: &[u8]) -> bool {
    let words: [&[u8]; 13] = [
        b"A", b"Q", b"*", b"L", b"LP", b"R", b"R#", b"X", b"M", b"AH", b"QH", b"XH", b"MH",
    ];
    words.iter().any(|word| text == *word)
        || text.len() > 1 && text.starts_with(b"R") && are_digits(&text[1..])
}

fn is_isotope_symbol(text: &[u8]) -> bool {
    text == b"D".as_slice() || text == b"T".as_slice()
}

/// Whether a mass difference says a mass.
fn says_a_mass(symbol: &[u8], difference: i64) -> bool {
    let mass = match Element::of_symbol(symbol) {
        Some(element) => reference_mass(element),
        None => None,
    };
    match mass {
        Some(mass) => i64::from(mass).saturating_add(difference) >= 1,
        None => false,
    }
}

fn is_bad_atom(line: &[u8]) -> bool {
    let symbol = column(line, 32, 34);
    let known = Element::of_symbol(symbol).is_some()
        || is_isotope_symbol(symbol)
        || is_query_symbol(symbol);
    let placed = is_fixed(line, 1, 10) && is_fixed(line, 11, 20) && is_fixed(line, 21, 30);
    let first = is_any(line, 35, 36) && is_within(line, 37, 39, 0, 7) && is_any(line, 43, 45);
    let last = is_within(line, 49, 51, 0, 15) && is_within(line, 61, 63, 0, 999);
    !known || !placed || !first || !last || !is_any(line, 64, 66) || !is_any(line, 67, 69)
}

fn look_at_atom(line: &[u8], k: usize, replaced: Replaced, found: &mut Found) {
    let symbol = column(line, 32, 34);
    let is_element = Element::of_symbol(symbol).is_some();
    let is_query = !is_element && !is_isotope_symbol(symbol) && is_query_symbol(symbol);
    let reacts = value(line, 64, 66) != 0 || value(line, 67, 69) != 0;
    let difference = value(line, 35, 36);
    let no_mass = difference != 0 && !says_a_mass(symbol, difference);
    found.add(is_bad_atom(line), Kind::BadField, k);
    found.add(is_query || value(line, 43, 45) != 0, Kind::Query, k);
    found.add(reacts, Kind::Reaction, k);
    found.add(!is_zero(line, 21, 30), Kind::ThreeD, k);
    found.add(
        !replaced.charges && value(line, 37, 39) == 4,
        Kind::Radical,
        k,
    );
    found.add(!replaced.masses && no_mass, Kind::MassDifference, k);
}

fn look_at_atoms(lines: &[&[u8]], atoms: usize, replaced: Replaced, found: &mut Found) {
    for i in 0..atoms {
        let k = i.saturating_add(5);
        look_at_atom(line_of(lines, k), k, replaced, found);
    }
}

// ---- the bond block

fn is_bad_bond(line: &[u8]) -> bool {
    let ends = is_within(line, 1, 3, 0, 999) && is_within(line, 4, 6, 0, 999);
    let kinds = is_within(line, 7, 9, 1, 10) && is_within(line, 10, 12, 0, 6);
    !ends || !kinds || !is_any(line, 16, 18) || !is_any(line, 19, 21)
}

fn is_named(number: i64, atoms: usize) -> bool {
    1 <= number && number <= i64::try_from(atoms).unwrap_or(0)
}

/// Whether an earlier bond line names the same two atoms.
fn is_named_again(lines: &[&[u8]], first: usize, k: usize) -> bool {
    let line = line_of(lines, k);
    let (u, v) = (value(line, 1, 3), value(line, 4, 6));
    for j in first..k {
        let other = line_of(lines, j);
        let (p, q) = (value(other, 1, 3), value(other, 4, 6));
        if p == u && q == v || p == v && q == u {
            return true;
        }
    }
    false
}

fn look_at_bond(line: &[u8], k: usize, atoms: usize, again: bool, found: &mut Found) {
    let order = value(line, 7, 9);
    let (u, v) = (value(line, 1, 3), value(line, 4, 6));
    let named = is_named(u, atoms) && is_named(v, atoms);
    let is_query = 4 <= order && order <= 8 || value(line, 16, 18) != 0;
    found.add(is_bad_bond(line), Kind::BadField, k);
    found.add(is_query, Kind::Query, k);
    found.add(order == 9 || order == 10, Kind::BondType, k);
    found.add(value(line, 19, 21) != 0, Kind::Reaction, k);
    found.add(!named, Kind::AtomNumber, k);
    found.add(named && (u == v || again), Kind::BondPair, k);
}

fn look_at_bonds(lines: &[&[u8]], counts: Counts, found: &mut Found) {
    let first = counts.atoms.saturating_add(5);
    for i in 0..counts.bonds {
        let k = first.saturating_add(i);
        let again = is_named_again(lines, first, k);
        look_at_bond(line_of(lines, k), k, counts.atoms, again, found);
    }
}

// ---- the record

fn look_at_counted(lines: &[&[u8]], counts: Counts, found: &mut Found) {
    let before = counts.lines_before();
    let end = match end_of(lines, before) {
        Some(end) if before <= lines.len() => end,
        _ => {
            found.add(true, Kind::ShortRecord, lines.len());
            return;
        }
    };
    let radicals = some_line(lines, before, end, b"M  RAD");
    let replaced = Replaced {
        charges: radicals || some_line(lines, before, end, b"M  CHG"),
        masses: some_line(lines, before, end, b"M  ISO"),
    };
    found.add(counts.lists != 0, Kind::Query, 4);
    found.add(counts.stexts != 0, Kind::Stext, 4);
    look_at_atoms(lines, counts.atoms, replaced, found);
    look_at_bonds(lines, counts, found);
    look_at_properties(lines, before, end, counts.atoms, found);
}

/// The first kind that stands in a record that isn't V3000.
pub fn first_kind(lines: &[&[u8]]) -> Found {
    let mut found = Found { first: None };
    let name = line_of(lines, 1);
    let version = column(line_of(lines, 4), 34, 39);
    let other = name.starts_with(b"$RXN")
        || name.starts_with(b"$RDFILE")
        || name.starts_with(b"$MDL");
    if lines.len() < 4 {
        found.add(true, Kind::ShortRecord, lines.len());
        return found;
    }
    found.add(other, Kind::ReactionFile, 1);
    if !version.is_empty() && version != b"V2000".as_slice() {
        found.add(true, Kind::Version, 4);
        return found;
    }
    match counts_of(lines) {
        Some(counts) => look_at_counted(lines, counts, &mut found),
        None => found.add(true, Kind::BadField, 4),
    }
    found
}
