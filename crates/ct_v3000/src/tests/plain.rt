//! The rules of V3000 records once more, as a plain program in passes: all joined lines first, then the words of each, then
//! the frame of blocks, then each block by itself; of what stands the least kind at its least line is kept.

use ct_sd::Symbol;
use mc_base::Kind;
use mc_digits::read_fixed;
use std::alloc::Global;
use std::test::Fail;

/// The least kind that was found, at its least line.
#[derive(Clone, Copy)]
struct Found {
    first: Option<(Kind, usize)>,
}

impl Found {
    fn add(&mut self, test: bool, kind: Kind, line: usize) {
        let sooner = match self.first {
            None => true,
            Some((other, place)) => {
                kind.number() < other.number() || kind == other && line < place
            }
        };
        if test && sooner {
            self.first = Some((kind, line));
        }
    }
}

/// A joined line: its first line, and its words.
#[derive(Drop)]
struct Line {
    place: usize,
    words: Vec<Vec<u8>>,
}

fn is(text: &[u8], other: &[u8]) -> bool {
    text == other
}

fn is_blank(byte: u8) -> bool {
    byte == b' ' || byte == b'\t'
}

fn is_end(line: &[u8]) -> bool {
    match line.strip_prefix(b"M  END") {
        Some(rest) => rest.iter().all(|byte| is_blank(*byte)),
        None => false,
    }
}

/// The text behind the prefix; a line is read as if spaces followed it.
fn behind_prefix(line: &[u8]) -> Option<&[u8]> {
    if is(line, b"M  V30") {
        return Some(b"");
    }
    line.strip_prefix(b"M  V30 ")
}

/// The words of a text; none where a bracket or a quotation mark stays open.
fn words_of(alloc: Global, text: &[u8]) -> Result<Option<Vec<Vec<u8>>>, Fail> {
    let mut words = Vec::new(alloc);
    let mut word: Vec<u8> = Vec::new(alloc);
    let mut closing: Option<u8> = None;
    for byte in text {
        match closing {
            Some(mark) => {
                word.push(*byte)?;
                if *byte == mark {
                    closing = None;
                }
            }
            None => {
                if is_blank(*byte) {
                    if !word.is_empty() {
                        words.push(word)?;
                    }
                    word = Vec::new(alloc);
                } else {
                    word.push(*byte)?;
                    closing = match *byte {
                        b'(' => Some(b')'),
                        b'"' => Some(b'"'),
                        _ => None,
                    };
                }
            }
        }
    }
    if closing.is_some() {
        return Ok(None);
    }
    if !word.is_empty() {
        words.push(word)?;
    }
    Ok(Some(words))
}

/// A record as it is walked through.
#[derive(Drop)]
struct Walk {
    /// the joined texts, each with its first line
    texts: Vec<(usize, Vec<u8>)>,
    /// the line behind the last of them
    behind: usize,
    /// whether that line ends the table
    ended: bool,
    at: usize,
    found: Found,
    indices: Vec<u128>,
    pairs: Vec<(u128, u128)>,
}

// ---- numbers

fn digits(text: &[u8]) -> Option<u128> {
    if text.is_empty() || !text.iter().all(|byte| byte.is_ascii_digit()) {
        return None;
    }
    let mut value = 0u128;
    for digit in text {
        value = value
            .saturating_mul(10)
            .saturating_add(u128::from(*digit).saturating_sub(48));
    }
    Some(value)
}

fn without_sign(text: &[u8]) -> &[u8] {
    match text {
        [b'-' | b'+', rest @ ..] => rest,
        _ => text,
    }
}

fn word(line: &Line, n: usize) -> &[u8] {
    match line.words.get(n) {
        Some(word) => word.as_slice(),
        None => b"",
    }
}

fn number(line: &Line, n: usize) -> Option<u128> {
    digits(word(line, n))
}

fn is_line(line: &Line, first: &[u8], second: &[u8]) -> bool {
    line.words.len() == 2 && word(line, 0) == first && word(line, 1) == second
}

// ---- keys

/// What a key of an atom shows where its number isn't 0; whether its number may have a sign.
fn shown_by(bonds: bool, name: &[u8]) -> Option<(bool, Option<Kind>)> {
    let of_atoms: [(&[u8], bool, Option<Kind>); 8] = [
        (b"CHG", true, None),
        (b"MASS", false, None),
        (b"RAD", false, Some(Kind::Radical)),
        (b"HCOUNT", true, Some(Kind::Query)),
        (b"SUBST", true, Some(Kind::Query)),
        (b"UNSAT", true, Some(Kind::Query)),
        (b"RBCNT", true, Some(Kind::Query)),
        (b"INVRET", false, Some(Kind::Reaction)),
    ];
    if bonds {
        return match name {
            b"TOPO" => Some((false, Some(Kind::Query))),
            b"RXCTR" => Some((true, Some(Kind::Reaction))),
            _ => None,
        };
    }
    if is(name, b"EXACHG") {
        return Some((false, Some(Kind::Reaction)));
    }
    for row in of_atoms {
        if row.0 == name {
            return Some((row.1, row.2));
        }
    }
    None
}

fn is_free(bonds: bool, name: &[u8]) -> bool {
    if bonds {
        return is(name, b"STBOX") || is(name, b"DISP") || is_query_key(bonds, name);
    }
    let names: [&[u8]; 5] = [b"CFG", b"STBOX", b"ATTCHORD", b"CLASS", b"SEQID"];
    names.iter().any(|other| *other == name) || is_query_key(bonds, name)
}

fn is_query_key(bonds: bool, name: &[u8]) -> bool {
    if bonds {
        is(name, b"ENDPTS") || is(name, b"ATTACH")
    } else {
        is(name, b"ATTCHPT") || is(name, b"RGROUPS")
    }
}

fn is_valence(value: &[u8]) -> bool {
    match value {
        [b'-', rest @ ..] => digits(rest).unwrap_or(0) == 1,
        _ => match digits(value) {
            Some(number) => number <= 14,
            None => false,
        },
    }
}

fn is_configuration(value: &[u8]) -> bool {
    match digits(value) {
        Some(number) => number <= 3,
        None => false,
    }
}

/// What a key word shows.
fn key_kind(bonds: bool, name: &[u8], value: &[u8]) -> Option<Kind> {
    if is_query_key(bonds, name) {
        return Some(Kind::Query);
    }
    if is_free(bonds, name) {
        return None;
    }
    if !bonds && is(name, b"VAL") {
        return if is_valence(value) {
            None
        } else {
            Some(Kind::BadField)
        };
    }
    if bonds && is(name, b"CFG") {
        return if is_configuration(value) {
            None
        } else {
            Some(Kind::BadField)
        };
    }
    match shown_by(bonds, name) {
        Some((signed, kind)) => {
            if signed {
                number_kind(without_sign(value), kind)
            } else {
                number_kind(value, kind)
            }
        }
        None => Some(Kind::BadField),
    }
}

fn number_kind(text: &[u8], kind: Option<Kind>) -> Option<Kind> {
    match digits(text) {
        Some(number) => { if number == 0 { None } else { kind } }
        None => Some(Kind::BadField),
    }
}

/// The name and the value of a key word.
fn parted(word: &[u8]) -> Option<(&[u8], &[u8])> {
    let at = word.iter().position(|byte| *byte == b'=')?;
    if at < word.len() {
        Some((&word[..at], &word[at + 1..]))
    } else {
        None
    }
}

fn name_of(word: &[u8]) -> &[u8] {
    match parted(word) {
        Some((name, _)) => name,
        None => word,
    }
}

/// How many of the words from one on have a name.
fn count_named(line: &Line, from: usize, name: &[u8]) -> usize {
    let mut count = 0usize;
    for n in from..line.words.len() {
        if parted(word(line, n)).is_some() && name_of(word(line, n)) == name {
            count = count.saturating_add(1);
        }
    }
    count
}

fn look_at_keys(line: &Line, from: usize, bonds: bool, found: &mut Found) {
    for n in from..line.words.len() {
        match parted(word(line, n)) {
            Some((name, value)) => {
                found.add(
                    count_named(line, from, name) > 1,
                    Kind::BadField,
                    line.place,
                );
                if let Some(kind) = key_kind(bonds, name, value) {
                    found.add(true, kind, line.place);
                }
            }
            None => found.add(true, Kind::BadField, line.place),
        }
    }
}

// ---- lines

fn is_query_type(text: &[u8]) -> bool {
    text.starts_with(b"[") || text.starts_with(b"NOT") || text.starts_with(b"\"")
}

fn look_at_atom(line: &Line, indices: &[u128], found: &mut Found) {
    let place = line.place;
    let index = number(line, 0).unwrap_or(0);
    found.add(index < 1 || index > 4_294_967_295, Kind::BadField, place);
    found.add(
        indices.iter().any(|other| *other == index),
        Kind::AtomNumber,
        place,
    );
    match Symbol::of(word(line, 1)) {
        Symbol::Known(_, _) => {}
        Symbol::Query => found.add(true, Kind::Query, place),
        Symbol::Unknown => {
            if is_query_type(word(line, 1)) {
                found.add(true, Kind::Query, place);
            } else {
                found.add(true, Kind::BadField, place);
            }
        }
    }
    for n in 2..5usize {
        found.add(read_fixed(word(line, n)).is_none(), Kind::BadField, place);
    }
    found.add(read_fixed(word(line, 4)) != Some(0), Kind::ThreeD, place);
    found.add(number(line, 5).is_none(), Kind::BadField, place);
    look_at_keys(line, 6, false, found);
}

fn look_at_bond(line: &Line, indices: &[u128], pairs: &[(u128, u128)], found: &mut Found) {
    let place = line.place;
    for n in 0..4usize {
        found.add(number(line, n).is_none(), Kind::BadField, place);
    }
    let kind = number(line, 1).unwrap_or(0);
    found.add(kind < 1 || kind > 10, Kind::BadField, place);
    found.add(4 <= kind && kind <= 8, Kind::Query, place);
    found.add(9 <= kind && kind <= 10, Kind::BondType, place);
    let first = number(line, 2).unwrap_or(0);
    let second = number(line, 3).unwrap_or(0);
    let there = indices.iter().any(|index| *index == first)
        && indices.iter().any(|index| *index == second);
    found.add(!there, Kind::AtomNumber, place);
    let again = pairs.iter().any(|pair| {
        pair.0 == first && pair.1 == second || pair.0 == second && pair.1 == first
    });
    found.add(there && (first == second || again), Kind::BondPair, place);
    look_at_keys(line, 4, true, found);
}

impl Walk {
    fn wrong(&mut self, place: usize) {
        self.found.add(true, Kind::BadField, place);
    }

    /// The next joined line; none where there is none, or where its words can't be told.
    fn take(&mut self, alloc: Global) -> Result<Option<Line>, Fail> {
        let at = self.at;
        self.at = at.saturating_add(1);
        if at >= self.texts.len() {
            let behind = self.behind;
            self.wrong(behind);
            return Ok(None);
        }
        let place = self.texts[at].0;
        match words_of(alloc, &self.texts[at].1)? {
            Some(words) => Ok(Some(Line { place, words })),
            None => {
                self.wrong(place);
                Ok(None)
            }
        }
    }

    /// The lines of a block that has so many, and its end. Answers whether it is whole.
    fn counted(&mut self, alloc: Global, count: u128, bonds: bool) -> Result<bool, Fail> {
        let name: &[u8] = if bonds { b"BOND" } else { b"ATOM" };
        let mut left = count;
        for _ in 0..self.texts.len().saturating_add(1) {
            match self.take(alloc)? {
                Some(line) => {
                    let ends = is_line(&line, b"END", name);
                    if ends != (left == 0) {
                        self.wrong(line.place);
                        return Ok(false);
                    }
                    if ends {
                        return Ok(true);
                    }
                    self.look_at(&line, bonds)?;
                    left = left.saturating_sub(1);
                }
                None => return Ok(false),
            }
        }
        Ok(false)
    }

    fn look_at(&mut self, line: &Line, bonds: bool) -> Result<(), Fail> {
        let mut found = self.found;
        if bonds {
            look_at_bond(line, &self.indices, &self.pairs, &mut found);
            let pair = (number(line, 2).unwrap_or(0), number(line, 3).unwrap_or(0));
            self.pairs.push(pair)?;
        } else {
            look_at_atom(line, &self.indices, &mut found);
            self.indices.push(number(line, 0).unwrap_or(0))?;
        }
        self.found = found;
        Ok(())
    }

    /// The lines of a block up to its end. Answers whether it has one.
    fn open(&mut self, alloc: Global, name: &[u8]) -> Result<bool, Fail> {
        for _ in 0..self.texts.len().saturating_add(1) {
            match self.take(alloc)? {
                Some(line) => {
                    if is_line(&line, b"END", name) {
                        return Ok(true);
                    }
                    self.look_at_other(&line, name);
                }
                None => return Ok(false),
            }
        }
        Ok(false)
    }

    fn look_at_other(&mut self, line: &Line, name: &[u8]) {
        let first = word(line, 0);
        let second = word(line, 1);
        if is(name, b"SGROUP") && !is(first, b"DEFAULT") {
            let passed = is(second, b"SUP") || is(second, b"DAT");
            self.found
                .add(!second.is_empty() && !passed, Kind::Sgroup, line.place);
            self.found
                .add(second.is_empty(), Kind::BadField, line.place);
        }
        if is(name, b"COLLECTION") {
            let enhanced = first.starts_with(b"MDLV30/STERAC")
                || first.starts_with(b"MDLV30/STEREL");
            self.found.add(enhanced, Kind::EnhancedStereo, line.place);
        }
    }

    /// The counts of atoms and bonds, where the table begins as it must.
    fn head(&mut self, alloc: Global) -> Result<Option<(u128, u128)>, Fail> {
        match self.take(alloc)? {
            Some(line) => {
                if !is(word(&line, 0), b"BEGIN") || !is(word(&line, 1), b"CTAB") {
                    self.wrong(line.place);
                    return Ok(None);
                }
            }
            None => return Ok(None),
        }
        self.counts(alloc)
    }

    fn counts(&mut self, alloc: Global) -> Result<Option<(u128, u128)>, Fail> {
        match self.take(alloc)? {
            Some(line) => {
                let whole = (1..6usize).all(|n| number(&line, n).is_some());
                if !is(word(&line, 0), b"COUNTS") || !whole {
                    self.wrong(line.place);
                    return Ok(None);
                }
                Ok(Some((number(&line, 1).unwrap_or(0), number(&line, 2).unwrap_or(0))))
            }
            None => Ok(None),
        }
    }

    fn begin_atoms(&mut self, alloc: Global) -> Result<bool, Fail> {
        match self.take(alloc)? {
            Some(line) => {
                let begins = is_line(&line, b"BEGIN", b"ATOM");
                if !begins {
                    self.wrong(line.place);
                }
                Ok(begins)
            }
            None => Ok(false),
        }
    }

    /// The blocks behind the atoms. Answers whether the table ends as it must.
    fn blocks(&mut self, alloc: Global, bonds: u128) -> Result<bool, Fail> {
        let mut stood = [false; 3];
        for _ in 0..self.texts.len().saturating_add(1) {
            match self.take(alloc)? {
                Some(line) => match self.block(alloc, &line, bonds, &mut stood)? {
                    Some(ends) => return Ok(ends),
                    None => {}
                },
                None => return Ok(false),
            }
        }
        Ok(false)
    }

    /// One block, or the end of the table: whether it may stand here; none where more follows.
    fn block(
        &mut self,
        alloc: Global,
        line: &Line,
        bonds: u128,
        stood: &mut [bool; 3],
    ) -> Result<Option<bool>, Fail> {
        if is_line(line, b"END", b"CTAB") && (bonds == 0 || stood[0]) {
            return Ok(Some(true));
        }
        if is(word(line, 0), b"LINKNODE") {
            self.found.add(true, Kind::Query, line.place);
            return Ok(None);
        }
        if is_line(line, b"BEGIN", b"OBJ3D") {
            self.found.add(true, Kind::Query, line.place);
            let whole = self.open(alloc, b"OBJ3D")?;
            return Ok(if whole { None } else { Some(false) });
        }
        if is_line(line, b"BEGIN", b"BOND") && !stood[0] {
            stood[0] = true;
            let whole = self.counted(alloc, bonds, true)?;
            return Ok(if whole { None } else { Some(false) });
        }
        if is_line(line, b"BEGIN", b"SGROUP") && !stood[1] {
            stood[1] = true;
            let whole = self.open(alloc, b"SGROUP")?;
            return Ok(if whole { None } else { Some(false) });
        }
        if is_line(line, b"BEGIN", b"COLLECTION") && !stood[2] {
            stood[2] = true;
            let whole = self.open(alloc, b"COLLECTION")?;
            return Ok(if whole { None } else { Some(false) });
        }
        self.wrong(line.place);
        Ok(Some(false))
    }

    /// What follows the table.
    fn tail(&mut self, alloc: Global) -> Result<(), Fail> {
        if self.at >= self.texts.len() {
            let behind = self.behind;
            self.found.add(!self.ended, Kind::BadField, behind);
            return Ok(());
        }
        match self.take(alloc)? {
            Some(line) => {
                if is(word(&line, 0), b"BEGIN") && is(word(&line, 1), b"RGROUP") {
                    self.found.add(true, Kind::Query, line.place);
                    let behind = self.behind;
                    self.found.add(!self.ended, Kind::BadField, behind);
                } else {
                    self.wrong(line.place);
                }
                Ok(())
            }
            None => Ok(()),
        }
    }

    fn table(&mut self, alloc: Global) -> Result<(), Fail> {
        match self.head(alloc)? {
            Some((atoms, bonds)) => {
                if self.begin_atoms(alloc)?
                    && self.counted(alloc, atoms, false)?
                    && self.blocks(alloc, bonds)?
                {
                    self.tail(alloc)?;
                }
                Ok(())
            }
            None => Ok(()),
        }
    }
}

/// The joined lines before a line, and what stands behind them.
fn walk_of(alloc: Global, lines: &[&[u8]], end: usize) -> Result<Walk, Fail> {
    let mut walk = Walk {
        texts: Vec::new(alloc),
        behind: end.saturating_add(1),
        ended: true,
        at: 0,
        found: Found { first: None },
        indices: Vec::new(alloc),
        pairs: Vec::new(alloc),
    };
    let mut text: Vec<u8> = Vec::new(alloc);
    let mut place = 5usize;
    let mut going = false;
    for (k, line) in lines.iter().enumerate() {
        if k < 4 || k >= end {
            continue;
        }
        let own = match behind_prefix(line) {
            Some(own) => own,
            None => {
                walk.behind = k.saturating_add(1);
                walk.ended = false;
                return Ok(walk);
            }
        };
        if !going {
            place = k.saturating_add(1);
        }
        match own.strip_suffix(b"-") {
            Some(front) => {
                text.extend_from_slice(front)?;
                going = true;
            }
            None => {
                text.extend_from_slice(own)?;
                walk.texts.push((place, text))?;
                text = Vec::new(alloc);
                going = false;
            }
        }
    }
    walk.ended = !going;
    Ok(walk)
}

/// The first kind that stands in a V3000 record, and its line.
pub fn first_kind(alloc: Global, lines: &[&[u8]]) -> Result<Option<(Kind, usize)>, Fail> {
    let mut end = lines.len();
    for (k, line) in lines.iter().enumerate() {
        if k >= 4 && k < end && is_end(line) {
            end = k;
        }
    }
    if end >= lines.len() {
        return Ok(Some((Kind::ShortRecord, lines.len())));
    }
    let mut walk = walk_of(alloc, lines, end)?;
    walk.table(alloc)?;
    let name = lines[0];
    let other = name.starts_with(b"$RXN")
        || name.starts_with(b"$RDFILE")
        || name.starts_with(b"$MDL");
    walk.found.add(other, Kind::ReactionFile, 1);
    Ok(walk.found.first)
}
