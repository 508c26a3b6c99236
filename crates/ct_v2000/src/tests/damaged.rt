//! Damaged records: what `read` answers is what the plain program finds.

use super::plain::first_kind;
use super::ranges_of;
use crate::read;
use ct_sd::{Record, Table, Version, are_within};
use mc_base::{Kind, Span, Stop};
use std::alloc::Global;
use std::process::Abort;
use std::test::Fail;

/// Two atoms and a bond, with property lines that set something.
const WHOLE: &[u8] = b"a


  2  1  0     0  0            999 V2000
    1.5000    0.0000    0.0000 C  -1  0
   -1.5       2         0      N   0  3  0  0  0  4        12  0  0
  1  2  1  6     0  0
M  CHG  1   2   1
M  STY  1   1 DAT
M  END
";

/// An alias that passes an end line, and no version.
const ALIAS: &[u8] = b"b


  1  0  0     0  0
    0.0000    0.0000    0.0000 D
M  ISO  1   1   1
A    1
M  END
V  1
M  END
";

const DAMAGE: [u8; 12] = [
    b' ', b'\t', b'-', b'+', b'0', b'4', b'9', b'A', b'z', b'.', 0, 255,
];

fn lines_of<'a>(alloc: Global, text: &'a [u8], ranges: &[Span]) -> Result<Vec<&'a [u8]>, Fail> {
    let mut lines: Vec<&'a [u8]> = Vec::new(alloc);
    for range in ranges {
        let (from, to) = (range.from as usize, range.to as usize);
        if from <= to && to <= text.len() {
            lines.push(&text[from..to])?;
        }
    }
    Ok(lines)
}

/// An answer is what the plain program found.
fn is_so(
    rt: &(impl Abort + AllocGlobal),
    answer: Result<Table, Stop>,
    first: Option<(Kind, usize)>,
) -> Result<(), Fail> {
    match (answer, first) {
        (Ok(_table), None) => Ok(()),
        (Err(Stop::Refused(refusal)), Some((kind, place))) => {
            assert_eq!(rt; refusal.kind, kind);
            assert_eq!(rt; refusal.place as usize, place);
            Ok(())
        }
        _ => panic!(rt; "not so"),
    }
}

/// Both read a text alike; V3000 records are left aside.
fn agree(rt: &(impl Abort + AllocGlobal), text: &[u8]) -> Result<(), Fail> {
    let ranges = ranges_of(rt.alloc(), text)?;
    assert!(rt; are_within(text, &ranges));
    let lines = lines_of(rt.alloc(), text, &ranges)?;
    let record = Record::new(text, &ranges);
    match Version::of(&record) {
        Version::V3000 => Ok(()),
        _ => is_so(rt, read(rt.alloc(), &record), first_kind(&lines).first),
    }
}

/// The bytes with one of them in place of that at a place.
fn agree_replaced(
    rt: &(impl Abort + AllocGlobal),
    text: &mut Vec<u8>,
    at: usize,
) -> Result<(), Fail> {
    for byte in DAMAGE {
        if at < text.len() {
            let own = text[at];
            text[at] = byte;
            agree(rt, text)?;
            if at < text.len() {
                text[at] = own;
            }
        }
    }
    Ok(())
}

/// A text with a blank more, and with a byte less, at a place.
fn agree_shifted(rt: &(impl Abort + AllocGlobal), text: &[u8], at: usize) -> Result<(), Fail> {
    if at >= text.len() {
        return Ok(());
    }
    let mut shifted = text[..at].to_vec(rt.alloc())?;
    shifted.extend_from_slice(&text[at + 1..])?;
    agree(rt, &shifted)?;
    shifted.truncate(at);
    shifted.push(b' ')?;
    shifted.extend_from_slice(&text[at..])?;
    agree(rt, &shifted)
}

fn prefixes_of(rt: &(impl Abort + AllocGlobal), text: &[u8]) -> Result<(), Fail> {
    for count in 0..text.len() {
        agree(rt, &text[..count])?;
    }
    agree(rt, text)
}

fn replaced_in(rt: &(impl Abort + AllocGlobal), given: &[u8]) -> Result<(), Fail> {
    let mut text = given.to_vec(rt.alloc())?;
    for at in 0..given.len() {
        agree_replaced(rt, &mut text, at)?;
    }
    Ok(())
}

fn shifted_in(rt: &(impl Abort + AllocGlobal), text: &[u8]) -> Result<(), Fail> {
    for at in 0..text.len() {
        agree_shifted(rt, text, at)?;
    }
    Ok(())
}

#[test]
fn prefixes(rt: HostRuntime) -> Result<(), Fail> {
    prefixes_of(&rt, WHOLE)?;
    prefixes_of(&rt, ALIAS)
}

#[test]
fn replaced_bytes(rt: HostRuntime) -> Result<(), Fail> {
    replaced_in(&rt, WHOLE)?;
    replaced_in(&rt, ALIAS)
}

#[test]
fn shifted_columns(rt: HostRuntime) -> Result<(), Fail> {
    shifted_in(&rt, WHOLE)?;
    shifted_in(&rt, ALIAS)
}
