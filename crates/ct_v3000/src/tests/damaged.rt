//! Damaged records: what `read` answers is what the plain program finds.

use super::plain::first_kind;
use super::ranges_of;
use crate::read;
use ct_sd::{Record, Table, Version, are_within};
use mc_base::{Kind, Span, Stop};
use std::alloc::Global;
use std::process::Abort;
use std::test::Fail;

/// Two atoms and a bond, a line that goes on, and blocks that are passed.
const WHOLE: &[u8] = b"a


  0  0  0     0  0            999 V3000
M  V30 BEGIN CTAB
M  V30 COUNTS 2 1 0 0 0
M  V30 BEGIN ATOM
M  V30 7 C 0 1.5 0 0 CHG=-1
M  V30 10 N -2 0 -
M  V30 0 3 VAL=3 MASS=1
M  V30 END ATOM
M  V30 BEGIN BOND
M  V30 1 1 7 10 CFG=1
M  V30 END BOND
M  V30 BEGIN SGROUP
M  V30 DEFAULT X=(1 2)
M  V30 1 DAT 0
M  V30 END SGROUP
M  V30 END CTAB
M  END
";

const DAMAGE: [u8; 14] = [
    b' ', b'\t', b'-', b'+', b'0', b'1', b'9', b'A', b'=', b'.', b'(', b'"', b'\n', 255,
];

fn lines_of<'a>(alloc: Global, text: &'a [u8], ranges: &[Span]) -> Result<Vec<&'a [u8]>, Fail> {
    let mut lines: Vec<&'a [u8]> = Vec::new(alloc);
    for range in ranges {
        let (from, to) = (range.from as usize, range.to as usize);
        if from <= to && to <= text.len() {
            lines.push(&text[from..to])?;
        }
    }
    Ok(lines)
}

/// An answer is what the plain program found.
fn is_so(
    rt: &(impl Abort + AllocGlobal),
    answer: Result<Table, Stop>,
    first: Option<(Kind, usize)>,
) -> Result<(), Fail> {
    match (answer, first) {
        (Ok(_table), None) => Ok(()),
        (Err(Stop::Refused(refusal)), Some((kind, place))) => {
            assert_eq!(rt; refusal.kind, kind);
            assert_eq!(rt; refusal.place as usize, place);
            Ok(())
        }
        _ => panic!(rt; "not so"),
    }
}

/// Both read a text alike; records of another version are left aside.
fn agree(rt: &(impl Abort + AllocGlobal), text: &[u8]) -> Result<(), Fail> {
    let ranges = ranges_of(rt.alloc(), text)?;
    assert!(rt; are_within(text, &ranges));
    let lines = lines_of(rt.alloc(), text, &ranges)?;
    let record = Record::new(text, &ranges);
    match Version::of(&record) {
        Version::V3000 => is_so(
            rt,
            read(rt.alloc(), &record),
            first_kind(rt.alloc(), &lines)?,
        ),
        _ => Ok(()),
    }
}

/// The bytes with one of them in place of that at a place.
fn agree_replaced(
    rt: &(impl Abort + AllocGlobal),
    text: &mut Vec<u8>,
    at: usize,
) -> Result<(), Fail> {
    for byte in DAMAGE {
        if at < text.len() {
            let own = text[at];
            text[at] = byte;
            agree(rt, text)?;
            if at < text.len() {
                text[at] = own;
            }
        }
    }
    Ok(())
}

/// A text with a byte more, and with one less, at a place, and cut by a line that goes on there.
fn agree_shifted(rt: &(impl Abort + AllocGlobal), text: &[u8], at: usize) -> Result<(), Fail> {
    if at >= text.len() {
        return Ok(());
    }
    let mut shifted = text[..at].to_vec(rt.alloc())?;
    shifted.extend_from_slice(&text[at + 1..])?;
    agree(rt, &shifted)?;
    shifted.truncate(at);
    shifted.push(b' ')?;
    shifted.extend_from_slice(&text[at..])?;
    agree(rt, &shifted)?;
    shifted.truncate(at);
    shifted.extend_from_slice(b"-\nM  V30 ")?;
    shifted.extend_from_slice(&text[at..])?;
    agree(rt, &shifted)
}

#[test]
fn prefixes(rt: HostRuntime) -> Result<(), Fail> {
    for count in 0..WHOLE.len() {
        agree(&rt, &WHOLE[..count])?;
    }
    agree(&rt, WHOLE)
}

#[test]
fn replaced_bytes(rt: HostRuntime) -> Result<(), Fail> {
    let mut text = WHOLE.to_vec(rt.alloc())?;
    for at in 0..WHOLE.len() {
        agree_replaced(&rt, &mut text, at)?;
    }
    Ok(())
}

#[test]
fn shifted_and_continued(rt: HostRuntime) -> Result<(), Fail> {
    for at in 0..WHOLE.len() {
        agree_shifted(&rt, WHOLE, at)?;
    }
    Ok(())
}
