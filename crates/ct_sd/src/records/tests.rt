//! The records of small inputs, cut in every way, and of inputs at the limits.

ghost use Rattle.std.specs.Prelude.{◌≤◌};

use super::{RecordStep, Records};
use mc_base::{NoMemory, Refusal};
use mc_io::MemorySource;
use std::alloc::Global;
use std::process::Abort;
use std::test::Fail;

const LIMIT: u64 = 40_000_000;

fn source(alloc: Global, input: Vec<u8>, piece: usize) -> Result<MemorySource<LIMIT>, Fail>
    requires { 1 ≤ piece }
{
    Ok(MemorySource::new(vec![in alloc; input]?, piece, Vec::new(alloc)))
}

/// A record as a text: its lines, each with a bar behind it.
fn put_lines(text: &mut Vec<u8>, records: &Records) -> Result<(), NoMemory> {
    let record = records.current();
    for k in 0..record.line_count() {
        text.extend_from_slice(record.line(k))?;
        text.push(b'|')?;
    }
    Ok(())
}

/// A refusal as a text: the kind and the line, of at most two digits.
fn put_refusal(text: &mut Vec<u8>, refusal: &Refusal) -> Result<(), NoMemory> {
    text.extend_from_slice(refusal.kind.name())?;
    text.push(b'0' + (refusal.place / 10 % 10) as u8)?;
    text.push(b'0' + (refusal.place % 10) as u8)?;
    Ok(())
}

/// The records of an input as one text, with a semicolon behind each, and the answer behind the last.
fn told<const MOST: u64>(alloc: Global, source: &mut MemorySource<MOST>) -> Result<Vec<u8>, Fail> {
    let mut records = Records::new(alloc, 0)?;
    let mut text: Vec<u8> = Vec::new(alloc);
    for _ in 0..20 {
        match records.next(source) {
            RecordStep::Record => put_lines(&mut text, &records)?,
            RecordStep::Refused(refusal) => put_refusal(&mut text, &refusal)?,
            RecordStep::End => return with(text, b'.'),
            RecordStep::ReadFault => return with(text, b'!'),
            RecordStep::InputLimit => return with(text, b'>'),
            RecordStep::NoMemory => return Err("memory".into()),
        }
        text.push(b';')?;
    }
    Err("more than twenty records".into())
}

fn with(text: Vec<u8>, byte: u8) -> Result<Vec<u8>, Fail> {
    let mut text = text;
    text.push(byte)?;
    Ok(text)
}

#[test]
fn every_cut_gives_the_same_records(rt: HostRuntime) -> Result<(), Fail> {
    let alloc = rt.alloc();
    for piece in 1..41 {
        let input = b"a\r\n\nb\r$$$$\n$$$$ x\r\n \n\t\n$$$$\n$$$$\r\n\n\nlast\r".to_vec(alloc)?;
        let mut source = source(alloc, input, piece)?;
        let text = told(alloc, &mut source)?;
        assert_eq!(rt; text.as_slice(), b"a||b\r$$$$|; |\t|;;||last|;.".as_slice());
    }
    Ok(())
}

#[test]
fn the_last_run_is_a_record_where_it_says_something(rt: HostRuntime) -> Result<(), Fail> {
    let alloc = rt.alloc();
    let rows: [(&[u8], &[u8]); 8] = [
        (b"", b"."),
        (b"\n", b"."),
        (b" \t\r\n\r\r\n", b"."),
        (b"a\n$$$$\n \n\t\r", b"a|;."),
        (b"$$$$", b";."),
        (b"$$$$\n$$$", b";$$$|;."),
        (b"\n\r \n", b"|\r |;."),
        (b" $$$$\n", b" $$$$|;."),
    ];
    for piece in 1..5 {
        for (input, wanted) in rows {
            let mut source = source(alloc, input.to_vec(alloc)?, piece)?;
            assert_eq!(rt; told(alloc, &mut source)?.as_slice(), wanted);
        }
    }
    Ok(())
}

fn long_line(alloc: Global, front: &[u8], byte: u8, count: usize) -> Result<Vec<u8>, Fail> {
    let mut bytes = front.to_vec(alloc)?;
    bytes.extend_from_slice(&vec![in alloc; byte; count]?)?;
    bytes.push(b'\n')?;
    Ok(bytes)
}

#[test]
fn a_record_with_a_long_line_is_passed(rt: HostRuntime) -> Result<(), Fail> {
    let alloc = rt.alloc();
    for piece in [1000, 65_536, 3_000_000] {
        let mut input = b"a\n$$$$\nb\r\n".to_vec(alloc)?;
        input.extend_from_slice(&long_line(alloc, b"", b'x', 1_048_577)?)?;
        input.extend_from_slice(b"\n$$$$\nc\n$$$$\nd\n")?;
        input.extend_from_slice(&long_line(alloc, b"$$$$", b' ', 1_048_573)?)?;
        input.extend_from_slice(&long_line(alloc, b"", b'\r', 1_048_577)?)?;
        input.extend_from_slice(b"e\n$$$$\n")?;
        input.extend_from_slice(&long_line(alloc, b"", b' ', 1_048_577)?)?;
        let mut source = source(alloc, input, piece)?;
        let text = told(alloc, &mut source)?;
        assert_eq!(rt;
            text.as_slice(),
            b"a|;LineTooLong02;c|;LineTooLong02;|e|;.".as_slice()
        );
    }
    Ok(())
}

/// Lines of 1,048,576 bytes, their line feeds counted.
fn many_lines(alloc: Global, count: usize) -> Result<Vec<u8>, Fail> {
    let mut input: Vec<u8> = Vec::new(alloc);
    for _ in 0..count {
        input.extend_from_slice(&long_line(alloc, b"", b'x', 1_048_575)?)?;
    }
    Ok(input)
}

#[test]
fn a_record_that_is_too_long_is_passed(rt: HostRuntime) -> Result<(), Fail> {
    let alloc = rt.alloc();
    let mut input = many_lines(alloc, 16)?;
    input.extend_from_slice(b"$$$$\na\n$$$$\n")?;
    let mut above = source(alloc, input, 1_000_000)?;
    assert_eq!(rt;
        told(alloc, &mut above)?.as_slice(),
        b"RecordTooLong17;a|;.".as_slice()
    );

    let mut input = many_lines(alloc, 16)?;
    input.extend_from_slice(&long_line(alloc, b"", b'y', 1_048_577)?)?;
    input.extend_from_slice(b"$$$$\na")?;
    let mut both = source(alloc, input, 1_000_000)?;
    assert_eq!(rt;
        told(alloc, &mut both)?.as_slice(),
        b"RecordTooLong17;a|;.".as_slice()
    );

    let mut input = many_lines(alloc, 15)?;
    input.extend_from_slice(&long_line(alloc, b"", b'y', 1_048_577)?)?;
    let mut line = source(alloc, input, 1_000_000)?;
    assert_eq!(rt;
        told(alloc, &mut line)?.as_slice(),
        b"LineTooLong16;.".as_slice()
    );

    let mut blanks = source(
        alloc,
        long_line(alloc, b"\n \n", b'\r', 17_000_000)?,
        1_000_000,
    )?;
    assert_eq!(rt; told(alloc, &mut blanks)?.as_slice(), b".".as_slice());
    Ok(())
}

/// What two records give by pieces, where a read fails.
fn before<const MOST: u64>(alloc: Global, piece: usize, fail: Vec<u64>) -> Result<Vec<u8>, Fail>
    requires { 1 ≤ piece }
{
    let inputs = vec![in alloc; b"a\n$$$$\nb\n$$$$\n".to_vec(alloc)?]?;
    let mut source = MemorySource::<MOST>::new(inputs, piece, fail);
    told(alloc, &mut source)
}

// A record is given before a read is asked for, and a stop comes where its read is.
#[test]
fn a_stop_comes_behind_the_records_before_it(rt: HostRuntime) -> Result<(), Fail> {
    let alloc = rt.alloc();
    for (piece, call, wanted) in [
        (7, 1, b"!".as_slice()),
        (7, 2, b"a|;!".as_slice()),
        (7, 3, b"a|;b|;!".as_slice()),
        (1, 7, b"!".as_slice()),
        (1, 8, b"a|;!".as_slice()),
        (14, 2, b"a|;b|;!".as_slice()),
    ] {
        let text = before::<100>(alloc, piece, vec![in alloc; call]?)?;
        assert_eq!(rt; text.as_slice(), wanted);
    }
    assert_eq!(rt;
        before::<13>(alloc, 7, Vec::new(alloc))?.as_slice(),
        b"a|;>".as_slice()
    );
    assert_eq!(rt;
        before::<14>(alloc, 7, Vec::new(alloc))?.as_slice(),
        b"a|;b|;.".as_slice()
    );
    Ok(())
}
