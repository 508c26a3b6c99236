ghost use Rattle.std.specs.Prelude.{◌≡◌, ◌≤◌};

use super::{LineStep, Lines};
use crate::MemorySource;
use std::alloc::Global;
use std::process::Abort;
use std::test::Fail;

const LIMIT: u64 = 4_000_000;

fn source(alloc: Global, input: Vec<u8>, piece: usize) -> Result<MemorySource<LIMIT>, Fail>
    requires { 1 ≤ piece }
{
    Ok(MemorySource::new(vec![in alloc; input]?, piece, Vec::new(alloc)))
}

/// Whether an input has exactly these lines; a long one is called by its number.
fn has_lines(
    alloc: Global,
    source: &mut MemorySource<LIMIT>,
    wanted: &[&[u8]],
) -> Result<bool, Fail> {
    let mut lines = Lines::new(alloc, 0)?;
    for want in wanted {
        match lines.next(source) {
            LineStep::Line => {
                if lines.line() != *want {
                    return Ok(false);
                }
            }
            LineStep::TooLong(number) => {
                if [b'0' + (number % 10) as u8].as_slice() != *want {
                    return Ok(false);
                }
            }
            _ => return Ok(false),
        }
    }
    Ok(lines.next(source) == LineStep::End)
}

fn long_line(alloc: Global, byte: u8, count: usize, end: &[u8]) -> Result<Vec<u8>, Fail> {
    let mut bytes = vec![in alloc; byte; count]?;
    bytes.extend_from_slice(end)?;
    Ok(bytes)
}

#[test]
fn every_cut_gives_the_same_lines(rt: HostRuntime) -> Result<(), Fail> {
    let alloc = rt.alloc();
    let wanted: [&[u8]; 8] = [
        b"CCC propane",
        b"",
        b"C\rN",
        b"",
        b"O=C=O gas",
        b"",
        b"\r\rO",
        b"NC",
    ];
    for piece in 1..41 {
        let input = b"CCC propane\r\n\nC\rN\r\r\n\r\nO=C=O gas\n\n\r\rO\nNC\r".to_vec(alloc)?;
        let mut source = source(alloc, input, piece)?;
        assert!(rt; has_lines(alloc, &mut source, &wanted)?, "by {piece}");
    }
    Ok(())
}

#[test]
fn every_cut_passes_a_long_line(rt: HostRuntime) -> Result<(), Fail> {
    let alloc = rt.alloc();
    let wanted: [&[u8]; 5] = [b"C", b"2", b"", b"", b"5"];
    for piece in [97, 1000, 65_535, 65_536, 65_537, 3_000_000] {
        let mut input = b"C\r\n".to_vec(alloc)?;
        input.extend_from_slice(&long_line(alloc, b'C', 1_048_577, b"\r\n")?)?;
        input.extend_from_slice(&long_line(alloc, b'\r', 1_048_577, b"\n\n")?)?;
        input.extend_from_slice(&long_line(alloc, b'N', 1_048_577, b"")?)?;
        let mut source = source(alloc, input, piece)?;
        assert!(rt; has_lines(alloc, &mut source, &wanted)?, "by {piece}");
    }
    Ok(())
}

#[test]
fn an_empty_input_has_no_line(rt: HostRuntime) -> Result<(), Fail> {
    let alloc = rt.alloc();
    let mut none = source(alloc, Vec::new(alloc), 7)?;
    assert!(rt; has_lines(alloc, &mut none, &[])?);
    let mut one = source(alloc, b"\n".to_vec(alloc)?, 7)?;
    let wanted: [&[u8]; 1] = [b""];
    assert!(rt; has_lines(alloc, &mut one, &wanted)?);
    Ok(())
}

// 1,048,576 bytes are within the limit, and a carriage return counts.
#[test]
fn a_long_line_is_passed_and_counted(rt: HostRuntime) -> Result<(), Fail> {
    let alloc = rt.alloc();
    let longest = long_line(alloc, b'C', 1_048_576, b"")?;
    let wanted: [&[u8]; 2] = [&longest, b"N"];
    let input = long_line(alloc, b'C', 1_048_576, b"\nN\n")?;
    let mut within = source(alloc, input, 65_536)?;
    assert!(rt; has_lines(alloc, &mut within, &wanted)?);

    let wanted: [&[u8]; 2] = [b"1", b"N"];
    let input = long_line(alloc, b'C', 1_048_576, b"\r\nN")?;
    let mut above = source(alloc, input, 65_536)?;
    assert!(rt; has_lines(alloc, &mut above, &wanted)?);

    let wanted: [&[u8]; 2] = [b"", b"N"];
    let input = long_line(alloc, b'\r', 1_048_577, b"\nN")?;
    let mut empty = source(alloc, input, 65_536)?;
    assert!(rt; has_lines(alloc, &mut empty, &wanted)?);
    Ok(())
}

/// How many lines `C`, LF, `CC`, LF gives by pieces, where a read fails, and the answer behind them.
fn lines_before<const MOST: u64>(
    alloc: Global,
    piece: usize,
    fail: Vec<u64>,
) -> Result<(usize, LineStep), Fail>
    requires { 1 ≤ piece }
{
    let inputs = vec![in alloc; b"C\nCC\n".to_vec(alloc)?]?;
    let mut source = MemorySource::<MOST>::new(inputs, piece, fail);
    let mut lines = Lines::new(alloc, 0)?;
    for count in 0..3 {
        let step = lines.next(&mut source);
        if step != LineStep::Line {
            return Ok((count, step));
        }
    }
    Ok((3, LineStep::End))
}

// A line is given before a read is asked for, and a stop comes where its read is.
#[test]
fn a_stop_comes_behind_the_lines_before_it(rt: HostRuntime) -> Result<(), Fail> {
    let alloc = rt.alloc();
    for (piece, call, count) in [
        (3, 1, 0),
        (3, 2, 1),
        (3, 3, 2),
        (1, 5, 1),
        (1, 6, 2),
        (5, 2, 2),
    ] {
        let stop = lines_before::<5>(alloc, piece, vec![in alloc; call]?)?;
        assert_eq!(rt; stop, (count, LineStep::ReadFault), "by {piece} at {call}");
    }
    assert_eq!(rt;
        lines_before::<4>(alloc, 3, Vec::new(alloc))?,
        (1, LineStep::InputLimit)
    );
    assert_eq!(rt;
        lines_before::<4>(alloc, 5, Vec::new(alloc))?,
        (0, LineStep::InputLimit)
    );
    assert_eq!(rt;
        lines_before::<5>(alloc, 3, Vec::new(alloc))?,
        (2, LineStep::End)
    );
    Ok(())
}
