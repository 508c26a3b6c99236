//! Inputs of several records: each is answered by itself, however the input is cut.

use crate::Status;
use crate::tests::{CONVERT, Calls, gives, ran};
use std::alloc::Global;
use std::process::Abort;
use std::test::Fail;

pub const THREE: &[u8] = b"C\nCX\nCC\n";

pub const THREE_OUT: &[u8] = b"C\nCC\n";

pub const THREE_REPORT: &[u8] =
    b"1 ok map=1 idle=0 ring=0 data=0\n2 refused BadToken place=2\n3 ok map=1,2 idle=0 ring=0 data=0\n";

fn converts(
    rt: &(impl Abort + AllocGlobal),
    input: &[u8],
    status: Status,
    out: &[u8],
    report: &[u8],
) -> Result<(), Fail> {
    gives(rt, &CONVERT, &[input], status, out, report)
}

#[test]
fn empty_lines_are_no_records(rt: HostRuntime) -> Result<(), Fail> {
    for input in ["", "\n\n", "\r\r\n\r\n\r"] {
        converts(&rt, input.as_bytes(), Status::Done, b"", b"")?;
    }
    // a blank makes a record
    converts(
        &rt,
        b"\n \n",
        Status::Done,
        b" \n",
        b"1 ok map= idle=0 ring=0 data=0\n",
    )
}

#[test]
fn line_ends(rt: HostRuntime) -> Result<(), Fail> {
    for input in [
        "C\nCC name\n",
        "C\nCC name",
        "C\r\nCC name\r\n",
        "\r\nC\n\nCC name\r\r",
    ] {
        converts(
            &rt,
            input.as_bytes(),
            Status::Done,
            b"C\nCC name\n",
            b"1 ok map=1 idle=0 ring=0 data=0\n2 ok map=1,2 idle=0 ring=0 data=0\n",
        )?;
    }
    converts(
        &rt,
        b"C\rC\n",
        Status::SomeRefused,
        b"",
        b"1 refused BadToken place=2\n",
    )
}

#[test]
fn a_refused_record_stops_nothing(rt: HostRuntime) -> Result<(), Fail> {
    converts(&rt, THREE, Status::SomeRefused, THREE_OUT, THREE_REPORT)
}

#[test]
fn every_cut_gives_the_same(rt: HostRuntime) -> Result<(), Fail> {
    let alloc = rt.alloc();
    for piece in [1, 2, 7] {
        let calls = Calls {
            piece,
            failing_reads: Vec::new(alloc),
            failing_writes: Vec::new(alloc),
        };
        let (status, sink) = ran(alloc, &CONVERT, &[THREE], calls)?;
        assert!(rt; status == Status::SomeRefused);
        assert_eq!(rt; sink.bytes(0), THREE_OUT);
        assert_eq!(rt; sink.bytes(1), THREE_REPORT);
    }
    Ok(())
}

fn with_line(alloc: Global, byte: u8, count: usize) -> Result<Vec<u8>, Fail> {
    let mut input = b"C\nC ".to_vec(alloc)?;
    let line = vec![in alloc; byte; count]?;
    input.extend_from_slice(&line)?;
    input.extend_from_slice(b"\nCC\n")?;
    Ok(input)
}

// A line may have 1,048,576 bytes; two of them stand before the name here.
#[test]
fn a_long_line_is_refused_and_passed(rt: HostRuntime) -> Result<(), Fail> {
    let alloc = rt.alloc();
    let within = with_line(alloc, b'n', 1_048_574)?;
    converts(
        &rt,
        &within,
        Status::Done,
        &within,
        b"1 ok map=1 idle=0 ring=0 data=0\n2 ok map=1 idle=0 ring=0 data=0\n3 ok map=1,2 idle=0 ring=0 data=0\n",
    )?;
    let above = with_line(alloc, b'n', 1_048_575)?;
    converts(
        &rt,
        &above,
        Status::SomeRefused,
        THREE_OUT,
        b"1 ok map=1 idle=0 ring=0 data=0\n2 refused LineTooLong place=1\n3 ok map=1,2 idle=0 ring=0 data=0\n",
    )
}
