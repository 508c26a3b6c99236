use super::read_line;
use crate::{ReportLine, put_ok, put_refused};
use mc_base::{AtomId, Kind, Refusal, Text};
use std::alloc::Global;
use std::process::Abort;
use std::test::Fail;

/// Whether a line is read as that of a written record.
fn is_ok(alloc: Global, line: &[u8], number: u64, atoms: &[AtomId]) -> Result<bool, Fail> {
    match read_line(alloc, line)? {
        Some(ReportLine::Ok { k, map }) => Ok(k == number && map.as_slice() == atoms),
        _ => Ok(false),
    }
}

fn is_refused(
    alloc: Global,
    line: &[u8],
    number: u64,
    wanted: Kind,
    at: u32,
) -> Result<bool, Fail> {
    match read_line(alloc, line)? {
        Some(ReportLine::Refused { k, refusal }) => Ok(
            k == number && refusal.kind == wanted && refusal.place == at,
        ),
        _ => Ok(false),
    }
}

fn is_barrier(alloc: Global, line: &[u8], atoms: &[AtomId], parts: u32) -> Result<bool, Fail> {
    match read_line(alloc, line)? {
        Some(ReportLine::Refused { k: _, refusal }) => Ok(
            refusal.kind == Kind::NoPlacement
                && refusal.place == 0
                && refusal.barrier.as_slice() == atoms
                && refusal.odd == parts,
        ),
        _ => Ok(false),
    }
}

#[test]
fn lines_of_the_grammar(rt: HostRuntime) -> Result<(), Fail> {
    let alloc = rt.alloc();
    let three = [AtomId(0), AtomId(1), AtomId(2)];
    assert!(rt; is_ok(alloc, b"1 ok map=1,2,3 idle=0 ring=0 data=0", 1, &three)?);
    assert!(rt; is_ok(alloc, b"20 ok map= idle=2 ring=10 data=4294967295", 20, &[])?);
    let greatest = [AtomId(4_294_967_294)];
    assert!(rt;
        is_ok(
            alloc,
            b"18446744073709551615 ok map=4294967295 idle=0 ring=0 data=0",
            u64::MAX,
            &greatest
        )?
    );
    assert!(rt; is_refused(alloc, b"2 refused BadOrder place=3", 2, Kind::BadOrder, 3)?);
    assert!(rt;
        is_refused(
            alloc,
            b"2 refused ShortRecord place=0",
            2,
            Kind::ShortRecord,
            0
        )?
    );
    assert!(rt;
        is_barrier(
            alloc,
            b"3 refused NoPlacement barrier=1,4 odd=3",
            &[AtomId(0), AtomId(3)],
            3
        )?
    );
    assert!(rt; is_barrier(alloc, b"1 refused NoPlacement barrier= odd=1", &[], 1)?);
    Ok(())
}

#[test]
fn lines_of_no_grammar(rt: HostRuntime) -> Result<(), Fail> {
    let alloc = rt.alloc();
    let lines: [&[u8]; 24] = [
        b"",
        b"ok map=1 idle=0 ring=0 data=0",
        b"0 ok map=1 idle=0 ring=0 data=0",
        b"01 ok map=1 idle=0 ring=0 data=0",
        b"+1 ok map=1 idle=0 ring=0 data=0",
        b"18446744073709551616 ok map=1 idle=0 ring=0 data=0",
        b"1 ok map=0 idle=0 ring=0 data=0",
        b"1 ok map=01 idle=0 ring=0 data=0",
        b"1 ok map=4294967296 idle=0 ring=0 data=0",
        b"1 ok map=1,,2 idle=0 ring=0 data=0",
        b"1 ok map=,1 idle=0 ring=0 data=0",
        b"1 ok map=1, idle=0 ring=0 data=0",
        b"1 ok map=1 idle=00 ring=0 data=0",
        b"1 ok map=1 idle=0 ring=0 data=4294967296",
        b"1 ok map=1 idle=0 ring=0 data=0 ",
        b"1 ok map=1 idle=0 ring=0",
        b"1  ok map=1 idle=0 ring=0 data=0",
        b"1 refused BadOrder place=",
        b"1 refused BadOrder place=3 ",
        b"1 refused Nothing place=3",
        b"1 refused NoPlacement place=3",
        b"1 refused BadOrder barrier=1 odd=2",
        b"1 refused NoPlacement barrier=4,1 odd=3",
        b"1 refused NoPlacement barrier=1,1 odd=3",
    ];
    for line in &lines {
        assert!(rt; read_line(alloc, *line)?.is_none());
    }
    Ok(())
}

#[test]
fn written_lines_are_read_back(rt: HostRuntime) -> Result<(), Fail> {
    let alloc = rt.alloc();
    let mut out = Text::new(alloc);
    put_ok(alloc, &mut out, 7, &[AtomId(2), AtomId(0)], 1, 0, 3)?;
    assert_eq!(rt;
        out.as_slice(),
        b"7 ok map=3,1 idle=1 ring=0 data=3\n".as_slice()
    );
    assert!(rt;
        is_ok(
            alloc,
            b"7 ok map=3,1 idle=1 ring=0 data=3",
            7,
            &[AtomId(2), AtomId(0)]
        )?
    );
    let mut out = Text::new(alloc);
    put_refused(
        alloc,
        &mut out,
        8,
        &Refusal::at(alloc, Kind::LimitAtoms, 1000),
    )?;
    assert_eq!(rt;
        out.as_slice(),
        b"8 refused LimitAtoms place=1000\n".as_slice()
    );
    assert!(rt;
        is_refused(
            alloc,
            b"8 refused LimitAtoms place=1000",
            8,
            Kind::LimitAtoms,
            1000
        )?
    );
    Ok(())
}
