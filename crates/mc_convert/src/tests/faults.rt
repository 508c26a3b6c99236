//! Reads and writes that fail, one after the other, and an input that is longer than its source allows: what the outputs
//! hold is a front of what they would hold.
ghost use Rattle.std.specs.Prelude.{◌≡◌, ◌≤◌, IfOk};

use crate::tests::inputs::{THREE, THREE_OUT, THREE_REPORT};
use crate::tests::{CHECK, CONVERT, Calls, ran, words_of};
use crate::{Status, run};
use mc_base::Text;
use mc_digits::put_number;
use mc_io::{MemorySink, MemorySource};
use std::alloc::Global;
use std::process::Abort;
use std::test::Fail;

/// Pieces of so many bytes, and the read or write with this number fails.
fn failing(
    alloc: Global,
    piece: usize,
    read: Option<u64>,
    write: Option<u64>,
) -> Result<Calls, Fail>
    ensures { IfOk result (λ calls. calls.piece ≡ piece) }
{
    let mut failing_reads = Vec::new(alloc);
    failing_reads.extend(read)?;
    let mut failing_writes = Vec::new(alloc);
    failing_writes.extend(write)?;
    Ok(Calls {
        piece,
        failing_reads,
        failing_writes,
    })
}

// ---- convert

/// Whether the outputs hold fronts of all answers, and no byte of a report line whose record isn't held whole.
fn are_fronts(sink: &MemorySink) -> bool {
    let out = sink.bytes(0);
    let report = sink.bytes(1);
    THREE_OUT.starts_with(out)
        && THREE_REPORT.starts_with(report)
        && (report.is_empty() || out.len() >= 2)
        && (report.len() <= 59 || out.len() >= 5)
}

/// How many bytes of the outputs answer the records that end in so many bytes of the input.
fn answered(taken: usize) -> (usize, usize) {
    match taken {
        0..=1 => (0, 0),
        2..=4 => (2, 32),
        5..=7 => (2, 59),
        _ => (5, 93),
    }
}

/// Fails each read in turn, of so many that are made, and one that isn't.
fn each_read(rt: &(impl Abort + AllocGlobal), piece: usize, count: u64) -> Result<(), Fail>
    requires { 1 ≤ piece }
{
    let alloc = rt.alloc();
    for call in 1..100u64 {
        let calls = failing(alloc, piece, Some(call), None)?;
        let (status, sink) = ran(alloc, &CONVERT, &[THREE], calls)?;
        let want = if call <= count {
            Status::ReadFault
        } else {
            Status::SomeRefused
        };
        assert!(rt; status == want, "at call {call}");
        let held = (sink.bytes(0).len(), sink.bytes(1).len());
        let taken = (call as usize).saturating_sub(1).saturating_mul(piece);
        assert!(rt; held == answered(taken), "at call {call}");
    }
    Ok(())
}

/// Fails each write in turn, of so many that are made, and one that isn't.
fn each_write(rt: &(impl Abort + AllocGlobal), piece: usize, count: u64) -> Result<(), Fail>
    requires { 1 ≤ piece }
{
    let alloc = rt.alloc();
    for call in 1..100u64 {
        let calls = failing(alloc, piece, None, Some(call))?;
        let (status, sink) = ran(alloc, &CONVERT, &[THREE], calls)?;
        let want = if call <= count {
            Status::WriteFault
        } else {
            Status::SomeRefused
        };
        assert!(rt; status == want, "at call {call}");
        assert!(rt; are_fronts(&sink), "at call {call}");
    }
    Ok(())
}

// The input has 8 bytes; one more read gives its end.
#[test]
fn each_read_of_convert(rt: HostRuntime) -> Result<(), Fail> {
    for (piece, count) in [(1usize, 9u64), (2, 5), (7, 3)] {
        each_read(&rt, piece, count)?;
    }
    Ok(())
}

// The records have 2, 0 and 3 bytes, their report lines 32, 27 and 34.
#[test]
fn each_write_of_convert(rt: HostRuntime) -> Result<(), Fail> {
    for (piece, count) in [(1usize, 98u64), (2, 50), (7, 16)] {
        each_write(&rt, piece, count)?;
    }
    Ok(())
}

#[test]
fn no_write_is_tried_again(rt: HostRuntime) -> Result<(), Fail> {
    let alloc = rt.alloc();
    let mut failing_writes = Vec::new(alloc);
    for call in 2..100u64 {
        failing_writes.push(call)?;
    }
    let calls = Calls {
        piece: 4096,
        failing_reads: Vec::new(alloc),
        failing_writes,
    };
    let (status, sink) = ran(alloc, &CONVERT, &[b"C\nCC\n"], calls)?;
    assert!(rt; status == Status::WriteFault);
    assert_eq!(rt; sink.bytes(0), b"C\n".as_slice());
    assert!(rt; sink.bytes(1).is_empty());
    Ok(())
}

#[test]
fn an_input_stops_at_the_limit(rt: HostRuntime) -> Result<(), Fail> {
    let alloc = rt.alloc();
    for (limit_is_met, input) in [(false, "CCCC"), (true, "CCCCC")] {
        let inputs = vec![in alloc; input.as_bytes().to_vec(alloc)?]?;
        let mut source: MemorySource<4> = MemorySource::new(inputs, 7, Vec::new(alloc));
        let mut sink = MemorySink::new(alloc, 100, 5, Vec::new(alloc))?;
        let status = run(alloc, &words_of(alloc, &CONVERT)?, &mut source, &mut sink);
        assert!(rt; (status == Status::InputLimit) == limit_is_met);
        assert!(rt; sink.bytes(0).is_empty() == limit_is_met);
    }
    Ok(())
}

const FIRST_REPORT: &[u8] = b"1 ok map=1 idle=0 ring=0 data=0\n";

// A record is answered before more is read: the second line is there in part where a read fails or passes the limit.
#[test]
fn a_record_that_has_ended_is_answered(rt: HostRuntime) -> Result<(), Fail> {
    let alloc = rt.alloc();
    for (piece, call) in [(3usize, 2u64), (1, 5)] {
        let calls = failing(alloc, piece, Some(call), None)?;
        let (status, sink) = ran(alloc, &CONVERT, &[b"C\nCC\n"], calls)?;
        assert!(rt; status == Status::ReadFault, "by {piece}");
        assert_eq!(rt; sink.bytes(0), b"C\n".as_slice(), "by {piece}");
        assert_eq!(rt; sink.bytes(1), FIRST_REPORT, "by {piece}");
    }
    let inputs = vec![in alloc; b"C\nCC\n".to_vec(alloc)?]?;
    let mut source: MemorySource<4> = MemorySource::new(inputs, 3, Vec::new(alloc));
    let mut sink = MemorySink::new(alloc, 100, 5, Vec::new(alloc))?;
    let status = run(alloc, &words_of(alloc, &CONVERT)?, &mut source, &mut sink);
    assert!(rt; status == Status::InputLimit);
    assert_eq!(rt; sink.bytes(0), b"C\n".as_slice());
    assert_eq!(rt; sink.bytes(1), FIRST_REPORT);
    Ok(())
}

// ---- check

/// The status of a check whose calls go so, and how much of its text is written.
fn checked(
    rt: &(impl Abort + AllocGlobal),
    inputs: &[&[u8]],
    verdicts: &[u8],
    calls: Calls,
) -> Result<(Status, usize), Fail>
    requires { 1 ≤ calls.piece }
{
    let alloc = rt.alloc();
    let (status, sink) = ran(alloc, &CHECK, inputs, calls)?;
    let held = sink.bytes(0);
    assert!(rt; verdicts.starts_with(held));
    assert!(rt; sink.bytes(1).is_empty());
    Ok((status, held.len()))
}

const TRUE: &[u8] = b"1 true\n2 true\n3 true\n";

// In large pieces each input takes one read: originals, report and converted records. Then each takes one for its end,
// the originals first; behind that the verdicts are written, and the other two are read to their ends.
#[test]
fn each_read_of_check(rt: HostRuntime) -> Result<(), Fail> {
    let alloc = rt.alloc();
    for call in 1..=7u64 {
        let calls = failing(alloc, 1000, Some(call), None)?;
        let (status, held) = checked(&rt, &[THREE, THREE_OUT, THREE_REPORT], TRUE, calls)?;
        let want = if call < 7 {
            Status::ReadFault
        } else {
            Status::Done
        };
        assert!(&rt; status == want, "at call {call}");
        assert!(&rt;
            held == if call <= 4 { 0 } else { TRUE.len() },
            "at call {call}"
        );
    }
    Ok(())
}

// Three short lines are one write, or eleven in pieces of two of their 21 bytes.
#[test]
fn each_write_of_check(rt: HostRuntime) -> Result<(), Fail> {
    let alloc = rt.alloc();
    for (piece, count) in [(1000usize, 1u64), (2, 11)] {
        for call in 1..13u64 {
            let calls = failing(alloc, piece, None, Some(call))?;
            let (status, held) = checked(&rt, &[THREE, THREE_OUT, THREE_REPORT], TRUE, calls)?;
            let done = call > count;
            assert!(&rt;
                status
                    == if done {
                        Status::Done
                    } else {
                        Status::WriteFault
                    },
                "at call {call}"
            );
            assert!(&rt;
                held == if done {
                    TRUE.len()
                } else {
                    piece * (call as usize - 1)
                },
                "at call {call}"
            );
        }
    }
    Ok(())
}

/// The report and the verdicts of so many records of one atom that are carried over.
fn of_single_atoms(alloc: Global, count: u64) -> Result<(Text, Text), Fail> {
    let mut report = Text::new(alloc);
    let mut verdicts = Text::new(alloc);
    for k in 1..=count {
        put_number(&mut report, k)?;
        report.extend(b" ok map=1 idle=0 ring=0 data=0\n")?;
        put_number(&mut verdicts, k)?;
        verdicts.extend(b" true\n")?;
    }
    Ok((report, verdicts))
}

// 9 lines of 7 bytes, 90 of 8 and 501 of 9; the first 468 are above 4,096 bytes.
#[test]
fn verdicts_of_two_pieces(rt: HostRuntime) -> Result<(), Fail> {
    let alloc = rt.alloc();
    let records = b"C\n".repeat(alloc, 600)?;
    let (report, verdicts) = of_single_atoms(alloc, 600)?;
    assert!(&rt; verdicts.len() == 5292);
    for (call, want, written) in [
        (1u64, Status::WriteFault, 0usize),
        (2, Status::WriteFault, 4104),
        (3, Status::Done, 5292),
    ] {
        let calls = failing(alloc, 60_000, None, Some(call))?;
        let (status, held) = checked(
            &rt,
            &[&records, &records, report.as_slice()],
            verdicts.as_slice(),
            calls,
        )?;
        assert!(&rt; status == want, "at call {call}");
        assert!(&rt; held == written, "at call {call}");
    }
    Ok(())
}
