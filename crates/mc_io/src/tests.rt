use super::*;
use std::alloc::Global;
use std::test::Fail;

const INPUT: &[u8; 12] = b"CC(N)O\nC(C)N";

fn inputs(alloc: Global) -> Result<Vec<Vec<u8>>, Fail> {
    Ok(vec![in alloc; INPUT.to_vec(alloc)?]?)
}

#[test]
fn every_cut_holds_the_same_bytes(rt: HostRuntime) -> Result<(), Fail> {
    let alloc = rt.alloc();
    for piece in 1..14 {
        let mut sink = MemorySink::new(alloc, 20, piece, Vec::new(alloc))?;
        assert!(rt; put_all(&mut sink, 1, INPUT).is_ok(), "written by {piece}");
        assert_eq!(rt; sink.bytes(1), INPUT.as_slice(), "written by {piece}");
        assert_eq!(rt; sink.bytes(0), [].as_slice());
    }
    Ok(())
}

#[test]
fn a_write_fails_at_its_call(rt: HostRuntime) -> Result<(), Fail> {
    let alloc = rt.alloc();
    for (call, held) in [(1, 0), (2, 5), (3, 10), (4, 12)] {
        let mut sink = MemorySink::new(alloc, 12, 5, vec![in alloc; call]?)?;
        let written = put_all(&mut sink, 0, INPUT);
        assert_eq!(rt; written.is_ok(), held == 12, "at call {call}");
        assert_eq!(rt; Some(sink.bytes(0)), INPUT.get(..held), "at call {call}");
    }
    Ok(())
}

#[test]
fn a_sink_takes_what_it_has_room_for(rt: HostRuntime) -> Result<(), Fail> {
    let alloc = rt.alloc();
    let mut sink = MemorySink::new(alloc, 7, 5, Vec::new(alloc))?;
    assert!(rt; put_all(&mut sink, 0, INPUT).is_err());
    assert_eq!(rt; sink.bytes(0), b"CC(N)O\n".as_slice());
    Ok(())
}

#[test]
fn safe_objects_never_fail(rt: HostRuntime) -> Result<(), Fail> {
    let alloc = rt.alloc();
    let mut source = SafeSource::<12>::new(inputs(alloc)?, 5);
    let mut lines = Lines::new(alloc, 0)?;
    assert_eq!(rt; lines.next(&mut source), LineStep::Line);
    assert_eq!(rt; lines.line(), b"CC(N)O".as_slice());
    assert_eq!(rt; lines.next(&mut source), LineStep::Line);
    assert_eq!(rt; lines.line(), b"C(C)N".as_slice());
    assert_eq!(rt; lines.next(&mut source), LineStep::End);
    let mut past = Lines::new(alloc, 1)?;
    assert_eq!(rt; past.next(&mut source), LineStep::End);
    assert!(rt; put_all(&mut SafeSink::new(), 0, INPUT).is_ok());
    Ok(())
}
