use crate::{
    DrawMark, Field, FirstFault, Grammar, Record, Symbol, TableBond, TableBonds, Version,
    are_within, begins_with, is_end_line, trimmed,
};
use mc_base::{Kind, Span};
use mc_elements::Element;
use std::process::Abort;
use std::test::Fail;

#[test]
fn records_are_ranges(rt: HostRuntime) {
    let bytes = b"name\r\n\n\n  0\nM  END  \n>  <ID>\n7\n";
    let ranges = [
        Span { from: 0, to: 4 },
        Span { from: 6, to: 6 },
        Span { from: 7, to: 7 },
        Span { from: 8, to: 11 },
        Span { from: 12, to: 20 },
        Span { from: 21, to: 28 },
        Span { from: 29, to: 30 },
    ];
    assert!(rt; are_within(bytes, &ranges));
    let record = Record::new(bytes, &ranges);
    assert_eq!(rt; record.line_count(), 7);
    assert_eq!(rt; record.line(0), b"name".as_slice());
    assert_eq!(rt; record.line(3), b"  0".as_slice());
    assert_eq!(rt; Version::of(&record), Version::V2000);
    let tail = record.tail();
    assert_eq!(rt; tail.count(), 2);
    assert_eq!(rt; tail.line(1), b"7".as_slice());
    let one = Record::one(b"CCO ethanol");
    assert_eq!(rt; one.line_count(), 1);
    assert_eq!(rt; one.line(0), b"CCO ethanol".as_slice());
    assert_eq!(rt; one.tail().count(), 0);
}

#[test]
fn fields_of_a_line(rt: HostRuntime) {
    const CODE: Field = Field {
        from: 37,
        to: 39,
        grammar: Grammar::Count,
        least: 0,
        most: 7,
        shows: None,
    };
    let line = b"    0.0000    0.0000    0.0000 N   0  3";
    assert_eq!(rt; CODE.read(line), Some(3));
    assert_eq!(rt; CODE.read(b"short"), Some(0));
    assert_eq!(rt; CODE.read(b"                                      8"), None);
    let mut faults = FirstFault::none();
    assert_eq!(rt;
        CODE.take(b"                                      8", 5, &mut faults),
        0
    );
    faults.note(Kind::Query, 4);
    faults.note(Kind::BadField, 7);
    assert_eq!(rt; faults.fault.map(|fault| fault.place), Some(5));
    assert_eq!(rt; faults.fault.map(|fault| fault.kind), Some(Kind::BadField));
}

#[test]
fn texts_of_a_line(rt: HostRuntime) {
    assert_eq!(rt; trimmed(b"0123456  C\t", 8, 12), b"C".as_slice());
    assert!(rt; begins_with(b"A", b"A  "));
    assert!(rt; !begins_with(b"A\t", b"A  "));
    assert!(rt; is_end_line(b"M  END \t"));
    assert!(rt; !is_end_line(b"M  ENDX"));
    assert_eq!(rt; Symbol::of(b"Na"), Symbol::Known(Element::Na, 0));
    assert_eq!(rt; Symbol::of(b"T"), Symbol::Known(Element::H, 3));
    assert_eq!(rt; Symbol::of(b"R12"), Symbol::Query);
    assert_eq!(rt; Symbol::of(b"Xx"), Symbol::Unknown);
}

#[test]
fn tables_hold_what_is_added(rt: HostRuntime) -> Result<(), Fail> {
    let mut bonds = TableBonds::new(rt.alloc());
    let bond = TableBond {
        first: 0,
        second: 1,
        order: 1,
        mark: DrawMark::Wavy,
        line: 7,
    };
    bonds.push(bond).ok().ok_or("memory")?;
    assert_eq!(rt; bonds.len(), 1);
    assert!(rt; bonds.as_slice() == [bond].as_slice());
    Ok(())
}
