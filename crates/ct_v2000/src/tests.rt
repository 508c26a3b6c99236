mod damaged;
mod plain;

use crate::read;
use ct_sd::{DrawMark, Record, Table, Version, are_within};
use mc_base::{Kind, NoMemory, Span, Stop};
use mc_elements::Element;
use std::alloc::Global;
use std::process::Abort;
use std::test::Fail;

const HEADER: &str = "water\n\n\n";

const ONE_ATOM: &str = "  1  0  0  0  0  0            999 V2000\n";

const TWO_ATOMS: &str = "  2  1  0  0  0  0            999 V2000\n";

const OXYGEN: &str = "    0.0000    0.0000    0.0000 O\n";

const END: &str = "M  END\n";

/// Where the lines of a text stand, without their line feeds.
fn ranges_of(alloc: Global, text: &[u8]) -> Result<Vec<Span>, NoMemory> {
    let mut ranges = Vec::new(alloc);
    let mut from = 0u32;
    for (i, byte) in text.iter().enumerate() {
        if *byte == b'\n' {
            let to = u32::try_from(i).unwrap_or(0);
            ranges.push(Span { from, to })?;
            from = to.saturating_add(1);
        }
    }
    if (from as usize) < text.len() {
        let to = u32::try_from(text.len()).unwrap_or(0);
        ranges.push(Span { from, to })?;
    }
    Ok(ranges)
}

/// What a text is read as; it is no V3000 record.
fn read_text(rt: &(impl Abort + AllocGlobal), text: &[u8]) -> Result<Table, Stop> {
    let ranges = ranges_of(rt.alloc(), text)?;
    assert!(rt; are_within(text, &ranges));
    let record = Record::new(text, &ranges);
    match Version::of(&record) {
        Version::V3000 => panic!(rt; "a V3000 record"),
        _ => read(rt.alloc(), &record),
    }
}

/// A text of these parts.
fn joined(alloc: Global, parts: &[&str]) -> Result<String, Fail> {
    let mut text = String::from_str(alloc, "")?;
    for part in parts {
        text.push_str(part)?;
    }
    Ok(text)
}

/// A record of these parts is refused so.
fn refuses(
    rt: &(impl Abort + AllocGlobal),
    parts: &[&str],
    kind: Kind,
    place: u32,
) -> Result<(), Fail> {
    let text = joined(rt.alloc(), parts)?;
    match read_text(rt, text.as_bytes()) {
        Err(Stop::Refused(refusal)) => {
            assert_eq!(rt; refusal.kind, kind, "{text}");
            assert_eq!(rt; refusal.place, place, "{text}");
            assert!(rt; refusal.barrier.len() == 0, "{text}");
        }
        Ok(_) | Err(Stop::NoMemory) => panic!(rt; "{text} isn't refused"),
    }
    Ok(())
}

/// The table of a record of these parts.
fn table_of(rt: &(impl Abort + AllocGlobal), parts: &[&str]) -> Result<Table, Fail> {
    let text = joined(rt.alloc(), parts)?;
    match read_text(rt, text.as_bytes()) {
        Ok(table) => Ok(table),
        Err(Stop::Refused(refusal)) => panic!(rt; "{text}: line {}", refusal.place),
        Err(Stop::NoMemory) => panic!(rt; "no memory"),
    }
}

#[test]
fn ends_early(rt: HostRuntime) -> Result<(), Fail> {
    refuses(&rt, &[], Kind::ShortRecord, 0)?;
    refuses(&rt, &[HEADER], Kind::ShortRecord, 3)?;
    refuses(&rt, &[HEADER, ONE_ATOM, OXYGEN], Kind::ShortRecord, 5)?;
    refuses(&rt, &[HEADER, TWO_ATOMS, OXYGEN, END], Kind::ShortRecord, 6)?;
    refuses(
        &rt,
        &[HEADER, ONE_ATOM, OXYGEN, "A\n", END],
        Kind::ShortRecord,
        7,
    )?;
    refuses(&rt, &["$RXN\n\n\n", ONE_ATOM, OXYGEN], Kind::ShortRecord, 5)
}

#[test]
fn headers_and_counts(rt: HostRuntime) -> Result<(), Fail> {
    refuses(
        &rt,
        &["$RXN\n\n\n", ONE_ATOM, OXYGEN, END],
        Kind::ReactionFile,
        1,
    )?;
    let other = "  1  0  0  0  0  0            999 V4000\n";
    refuses(&rt, &[HEADER, other, OXYGEN, END], Kind::Version, 4)?;
    let bad = "  x  0  0  0  0  0            999 V2000\n";
    refuses(&rt, &[HEADER, bad, OXYGEN, END], Kind::BadField, 4)?;
    let lists = "  1  0  1  0  0  0            999 V2000\n";
    refuses(&rt, &[HEADER, lists, OXYGEN, "\n", END], Kind::Query, 4)
}

#[test]
fn atom_lines(rt: HostRuntime) -> Result<(), Fail> {
    let query = "    0.0000    0.0000    0.0000 A\n";
    refuses(&rt, &[HEADER, ONE_ATOM, query, END], Kind::Query, 5)?;
    refuses(
        &rt,
        &[HEADER, ONE_ATOM, query, "x\n", END],
        Kind::BadField,
        6,
    )?;
    let unknown = "    0.0000    0.0000    0.0000 Xx\n";
    refuses(&rt, &[HEADER, ONE_ATOM, unknown, END], Kind::BadField, 5)?;
    let raised = "    0.0000    0.0000    1.0000 O\n";
    refuses(&rt, &[HEADER, ONE_ATOM, raised, END], Kind::ThreeD, 5)?;
    let radical = "    0.0000    0.0000    0.0000 C   0  4\n";
    refuses(&rt, &[HEADER, ONE_ATOM, radical, END], Kind::Radical, 5)?;
    let heavy = "    0.0000    0.0000    0.0000 D   1\n";
    refuses(
        &rt,
        &[HEADER, ONE_ATOM, heavy, END],
        Kind::MassDifference,
        5,
    )
}

#[test]
fn property_lines(rt: HostRuntime) -> Result<(), Fail> {
    refuses(
        &rt,
        &[HEADER, ONE_ATOM, OXYGEN, "A    1\nx\n", END],
        Kind::Alias,
        6,
    )?;
    refuses(
        &rt,
        &[HEADER, ONE_ATOM, OXYGEN, "M  STY  1   1 GEN\n", END],
        Kind::Sgroup,
        6,
    )?;
    refuses(
        &rt,
        &[HEADER, ONE_ATOM, OXYGEN, "M  RAD  1   1   2\n", END],
        Kind::Radical,
        6,
    )?;
    refuses(
        &rt,
        &[HEADER, ONE_ATOM, OXYGEN, "M  CHG  1   2   1\n", END],
        Kind::AtomNumber,
        6,
    )?;
    refuses(
        &rt,
        &[HEADER, ONE_ATOM, OXYGEN, "M  CHG  9   1   1\n", END],
        Kind::BadField,
        6,
    )
}

#[test]
fn bond_lines(rt: HostRuntime) -> Result<(), Fail> {
    let one = "  1  1  0  0  0  0            999 V2000\n";
    refuses(
        &rt,
        &[HEADER, one, OXYGEN, "  1  2  1  0\n", END],
        Kind::AtomNumber,
        6,
    )?;
    refuses(
        &rt,
        &[HEADER, one, OXYGEN, "  1  1  1  0\n", END],
        Kind::BondPair,
        6,
    )?;
    refuses(
        &rt,
        &[HEADER, one, OXYGEN, "  1  2  8  0\n", END],
        Kind::Query,
        6,
    )?;
    refuses(
        &rt,
        &[HEADER, one, OXYGEN, "  1  2  9  0\n", END],
        Kind::BondType,
        6,
    )
}

#[test]
fn water(rt: HostRuntime) -> Result<(), Fail> {
    let table = table_of(&rt, &[HEADER, ONE_ATOM, OXYGEN, END])?;
    assert_eq!(rt; table.name.as_slice(), b"water".as_slice());
    assert_eq!(rt; table.bonds.len(), 0);
    assert_eq!(rt; table.atoms.len(), 1);
    assert_eq!(rt; table.atoms.as_slice()[0].element, Element::O);
    assert_eq!(rt; table.atoms.as_slice()[0].valence, None);
    Ok(())
}

#[test]
fn charges_are_replaced(rt: HostRuntime) -> Result<(), Fail> {
    let atoms =
        "    0.0000    0.0000    0.0000 N   0  3\n    1.0000    0.0000    0.0000 O   0  5\n";
    let table = table_of(
        &rt,
        &[
            HEADER,
            TWO_ATOMS,
            atoms,
            "  1  2  1  1\n",
            "M  CHG  1   2  -1\n",
            END,
        ],
    )?;
    assert_eq!(rt; table.atoms.len(), 2);
    assert_eq!(rt; table.atoms.as_slice()[0].charge, 0);
    assert_eq!(rt; table.atoms.as_slice()[1].charge, -1);
    assert_eq!(rt; table.bonds.len(), 1);
    assert_eq!(rt; table.bonds.as_slice()[0].mark, DrawMark::Up);
    Ok(())
}
