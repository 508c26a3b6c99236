mod damaged;
mod plain;

use crate::read;
use ct_sd::{DrawMark, Record, Table, Version, are_within};
use mc_base::{Kind, NoMemory, Span, Stop};
use mc_elements::Element;
use std::alloc::Global;
use std::process::Abort;
use std::test::Fail;

const HEADER: &str = "odd\n\n\n  0  0  0     0  0            999 V3000\n";

const TABLE: &str = "M  V30 BEGIN CTAB\nM  V30 COUNTS 3 1 0 0 0\nM  V30 BEGIN ATOM\n";

const FIRST: &str = "M  V30 7 C 0 0 0 0\n";

const SECOND: &str = "M  V30 3 O 1.250000 -\nM  V30 0.000000 0 0\n";

const THIRD: &str = "M  V30 100 C 5.5 -1.123456 0 0 VAL=-1\n";

const ATOMS_END: &str = "M  V30 END ATOM\n";

const BONDS: &str = "M  V30 BEGIN BOND\nM  V30 1 1 7 3\nM  V30 END BOND\n";

const COLLECTION: &str =
    "M  V30 BEGIN COLLECTION\nM  V30 MDLV30/STEABS ATOMS=(1 7)\nM  V30 END COLLECTION\n";

const END: &str = "M  V30 END CTAB\nM  END\n";

/// Where the lines of a text stand, without their line feeds.
fn ranges_of(alloc: Global, text: &[u8]) -> Result<Vec<Span>, NoMemory> {
    let mut ranges = Vec::new(alloc);
    let mut from = 0u32;
    for (i, byte) in text.iter().enumerate() {
        if *byte == b'\n' {
            let to = u32::try_from(i).unwrap_or(0);
            ranges.push(Span { from, to })?;
            from = to.saturating_add(1);
        }
    }
    if (from as usize) < text.len() {
        let to = u32::try_from(text.len()).unwrap_or(0);
        ranges.push(Span { from, to })?;
    }
    Ok(ranges)
}

/// What a text is read as; it is a V3000 record.
fn read_text(rt: &(impl Abort + AllocGlobal), text: &[u8]) -> Result<Table, Stop> {
    let ranges = ranges_of(rt.alloc(), text)?;
    assert!(rt; are_within(text, &ranges));
    let record = Record::new(text, &ranges);
    match Version::of(&record) {
        Version::V3000 => read(rt.alloc(), &record),
        _ => panic!(rt; "no V3000 record"),
    }
}

/// A text of these parts.
fn joined(alloc: Global, parts: &[&str]) -> Result<String, Fail> {
    let mut text = String::from_str(alloc, "")?;
    for part in parts {
        text.push_str(part)?;
    }
    Ok(text)
}

/// A record of these parts is refused so.
fn refuses(
    rt: &(impl Abort + AllocGlobal),
    parts: &[&str],
    kind: Kind,
    place: u32,
) -> Result<(), Fail> {
    let text = joined(rt.alloc(), parts)?;
    match read_text(rt, text.as_bytes()) {
        Err(Stop::Refused(refusal)) => {
            assert_eq!(rt; refusal.kind, kind, "{text}");
            assert_eq!(rt; refusal.place, place, "{text}");
            assert!(rt; refusal.barrier.len() == 0, "{text}");
        }
        Ok(_) | Err(Stop::NoMemory) => panic!(rt; "{text} isn't refused"),
    }
    Ok(())
}

/// The table of a record of these parts.
fn table_of(rt: &(impl Abort + AllocGlobal), parts: &[&str]) -> Result<Table, Fail> {
    let text = joined(rt.alloc(), parts)?;
    match read_text(rt, text.as_bytes()) {
        Ok(table) => Ok(table),
        Err(Stop::Refused(refusal)) => panic!(rt; "{text}: line {}", refusal.place),
        Err(Stop::NoMemory) => panic!(rt; "no memory"),
    }
}

#[test]
fn odd(rt: HostRuntime) -> Result<(), Fail> {
    let table = table_of(
        &rt,
        &[
            HEADER, TABLE, FIRST, SECOND, THIRD, ATOMS_END, BONDS, COLLECTION, END,
        ],
    )?;
    assert_eq!(rt; table.name.as_slice(), b"odd".as_slice());
    assert_eq!(rt; table.atoms.len(), 3);
    let atoms = table.atoms.as_slice();
    assert_eq!(rt; atoms[1].element, Element::O);
    assert_eq!(rt; atoms[1].x, 12_500);
    assert_eq!(rt; atoms[1].line, 9);
    assert_eq!(rt; atoms[2].valence, Some(0));
    assert_eq!(rt; atoms[2].y, -11_234);
    assert_eq!(rt; atoms[2].line, 11);
    assert_eq!(rt; table.bonds.len(), 1);
    let bond = table.bonds.as_slice()[0];
    assert_eq!(rt; bond.first, 0);
    assert_eq!(rt; bond.second, 1);
    assert_eq!(rt; bond.order, 1);
    assert_eq!(rt; bond.mark, DrawMark::Plain);
    assert_eq!(rt; bond.line, 14);
    Ok(())
}

/// The record whose third atom line and bond block are these is refused so.
fn third(
    rt: &(impl Abort + AllocGlobal),
    line: &str,
    bonds: &str,
    kind: Kind,
    place: u32,
) -> Result<(), Fail> {
    refuses(
        rt,
        &[HEADER, TABLE, FIRST, SECOND, line, ATOMS_END, bonds, END],
        kind,
        place,
    )
}

/// An atom line with these words in place of index, type, z and keys is refused so.
fn atom_line(rt: &(impl Abort + AllocGlobal), line: &str, kind: Kind) -> Result<(), Fail> {
    third(rt, line, BONDS, kind, 11)
}

#[test]
fn indices(rt: HostRuntime) -> Result<(), Fail> {
    atom_line(&rt, "M  V30 7 C 0 0 0 0\n", Kind::AtomNumber)?;
    atom_line(&rt, "M  V30 0 C 0 0 0 0\n", Kind::BadField)?;
    atom_line(&rt, "M  V30 4294967296 C 0 0 0 0\n", Kind::BadField)?;
    atom_line(&rt, "M  V30 -1 C 0 0 0 0\n", Kind::BadField)?;
    atom_line(&rt, "M  V30 +1 C 0 0 0 0\n", Kind::BadField)?;
    let last = "M  V30 4294967295 C 0 0 0 0\n";
    let to_last = "M  V30 BEGIN BOND\nM  V30 1 1 4294967295 3\nM  V30 END BOND\n";
    let table = table_of(
        &rt,
        &[HEADER, TABLE, FIRST, SECOND, last, ATOMS_END, to_last, END],
    )?;
    assert_eq!(rt; table.bonds.len(), 1);
    assert_eq!(rt; table.bonds.as_slice()[0].first, 2);
    let beyond = "M  V30 BEGIN BOND\nM  V30 1 1 4294967296 3\nM  V30 END BOND\n";
    third(&rt, last, beyond, Kind::AtomNumber, 14)?;
    let position = "M  V30 BEGIN BOND\nM  V30 1 1 7 2\nM  V30 END BOND\n";
    third(&rt, THIRD, position, Kind::AtomNumber, 14)
}

#[test]
fn atom_lines(rt: HostRuntime) -> Result<(), Fail> {
    atom_line(&rt, "M  V30 9 Xx 0 0 0 0\n", Kind::BadField)?;
    atom_line(&rt, "M  V30 9 [N,O] 0 0 0 0\n", Kind::Query)?;
    atom_line(&rt, "M  V30 9 NOT[N,O] 0 0 0 0\n", Kind::Query)?;
    atom_line(&rt, "M  V30 9 NOT [N,O] 0 0 0 0\n", Kind::BadField)?;
    atom_line(&rt, "M  V30 9 R# 0 0 0 0\n", Kind::Query)?;
    atom_line(&rt, "M  V30 9 C 0 0 1 0\n", Kind::ThreeD)?;
    atom_line(&rt, "M  V30 9 C 0 0 0\n", Kind::BadField)?;
    atom_line(&rt, "M  V30 9 C 0 x 0 0\n", Kind::BadField)?;
    atom_line(&rt, "M  V30 9 C 0 0 0 -1\n", Kind::BadField)?;
    atom_line(&rt, "M  V30\n", Kind::BadField)?;
    atom_line(&rt, "M  V31 9 C 0 0 0 0\n", Kind::BadField)?;
    atom_line(&rt, "M  V30\t9 C 0 0 0 0\n", Kind::BadField)
}

#[test]
fn atom_keys(rt: HostRuntime) -> Result<(), Fail> {
    atom_line(&rt, "M  V30 9 C 0 0 0 0 VAL=2 VAL=2\n", Kind::BadField)?;
    atom_line(&rt, "M  V30 9 C 0 0 0 0 NAME=2\n", Kind::BadField)?;
    atom_line(&rt, "M  V30 9 C 0 0 0 0 VAL\n", Kind::BadField)?;
    atom_line(&rt, "M  V30 9 C 0 0 0 0 VAL=\n", Kind::BadField)?;
    atom_line(&rt, "M  V30 9 C 0 0 0 0 VAL=15\n", Kind::BadField)?;
    atom_line(&rt, "M  V30 9 C 0 0 0 0 VAL=+1\n", Kind::BadField)?;
    atom_line(&rt, "M  V30 9 C 0 0 0 0 VAL=-2\n", Kind::BadField)?;
    atom_line(&rt, "M  V30 9 C 0 0 0 0 RAD=2\n", Kind::Radical)?;
    atom_line(&rt, "M  V30 9 C 0 0 0 0 RAD=-1\n", Kind::BadField)?;
    atom_line(&rt, "M  V30 9 C 0 0 0 0 HCOUNT=-1\n", Kind::Query)?;
    atom_line(&rt, "M  V30 9 C 0 0 0 0 ATTCHPT=0\n", Kind::Query)?;
    atom_line(&rt, "M  V30 9 C 0 0 0 0 INVRET=1\n", Kind::Reaction)?;
    atom_line(&rt, "M  V30 9 C 0 0 0 0 CLASS=(a\n", Kind::BadField)?;
    atom_line(&rt, "M  V30 9 C 0 0 0 0 CLASS=\"a\n", Kind::BadField)
}

#[test]
fn accepted_keys(rt: HostRuntime) -> Result<(), Fail> {
    let line = "M  V30 9\t D 0 0 0 7 CHG=-2 MASS=0 RAD=0 HCOUNT=0 CFG= CLASS=(a \" b)\"c d\"\n";
    let table = table_of(
        &rt,
        &[HEADER, TABLE, FIRST, SECOND, line, ATOMS_END, BONDS, END],
    )?;
    assert_eq!(rt; table.atoms.len(), 3);
    let atom = table.atoms.as_slice()[2];
    assert_eq!(rt; atom.element, Element::H);
    assert_eq!(rt; atom.isotope, 0);
    assert_eq!(rt; atom.charge, -2);
    assert_eq!(rt; atom.class, 7);
    Ok(())
}

/// A bond line of atoms 7 and 3 is refused so.
fn bond_line(rt: &(impl Abort + AllocGlobal), line: &str, kind: Kind) -> Result<(), Fail> {
    let bonds = joined(
        rt.alloc(),
        &["M  V30 BEGIN BOND\n", line, "M  V30 END BOND\n"],
    )?;
    third(rt, THIRD, &bonds, kind, 14)
}

#[test]
fn bond_lines(rt: HostRuntime) -> Result<(), Fail> {
    bond_line(&rt, "M  V30 1 0 7 3\n", Kind::BadField)?;
    bond_line(&rt, "M  V30 1 11 7 3\n", Kind::BadField)?;
    bond_line(&rt, "M  V30 1 8 7 3\n", Kind::Query)?;
    bond_line(&rt, "M  V30 1 10 7 3\n", Kind::BondType)?;
    bond_line(&rt, "M  V30 1 1 7 7\n", Kind::BondPair)?;
    bond_line(&rt, "M  V30 1 1 7 8\n", Kind::AtomNumber)?;
    bond_line(&rt, "M  V30 1 1 7\n", Kind::BadField)?;
    bond_line(&rt, "M  V30 x 1 7 3\n", Kind::BadField)?;
    bond_line(&rt, "M  V30 1 1 7 3 CFG=4\n", Kind::BadField)?;
    bond_line(&rt, "M  V30 1 1 7 3 CFG=+1\n", Kind::BadField)?;
    bond_line(&rt, "M  V30 1 1 7 3 CFG=1 CFG=1\n", Kind::BadField)?;
    bond_line(&rt, "M  V30 1 1 7 3 TOPO=1\n", Kind::Query)?;
    bond_line(&rt, "M  V30 1 1 7 3 TOPO=-1\n", Kind::BadField)?;
    bond_line(&rt, "M  V30 1 1 7 3 RXCTR=-1\n", Kind::Reaction)?;
    bond_line(&rt, "M  V30 1 1 7 3 ENDPTS=(2 7 3)\n", Kind::Query)?;
    bond_line(&rt, "M  V30 1 1 7 3 VAL=1\n", Kind::BadField)?;
    bond_line(&rt, "M  V30 1 1 7 3 -\n", Kind::BadField)
}

/// How a bond of this type and with this configuration is drawn.
fn mark_of(rt: &(impl Abort + AllocGlobal), words: &str) -> Result<DrawMark, Fail> {
    let bonds = joined(
        rt.alloc(),
        &["M  V30 BEGIN BOND\nM  V30 1 ", words, "\nM  V30 END BOND\n"],
    )?;
    let table = table_of(
        rt,
        &[HEADER, TABLE, FIRST, SECOND, THIRD, ATOMS_END, &bonds, END],
    )?;
    match table.bonds.as_slice() {
        [bond] => Ok(bond.mark),
        _ => panic!(rt; "not one bond"),
    }
}

#[test]
fn marks(rt: HostRuntime) -> Result<(), Fail> {
    assert_eq!(rt; mark_of(&rt, "1 7 3 CFG=1")?, DrawMark::Up);
    assert_eq!(rt; mark_of(&rt, "1 7 3 CFG=2")?, DrawMark::Wavy);
    assert_eq!(rt; mark_of(&rt, "1 7 3 CFG=3 STBOX=1")?, DrawMark::Down);
    assert_eq!(rt; mark_of(&rt, "1 7 3 CFG=0")?, DrawMark::Plain);
    assert_eq!(rt; mark_of(&rt, "2 7 3 CFG=2")?, DrawMark::Either);
    assert_eq!(rt; mark_of(&rt, "2 7 3 CFG=1")?, DrawMark::Plain);
    assert_eq!(rt; mark_of(&rt, "3 7 3 CFG=2")?, DrawMark::Plain);
    Ok(())
}

/// The record with these lines behind its atoms is refused so.
fn behind_atoms(
    rt: &(impl Abort + AllocGlobal),
    lines: &[&str],
    kind: Kind,
    place: u32,
) -> Result<(), Fail> {
    let lines = joined(rt.alloc(), lines)?;
    refuses(
        rt,
        &[HEADER, TABLE, FIRST, SECOND, THIRD, ATOMS_END, &lines],
        kind,
        place,
    )
}

#[test]
fn blocks(rt: HostRuntime) -> Result<(), Fail> {
    behind_atoms(&rt, &[END], Kind::BadField, 13)?;
    behind_atoms(&rt, &[BONDS, BONDS, END], Kind::BadField, 16)?;
    behind_atoms(
        &rt,
        &[BONDS, COLLECTION, COLLECTION, END],
        Kind::BadField,
        19,
    )?;
    behind_atoms(&rt, &[BONDS, "M  END\n"], Kind::BadField, 16)?;
    behind_atoms(
        &rt,
        &[BONDS, "M  V30 END CTAB 1\nM  END\n"],
        Kind::BadField,
        16,
    )?;
    behind_atoms(&rt, &[BONDS, "M  V30 LINKNODE 1 2\n", END], Kind::Query, 16)?;
    behind_atoms(
        &rt,
        &["M  V30 BEGIN OBJ3D\nM  V30 x (\n", BONDS, END],
        Kind::BadField,
        14,
    )?;
    behind_atoms(
        &rt,
        &[
            "M  V30 BEGIN OBJ3D\nM  V30 x\nM  V30 END OBJ3D\n",
            BONDS,
            END,
        ],
        Kind::Query,
        13,
    )?;
    behind_atoms(
        &rt,
        &[
            BONDS,
            "M  V30 END CTAB\nM  V30 BEGIN RGROUP 1\nM  V30 (\nM  END\n",
        ],
        Kind::Query,
        17,
    )?;
    behind_atoms(
        &rt,
        &[BONDS, "M  V30 END CTAB\nM  V30 x\nM  END\n"],
        Kind::BadField,
        17,
    )
}

#[test]
fn counts(rt: HostRuntime) -> Result<(), Fail> {
    let start = "M  V30 BEGIN CTAB\n";
    let begin = "M  V30 BEGIN ATOM\n";
    let four = "M  V30 COUNTS 4 1 0 0 0\n";
    let two = "M  V30 COUNTS 2 1 0 0 0\n";
    let short = "M  V30 COUNTS 3 1 0 0\n";
    refuses(
        &rt,
        &[
            HEADER, start, four, begin, FIRST, SECOND, THIRD, ATOMS_END, BONDS, END,
        ],
        Kind::BadField,
        12,
    )?;
    refuses(
        &rt,
        &[
            HEADER, start, two, begin, FIRST, SECOND, THIRD, ATOMS_END, BONDS, END,
        ],
        Kind::BadField,
        11,
    )?;
    refuses(
        &rt,
        &[
            HEADER, start, short, begin, FIRST, SECOND, THIRD, ATOMS_END, BONDS, END,
        ],
        Kind::BadField,
        6,
    )?;
    refuses(&rt, &[HEADER, four, start, END], Kind::BadField, 5)?;
    refuses(&rt, &[HEADER, "M  END\n"], Kind::BadField, 5)?;
    refuses(&rt, &[HEADER, start, "\n", END], Kind::BadField, 6)
}

#[test]
fn other_lines(rt: HostRuntime) -> Result<(), Fail> {
    let begin = "M  V30 BEGIN SGROUP\nM  V30 DEFAULT CLASS=x\n";
    let end = "M  V30 END SGROUP\n";
    behind_atoms(
        &rt,
        &[BONDS, begin, "M  V30 1 GEN 0\n", end, END],
        Kind::Sgroup,
        18,
    )?;
    behind_atoms(
        &rt,
        &[BONDS, begin, "M  V30 1\n", end, END],
        Kind::BadField,
        18,
    )?;
    behind_atoms(
        &rt,
        &[BONDS, begin, "M  V30\n", end, END],
        Kind::BadField,
        18,
    )?;
    let racemic = "M  V30 BEGIN COLLECTION\nM  V30\nM  V30 MDLV30/STERAC1 ATOMS=(1 7)\n";
    behind_atoms(
        &rt,
        &[BONDS, racemic, "M  V30 END COLLECTION\n", END],
        Kind::EnhancedStereo,
        18,
    )?;
    let table = table_of(
        &rt,
        &[
            HEADER,
            TABLE,
            FIRST,
            SECOND,
            THIRD,
            ATOMS_END,
            begin,
            "M  V30 1 SUP 0\n",
            end,
            BONDS,
            END,
        ],
    )?;
    assert_eq!(rt; table.bonds.len(), 1);
    Ok(())
}

#[test]
fn continued_lines(rt: HostRuntime) -> Result<(), Fail> {
    behind_atoms(
        &rt,
        &[BONDS, "M  V30 END CTAB -\nM  END\n"],
        Kind::BadField,
        17,
    )?;
    behind_atoms(
        &rt,
        &[BONDS, "M  V30 END -\nCTAB\nM  END\n"],
        Kind::BadField,
        17,
    )?;
    behind_atoms(
        &rt,
        &[BONDS, "M  V30 LINKNO-\nM  V30 DE 1\n", END],
        Kind::Query,
        16,
    )?;
    let blank = "M  V30 END CTAB - \nM  END\n";
    behind_atoms(&rt, &[BONDS, blank], Kind::BadField, 16)?;
    let twice = "M  V30 BEGIN COLLECTION\nM  V30 x--\nM  V30 \nM  V30 END COLLECTION\n";
    let table = table_of(
        &rt,
        &[
            HEADER, TABLE, FIRST, SECOND, THIRD, ATOMS_END, BONDS, twice, END,
        ],
    )?;
    assert_eq!(rt; table.atoms.len(), 3);
    Ok(())
}

#[test]
fn first_kinds(rt: HostRuntime) -> Result<(), Fail> {
    refuses(
        &rt,
        &[HEADER, TABLE, FIRST, SECOND, THIRD, ATOMS_END, BONDS],
        Kind::ShortRecord,
        15,
    )?;
    refuses(&rt, &[HEADER], Kind::ShortRecord, 4)?;
    let reaction = "$RXN\n\n\n  0  0  0     0  0            999 V3000\n";
    refuses(&rt, &[reaction, "x\n", "M  END\n"], Kind::ReactionFile, 1)?;
    third(
        &rt,
        "M  V30 100 A 0 0 1 0 RAD=1\n",
        "M  V30 BEGIN BOND\nM  V30 1 1 7 x\nM  V30 END BOND\n",
        Kind::BadField,
        14,
    )?;
    third(
        &rt,
        "M  V30 7 C 0 0 1 0\n",
        "M  V30 BEGIN BOND\nM  V30 1 9 7 7\nM  V30 END BOND\n",
        Kind::BondType,
        14,
    )
}
