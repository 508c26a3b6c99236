//! One record of an SD file each: what is read, or the refusal, and what is answered.
ghost use Rattle.std.specs.List.{list_all};
ghost use Rattle.std.specs.Prelude.{◌≡◌, true, nat_le};
ghost use Rattle.mc_io.specs.Lines.{IsLineText};
ghost use Rattle.ct_sd.specs.Heads.{line};

use crate::tests::joined;
use crate::{Given, SdRead, Target, answer_record, read_sd};
use ct_sd::{Fault, Record, are_within};
use mc_base::{AtomId, Kind, NoMemory, Span, Stop};
use std::alloc::Global;
use std::process::Abort;
use std::test::Fail;

const WATER: &str =
    "water\n\n\n  1  0  0  0  0  0            999 V2000\n    0.0000    0.0000    0.0000 O\nM  END\n";

const FOUR_ATOMS: &str =
    "\n\n\n  4  3  0  0  0  0            999 V2000\n    0.0000    1.0000    0.0000 F\n    0.0000    0.0000    0.0000 C\n    1.0000    0.0000    0.0000 C\n    1.0000   -1.0000    0.0000 F\n";

const TWO_ATOMS: &str =
    "\n\n\n  2  1  0  0  0  0            999 V2000\n    0.0000    0.0000    0.0000 C\n    1.0000    0.0000    0.0000 C\n";

/// Where the lines of a text stand, without their line feeds.
fn ranges_of(alloc: Global, text: &[u8]) -> Result<Vec<Span>, NoMemory> {
    let mut ranges = Vec::new(alloc);
    let mut from = 0u32;
    for (i, byte) in text.iter().enumerate() {
        if *byte == b'\n' {
            let to = u32::try_from(i).unwrap_or(0);
            ranges.push(Span { from, to })?;
            from = to.saturating_add(1);
        }
    }
    Ok(ranges)
}

fn read_text(rt: &(impl Abort + AllocGlobal), text: &[u8]) -> Result<SdRead, Stop> {
    let ranges = ranges_of(rt.alloc(), text)?;
    assert!(rt; are_within(text, &ranges));
    read_sd(rt.alloc(), &Record::new(text, &ranges))
}

/// A record of these parts is read, with so many atoms, so many hydrogens at the first, and so many headers.
fn reads(
    rt: &(impl Abort + AllocGlobal),
    parts: &[&str],
    atoms: u32,
    hydrogens: u8,
    headers: u32,
) -> Result<(), Fail> {
    let text = joined(rt.alloc(), parts)?;
    match read_text(rt, text.as_slice()) {
        Ok(read) => {
            assert_eq!(rt; read.ct.mol.atom_count(), atoms);
            assert!(rt; atoms > 0);
            assert_eq!(rt; read.ct.mol.atom(AtomId(0)).hydrogens, hydrogens);
            assert_eq!(rt; read.headers, headers);
        }
        Err(_) => panic!(rt; "not read"),
    }
    Ok(())
}

/// A record of these parts is refused so.
fn refuses(
    rt: &(impl Abort + AllocGlobal),
    parts: &[&str],
    kind: Kind,
    place: u32,
) -> Result<(), Fail> {
    let text = joined(rt.alloc(), parts)?;
    match read_text(rt, text.as_slice()) {
        Err(Stop::Refused(refusal)) => {
            assert_eq!(rt; refusal.kind, kind);
            assert_eq!(rt; refusal.place, place);
        }
        Ok(_) | Err(Stop::NoMemory) => panic!(rt; "not refused"),
    }
    Ok(())
}

#[test]
fn tables_and_data(rt: HostRuntime) -> Result<(), Fail> {
    reads(&rt, &[WATER], 1, 2, 0)?;
    reads(&rt, &[WATER, "> <a>\n1\n\n>  <b>\n>2\n\n"], 1, 2, 3)?;
    reads(&rt, &[TWO_ATOMS, "  1  2  1  0\nM  END\n"], 2, 3, 0)
}

const V3000_HEAD: &str =
    "  0  0  0     0  0            999 V3000\nM  V30 BEGIN CTAB\nM  V30 COUNTS 2 1 0 0 0\nM  V30 BEGIN ATOM\n";

const V3000_ATOMS: &str =
    "M  V30 7 C 0 0 0 0\nM  V30 9 O 1 0 0 0\nM  V30 END ATOM\nM  V30 BEGIN BOND\n";

const V3000_END: &str = "M  V30 END BOND\nM  V30 END CTAB\nM  END\n";

#[test]
fn both_versions(rt: HostRuntime) -> Result<(), Fail> {
    let head = "both\n\n\n";
    let bond = "M  V30 1 1 7 9\n";
    reads(
        &rt,
        &[head, V3000_HEAD, V3000_ATOMS, bond, V3000_END, "> <a>\n"],
        2,
        3,
        1,
    )?;
    refuses(
        &rt,
        &["$RXN\n\n\n", V3000_HEAD, V3000_ATOMS, bond, V3000_END],
        Kind::ReactionFile,
        1,
    )?;
    refuses(
        &rt,
        &[head, V3000_HEAD, V3000_ATOMS, "M  V30 1 1 7 8\n", V3000_END],
        Kind::AtomNumber,
        12,
    )?;
    refuses(&rt, &[head, V3000_HEAD, V3000_ATOMS], Kind::ShortRecord, 11)?;
    refuses(
        &rt,
        &[
            "\n\n\n",
            "  0  0  0  0  0  0            999 V4000\nM  END\n",
        ],
        Kind::Version,
        4,
    )
}

#[test]
fn what_is_not_read_today(rt: HostRuntime) -> Result<(), Fail> {
    refuses(
        &rt,
        &[
            "\n\n\n",
            V3000_HEAD,
            V3000_ATOMS,
            "M  V30 1 1 7 9 CFG=1\n",
            V3000_END,
        ],
        Kind::NotBuilt,
        1,
    )?;
    for mark in ["1", "4", "6"] {
        let bond = ["  1  2  1  ", mark, "\nM  END\n"];
        refuses(
            &rt,
            &[TWO_ATOMS, bond[0], bond[1], bond[2]],
            Kind::NotBuilt,
            1,
        )?;
    }
    let single = "  1  2  1  0\n";
    let last = "  3  4  1  0\nM  END\n";
    refuses(
        &rt,
        &[FOUR_ATOMS, single, "  2  3  2  0\n", last],
        Kind::NotBuilt,
        1,
    )?;
    reads(&rt, &[FOUR_ATOMS, single, "  2  3  2  3\n", last], 4, 0, 0)
}

/// A kind of a line comes before.
#[test]
fn what_comes_before(rt: HostRuntime) -> Result<(), Fail> {
    let query =
        "\n\n\n  2  1  0  0  0  0            999 V2000\n    0.0000    0.0000    0.0000 C\n    1.0000    0.0000    0.0000 A\n";
    refuses(&rt, &[query, "  1  2  1  1\nM  END\n"], Kind::Query, 6)
}

/// Whether all bytes are those of a text without blanks.
fn are_high(text: &[u8]) -> bool
    ensures { result ≡ list_all (λ byte. nat_le 33 byte) text.now }
{
    text.iter().all(|byte| 33 <= *byte)
}

/// Whether a text has no blank and nothing of a line's end.
#[tactic(auto, using(crate::proofs::Answering::alone_text))]
fn is_one_word(text: &[u8]) -> bool
    ensures { result ≡ true → IsLineText text.now }
{
    are_high(text)
}

/// The name of a record.
fn name_of<'a>(given: &Record<'a>) -> &'a [u8]
    ensures { result.now ≡ line 1 given.now }
{
    if given.line_count() == 0 {
        return &[];
    }
    given.line(0)
}

/// A record of these parts is answered so.
fn is_answered(
    rt: &(impl Abort + AllocGlobal),
    parts: &[&str],
    out: &[u8],
    report: &[u8],
) -> Result<(), Fail> {
    let text = joined(rt.alloc(), parts)?;
    let ranges = ranges_of(rt.alloc(), text.as_slice())?;
    assert!(rt; are_within(text.as_slice(), &ranges));
    let record = Record::new(text.as_slice(), &ranges);
    assert!(rt; is_one_word(name_of(&record)));
    let answer = answer_record(rt.alloc(), 1, &Given::Sd(record), Target::Smi)?;
    assert_eq!(rt; answer.out.as_slice(), out);
    assert_eq!(rt; answer.report.as_slice(), report);
    Ok(())
}

#[test]
fn written_with_name_and_headers(rt: HostRuntime) -> Result<(), Fail> {
    is_answered(
        &rt,
        &[WATER],
        b"O water\n",
        b"1 ok map=1 idle=0 ring=0 data=0\n",
    )?;
    is_answered(
        &rt,
        &[WATER, "> <a>\n1\n\n>  <b>\n"],
        b"O water\n",
        b"1 ok map=1 idle=0 ring=0 data=2\n",
    )?;
    is_answered(
        &rt,
        &[
            "\n\n\n",
            V3000_HEAD,
            V3000_ATOMS,
            "M  V30 1 1 7 9\n",
            V3000_END,
        ],
        b"CO\n",
        b"1 ok map=1,2 idle=0 ring=0 data=0\n",
    )
}

/// A later `M  CHG` line sets aside all charges of the atom lines.
#[test]
fn charges_replaced(rt: HostRuntime) -> Result<(), Fail> {
    is_answered(
        &rt,
        &[
            "\n\n\n  2  1  0  0  0  0            999 V2000\n",
            "    0.0000    0.0000    0.0000 N   0  3\n    1.0000    0.0000    0.0000 O   0  5\n",
            "  1  2  1  0\nM  CHG  1   2  -1\nM  END\n",
        ],
        b"N[O-]\n",
        b"1 ok map=1,2 idle=0 ring=0 data=0\n",
    )
}

#[test]
fn refused_with_kind_and_line(rt: HostRuntime) -> Result<(), Fail> {
    is_answered(&rt, &["x\n\n"], b"", b"1 refused ShortRecord place=2\n")?;
    is_answered(&rt, &[], b"", b"1 refused ShortRecord place=0\n")?;
    let fault = Fault {
        kind: Kind::RecordTooLong,
        place: 7,
    };
    let answer = answer_record(rt.alloc(), 2, &Given::SdTooLong(fault), Target::Smi)?;
    assert_eq!(&rt; answer.out.len(), 0);
    assert_eq!(&rt;
        answer.report.as_slice(),
        b"2 refused RecordTooLong place=7\n".as_slice()
    );
    Ok(())
}
