ghost use Rattle.std.specs.Prelude.{◌≡◌, ◌≤◌, ◌<◌, ◌^◌, ◌↔◌, ℕ, List, length, IfOk, IsNone, Some};
ghost use Rattle.mc_report.specs.declared.report_line.ReportLine.{ReportLine as Line};
ghost use Rattle.mc_report.specs.declared.report_line.ReportLine.TheVariants.{Ok as OkLine, Refused as RefusedLine};
ghost use Rattle.mc_report.specs.Behind.{FindsLine, FindsKind, RefusedBehind, BarrierBehind, BehindNumber, barrier_of, counts_front, kind_view, name_len, ok_of, place_of};
ghost use Rattle.mc_report.specs.Fronts.{list_view, number_view};
ghost use Rattle.mc_report.specs.Grammar.{Spells, AreAtoms, HasReason, IsRecordNumber, increases_from, is_increasing};
ghost use Rattle.mc_report.specs.Report.{ok_text, refused_text};
ghost use Rattle.mc_base.specs.declared.ids.AtomId.{AtomId as Atom};
ghost use Rattle.mc_base.specs.declared.refusal.Refusal.{Refusal as RefusalValue};

use crate::ReportLine;
use crate::front::{MOST_COUNT, labelled, number_front, numbers_front, word_front};
use mc_base::{AtomId, AtomList, Kind, NoMemory, Refusal};
use std::alloc::Global;

/// What a line of the report says, which is handed in without its end; none where it isn't of the
/// grammar.
pub fn read_line(alloc: Global, line: &[u8]) -> Result<Option<ReportLine>, NoMemory>
    ensures exact { IfOk result (λ answer. (read : Line) → (answer ≡ Some read) ↔ Spells read line.now) }
    ensures none { IfOk result (λ answer. IsNone answer ↔ ((read : Line) → Spells read line.now → ⊥)) }
{
    line_of(alloc, line)
}

fn line_of(alloc: Global, line: &[u8]) -> Result<Option<ReportLine>, NoMemory>
    ensures { IfOk result (FindsLine (λ read. Spells read line.now)) }
{
    match number_front(line, u64::MAX) {
        Some((k, rest)) => {
            if k == 0 {
                return Ok(None);
            }
            behind_number(alloc, k, rest)
        }
        None => Ok(None),
    }
}

fn behind_number(alloc: Global, k: u64, text: &[u8]) -> Result<Option<ReportLine>, NoMemory>
    ensures { IfOk result (FindsLine (BehindNumber k text.now)) }
{
    match word_front(text, b" ok map=") {
        Some(rest) => {
            let found = numbers_front(alloc, rest)?;
            Ok(ok_of(k, found))
        }
        None => match word_front(text, b" refused ") {
            Some(rest) => refused_behind(alloc, k, rest),
            None => Ok(None),
        },
    }
}

fn ok_of(k: u64, found: Option<(AtomList, &[u8])>) -> Option<ReportLine>
    ensures { result ≡ ok_of k (list_view found.entry) }
{
    let (map, rest) = found?;
    match counts_front(rest) {
        Some((_, [])) => Some(ReportLine::Ok { k, map }),
        _ => None,
    }
}

/// The three counts: the last, and what is behind it.
fn counts_front(text: &[u8]) -> Option<(u64, &[u8])>
    ensures { number_view result ≡ counts_front text.now }
{
    let (_, text) = labelled(text, b" idle=", MOST_COUNT)?;
    let (_, text) = labelled(text, b" ring=", MOST_COUNT)?;
    labelled(text, b" data=", MOST_COUNT)
}

fn refused_behind(alloc: Global, k: u64, text: &[u8]) -> Result<Option<ReportLine>, NoMemory>
    ensures { IfOk result (FindsLine (λ read. RefusedBehind k read text.now)) }
{
    match kind_front(text) {
        Some((kind, rest)) => match kind {
            Kind::NoPlacement => barrier_behind(alloc, k, rest),
            _ => Ok(place_of(alloc, k, kind, rest)),
        },
        None => Ok(None),
    }
}

fn barrier_behind(alloc: Global, k: u64, text: &[u8]) -> Result<Option<ReportLine>, NoMemory>
    ensures { IfOk result (FindsLine (λ read. BarrierBehind k read text.now)) }
{
    match word_front(text, b" barrier=") {
        Some(rest) => {
            let found = numbers_front(alloc, rest)?;
            Ok(barrier_of(k, found))
        }
        None => Ok(None),
    }
}

/// A kind's name at the front, and what is behind it.
fn kind_front(text: &[u8]) -> Option<(Kind, &[u8])>
    ensures { FindsKind text.now (kind_view result) }
{
    let end = name_len(text);
    let kind = Kind::of_name(&text[..end])?;
    Some((kind, &text[end..]))
}

/// How many bytes stand before the first space.
fn name_len(text: &[u8]) -> usize
    ensures value { result ≡ name_len text.now }
    ensures within { result ≤ length text.now }
{
    for (i, byte) in text.iter().enumerate() {
        if *byte == b' ' {
            return i;
        }
    }
    text.len()
}

fn place_of(alloc: Global, k: u64, kind: Kind, text: &[u8]) -> Option<ReportLine>
    ensures { result ≡ place_of k kind text.now }
{
    let (place, rest) = labelled(text, b" place=", MOST_COUNT)?;
    if !rest.is_empty() {
        return None;
    }
    Some(ReportLine::Refused {
        k,
        refusal: Refusal::at(alloc, kind, place as u32),
    })
}

fn barrier_of(k: u64, found: Option<(AtomList, &[u8])>) -> Option<ReportLine>
    ensures { result ≡ barrier_of k (list_view found.entry) }
{
    let (barrier, rest) = found?;
    let (odd, rest) = labelled(rest, b" odd=", MOST_COUNT)?;
    if !rest.is_empty() {
        return None;
    }
    if !is_increasing(barrier.as_slice()) {
        return None;
    }
    Some(ReportLine::Refused {
        k,
        refusal: Refusal {
            kind: Kind::NoPlacement,
            place: 0,
            barrier,
            odd: odd as u32,
        },
    })
}

/// Whether each atom is below the next.
fn is_increasing(atoms: &[AtomId]) -> bool
    ensures { result ≡ is_increasing atoms.now }
{
    match atoms.split_first() {
        Some((first, others)) => increases_from(*first, others),
        None => true,
    }
}

fn increases_from(first: AtomId, others: &[AtomId]) -> bool
    ensures { result ≡ increases_from first others.now }
{
    let mut last = first;
    for atom in others {
        if atom.0 <= last.0 {
            return false;
        }
        last = *atom;
    }
    true
}

/// What is written is read back: the text of a line, which stands before its end, says what was put, and
/// nothing else.
pub fn read_back_law()
    ensures ok { (k idle ring lines : ℕ) (map : List Atom) → IsRecordNumber k → AreAtoms map →
        idle < 2 ^ 32 → ring < 2 ^ 32 → lines < 2 ^ 32 → Spells (OkLine k map) (ok_text k map idle ring lines) }
    ensures refused { (k : ℕ) (refusal : RefusalValue) → IsRecordNumber k →
        HasReason refusal.kind refusal.place refusal.barrier refusal.odd → Spells (RefusedLine k refusal) (refused_text k refusal) }
    ensures once { (read other : Line) (line : List ℕ) → Spells read line → Spells other line → read ≡ other }
{}

#[cfg(test)]
mod tests;
