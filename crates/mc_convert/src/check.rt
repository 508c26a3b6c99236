ghost use Rattle.std.specs.Prelude.{◌≡◌, ◌<◌, ◌≤◌, ◌&&◌, not, [], ℕ, Err, IfOk, IfErr, OnOk, OnErr, IsTrue};
ghost use Rattle.mc_io.specs.LineReader.{ahead};
ghost use Rattle.mc_convert.specs.Findings.{IsReadAs, MarksFit};
ghost use Rattle.mc_convert.specs.Records.{Record};
ghost use Rattle.mc_convert.specs.CheckSteps.{Advance, MayRead, ReadHalts, FindsNext, fresh_readers};
ghost use Rattle.mc_convert.specs.CheckRuns.{OneChecked, PutSome, CheckHalts, ChecksSome, CheckRan, FoundAll, LessAt, RestChecked, RestStopped, Written};
ghost use Rattle.mc_convert.specs.Checks.{extra_line, extra_text};
ghost use Rattle.mc_convert.specs.Promises.{Checks};
ghost use Rattle.mc_convert.specs.Statuses.{ended_status};
ghost use Rattle.mc_io.specs.Causes.{HasCause};
ghost use Rattle.mc_io.specs.Outside.{AppendsPart};
ghost use Rattle.std.specs.Io.KnownBytes.{Appends};
ghost use Rattle.mc_convert.specs.Runs.{Taken};

use crate::check_readers::CheckReaders;
use crate::finding::{Finding, map_finding, refusal_finding};
use crate::formats::{Formats, Target};
use crate::record_read::RecordRead;
use crate::status::{Halt, Status};
use mc_base::{Failed, Text};
use mc_io::{Sink, Source, put_all};
use mc_report::ReportLine;
use std::alloc::Global;

/// What is found of original k, by its line of the report.
#[tactic(auto, using(crate::proofs::CheckFound::written_found, crate::proofs::CheckFound::refused_found, crate::proofs::CheckFound::nothing_found, crate::proofs::CheckLifts::advance_trans, crate::proofs::CheckLifts::halts_later))]
fn find_next<S: Source>(
    readers: &mut CheckReaders,
    alloc: Global,
    k: u64,
    original: RecordRead,
    to: Target,
    source: &mut S,
) -> Result<Finding, Halt>
    requires may { MayRead S.LIMIT readers.old }
    requires marks { MarksFit original }
    ensures finds { (given : Record) → IsReadAs given original → IfOk result (FindsNext to k given
        (ahead readers.old.converted (S.inputs source.old 1).left) (ahead readers.new.converted (S.inputs source.new 1).left)
        (ahead readers.old.report (S.inputs source.old 2).left) (ahead readers.new.report (S.inputs source.new 2).left)) }
    ensures advance { Advance readers.old readers.new (S.inputs source.old) (S.inputs source.new) }
    ensures may_read { IfOk result (λ _. MayRead S.LIMIT readers.new) }
    ensures halts { IfErr result (λ halt. ReadHalts S.LIMIT halt readers.new (S.inputs source.old) (S.inputs source.new)) }
    ensures kept { readers.new.originals ≡ readers.old.originals }
    ensures left { (S.inputs source.new 0).left ≡ (S.inputs source.old 0).left }
{
    match readers.read_said(alloc, k, source)? {
        Some(ReportLine::Ok { map, .. }) => {
            let converted = readers.read_converted(alloc, to.read_back(), source)?;
            let finding = map_finding(alloc, &original, converted, map.as_slice())?;
            Ok(finding)
        }
        Some(ReportLine::Refused { refusal, .. }) => {
            let finding = refusal_finding(alloc, &original, &refusal)?;
            Ok(finding)
        }
        None => Ok(Finding::Report),
    }
}

/// Checks original k, adds its verdict line, and says whether that is true.
#[tactic(auto, using(crate::proofs::CheckLifts::all_within))]
fn check_next<S: Source>(
    readers: &mut CheckReaders,
    alloc: Global,
    k: u64,
    original: RecordRead,
    to: Target,
    source: &mut S,
    lines: &mut Text,
) -> Result<bool, Halt>
    requires may { MayRead S.LIMIT readers.old }
    requires marks { MarksFit original }
    ensures checked { (given : Record) → IsReadAs given original → IfOk result (OneChecked to k given
        (ahead readers.old.converted (S.inputs source.old 1).left) (ahead readers.new.converted (S.inputs source.new 1).left)
        (ahead readers.old.report (S.inputs source.old 2).left) (ahead readers.new.report (S.inputs source.new 2).left) lines.old lines.new) }
    ensures halts { IfErr result (λ halt. ReadHalts S.LIMIT halt readers.new (S.inputs source.old) (S.inputs source.new)) }
    ensures advance { Advance readers.old readers.new (S.inputs source.old) (S.inputs source.new) }
    ensures may_read { IfOk result (λ _. MayRead S.LIMIT readers.new) }
    ensures kept { readers.new.originals ≡ readers.old.originals }
    ensures left { (S.inputs source.new 0).left ≡ (S.inputs source.old 0).left }
{
    let finding = find_next(readers, alloc, k, original, to, source)?;
    finding.put_line(lines, k)?;
    Ok(finding.is_true())
}

/// From how many bytes on verdict lines are written: a write costs more than a verdict.
const PIECE: usize = 4096;

/// Writes the lines that are still to be written.
fn put_lines<K: Sink>(sink: &mut K, lines: &mut Text) -> Result<(), Failed>
    ensures put { OnOk result (PutSome ((K.outputs sink.old).held 0) ((K.outputs sink.new).held 0) lines.old lines.new) }
    ensures all { OnOk result (lines.new ≡ []) }
    ensures part { OnErr result (AppendsPart ((K.outputs sink.old).held 0) ((K.outputs sink.new).held 0) lines.old) }
    ensures cause { HasCause (K.outputs sink.old).faults (K.outputs sink.new).faults result }
    ensures kept { (K.outputs sink.new).held 1 ≡ (K.outputs sink.old).held 1 }
{
    put_all(sink, 0, lines.as_slice())?;
    lines.truncate(0);
    Ok(())
}

/// The same where they are enough for a piece.
fn put_piece<K: Sink>(sink: &mut K, lines: &mut Text) -> Result<(), Failed>
    ensures put { OnOk result (PutSome ((K.outputs sink.old).held 0) ((K.outputs sink.new).held 0) lines.old lines.new) }
    ensures part { OnErr result (AppendsPart ((K.outputs sink.old).held 0) ((K.outputs sink.new).held 0) lines.old) }
    ensures cause { HasCause (K.outputs sink.old).faults (K.outputs sink.new).faults result }
    ensures kept { (K.outputs sink.new).held 1 ≡ (K.outputs sink.old).held 1 }
{
    if lines.len() < PIECE {
        return Ok(());
    }
    put_lines(sink, lines)
}

/// Checks all originals, writes their verdict lines, and says whether all are true.
#[tactic(auto, using(crate::proofs::Checking::round_stopped, crate::proofs::Checking::read_halts, crate::proofs::CheckLifts::advance_trans, crate::proofs::CheckLifts::halts_later, crate::proofs::CheckLifts::all_within))]
fn check_originals<S: Source, K: Sink>(
    readers: &mut CheckReaders,
    alloc: Global,
    formats: Formats,
    source: &mut S,
    sink: &mut K,
) -> Result<bool, Halt>
    requires { readers.old ≡ fresh_readers }
    ensures found { IfOk result (λ all_true. FoundAll formats all_true (S.inputs source.old 0).left (S.inputs source.old 1).left (S.inputs source.old 2).left
        (ahead readers.new.converted (S.inputs source.new 1).left) (ahead readers.new.report (S.inputs source.new 2).left) (K.outputs sink.old) (K.outputs sink.new)) }
    ensures ended { IfOk result (λ _. IsTrue readers.new.originals.ended) }
    ensures some { IfErr result (λ halt. ChecksSome formats (S.inputs source.old 0).left (S.inputs source.old 1).left (S.inputs source.old 2).left ((K.outputs sink.old).held 0) ((K.outputs sink.new).held 0)) }
    ensures less { IfErr result (λ halt. LessAt formats halt (S.inputs source.old 0).left (S.inputs source.old 1).left (S.inputs source.old 2).left (K.outputs sink.old) (K.outputs sink.new)) }
    ensures halts { IfErr result (λ halt. CheckHalts S.LIMIT halt readers.new (S.inputs source.old) (S.inputs source.new) (K.outputs sink.old) (K.outputs sink.new)) }
    ensures written { Written (K.outputs sink.old) (K.outputs sink.new) }
    ensures advance { Advance readers.old readers.new (S.inputs source.old) (S.inputs source.new) }
    ensures may_read { IfOk result (λ _. MayRead S.LIMIT readers.new) }
{
    let mut all_true = true;
    let mut number = 0u64;
    let mut lines = Text::new(alloc);
    while let Some(original) = readers.read_original(alloc, formats.from, source)? {
        number += 1;
        all_true &= check_next(
            readers, alloc, number, original, formats.to, source, &mut lines,
        )?;
        put_piece(sink, &mut lines)?;
    }
    put_lines(sink, &mut lines)?;
    Ok(all_true)
}

/// Writes the last line, where something is extra.
fn put_extra<K: Sink>(extra: bool, sink: &mut K) -> Result<(), Failed>
    ensures written { OnOk result (Appends ((K.outputs sink.old).held 0) ((K.outputs sink.new).held 0) (extra_text extra)) }
    ensures part { OnErr result (IsTrue extra × AppendsPart ((K.outputs sink.old).held 0) ((K.outputs sink.new).held 0) extra_line) }
    ensures cause { HasCause (K.outputs sink.old).faults (K.outputs sink.new).faults result }
    ensures kept { (K.outputs sink.new).held 1 ≡ (K.outputs sink.old).held 1 }
{
    if extra {
        return put_all(sink, 0, b"end false extra\n");
    }
    Ok(())
}

/// Reads the report and the converted records to their ends, says whether one of them goes on behind the last
/// original, and writes the last line where it does.
#[tactic(auto, using(crate::proofs::Checking::read_halts, crate::proofs::CheckLifts::advance_trans, crate::proofs::CheckLifts::halts_later, crate::proofs::CheckLifts::all_within))]
fn check_rest<S: Source, K: Sink>(
    readers: &mut CheckReaders,
    to: Target,
    source: &mut S,
    sink: &mut K,
) -> Result<bool, Halt>
    requires { MayRead S.LIMIT readers.old }
    ensures checked { IfOk result (RestChecked to (ahead readers.old.converted (S.inputs source.old 1).left) (ahead readers.old.report (S.inputs source.old 2).left) (K.outputs sink.old) (K.outputs sink.new)) }
    ensures stopped { IfErr result (λ halt. RestStopped to halt (ahead readers.old.converted (S.inputs source.old 1).left) (ahead readers.old.report (S.inputs source.old 2).left) (K.outputs sink.old) (K.outputs sink.new)) }
    ensures ended { IfOk result (λ _. IsTrue readers.new.converted.ended × IsTrue readers.new.report.ended) }
    ensures halts { IfErr result (λ halt. CheckHalts S.LIMIT halt readers.new (S.inputs source.old) (S.inputs source.new) (K.outputs sink.old) (K.outputs sink.new)) }
    ensures written { Written (K.outputs sink.old) (K.outputs sink.new) }
    ensures advance { Advance readers.old readers.new (S.inputs source.old) (S.inputs source.new) }
    ensures may_read { IfOk result (λ _. MayRead S.LIMIT readers.new) }
    ensures kept { readers.new.originals ≡ readers.old.originals }
{
    let more_lines = readers.has_more_lines(source)?;
    let more_records = readers.has_more_records(to.read_back(), source)?;
    let extra = more_lines || more_records;
    put_extra(extra, sink)?;
    Ok(extra)
}

/// Whether each verdict is true, and nothing is extra.
fn is_all_true(all_true: bool, extra: bool) -> bool
    ensures { result ≡ (all_true && not extra) }
{
    all_true && !extra
}

/// Checks all originals, and then what is left, and says whether each verdict is true and nothing is extra.
#[tactic(auto, using(crate::proofs::Checking::stopped_by, crate::proofs::Limits::taken_stopped, crate::proofs::CheckLifts::all_within))]
fn check_all<S: Source, K: Sink>(
    alloc: Global,
    formats: Formats,
    source: &mut S,
    sink: &mut K,
) -> Result<bool, Halt>
    ensures ran { CheckRan formats result (S.inputs source.old) (S.inputs source.new) (K.outputs sink.old) (K.outputs sink.new) }
    ensures taken { Taken 3 S.LIMIT (result ≡ Err Halt.InputLimit) (S.inputs source.old) (S.inputs source.new) }
    ensures written { Written (K.outputs sink.old) (K.outputs sink.new) }
    ensures later_read { (i : ℕ) → i < 3 → (S.inputs source.old i).faults ≤ (S.inputs source.new i).faults }
    ensures others { (i : ℕ) → 3 ≤ i → S.inputs source.new i ≡ S.inputs source.old i }
{
    let mut readers = CheckReaders::new(alloc)?;
    let all_true = check_originals(&mut readers, alloc, formats, source, sink)?;
    let extra = check_rest(&mut readers, formats.to, source, sink)?;
    Ok(is_all_true(all_true, extra))
}

/// Checks a report: reads the originals (input 0), the converted records (input 1) and the report (input 2), and
/// writes a verdict line for each original to output 0.
pub fn check<S: Source, K: Sink>(
    alloc: Global,
    formats: Formats,
    source: &mut S,
    sink: &mut K,
) -> Status
    ensures { Checks formats S.LIMIT (S.inputs source.old) (S.inputs source.new) (K.outputs sink.old) (K.outputs sink.new) result }
{
    match check_all(alloc, formats, source, sink) {
        Ok(all_true) => ended(all_true),
        Err(halt) => halt.status(),
    }
}

/// How a check ends whose text is written.
fn ended(all_true: bool) -> Status
    ensures { result ≡ ended_status all_true }
{
    if all_true {
        Status::Done
    } else {
        Status::SomeRefused
    }
}
