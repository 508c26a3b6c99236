ghost use Rattle.std.specs.Prelude.{IfOk, IfSome};
ghost use Rattle.mc_convert.specs.Findings.{AreReadAs, MarksFit, record_met};
ghost use Rattle.mc_convert.specs.Readers.{IsLent, IsSomeLine};

use crate::formats::Origin;
use crate::left_over::{more_lines, more_records};
use crate::record_read::{RecordRead, read_record};
use crate::records::{Passed, next_line, next_record, record_in};
use crate::said::said_of;
use crate::status::Halt;
use mc_base::NoMemory;
use mc_io::{Lines, Source};
use mc_report::ReportLine;
use std::alloc::Global;

/// The three inputs of a check, read line by line.
#[derive(Drop)]
pub struct CheckReaders {
    originals: Lines,
    converted: Lines,
    report: Lines,
}

impl CheckReaders {
    ghost use Rattle.std.specs.Prelude.{◌≡◌, ◌<◌, ◌≤◌, ◌^◌, ℕ, IfOk, IfErr, IfSome, OnOk, IsNone, IsSome, IsTrue, is_some};
    ghost use Rattle.mc_io.specs.Lines.{lines_of};
    ghost use Rattle.mc_io.specs.LineReader.{ahead, fresh};
    ghost use Rattle.mc_io.specs.Outside.{SameBut};
    ghost use Rattle.mc_convert.specs.Checks.{first};
    ghost use Rattle.mc_convert.specs.Findings.{MarksFit};
    ghost use Rattle.mc_convert.specs.Records.{records};
    ghost use Rattle.mc_convert.specs.CheckSteps.{Advance, MayRead, ReadHalts, ReadsNext, SaidNext};

    /// Readers that have read nothing yet.
    pub fn new(alloc: Global) -> Result<CheckReaders, NoMemory>
        ensures { IfOk result (λ readers. readers ≡ record { originals = fresh 0; converted = fresh 1; report = fresh 2 }) }
    {
        let originals = Lines::new(alloc, 0)?;
        let converted = Lines::new(alloc, 1)?;
        let report = Lines::new(alloc, 2)?;
        Ok(CheckReaders {
            originals,
            converted,
            report,
        })
    }

    /// Passes the next original and reads it.
    #[tactic(auto, using(crate::proofs::CheckLifts::originals_advance, crate::proofs::CheckLifts::originals_halts, crate::proofs::CheckLifts::may_read_on, crate::proofs::CheckLifts::record_first, crate::proofs::CheckLifts::all_within))]
    pub fn read_original<S: Source>(
        &mut self,
        alloc: Global,
        from: Origin,
        source: &mut S,
    ) -> Result<Option<RecordRead>, Halt>
        requires { MayRead S.LIMIT self.old }
        ensures reads { IfOk result (ReadsNext from (ahead self.old.originals (S.inputs source.old 0).left) (ahead self.new.originals (S.inputs source.new 0).left)) }
        ensures marks { IfOk result (λ read. IfSome read MarksFit) }
        ensures ended { IfOk result (λ read. IsNone read → IsTrue self.new.originals.ended) }
        ensures passed { IfOk result (λ read. IsSome read → self.old.originals.passed < self.new.originals.passed) }
        ensures few { self.new.originals.passed < 2 ^ 64 }
        ensures advance { Advance self.old self.new (S.inputs source.old) (S.inputs source.new) }
        ensures may_read { IfOk result (λ _. MayRead S.LIMIT self.new) }
        ensures halts { IfErr result (λ halt. ReadHalts S.LIMIT halt self.new (S.inputs source.old) (S.inputs source.new)) }
        ensures kept { (self.new.converted ≡ self.old.converted) × (self.new.report ≡ self.old.report) }
        ensures others { SameBut 0 (S.inputs source.old) (S.inputs source.new) }
    {
        let next = next_record(from, &mut self.originals, source)?;
        let read = read_next(alloc, &self.originals, next)?;
        Ok(read)
    }

    /// Passes the next converted record and reads it.
    #[tactic(auto, using(crate::proofs::CheckLifts::converted_advance, crate::proofs::CheckLifts::converted_halts, crate::proofs::CheckLifts::may_read_on, crate::proofs::CheckLifts::record_first, crate::proofs::CheckLifts::all_within))]
    pub fn read_converted<S: Source>(
        &mut self,
        alloc: Global,
        from: Origin,
        source: &mut S,
    ) -> Result<Option<RecordRead>, Halt>
        requires { MayRead S.LIMIT self.old }
        ensures reads { IfOk result (ReadsNext from (ahead self.old.converted (S.inputs source.old 1).left) (ahead self.new.converted (S.inputs source.new 1).left)) }
        ensures ended { IfOk result (λ read. IsNone read → IsTrue self.new.converted.ended) }
        ensures advance { Advance self.old self.new (S.inputs source.old) (S.inputs source.new) }
        ensures may_read { IfOk result (λ _. MayRead S.LIMIT self.new) }
        ensures halts { IfErr result (λ halt. ReadHalts S.LIMIT halt self.new (S.inputs source.old) (S.inputs source.new)) }
        ensures kept { (self.new.originals ≡ self.old.originals) × (self.new.report ≡ self.old.report) }
        ensures others { SameBut 1 (S.inputs source.old) (S.inputs source.new) }
    {
        let next = next_record(from, &mut self.converted, source)?;
        let read = read_next(alloc, &self.converted, next)?;
        Ok(read)
    }

    /// Passes the next line of the report, and gives what it says of record k.
    #[tactic(auto, using(crate::proofs::CheckLifts::report_advance, crate::proofs::CheckLifts::report_halts, crate::proofs::CheckLifts::may_read_on, crate::proofs::CheckLifts::line_taken, crate::proofs::CheckLifts::all_within))]
    pub fn read_said<S: Source>(
        &mut self,
        alloc: Global,
        k: u64,
        source: &mut S,
    ) -> Result<Option<ReportLine>, Halt>
        requires { MayRead S.LIMIT self.old }
        ensures says { IfOk result (SaidNext k (ahead self.old.report (S.inputs source.old 2).left) (ahead self.new.report (S.inputs source.new 2).left)) }
        ensures advance { Advance self.old self.new (S.inputs source.old) (S.inputs source.new) }
        ensures may_read { IfOk result (λ _. MayRead S.LIMIT self.new) }
        ensures halts { IfErr result (λ halt. ReadHalts S.LIMIT halt self.new (S.inputs source.old) (S.inputs source.new)) }
        ensures kept { (self.new.originals ≡ self.old.originals) × (self.new.converted ≡ self.old.converted) }
        ensures others { SameBut 2 (S.inputs source.old) (S.inputs source.new) }
    {
        let next = next_line(&mut self.report, source)?;
        let said = said_of(alloc, k, &self.report, next)?;
        Ok(said)
    }

    /// Reads the report to its end, and says whether a line was left.
    #[tactic(auto, using(crate::proofs::CheckLifts::report_advance, crate::proofs::CheckLifts::report_halts, crate::proofs::CheckLifts::may_read_on))]
    pub fn has_more_lines<S: Source>(&mut self, source: &mut S) -> Result<bool, Halt>
        requires { MayRead S.LIMIT self.old }
        ensures some { IfOk result (λ some. IfSome (ahead self.old.report (S.inputs source.old 2).left) (λ bytes. some ≡ is_some (first (lines_of bytes)))) }
        ensures ended { IfOk result (λ _. IsTrue self.new.report.ended) }
        ensures advance { Advance self.old self.new (S.inputs source.old) (S.inputs source.new) }
        ensures may_read { IfOk result (λ _. MayRead S.LIMIT self.new) }
        ensures halts { IfErr result (λ halt. ReadHalts S.LIMIT halt self.new (S.inputs source.old) (S.inputs source.new)) }
        ensures kept { (self.new.originals ≡ self.old.originals) × (self.new.converted ≡ self.old.converted) }
        ensures others { SameBut 2 (S.inputs source.old) (S.inputs source.new) }
    {
        let more = more_lines(&mut self.report, source)?;
        Ok(more)
    }

    /// Reads the converted records to their end, and says whether one was left.
    #[tactic(auto, using(crate::proofs::CheckLifts::converted_advance, crate::proofs::CheckLifts::converted_halts, crate::proofs::CheckLifts::may_read_on))]
    pub fn has_more_records<S: Source>(
        &mut self,
        from: Origin,
        source: &mut S,
    ) -> Result<bool, Halt>
        requires { MayRead S.LIMIT self.old }
        ensures some { IfOk result (λ some. IfSome (ahead self.old.converted (S.inputs source.old 1).left) (λ bytes. some ≡ is_some (first (records from bytes)))) }
        ensures ended { IfOk result (λ _. IsTrue self.new.converted.ended) }
        ensures advance { Advance self.old self.new (S.inputs source.old) (S.inputs source.new) }
        ensures may_read { IfOk result (λ _. MayRead S.LIMIT self.new) }
        ensures halts { IfErr result (λ halt. ReadHalts S.LIMIT halt self.new (S.inputs source.old) (S.inputs source.new)) }
        ensures kept { (self.new.originals ≡ self.old.originals) × (self.new.report ≡ self.old.report) }
        ensures others { SameBut 1 (S.inputs source.old) (S.inputs source.new) }
    {
        let more = more_records(from, &mut self.converted, source)?;
        Ok(more)
    }
}

/// Reads the record that was passed, where there is one.
#[tactic(auto, using(crate::proofs::CheckFound::marks_read))]
fn read_next(
    alloc: Global,
    lines: &Lines,
    next: Option<Passed>,
) -> Result<Option<RecordRead>, NoMemory>
    requires lent { IsLent lines.now next }
    requires some { IsSomeLine lines.now.text next }
    ensures read { IfOk result (AreReadAs (record_met next lines.now.text)) }
    ensures marks { IfOk result (λ read. IfSome read MarksFit) }
{
    match next {
        Some(passed) => {
            let read = read_record(alloc, &record_in(lines, passed))?;
            Ok(Some(read))
        }
        None => Ok(None),
    }
}
