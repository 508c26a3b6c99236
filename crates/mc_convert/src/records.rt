ghost use Rattle.std.specs.Prelude.{◌≡◌, ◌+◌, ◌<◌, ◌≤◌, ◌^◌, false, IfOk, IsTrue, Some};
ghost use Rattle.mc_io.specs.Outside.{SameBut};
ghost use Rattle.mc_io.specs.LineReader.{MayGoOn, Reading, ahead};
ghost use Rattle.mc_convert.specs.Ended.{EndsLine, EndsRecord};
ghost use Rattle.mc_convert.specs.Records.{record_of, IsGiven};
ghost use Rattle.mc_convert.specs.Readers.{HasEnded, GivesLine, GivesRecord, IsEmptyLine, IsLent, IsSomeLine, found, lines_in};

use crate::formats::Origin;
use crate::given::Given;
use mc_io::{LineStep, Lines, ReadStop, Source};

/// What a reader of lines has passed.
#[derive(Clone, Copy, Debug, PartialEq, Eq)]
pub enum Passed {
    /// a line, which its reader lends
    Line,
    /// a line that is longer than the limit
    TooLong,
}

/// Passes the next line of an input, and gives none behind the last. Then it may be called again.
pub fn next_line<S: Source>(lines: &mut Lines, source: &mut S) -> Result<Option<Passed>, ReadStop>
    requires goes_on { MayGoOn lines.old.answer }
    requires within { lines.old.taken ≤ S.LIMIT }

    ensures line { GivesLine result (ahead lines.old (S.inputs source.old lines.old.input).left) (ahead lines.new (S.inputs source.new lines.old.input).left) lines.new.text }
    ensures lent { IfOk result (IsLent lines.new) }
    ensures goes_on { IfOk result (λ _. MayGoOn lines.new.answer) }
    ensures passed { IfOk result (λ next. lines.new.passed ≡ lines.old.passed + lines_in next) }
    ensures few { lines.new.passed < 2 ^ 64 }

    // What is true of the reader and of what the source tells of its input; nothing of the others changes.
    ensures reading { Reading lines.old lines.new (S.inputs source.old lines.old.input) (S.inputs source.new lines.old.input) }
    ensures ended { HasEnded S.LIMIT result lines.new (S.inputs source.old lines.old.input) (S.inputs source.new lines.old.input) }
    ensures ends { EndsLine S.LIMIT result lines.old lines.new (S.inputs source.old lines.old.input) (S.inputs source.new lines.old.input) }
    ensures others { SameBut lines.old.input (S.inputs source.old) (S.inputs source.new) }
{
    match lines.next(source) {
        LineStep::Line => Ok(Some(Passed::Line)),
        LineStep::TooLong(_) => Ok(Some(Passed::TooLong)),
        LineStep::End => Ok(None),
        LineStep::ReadFault => Err(ReadStop::ReadFault),
        LineStep::InputLimit => Err(ReadStop::InputLimit),
        LineStep::NoMemory => Err(ReadStop::NoMemory),
    }
}

/// Whether a line was passed and is empty.
#[tactic(auto, using(crate::proofs::ReaderSteps::is_empty_text, crate::proofs::ReaderSteps::is_some_text))]
fn is_empty(lines: &Lines, next: Option<Passed>) -> bool
    requires { IsLent lines.now next }
    ensures empty { IsTrue result → IsEmptyLine lines.now.text next }
    ensures some { result ≡ false → IsSomeLine lines.now.text next }
{
    match next {
        Some(Passed::Line) => lines.line().is_empty(),
        Some(Passed::TooLong) => false,
        None => false,
    }
}

/// Passes the next line that isn't empty.
#[tactic(auto, using(crate::proofs::ReaderSteps::reading_on, crate::proofs::Ended::ended_none, crate::proofs::Ended::next_ended, crate::proofs::Ended::stop_ended))]
fn next_text<S: Source>(lines: &mut Lines, source: &mut S) -> Result<Option<Passed>, ReadStop>
    requires goes_on { MayGoOn lines.old.answer }
    requires within { lines.old.taken ≤ S.LIMIT }

    ensures record { GivesRecord Origin.Smi result (ahead lines.old (S.inputs source.old lines.old.input).left) (ahead lines.new (S.inputs source.new lines.old.input).left) lines.new.text }
    ensures lent { IfOk result (IsLent lines.new) }
    ensures some { IfOk result (IsSomeLine lines.new.text) }
    ensures goes_on { IfOk result (λ _. MayGoOn lines.new.answer) }
    ensures passed { IfOk result (λ next. lines.old.passed + lines_in next ≤ lines.new.passed) }
    ensures few { lines.new.passed < 2 ^ 64 }

    ensures reading { Reading lines.old lines.new (S.inputs source.old lines.old.input) (S.inputs source.new lines.old.input) }
    ensures ended { HasEnded S.LIMIT result lines.new (S.inputs source.old lines.old.input) (S.inputs source.new lines.old.input) }
    ensures ends { EndsRecord Origin.Smi S.LIMIT result lines.old lines.new (S.inputs source.old lines.old.input) (S.inputs source.new lines.old.input) }
    ensures others { SameBut lines.old.input (S.inputs source.old) (S.inputs source.new) }
{
    loop {
        let next = next_line(lines, source)?;
        if !is_empty(lines, next) {
            return Ok(next);
        }
    }
}

/// Passes the next record of an input, and what stands before it, and gives none behind the last. Then it may be called
/// again.
pub fn next_record<S: Source>(
    from: Origin,
    lines: &mut Lines,
    source: &mut S,
) -> Result<Option<Passed>, ReadStop>
    requires goes_on { MayGoOn lines.old.answer }
    requires within { lines.old.taken ≤ S.LIMIT }

    ensures record { GivesRecord from result (ahead lines.old (S.inputs source.old lines.old.input).left) (ahead lines.new (S.inputs source.new lines.old.input).left) lines.new.text }
    ensures lent { IfOk result (IsLent lines.new) }
    ensures some { IfOk result (IsSomeLine lines.new.text) }
    ensures goes_on { IfOk result (λ _. MayGoOn lines.new.answer) }
    ensures passed { IfOk result (λ next. lines.old.passed + lines_in next ≤ lines.new.passed) }
    ensures few { lines.new.passed < 2 ^ 64 }

    ensures reading { Reading lines.old lines.new (S.inputs source.old lines.old.input) (S.inputs source.new lines.old.input) }
    ensures ended { HasEnded S.LIMIT result lines.new (S.inputs source.old lines.old.input) (S.inputs source.new lines.old.input) }
    ensures ends { EndsRecord from S.LIMIT result lines.old lines.new (S.inputs source.old lines.old.input) (S.inputs source.new lines.old.input) }
    ensures others { SameBut lines.old.input (S.inputs source.old) (S.inputs source.new) }
{
    match from {
        Origin::Smi => next_text(lines, source),
    }
}

/// The record that was passed.
pub fn record_in(lines: &Lines, passed: Passed) -> Given<'_>
    requires lent { IsLent lines.now (Some passed) }
    requires some { IsSomeLine lines.now.text (Some passed) }
    ensures record { record_of result ≡ found passed lines.now.text }
    ensures whole { IsGiven result }
{
    match passed {
        Passed::Line => Given::Line(lines.line()),
        Passed::TooLong => Given::TooLong,
    }
}
