ghost use Rattle.std.specs.Prelude.{◌≡◌, ◌≤◌, ℕ, List, Option, Err, Ok, IfOk, IfErr, IfSome, IsTrue, OnOk, is_some};
ghost use Rattle.mc_io.specs.Outside.{SameBut};
ghost use Rattle.mc_io.specs.Lines.{lines_of};
ghost use Rattle.mc_io.specs.LineReader.{MayGoOn, Reading, ahead};
ghost use Rattle.mc_convert.specs.Checks.{first};
ghost use Rattle.mc_convert.specs.Readers.{HasEnded};
ghost use Rattle.mc_convert.specs.Records.{records};

use crate::formats::Origin;
use crate::records::{next_line, next_record};
use mc_io::{Lines, ReadStop, Source};

/// Passes what is left of an input.
#[tactic(auto, using(crate::proofs::ReaderSteps::reading_on, crate::proofs::Rests::stopped_later))]
fn pass_rest<S: Source>(lines: &mut Lines, source: &mut S) -> Result<(), ReadStop>
    requires goes_on { MayGoOn lines.old.answer }
    requires within { lines.old.taken ≤ S.LIMIT }

    ensures goes_on { OnOk result (MayGoOn lines.new.answer) }
    ensures at_end { OnOk result (IsTrue lines.new.ended) }
    ensures within { OnOk result (lines.new.taken ≤ S.LIMIT) }
    ensures reading { Reading lines.old lines.new (S.inputs source.old lines.old.input) (S.inputs source.new lines.old.input) }
    ensures stopped { IfErr result (λ stop. HasEnded S.LIMIT (Err stop) lines.new (S.inputs source.old lines.old.input) (S.inputs source.new lines.old.input)) }
    ensures others { SameBut lines.old.input (S.inputs source.old) (S.inputs source.new) }
{
    loop {
        if next_line(lines, source)?.is_none() {
            return Ok(());
        }
    }
}

/// Reads an input to its end, and says whether a line was left; an empty one counts.
#[tactic(auto, using(crate::proofs::ReaderSteps::reading_trans, crate::proofs::Rests::stopped_later, crate::proofs::Rests::some_line))]
pub fn more_lines<S: Source>(lines: &mut Lines, source: &mut S) -> Result<bool, ReadStop>
    requires goes_on { MayGoOn lines.old.answer }
    requires within { lines.old.taken ≤ S.LIMIT }

    ensures some { IfOk result (λ some. IfSome (ahead lines.old (S.inputs source.old lines.old.input).left) (λ bytes. some ≡ is_some (first (lines_of bytes)))) }
    ensures goes_on { IfOk result (λ _. MayGoOn lines.new.answer) }
    ensures at_end { IfOk result (λ _. IsTrue lines.new.ended) }
    ensures within { IfOk result (λ _. lines.new.taken ≤ S.LIMIT) }
    ensures reading { Reading lines.old lines.new (S.inputs source.old lines.old.input) (S.inputs source.new lines.old.input) }
    ensures stopped { IfErr result (λ stop. HasEnded S.LIMIT (Err stop) lines.new (S.inputs source.old lines.old.input) (S.inputs source.new lines.old.input)) }
    ensures others { SameBut lines.old.input (S.inputs source.old) (S.inputs source.new) }
{
    let next = next_line(lines, source)?;
    pass_rest(lines, source)?;
    Ok(next.is_some())
}

/// Reads an input to its end, and says whether a record was left.
#[tactic(auto, using(crate::proofs::ReaderSteps::reading_trans, crate::proofs::Rests::stopped_later, crate::proofs::Rests::some_record))]
pub fn more_records<S: Source>(
    from: Origin,
    lines: &mut Lines,
    source: &mut S,
) -> Result<bool, ReadStop>
    requires goes_on { MayGoOn lines.old.answer }
    requires within { lines.old.taken ≤ S.LIMIT }

    ensures some { IfOk result (λ some. IfSome (ahead lines.old (S.inputs source.old lines.old.input).left) (λ bytes. some ≡ is_some (first (records from bytes)))) }
    ensures goes_on { IfOk result (λ _. MayGoOn lines.new.answer) }
    ensures at_end { IfOk result (λ _. IsTrue lines.new.ended) }
    ensures within { IfOk result (λ _. lines.new.taken ≤ S.LIMIT) }
    ensures reading { Reading lines.old lines.new (S.inputs source.old lines.old.input) (S.inputs source.new lines.old.input) }
    ensures stopped { IfErr result (λ stop. HasEnded S.LIMIT (Err stop) lines.new (S.inputs source.old lines.old.input) (S.inputs source.new lines.old.input)) }
    ensures others { SameBut lines.old.input (S.inputs source.old) (S.inputs source.new) }
{
    let next = next_record(from, lines, source)?;
    pass_rest(lines, source)?;
    Ok(next.is_some())
}
