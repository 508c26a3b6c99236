ghost use Rattle.std.specs.Prelude.{◌≡◌, ℕ, ◌∷◌, ◌++◌, [], false, List};
ghost use Rattle.mc_io.specs.LineReader.{step_of_text};
ghost use Rattle.mc_io.specs.Lines.{AreCut, IsTextOf, ended_lines, has_feed, line_feed, lines_of, pieces, text_of};

use crate::Source;
use crate::input_buffer::InputBuffer;
use crate::line_finding::{FoundLine, find_line};
use crate::read_stop::ReadStop;
use mc_base::NoMemory;
use std::alloc::Global;
use std::marker::Model;

/// What a reader of lines answers.
#[derive(Clone, Copy, Debug, PartialEq, Eq)]
pub enum LineStep {
    /// a line was given
    Line,
    /// the line of this number, from 1, is longer than the limit, and was passed
    TooLong(u64),
    /// the end was read, and no line is left
    End,
    ReadFault,
    InputLimit,
    NoMemory,
}

impl From<ReadStop> for LineStep {
    ghost use Rattle.std.specs.Prelude.{◌≡◌};
    ghost use Rattle.mc_io.specs.LineReader.{step_of};

    ghost from_gives = { λ stop step. step ≡ step_of stop };

    fn from(stop: ReadStop) -> LineStep {
        match stop {
            ReadStop::ReadFault => LineStep::ReadFault,
            ReadStop::InputLimit => LineStep::InputLimit,
            ReadStop::NoMemory => LineStep::NoMemory,
        }
    }
}

/// No line, at the front of any bytes.
const NO_LINE: FoundLine = FoundLine {
    text: None,
    whole: 0,
};

/// The answer where a line of this number was found.
fn found_step(text: Option<usize>, number: u64) -> LineStep
    ensures { result ≡ step_of_text text number }
{
    match text {
        Some(_) => LineStep::Line,
        None => LineStep::TooLong(number),
    }
}

/// A reader that cuts an input into lines. A line is ended by a line feed, or by the end of the input; the
/// carriage returns before that aren't given with it.
#[derive(Drop)]
pub struct Lines {
    buffer: InputBuffer,
    /// how many lines were passed
    passed: u64,
    /// the line that was passed last; it is held until the next is asked for
    line: FoundLine,
    answer: Option<LineStep>,
}

impl Model for Lines {
    ghost use Rattle.mc_io.specs.LineReader.{LineReader, IsSound, reader_of};

    ghost Value = { LineReader };

    ghost view = { λ r. reader_of r.buffer r.passed r.line r.answer };

    ghost invariant = { λ r. IsSound r.buffer r.passed r.line r.answer };
}

impl Lines {
    ghost use Rattle.std.specs.Prelude.{◌↔◌, ◌+◌, ◌<◌, ◌≤◌, ◌^◌, ◌⊎◌, false, true, IfOk, IsTrue, Some, length};
    ghost use Rattle.mc_io.specs.Causes.{Rose};
    ghost use Rattle.mc_io.specs.Outside.{SameBut};
    ghost use Rattle.mc_io.specs.Lines.{IsLineText, has_feed, most_bytes};
    ghost use Rattle.mc_io.specs.Buffered.{most_read};
    ghost use Rattle.mc_io.specs.FoundLines.{most_room};
    ghost use Rattle.mc_io.specs.LineReader.{MayGoOn, Ends, Gives, IsNoStop, Reading, ahead, fresh, lines_passed};

    /// A reader of an input, which has read nothing yet.
    pub fn new(alloc: Global, input: u32) -> Result<Lines, NoMemory>
        requires { input < 3 }
        ensures { IfOk result (λ lines. lines ≡ fresh input) }
    {
        Ok(Lines {
            buffer: InputBuffer::new(alloc, input),
            passed: 0,
            line: NO_LINE,
            answer: None,
        })
    }

    /// Passes the next line. After the end it may be asked again.
    pub fn next<S: Source>(&mut self, source: &mut S) -> LineStep
        requires { MayGoOn self.old.answer }

        ensures step { Gives result (ahead self.old (S.inputs source.old self.old.input).left) (ahead self.new (S.inputs source.new self.old.input).left) self.new.text self.new.passed }
        ensures passed { self.new.passed ≡ self.old.passed + lines_passed result }
        ensures answer { self.new.answer ≡ Some result }
        ensures short { result ≡ LineStep.Line → length self.new.text ≤ most_bytes }
        ensures text { result ≡ LineStep.Line → IsLineText self.new.text }
        ensures few_lines { self.new.passed < 2 ^ 64 }

        // What was taken of the input, which is nothing where a whole line is held, and nothing of the others.
        ensures reading { Reading self.old self.new (S.inputs source.old self.old.input) (S.inputs source.new self.old.input) }
        ensures unread { has_feed self.old.held ≡ true → S.inputs source.new self.old.input ≡ S.inputs source.old self.old.input }
        ensures others { SameBut self.old.input (S.inputs source.old) (S.inputs source.new) }

        // What was taken beyond the line, and what is kept.
        ensures beyond { IsNoStop result → length self.new.held ≤ most_read }
        ensures room { self.new.room ≤ most_room }

        // Which lines ended in what was taken: the line that is given did, and where a read stops no other did.
        ensures ends { Ends S.LIMIT result self.old self.new (S.inputs source.old self.old.input) (S.inputs source.new self.old.input) }

        // Each stop has its cause.
        ensures fault { result ≡ LineStep.ReadFault → Rose (S.inputs source.old self.old.input).faults (S.inputs source.new self.old.input).faults }
        ensures limit { self.old.taken ≤ S.LIMIT → (result ≡ LineStep.InputLimit) ↔ (S.LIMIT < self.new.taken) }
        ensures end { result ≡ LineStep.End → IsTrue self.new.ended }
        ensures not_ended { (result ≡ LineStep.ReadFault) ⊎ (result ≡ LineStep.InputLimit) → (S.inputs source.new self.old.input).ended ≡ false }
    {
        self.buffer.pass(self.line.whole);
        self.line = NO_LINE;
        match find_line(&mut self.buffer, source) {
            Ok(Some(line)) => {
                self.line = line;
                self.passed += 1;
                let step = found_step(line.text, self.passed);
                self.answer = Some(step);
                step
            }
            Ok(None) => {
                self.answer = Some(LineStep::End);
                LineStep::End
            }
            Err(stop) => {
                let step = LineStep::from(stop);
                self.answer = Some(step);
                step
            }
        }
    }

    /// The line that was given last, without its end.
    pub fn line(&self) -> &[u8]
        requires { self.now.answer ≡ Some LineStep.Line }
        ensures { result.now ≡ self.now.text }
    {
        &self.buffer.held()[..self.line.text.unwrap_or(0)]
    }
}

/// What lines are, said of the whole: the pieces are the one way to cut bytes at their line feeds, and a
/// line's text is its piece up to the carriage returns at its end.
pub fn lines_law()
    ensures cut { (bytes : List ℕ) → AreCut (pieces bytes) bytes }
    ensures one { (parts : List (List ℕ)) (bytes : List ℕ) → AreCut parts bytes → parts ≡ pieces bytes }
    ensures text { (piece : List ℕ) → IsTextOf piece (text_of piece) }

    // The lines that have ended are those up to the last line feed.
    ensures ended { (front rest : List ℕ) → has_feed rest ≡ false → ended_lines (front ++ line_feed ∷ rest) ≡ lines_of (front ++ line_feed ∷ []) }
    ensures none_ended { (bytes : List ℕ) → has_feed bytes ≡ false → ended_lines bytes ≡ [] }
{}

#[cfg(test)]
mod tests;
