ghost use Rattle.std.specs.Prelude.{◌≡◌, []};
ghost use Rattle.ct_sd.specs.RecordReader.{step_of};

use crate::Record;
use crate::record_finding::{Found, find_record};
use mc_base::{NoMemory, Refusal, Span};
use mc_io::{InputBuffer, ReadStop, Source};
use std::alloc::Global;
use std::marker::Model;

/// What a reader of records answers.
#[derive(Drop)]
pub enum RecordStep {
    /// a record was given
    Record,
    /// a record is too long, and was passed
    Refused(Refusal),
    /// the end was read, and no record is left
    End,
    ReadFault,
    InputLimit,
    NoMemory,
}

impl From<ReadStop> for RecordStep {
    ghost from_gives = { λ stop step. step ≡ step_of stop };

    fn from(stop: ReadStop) -> RecordStep {
        match stop {
            ReadStop::ReadFault => RecordStep::ReadFault,
            ReadStop::InputLimit => RecordStep::InputLimit,
            ReadStop::NoMemory => RecordStep::NoMemory,
        }
    }
}

/// What was answered last.
#[derive(Clone, Copy, Debug, PartialEq, Eq)]
pub enum Answered {
    Record,
    Refused,
    End,
    Stopped,
}

/// A reader that cuts an input into the records of an SD file. The bytes of a record stand together in one buffer, and
/// its lines are ranges of them; both serve for the next record again.
#[derive(Drop)]
pub struct Records {
    buffer: InputBuffer,
    ranges: Vec<Span>,
    /// how many bytes the record has that was given last; they are held until the next is asked for
    whole: usize,
    /// how many records were passed
    passed: u64,
    answer: Option<Answered>,
    alloc: Global,
}

impl Model for Records {
    ghost use Rattle.ct_sd.specs.RecordReader.{RecordReader, IsSound, records_of};

    ghost Value = { RecordReader };

    ghost view = { λ r. records_of r.buffer r.ranges.items r.whole r.passed r.answer };

    ghost invariant = { λ r. IsSound r.buffer r.ranges.items r.whole r.passed r.answer };
}

impl Records {
    ghost use Rattle.std.specs.Prelude.{◌↔◌, ◌+◌, ◌<◌, ◌≤◌, ◌^◌, ◌⊎◌, false, IfOk, IsTrue, Some, length};
    ghost use Rattle.mc_io.specs.Buffered.{most_read};
    ghost use Rattle.mc_io.specs.Causes.{Rose};
    ghost use Rattle.mc_io.specs.Outside.{SameBut};
    ghost use Rattle.ct_sd.specs.FoundRecords.{most_room};
    ghost use Rattle.ct_sd.specs.RecordReader.{Gives, IsNoStop, MayGoOn, ReadsOn, Stopped, answered, fresh_records, records_passed};
    ghost use Rattle.ct_sd.specs.Records.{ended_records};

    /// A reader of an input, which has read nothing yet.
    pub fn new(alloc: Global, input: u32) -> Result<Records, NoMemory>
        requires { input < 3 }
        ensures { IfOk result (λ records. records ≡ fresh_records input) }
    {
        Ok(Records {
            buffer: InputBuffer::new(alloc, input),
            ranges: Vec::new(alloc),
            whole: 0,
            passed: 0,
            answer: None,
            alloc,
        })
    }

    /// Passes the next record. After the end it may be asked again.
    pub fn next<S: Source>(&mut self, source: &mut S) -> RecordStep
        requires { MayGoOn self.old.answer }

        ensures step { Gives result self.old self.new (S.inputs source.old self.old.input) (S.inputs source.new self.old.input) }
        ensures passed { self.new.passed ≡ self.old.passed + records_passed result }
        ensures answer { self.new.answer ≡ Some (answered result) }
        ensures few_records { self.new.passed < 2 ^ 64 }

        // What was taken of the input, which is nothing where a whole record is held, and nothing of the others.
        ensures reading { ReadsOn self.old self.new (S.inputs source.old self.old.input) (S.inputs source.new self.old.input) }
        ensures unread { (ended_records self.old.held ≡ []) ⊎ (S.inputs source.new self.old.input ≡ S.inputs source.old self.old.input) }
        ensures others { SameBut self.old.input (S.inputs source.old) (S.inputs source.new) }

        // What was taken beyond the record, and what is kept.
        ensures beyond { IsNoStop result → length self.new.held ≤ most_read }
        ensures room { self.new.room ≤ most_room }

        // Where a read stops no record ended in what was taken.
        ensures stopped { Stopped S.LIMIT result self.old self.new (S.inputs source.old self.old.input) (S.inputs source.new self.old.input) }

        // Each stop has its cause.
        ensures fault { result ≡ RecordStep.ReadFault → Rose (S.inputs source.old self.old.input).faults (S.inputs source.new self.old.input).faults }
        ensures limit { self.old.taken ≤ S.LIMIT → (result ≡ RecordStep.InputLimit) ↔ (S.LIMIT < self.new.taken) }
        ensures not_ended { (result ≡ RecordStep.ReadFault) ⊎ (result ≡ RecordStep.InputLimit) → (S.inputs source.new self.old.input).ended ≡ false }
    {
        self.buffer.pass(self.whole);
        self.whole = 0;
        self.ranges.clear();
        match find_record(&mut self.buffer, source, &mut self.ranges) {
            Ok(Found::Record(whole)) => {
                self.whole = whole;
                self.passed += 1;
                self.answer = Some(Answered::Record);
                RecordStep::Record
            }
            Ok(Found::TooLong(fault)) => {
                self.ranges.clear();
                self.passed += 1;
                self.answer = Some(Answered::Refused);
                RecordStep::Refused(Refusal::at(self.alloc, fault.kind, fault.place))
            }
            Ok(Found::End) => {
                self.ranges.clear();
                self.answer = Some(Answered::End);
                RecordStep::End
            }
            Err(stop) => {
                self.ranges.clear();
                self.answer = Some(Answered::Stopped);
                RecordStep::from(stop)
            }
        }
    }

    /// The record that was given last, and one without lines where none was.
    pub fn current(&self) -> Record<'_>
        ensures { result ≡ self.now.lines }
    {
        Record::new(&self.buffer.held()[..self.whole], &self.ranges)
    }
}

#[cfg(test)]
mod tests;
