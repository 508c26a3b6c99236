ghost use Rattle.std.specs.Prelude.{◌≡◌, ◌≤◌, OnOk, OnErr, Err};
ghost use Rattle.mc_io.specs.Causes.{HasCause};
ghost use Rattle.mc_io.specs.Outside.{SameBut};
ghost use Rattle.mc_convert.specs.Promises.{Converts};
ghost use Rattle.mc_convert.specs.Ended.{HoldsAt};
ghost use Rattle.mc_convert.specs.Runs.{Holds, HoldsLess, Ran, Taken};

use crate::answer::{Answer, answer_record};
use crate::formats::Formats;
use crate::records::{next_record, record_in};
use crate::status::{Halt, Status};
use mc_base::Failed;
use mc_io::{Lines, Sink, Source, put_all};
use std::alloc::Global;

/// Writes an answer: the record, and then its report line.
fn put_answer<K: Sink>(answer: &Answer, sink: &mut K) -> Result<(), Failed>
    ensures all { OnOk result (Holds (record { out = answer.now.out; report = answer.now.report }) (K.outputs sink.old) (K.outputs sink.new)) }
    ensures part { OnErr result (HoldsLess (record { out = answer.now.out; report = answer.now.report }) (K.outputs sink.old) (K.outputs sink.new)) }
    ensures cause { HasCause (K.outputs sink.old).faults (K.outputs sink.new).faults result }
{
    put_all(sink, 0, answer.out.as_slice())?;
    put_all(sink, 1, answer.report.as_slice())?;
    Ok(())
}

/// Answers each record of input 0, and says whether one is refused.
fn answer_all<S: Source, K: Sink>(
    alloc: Global,
    formats: Formats,
    source: &mut S,
    sink: &mut K,
) -> Result<bool, Halt>
    ensures ran { Ran formats result (S.inputs source.old 0) (S.inputs source.new 0) (K.outputs sink.old) (K.outputs sink.new) }
    ensures taken { Taken 1 S.LIMIT (result ≡ Err Halt.InputLimit) (S.inputs source.old) (S.inputs source.new) }
    ensures holds { HoldsAt formats S.LIMIT result (S.inputs source.old 0) (S.inputs source.new 0) (K.outputs sink.old) (K.outputs sink.new) }

    ensures later_read { (S.inputs source.old 0).faults ≤ (S.inputs source.new 0).faults }
    ensures later_written { (K.outputs sink.old).faults ≤ (K.outputs sink.new).faults }
    ensures others { SameBut 0 (S.inputs source.old) (S.inputs source.new) }
{
    let mut lines = Lines::new(alloc, 0)?;
    let mut some_refused = false;
    let mut number = 0u64;
    while let Some(passed) = next_record(formats.from, &mut lines, source)? {
        number += 1;
        let answer = answer_record(alloc, number, &record_in(&lines, passed), formats.to)?;
        put_answer(&answer, sink)?;
        some_refused |= answer.refused;
    }
    Ok(some_refused)
}

/// Answers each record of input 0, in order, with a written record at output 0 or none, and a report line at
/// output 1.
#[tactic(auto, using(crate::proofs::Promised::converts_done, crate::proofs::Promised::converts_refused, crate::proofs::Promised::converts_stopped, crate::proofs::Limits::taken_status, crate::proofs::Limits::taken_done, crate::proofs::Limits::taken_refused))]
pub fn convert<S: Source, K: Sink>(
    alloc: Global,
    formats: Formats,
    source: &mut S,
    sink: &mut K,
) -> Status
    ensures { Converts formats S.LIMIT (S.inputs source.old) (S.inputs source.new) (K.outputs sink.old) (K.outputs sink.new) result }
{
    match answer_all(alloc, formats, source, sink) {
        Ok(false) => Status::Done,
        Ok(true) => Status::SomeRefused,
        Err(halt) => halt.status(),
    }
}
