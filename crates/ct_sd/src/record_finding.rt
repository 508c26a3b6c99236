//! Finds the record at the front of an input, and passes it where it is too long.

ghost use Rattle.std.specs.Prelude.{◌≡◌, ◌<◌, ◌≤◌, ◌^◌, [], IfErr, IfOk, length};
ghost use Rattle.mc_io.specs.Buffered.{Buffered, most_read};
ghost use Rattle.mc_io.specs.Outside.{Input, SameBut};
ghost use Rattle.ct_sd.specs.FoundRecords.{FindsNext, IsFoundLong, Reaches, Stops, most_room};

use crate::fault::Fault;
use crate::record_front::{Front, find_front, say_something};
use crate::record_passing::pass_record;
use mc_base::Span;
use mc_io::{InputBuffer, ReadStop, Source};

/// What stands at the front of an input. It is passed, but for a record within the limits.
#[derive(Clone, Copy)]
pub enum Found {
    /// a record of so many bytes
    Record(usize),
    /// a record that is too long, by its first fault
    TooLong(Fault),
    /// the end, and no record
    End,
}

/// Passes a record that is too long by the line that begins behind so many bytes, or the end, where it is no record.
fn pass_long<S: Source>(
    at: usize,
    buffer: &mut InputBuffer,
    source: &mut S,
    ranges: &[Span],
) -> Result<Found, ReadStop>
    requires long { IsFoundLong at buffer.old.held buffer.old.ended ranges.now }
    requires small { buffer.old.taken < 2 ^ 64 }
    requires held { length buffer.old.held ≤ buffer.old.taken }
    requires room { buffer.old.room ≤ most_room }
    ensures passes { (old : Buffered) (before : Input) → Reaches S.LIMIT old buffer.old before (S.inputs source.old buffer.old.input) → IfOk result (λ found. FindsNext S.LIMIT found old buffer.new before (S.inputs source.new buffer.old.input) ranges.now) }
    ensures stops { (old : Buffered) (before : Input) → Reaches S.LIMIT old buffer.old before (S.inputs source.old buffer.old.input) → IfErr result (λ stop. Stops S.LIMIT stop old buffer.new before (S.inputs source.new buffer.old.input)) }
    ensures input { buffer.new.input ≡ buffer.old.input }
    ensures room { buffer.new.room ≤ most_room }
    ensures others { SameBut buffer.old.input (S.inputs source.old) (S.inputs source.new) }
{
    let place = ranges.len() as u32 + 1;
    let said = say_something(buffer.held(), ranges);
    buffer.pass(at);
    match pass_record(at, said, buffer, source)? {
        Some(kind) => Ok(Found::TooLong(Fault { kind, place })),
        None => Ok(Found::End),
    }
}

/// Finds the record at the front of an input, where none of its lines is found yet.
pub fn find_record<S: Source>(
    buffer: &mut InputBuffer,
    source: &mut S,
    ranges: &mut Vec<Span>,
) -> Result<Found, ReadStop>
    requires none { ranges.old.items ≡ [] }
    requires small { buffer.old.taken < 2 ^ 64 }
    requires few { length buffer.old.held ≤ most_read }
    requires held { length buffer.old.held ≤ buffer.old.taken }
    requires room { buffer.old.room ≤ most_room }
    ensures finds { IfOk result (λ found. FindsNext S.LIMIT found buffer.old buffer.new (S.inputs source.old buffer.old.input) (S.inputs source.new buffer.old.input) ranges.new.items) }
    ensures stops { IfErr result (λ stop. Stops S.LIMIT stop buffer.old buffer.new (S.inputs source.old buffer.old.input) (S.inputs source.new buffer.old.input)) }
    ensures input { buffer.new.input ≡ buffer.old.input }
    ensures room { buffer.new.room ≤ most_room }
    ensures others { SameBut buffer.old.input (S.inputs source.old) (S.inputs source.new) }
{
    match find_front(buffer, source, ranges)? {
        Front::Record(whole) => Ok(Found::Record(whole)),
        Front::TooLong(at) => pass_long(at, buffer, source, ranges),
        Front::Nothing => {
            let len = buffer.held().len();
            buffer.pass(len);
            Ok(Found::End)
        }
    }
}
