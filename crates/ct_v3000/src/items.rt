//! The joined lines of a record, one after the other.

ghost use Rattle.std.specs.Prelude.{◌≡◌, ◌<◌, ◌≤◌, ◌+◌, ◌^◌, [], Some, true, get_or, length, IfOk, OnOk};
ghost use Rattle.ct_v3000.specs.Joined.{is_whole};
ghost use Rattle.ct_v3000.specs.Blocks.{start, passed_text};
ghost use Rattle.ct_v3000.specs.Steps.{IsStep, IsFew, HasOneMore, after_item, after_items, to_come};

use crate::joining::{Found, is_whole, join, text_behind};
use crate::reading::Reading;
use crate::splitting::{WordSpan, split};
use crate::stage::{Place, Role};
use crate::words::Words;
use ct_sd::Record;
use mc_base::{Kind, NoMemory};
use std::alloc::Global;

/// Where the next joined line begins, from 0, and where its reader is in the blocks.
#[derive(Clone, Copy)]
pub struct Next {
    pub line: u32,
    pub at: Place,
}

/// Reads a joined line with this text. Answers where the reader is behind it; none where nothing behind it is looked at.
#[tactic(auto, unfolding(crate::specs::Blocks::passed_text))]
fn read_text(
    text: &[u8],
    place: u32,
    at: Place,
    spans: &mut Vec<WordSpan>,
    reading: &mut Reading,
) -> Result<Option<Place>, NoMemory>
    requires { length reading.old.indices < 2 ^ 32 }
    ensures behind { IfOk result (λ behind. behind ≡ (passed_text place text.now at).place) }
    ensures after { OnOk result (reading.new ≡ after_item (passed_text place text.now at).item reading.old) }
    ensures few { OnOk result (HasOneMore reading.old reading.new) }
{
    if at.stage.is_rest() {
        return Ok(Some(at));
    }
    if !split(text, spans)? {
        reading.faults.note(Kind::BadField, place);
        return Ok(None);
    }
    let words = Words::new(text, spans);
    let step = at.step(&words);
    reading.read(step.role, &words, place)?;
    match step.role {
        Role::Wrong => Ok(None),
        _ => Ok(Some(step.behind)),
    }
}

/// A text of several lines, and the words of a line, one after the other.
#[derive(Drop)]
struct Room {
    text: Vec<u8>,
    spans: Vec<WordSpan>,
}

/// Reads the joined line that begins at line k, from 0.
fn read_joined(
    given: &Record<'_>,
    k: u32,
    end: u32,
    at: Place,
    room: &mut Room,
    reading: &mut Reading,
) -> Result<Option<Next>, NoMemory>
    requires before { k < end }
    requires within { end < length given.now }
    requires small { length given.now < 2 ^ 32 }
    requires indices { length reading.old.indices < 2 ^ 32 }
    ensures step { IfOk result (λ next. IsStep given.now end k at reading.old next reading.new) }
    ensures few { OnOk result (HasOneMore reading.old reading.new) }
{
    let line = given.line(k);
    if is_whole(line) {
        read_whole(given, k, end, at, line, room, reading)
    } else {
        read_longer(given, k, end, at, room, reading)
    }
}

/// Reads a joined line that is one line.
#[tactic(auto, using(crate::proofs::JoinSteps::one_whole))]
fn read_whole(
    given: &Record<'_>,
    k: u32,
    end: u32,
    at: Place,
    line: &[u8],
    room: &mut Room,
    reading: &mut Reading,
) -> Result<Option<Next>, NoMemory>
    requires before { k < end }
    requires within { end < length given.now }
    requires small { length given.now < 2 ^ 32 }
    requires indices { length reading.old.indices < 2 ^ 32 }
    requires line { line.now ≡ get_or given.now k [] }
    requires whole { is_whole line.now ≡ true }
    ensures step { IfOk result (λ next. IsStep given.now end k at reading.old next reading.new) }
    ensures few { OnOk result (HasOneMore reading.old reading.new) }
{
    let text = text_behind(line);
    match read_text(text, k + 1, at, &mut room.spans, reading)? {
        Some(at) => Ok(Some(Next { line: k + 1, at })),
        None => Ok(None),
    }
}

/// Reads a joined line of more lines than one, or one that breaks off.
fn read_longer(
    given: &Record<'_>,
    k: u32,
    end: u32,
    at: Place,
    room: &mut Room,
    reading: &mut Reading,
) -> Result<Option<Next>, NoMemory>
    requires before { k < end }
    requires within { end < length given.now }
    requires small { length given.now < 2 ^ 32 }
    requires indices { length reading.old.indices < 2 ^ 32 }
    ensures step { IfOk result (λ next. IsStep given.now end k at reading.old next reading.new) }
    ensures few { OnOk result (HasOneMore reading.old reading.new) }
{
    match join(given, k, end, &mut room.text)? {
        Found::Broken(place) => {
            reading.faults.note(Kind::BadField, place);
            Ok(None)
        }
        Found::Whole(line) => {
            match read_text(&room.text, k + 1, at, &mut room.spans, reading)? {
                Some(at) => Ok(Some(Next { line, at })),
                None => Ok(None),
            }
        }
    }
}

/// Reads the lines behind the first four, before the line that ends the table.
pub fn read_lines(
    alloc: Global,
    given: &Record<'_>,
    end: u32,
    reading: &mut Reading,
) -> Result<(), NoMemory>
    requires header { 4 ≤ end }
    requires within { end < length given.now }
    requires small { length given.now < 2 ^ 32 }
    requires few { IsFew 4 reading.old }
    ensures after { OnOk result (reading.new ≡ after_items (to_come given.now end 4 (Some start)) reading.old) }
    ensures few { OnOk result (IsFew (end + 1) reading.new) }
{
    let mut room = Room {
        text: Vec::new(alloc),
        spans: Vec::new(alloc),
    };
    let mut next = Next {
        line: 4,
        at: Place::start(),
    };
    while next.line < end {
        match read_joined(given, next.line, end, next.at, &mut room, reading)? {
            Some(behind) => next = behind,
            None => return Ok(()),
        }
    }
    if !next.at.stage.may_end() {
        reading.faults.note(Kind::BadField, end + 1);
    }
    Ok(())
}
