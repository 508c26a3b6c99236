ghost use Rattle.std.specs.Prelude.{◌≡◌, ◌+◌, ◌<◌, ◌≤◌, ◌^◌, ◌==◌, ◌&&◌, [], false, true, IfErr, IfOk, IfSome, IsNone, OnOk, Ok, None, if◌then◌else◌, length, take, drop};
ghost use Rattle.std.specs.List.{list_all};
ghost use Rattle.mc_io.specs.Buffered.{most_read};
ghost use Rattle.mc_io.specs.FoundLines.{FindsFront, FindsLine, Finds, IsFirstFeed, Stops, most_room, over_long, text_in, text_len};
ghost use Rattle.mc_io.specs.Lines.{carriage_return, has_feed, line_of, most_bytes};
ghost use Rattle.mc_io.specs.Outside.{SameBut};

use crate::Source;
use crate::input_buffer::InputBuffer;
use crate::line_text::{MAX_LINE, are_returns, is_long, text_len};
use crate::read_stop::ReadStop;
use memchr::memchr;

/// A line at the front of the bytes that a buffer holds.
#[derive(Clone, Copy)]
pub struct FoundLine {
    /// how many bytes its text has; none where the line is long
    pub text: Option<usize>,
    /// how many of the bytes that are held are of this line and its end
    pub whole: usize,
}

/// What stands at the front of an input.
#[derive(Clone, Copy)]
enum Front {
    /// so many bytes before a line feed
    Piece(usize),
    /// the rest of the input, with no line feed in it
    Rest,
    /// more bytes than a line may have, with no line feed among them
    Long,
}

/// Finds the line at the front of an input, or none where nothing is left. Reads only where the buffer holds no
/// whole line. What is read of a long line isn't kept.
pub fn find_line<S: Source>(
    buffer: &mut InputBuffer,
    source: &mut S,
) -> Result<Option<FoundLine>, ReadStop>
    requires small { buffer.old.taken < 2 ^ 64 }
    requires few { length buffer.old.held ≤ most_read }
    requires room { buffer.old.room ≤ most_room }
    ensures finds { IfOk result (λ line. FindsLine line buffer.old buffer.new (S.inputs source.old buffer.old.input) (S.inputs source.new buffer.old.input)) }
    ensures stops { IfErr result (λ stop. Stops S.LIMIT stop buffer.old buffer.new (S.inputs source.old buffer.old.input) (S.inputs source.new buffer.old.input)) }
    ensures within { IfOk result (λ _. buffer.old.taken ≤ S.LIMIT → buffer.new.taken ≤ S.LIMIT) }
    ensures small { IfOk result (λ _. buffer.new.taken < 2 ^ 64) }
    ensures unread { has_feed buffer.old.held ≡ true → S.inputs source.new buffer.old.input ≡ S.inputs source.old buffer.old.input }
    ensures room { buffer.new.room ≤ most_room }
    ensures others { SameBut buffer.old.input (S.inputs source.old) (S.inputs source.new) }
{
    match find_front(buffer, source)? {
        Front::Piece(len) => Ok(Some(held_line(&buffer.held()[..len], len + 1))),
        Front::Rest => Ok(last_line(buffer.held())),
        Front::Long => Ok(Some(pass_long(buffer, source)?)),
    }
}

/// Reads until a line feed is held, the end is met, or more is held than a line may have.
fn find_front<S: Source>(buffer: &mut InputBuffer, source: &mut S) -> Result<Front, ReadStop>
    requires small { buffer.old.taken < 2 ^ 64 }
    requires few { length buffer.old.held ≤ most_read }
    requires room { buffer.old.room ≤ most_room }
    ensures front { IfOk result (λ front. FindsFront front buffer.old buffer.new (S.inputs source.old buffer.old.input) (S.inputs source.new buffer.old.input)) }
    ensures stops { IfErr result (λ stop. Stops S.LIMIT stop buffer.old buffer.new (S.inputs source.old buffer.old.input) (S.inputs source.new buffer.old.input)) }
    ensures within { IfOk result (λ _. buffer.old.taken ≤ S.LIMIT → buffer.new.taken ≤ S.LIMIT) }
    ensures small { IfOk result (λ _. buffer.new.taken < 2 ^ 64) }
    ensures unread { has_feed buffer.old.held ≡ true → S.inputs source.new buffer.old.input ≡ S.inputs source.old buffer.old.input }
    ensures room { buffer.new.room ≤ most_room }
    ensures others { SameBut buffer.old.input (S.inputs source.old) (S.inputs source.new) }
{
    // no line feed stands before this place: no byte is looked at twice
    let mut searched = 0usize;
    loop {
        if let Some(len) = first_feed(buffer.held(), searched) {
            return Ok(Front::Piece(len));
        }
        if buffer.has_ended() {
            return Ok(Front::Rest);
        }
        searched = buffer.held().len();
        if searched > MAX_LINE {
            return Ok(Front::Long);
        }
        buffer.read_more(source)?;
    }
}

/// How many bytes stand before the first line feed, where none stands before a place.
pub fn first_feed(bytes: &[u8], from: usize) -> Option<usize>
    requires within { from ≤ length bytes.now }
    requires clear { has_feed (take from bytes.now) ≡ false }
    ensures found { IfSome result (λ n. IsFirstFeed bytes.now n × (from ≤ n)) }
    ensures none { result ≡ None → has_feed bytes.now ≡ false }
{
    match memchr(b'\n', &bytes[from..]) {
        Some(len) => Some(from + len),
        None => None,
    }
}

/// The line of a piece that is held.
fn held_line(piece: &[u8], whole: usize) -> FoundLine
    ensures line { line_of piece.now ≡ text_in result.text piece.now }
    ensures whole { result.whole ≡ whole }
    ensures within { text_len result.text ≤ length piece.now }
{
    let text = text_len(piece);
    let text = if is_long(piece.len(), text) {
        None
    } else {
        Some(text)
    };
    FoundLine { text, whole }
}

/// The last line of an input, where one is left.
fn last_line(rest: &[u8]) -> Option<FoundLine>
    ensures line { IfSome result (λ line. (line_of rest.now ≡ text_in line.text rest.now) × (line.whole ≡ length rest.now) × (0 < length rest.now) × (text_len line.text ≤ line.whole)) }
    ensures none { IsNone result → rest.now ≡ [] }
{
    if rest.is_empty() {
        None
    } else {
        Some(held_line(rest, rest.len()))
    }
}

/// Passes all that is held, and says whether it is carriage returns alone.
fn pass_returns(buffer: &mut InputBuffer) -> bool
    ensures returns { result ≡ list_all (λ b. b == carriage_return) buffer.old.held }
    ensures passed { buffer.new ≡ record buffer.old { held = [] } }
{
    let returns = are_returns(buffer.held());
    let len = buffer.held().len();
    buffer.pass(len);
    returns
}

/// A line that is longer than the limit: one of carriage returns alone is empty.
fn over_long(returns: bool, whole: usize) -> FoundLine
    ensures { result ≡ over_long returns whole }
{
    let text = if returns { Some(0) } else { None };
    FoundLine { text, whole }
}

/// Passes a line of which more is held than a line may have, but for what is read last.
fn pass_long<S: Source>(buffer: &mut InputBuffer, source: &mut S) -> Result<FoundLine, ReadStop>
    requires small { buffer.old.taken < 2 ^ 64 }
    requires going { buffer.old.ended ≡ false }
    requires clear { has_feed buffer.old.held ≡ false }
    requires long { most_bytes < length buffer.old.held }
    requires room { buffer.old.room ≤ most_room }
    ensures finds { IfOk result (λ line. Finds line buffer.old buffer.new (S.inputs source.old buffer.old.input) (S.inputs source.new buffer.old.input)) }
    ensures stops { IfErr result (λ stop. Stops S.LIMIT stop buffer.old buffer.new (S.inputs source.old buffer.old.input) (S.inputs source.new buffer.old.input)) }
    ensures within { IfOk result (λ _. buffer.old.taken ≤ S.LIMIT → buffer.new.taken ≤ S.LIMIT) }
    ensures small { IfOk result (λ _. buffer.new.taken < 2 ^ 64) }
    ensures room { buffer.new.room ≤ most_room }
    ensures others { SameBut buffer.old.input (S.inputs source.old) (S.inputs source.new) }
{
    let mut returns = pass_returns(buffer);
    loop {
        buffer.read_more(source)?;
        if let Some(len) = first_feed(buffer.held(), 0) {
            returns &= are_returns(&buffer.held()[..len]);
            return Ok(over_long(returns, len + 1));
        }
        if buffer.has_ended() {
            return Ok(over_long(returns, 0));
        }
        returns &= pass_returns(buffer);
    }
}
