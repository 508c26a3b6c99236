//! Passes a record that is too long, of which nothing is kept.

ghost use Rattle.std.specs.Prelude.{◌≡◌, ◌+◌, ◌<◌, ◌≤◌, ◌^◌, [], IfErr, IfOk, None, length, take, drop};
ghost use Rattle.mc_io.specs.Outside.{SameBut};
ghost use Rattle.ct_sd.specs.LinesSoFar.{after, is_long_so_far, none_yet};
ghost use Rattle.ct_sd.specs.FoundRecords.{HasFewBehind, Passes, Spoils, Stops, kind_behind, kind_of, last_kind, most_room, passing_behind};
ghost use Rattle.ct_sd.specs.Records.{most_record_bytes};

use crate::line_so_far::LineSoFar;
use crate::record_front::MAX_RECORD;
use mc_base::Kind;
use mc_io::{InputBuffer, ReadStop, Source, first_feed};

/// What is known of a record that is passed.
#[derive(Clone, Copy)]
pub struct Passing {
    /// the line so far
    line: LineSoFar,
    /// whether a line before it says something
    said: bool,
    /// the kind that stands; none within the line that makes the record too long
    kind: Option<Kind>,
}

/// The kind of a line that makes its record too long, and begins behind so many bytes.
fn kind_of(at: usize, long: bool) -> Kind
    ensures { result ≡ kind_of at long }
{
    if at < MAX_RECORD && long {
        Kind::LineTooLong
    } else {
        Kind::RecordTooLong
    }
}

impl Passing {
    fn new(said: bool) -> Passing
        ensures { result ≡ record { line = none_yet; said = said; kind = None } }
    {
        Passing {
            line: LineSoFar::none(),
            said,
            kind: None,
        }
    }

    /// The kind that stands behind the line.
    fn kind_behind(self, at: usize) -> Kind
        ensures { result ≡ kind_behind self.kind at (is_long_so_far self.line) }
    {
        match self.kind {
            Some(kind) => kind,
            None => kind_of(at, self.line.is_long()),
        }
    }

    /// The kind that stands where the input has ended, and none where it ends with no record.
    fn last_kind(self, at: usize) -> Option<Kind>
        ensures { result ≡ last_kind self at }
    {
        if self.line.ends_record() || self.said || self.line.says_something() {
            Some(self.kind_behind(at))
        } else {
            None
        }
    }

    /// The next line.
    fn next(self, kind: Kind) -> Passing
        ensures { result ≡ passing_behind self self.line kind }
    {
        Passing {
            line: LineSoFar::none(),
            said: self.said || self.line.says_something(),
            kind: Some(kind),
        }
    }

    /// Passes all that is held, which is a part of a line.
    fn pass_part(&mut self, buffer: &mut InputBuffer)
        requires { self.old.line.len + length buffer.old.held < 2 ^ 64 }
        ensures passing { self.new ≡ record self.old { line = after self.old.line buffer.old.held } }
        ensures buffer { buffer.new ≡ record buffer.old { held = [] } }
    {
        self.line.extend(buffer.held());
        let len = buffer.held().len();
        buffer.pass(len);
    }

    /// Passes the rest of a line, of so many bytes, and its line feed.
    fn pass_line(&mut self, buffer: &mut InputBuffer, len: usize)
        requires within { len < length buffer.old.held }
        requires small { self.old.line.len + length buffer.old.held < 2 ^ 64 }
        ensures passing { self.new ≡ record self.old { line = after self.old.line (take len buffer.old.held) } }
        ensures buffer { buffer.new ≡ record buffer.old { held = drop (len + 1) buffer.old.held } }
    {
        self.line.extend(&buffer.held()[..len]);
        buffer.pass(len + 1);
    }
}

/// Passes the rest of a record, from the line on that makes it too long and begins behind so many bytes, and gives the kind
/// that stands by it; none where the rest of the input is no record.
pub fn pass_record<S: Source>(
    at: usize,
    said: bool,
    buffer: &mut InputBuffer,
    source: &mut S,
) -> Result<Option<Kind>, ReadStop>
    requires short { at ≤ most_record_bytes }
    requires small { buffer.old.taken < 2 ^ 64 }
    requires held { length buffer.old.held ≤ buffer.old.taken }
    requires spoils { Spoils at buffer.old.held buffer.old.ended }
    requires few { HasFewBehind buffer.old.held }
    requires room { buffer.old.room ≤ most_room }
    ensures passes { IfOk result (λ kind. Passes S.LIMIT at said kind buffer.old buffer.new (S.inputs source.old buffer.old.input) (S.inputs source.new buffer.old.input)) }
    ensures stops { IfErr result (λ stop. Stops S.LIMIT stop buffer.old buffer.new (S.inputs source.old buffer.old.input) (S.inputs source.new buffer.old.input)) }
    ensures input { buffer.new.input ≡ buffer.old.input }
    ensures room { buffer.new.room ≤ most_room }
    ensures others { SameBut buffer.old.input (S.inputs source.old) (S.inputs source.new) }
{
    let mut passing = Passing::new(said);
    loop {
        if let Some(len) = first_feed(buffer.held(), 0) {
            passing.pass_line(buffer, len);
            let kind = passing.kind_behind(at);
            if passing.line.ends_record() {
                return Ok(Some(kind));
            }
            passing = passing.next(kind);
        } else {
            passing.pass_part(buffer);
            if buffer.has_ended() {
                return Ok(passing.last_kind(at));
            }
            buffer.read_more(source)?;
        }
    }
}
