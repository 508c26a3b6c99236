//! Finds the record at the front of an input, as far as it is within the limits.

ghost use Rattle.std.specs.Prelude.{◌≡◌, ◌+◌, ◌<◌, ◌≤◌, ◌^◌, ◌++◌, ◌∷◌, [], List, ℕ, OnOk, IfOk, IfErr, length, not, All};
ghost use Rattle.std.specs.List.{list_any};
ghost use Rattle.mc_io.specs.Buffered.{most_read};
ghost use Rattle.mc_io.specs.Outside.{SameBut};
ghost use Rattle.mc_base.specs.declared.span.Span.{Span as Range};
ghost use Rattle.ct_sd.specs.Columns.{is_blank_text};
ghost use Rattle.ct_sd.specs.Ranges.{part};
ghost use Rattle.ct_sd.specs.Records.{most_record_bytes, piece_of};
ghost use Rattle.ct_sd.specs.FoundRecords.{HasMet, IsFound, IsLast, IsLastPushed, IsScanned, IsSearched, Looks, Plays, Reaches, Stops, front_of, most_room, role_by, too_long_by};

use crate::record::part;
use crate::text::is_blank_text;
use mc_base::{Kind, NoMemory, Span};
use mc_io::{InputBuffer, ReadStop, Source, first_feed, is_long, text_len};

/// The most bytes of a record, its line ends and its end line counted.
pub const MAX_RECORD: usize = 16_777_216;

/// What a line is for its record.
#[derive(Clone, Copy)]
pub enum LineRole {
    /// one of its lines, with a text of so many bytes
    Line(usize),
    /// the line that ends it
    End,
    /// a line that makes it too long
    TooLong,
}

/// Which kind stands first by a line that begins behind so many bytes and ends behind so many.
pub fn too_long_by(before: usize, behind: usize, long: bool) -> Option<Kind>
    ensures { result ≡ too_long_by before behind long }
{
    if before < MAX_RECORD && long {
        Some(Kind::LineTooLong)
    } else if behind > MAX_RECORD {
        Some(Kind::RecordTooLong)
    } else {
        None
    }
}

fn role_by(kind: Option<Kind>, ends: bool, text: usize) -> LineRole
    ensures { result ≡ role_by kind ends text }
{
    match kind {
        Some(_) => LineRole::TooLong,
        None if ends => LineRole::End,
        None => LineRole::Line(text),
    }
}

/// What a line with this piece is for its record: so many bytes of the record stand before it, and so many up to its end.
#[tactic(auto, using(crate::proofs::LineRoles::plays_role))]
fn role_of(piece: &[u8], before: usize, behind: usize) -> LineRole
    requires within { before ≤ most_record_bytes }
    ensures { (whole : List ℕ) → piece_of whole ≡ piece.now → behind ≡ before + length whole → Plays result before whole }
{
    let text = text_len(piece);
    let long = is_long(piece.len(), text);
    let ends = piece.starts_with(b"$$$$");
    role_by(too_long_by(before, behind, long), ends, text)
}

/// How far the bytes of a record are scanned.
#[derive(Clone, Copy)]
pub struct Scan {
    /// where the line begins that is looked for
    pub at: usize,
    /// no line feed stands between there and here: no byte is looked at twice
    pub searched: usize,
}

/// A line that isn't one of a record's own.
#[derive(Clone, Copy)]
pub enum Met {
    /// the record ends behind so many bytes
    End(usize),
    /// it makes the record too long
    TooLong,
}

/// Adds the range of a line.
fn push_range(ranges: &mut Vec<Span>, at: usize, text: usize) -> Result<(), NoMemory>
    requires { at + text < 2 ^ 32 }
    ensures { OnOk result (ranges.new.items ≡ ranges.old.items ++ record { from = at; to = at + text } ∷ []) }
{
    ranges.push(Span {
        from: at as u32,
        to: (at + text) as u32,
    })?;
    Ok(())
}

/// Adds the ranges of the lines that are held whole, up to the first that isn't one of the record's own.
fn scan_lines(held: &[u8], scan: &mut Scan, ranges: &mut Vec<Span>) -> Result<Option<Met>, NoMemory>
    requires { IsScanned held.now scan.old ranges.old.items }
    ensures met { IfOk result (λ met. HasMet met held.now scan.new ranges.new.items) }
    ensures later { IfOk result (λ _. scan.old.searched ≤ scan.new.searched) }
{
    while let Some(len) = first_feed(&held[scan.at..], scan.searched - scan.at) {
        let at = scan.at;
        let to = at + len;
        let behind = to + 1;
        match role_of(&held[at..to], at, behind) {
            LineRole::Line(text) => {
                push_range(ranges, at, text)?;
                *scan = Scan {
                    at: behind,
                    searched: behind,
                };
            }
            LineRole::End => return Ok(Some(Met::End(behind))),
            LineRole::TooLong => return Ok(Some(Met::TooLong)),
        }
    }
    scan.searched = held.len();
    Ok(None)
}

/// What stands at the front of an input.
#[derive(Clone, Copy)]
pub enum Front {
    /// a record of so many bytes
    Record(usize),
    /// a record that is too long by the line that begins behind so many bytes
    TooLong(usize),
    /// the rest of the input, which is no record
    Nothing,
}

fn front_of(met: Met, at: usize) -> Front
    ensures { result ≡ front_of met at }
{
    match met {
        Met::End(behind) => Front::Record(behind),
        Met::TooLong => Front::TooLong(at),
    }
}

/// Whether one of these parts has a byte other than space and tab.
pub fn say_something(held: &[u8], ranges: &[Span]) -> bool
    requires { All (λ (r : Range). (r.from ≤ r.to) × (r.to ≤ length held.now)) ranges.now }
    ensures { result ≡ list_any (λ (r : Range). not (is_blank_text (part held.now r))) ranges.now }
{
    for range in ranges {
        if !is_blank_text(part(held, *range)) {
            return true;
        }
    }
    false
}

/// Adds the range of the last line, where no line feed stands behind it and it is one of a record's own.
#[tactic(auto, using(crate::proofs::LastRuns::open_none))]
fn push_last(held: &[u8], at: usize, ranges: &mut Vec<Span>) -> Result<Option<Front>, NoMemory>
    requires { IsSearched held.now at ranges.old.items }
    ensures { IfOk result (λ front. IsLastPushed front held.now ranges.new.items) }
{
    if at >= held.len() {
        return Ok(None);
    }
    match role_of(&held[at..], at, held.len()) {
        LineRole::Line(text) => {
            push_range(ranges, at, text)?;
            Ok(None)
        }
        LineRole::End => Ok(Some(Front::Record(held.len()))),
        LineRole::TooLong => Ok(Some(Front::TooLong(at))),
    }
}

/// What the last run of lines is, which is all that is held.
#[tactic(auto, using(crate::proofs::LastRuns::open_record, crate::proofs::LastRuns::open_nothing, crate::proofs::FedLines::spans_within, crate::proofs::FedLines::say_is))]
fn last_run(held: &[u8], at: usize, ranges: &mut Vec<Span>) -> Result<Front, NoMemory>
    requires { IsSearched held.now at ranges.old.items }
    ensures { IfOk result (λ front. IsLast front held.now ranges.new.items) }
{
    match push_last(held, at, ranges)? {
        Some(front) => Ok(front),
        None if say_something(held, ranges) => Ok(Front::Record(held.len())),
        None => Ok(Front::Nothing),
    }
}

/// Scans the lines that are held, up to the front of the input or to their end.
#[tactic(auto, using(crate::proofs::Finding::found_met, crate::proofs::Finding::found_over, crate::proofs::Finding::found_last, crate::proofs::LastRuns::searched_is))]
fn found(
    held: &[u8],
    ended: bool,
    scan: &mut Scan,
    ranges: &mut Vec<Span>,
) -> Result<Option<Front>, NoMemory>
    requires scanned { IsScanned held.now scan.old ranges.old.items }
    requires few { length held.now ≤ scan.old.searched + most_read }
    ensures looks { IfOk result (λ front. Looks front held.now ended scan.new ranges.new.items) }
    ensures later { IfOk result (λ _. scan.old.searched ≤ scan.new.searched) }
{
    if let Some(met) = scan_lines(held, scan, ranges)? {
        return Ok(Some(front_of(met, scan.at)));
    }
    if ended {
        return Ok(Some(last_run(held, scan.at, ranges)?));
    }
    if held.len() > MAX_RECORD {
        return Ok(Some(Front::TooLong(scan.at)));
    }
    Ok(None)
}

/// Finds what stands at the front of an input. Reads only where the buffer holds no whole record.
pub fn find_front<S: Source>(
    buffer: &mut InputBuffer,
    source: &mut S,
    ranges: &mut Vec<Span>,
) -> Result<Front, ReadStop>
    requires none { ranges.old.items ≡ [] }
    requires small { buffer.old.taken < 2 ^ 64 }
    requires few { length buffer.old.held ≤ most_read }
    requires room { buffer.old.room ≤ most_room }
    ensures reaches { IfOk result (λ front. Reaches S.LIMIT buffer.old buffer.new (S.inputs source.old buffer.old.input) (S.inputs source.new buffer.old.input)) }
    ensures front { IfOk result (λ front. IsFound front buffer.new.held buffer.new.ended ranges.new.items) }
    ensures stops { IfErr result (λ stop. Stops S.LIMIT stop buffer.old buffer.new (S.inputs source.old buffer.old.input) (S.inputs source.new buffer.old.input)) }
    ensures input { buffer.new.input ≡ buffer.old.input }
    ensures room { buffer.new.room ≤ most_room }
    ensures others { SameBut buffer.old.input (S.inputs source.old) (S.inputs source.new) }
{
    let mut scan = Scan { at: 0, searched: 0 };
    loop {
        match found(buffer.held(), buffer.has_ended(), &mut scan, ranges) {
            Ok(Some(front)) => return Ok(front),
            Ok(None) => {}
            Err(_) => return Err(ReadStop::NoMemory),
        }
        buffer.read_more(source)?;
    }
}
