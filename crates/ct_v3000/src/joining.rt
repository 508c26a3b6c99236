ghost use Rattle.std.specs.Prelude.{◌≡◌, ◌<◌, ◌≤◌, ◌^◌, length, true, IfOk};
ghost use Rattle.ct_v3000.specs.Joined.{has_prefix, text_behind, goes_on, is_whole, without_last};
ghost use Rattle.ct_v3000.specs.Steps.{IsFound};

use ct_sd::{Record, begins_with};
use mc_base::NoMemory;

/// What is found where a joined line begins.
#[derive(Clone, Copy, Debug, PartialEq, Eq)]
pub enum Found {
    /// its text; the next line, from 0
    Whole(u32),
    /// the number of the line, from 1, at which it breaks off
    Broken(u32),
}

#[tactic(auto, unfolding(crate::specs::Joined::has_prefix))]
fn has_prefix(line: &[u8]) -> bool
    ensures { result ≡ has_prefix line.now }
{
    begins_with(line, b"M  V30 ")
}

/// The text behind the prefix.
#[tactic(auto, using(crate::proofs::JoinSteps::short_line), unfolding(crate::specs::Joined::text_behind))]
pub fn text_behind(line: &[u8]) -> &[u8]
    ensures { result.now ≡ text_behind line.now }
{
    if line.len() < 7 { &[] } else { &line[7..] }
}

#[tactic(auto, unfolding(crate::specs::Joined::goes_on))]
fn goes_on(text: &[u8]) -> bool
    ensures { result ≡ goes_on text.now }
{
    !text.is_empty() && text[text.len() - 1] == b'-'
}

/// Whether a line is a joined line by itself.
pub fn is_whole(line: &[u8]) -> bool
    ensures { result ≡ is_whole line.now }
{
    has_prefix(line) && !goes_on(text_behind(line))
}

/// A text that goes on, without its last byte.
#[tactic(auto, unfolding(crate::specs::Joined::without_last, crate::specs::Joined::goes_on))]
fn without_last(text: &[u8]) -> &[u8]
    requires { goes_on text.now ≡ true }
    ensures { result.now ≡ without_last text.now }
{
    &text[..text.len() - 1]
}

/// Joins the lines that begin at line k, from 0, before the line that ends the table.
#[tactic(auto, using(crate::proofs::JoinSteps::first_begun, crate::proofs::JoinSteps::ends_whole, crate::proofs::JoinSteps::goes_further, crate::proofs::JoinSteps::breaks, crate::proofs::JoinSteps::breaks_at_end))]
pub fn join(given: &Record<'_>, k: u32, end: u32, text: &mut Vec<u8>) -> Result<Found, NoMemory>
    requires before { k < end }
    requires within { end < length given.now }
    requires small { length given.now < 2 ^ 32 }
    ensures { IfOk result (λ found. IsFound given.now end k found text.new.items) }
{
    text.clear();
    let mut next = k;
    while next < end {
        let line = given.line(next);
        if !has_prefix(line) {
            return Ok(Found::Broken(next + 1));
        }
        let part = text_behind(line);
        next += 1;
        if !goes_on(part) {
            text.extend_from_slice(part)?;
            return Ok(Found::Whole(next));
        }
        text.extend_from_slice(without_last(part))?;
    }
    Ok(Found::Broken(end + 1))
}
