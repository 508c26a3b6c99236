//! Texts of a line: columns, blanks, beginnings.

ghost use Rattle.std.specs.Prelude.{◌≡◌, ◌≤◌};
ghost use Rattle.mc_digits.specs.Fields.{is_blank};
ghost use Rattle.mc_digits.specs.Fronts.{skip_blanks};
ghost use Rattle.ct_sd.specs.Columns.{cut, columns, begins_with, equals, trim_end, trim, is_blank_text, is_end_line};

/// What stands in these columns, which count from 1, as far as the line goes.
pub fn cut(line: &[u8], from: usize, to: usize) -> &[u8]
    requires from_one { 1 ≤ from }
    requires rising { from ≤ to }
    ensures { result.now ≡ cut from to line.now }
{
    if line.len() < from {
        &[]
    } else if line.len() < to {
        &line[from - 1..]
    } else {
        &line[from - 1..to]
    }
}

pub(crate) fn is_blank(byte: u8) -> bool
    ensures { result ≡ is_blank byte }
{
    byte == b' ' || byte == b'\t'
}

/// Whether a text has spaces and tabs alone.
pub fn is_blank_text(text: &[u8]) -> bool
    ensures { result ≡ is_blank_text text.now }
{
    text.iter().all(|byte| is_blank(*byte))
}

/// Whether a line begins with these bytes; it is read as if spaces followed it.
pub fn begins_with(line: &[u8], head: &[u8]) -> bool
    ensures { result ≡ begins_with head.now line.now }
{
    match (head, line) {
        ([], _) => true,
        ([b, head @ ..], []) => *b == b' ' && begins_with(&[], head),
        ([b, head @ ..], [c, line @ ..]) => *b == *c && begins_with(line, head),
    }
}

/// Whether a line ends a table: it is `M  END` with at most blanks behind it.
pub fn is_end_line(line: &[u8]) -> bool
    ensures { result ≡ is_end_line line.now }
{
    line.starts_with(b"M  END") && is_blank_text(&line[6..])
}

fn skip_blanks(text: &[u8]) -> &[u8]
    ensures { result.now ≡ skip_blanks text.now }
{
    for (i, byte) in text.iter().enumerate() {
        if !is_blank(*byte) {
            return &text[i..];
        }
    }
    &[]
}

fn trim_end(text: &[u8]) -> &[u8]
    ensures { result.now ≡ trim_end text.now }
{
    let mut len = text.len();
    while len > 0 && is_blank(text[len - 1]) {
        len -= 1;
    }
    &text[..len]
}

fn trim(text: &[u8]) -> &[u8]
    ensures { result.now ≡ trim text.now }
{
    trim_end(skip_blanks(text))
}

/// What stands in these columns, without the blanks around it.
#[tactic(auto, using(crate::proofs::Padding::trim_columns))]
pub fn trimmed(line: &[u8], from: usize, to: usize) -> &[u8]
    requires from_one { 1 ≤ from }
    requires rising { from ≤ to }
    ensures { result.now ≡ trim (columns from to line.now) }
{
    trim(cut(line, from, to))
}

/// The same as `==`, for a literal of any length.
pub fn equals(text: &[u8], other: &[u8]) -> bool
    ensures { result ≡ equals text.now other.now }
{
    text == other
}
