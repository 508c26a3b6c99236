ghost use Rattle.std.specs.Prelude.{◌≡◌, ◌+◌, ◌≤◌, length, take, drop};
ghost use Rattle.smi_mean.specs.Lines.{text_of, name_of};

use memchr::memchr2;

/// Where the text of a line ends: at its first blank, or with the line.
pub fn text_end(line: &[u8]) -> usize
    ensures within { result ≤ length line.now }
    ensures text { take result line.now ≡ text_of line.now }
    ensures name { drop (result + 1) line.now ≡ name_of line.now }
{
    match memchr2(b' ', b'\t', line) {
        Some(blank) => blank,
        None => line.len(),
    }
}
