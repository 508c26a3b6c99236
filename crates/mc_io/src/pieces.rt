ghost use Rattle.std.specs.Prelude.{◌≡◌, ◌≤◌, length, min, take, drop};
ghost use Rattle.mc_io.specs.Inputs.{bytes_at};

/// What an input has behind a place.
pub fn left_of(contents: &[Vec<u8>], i: usize, at: usize) -> &[u8]
    ensures { result.now ≡ drop at (bytes_at contents.now i) }
{
    match contents.get(i) {
        Some(bytes) => { if at <= bytes.len() { &bytes[at..] } else { &[] } }
        None => &[],
    }
}

/// Copies the front of `from` into `into`, at most `piece` bytes, and counts them.
pub fn copy_front(from: &[u8], into: &mut [u8], piece: usize) -> usize
    ensures count { result ≡ min (min (length from.now) (length into.old)) piece }
    ensures front { take result into.new ≡ take result from.now }
{
    let count = from.len().min(into.len()).min(piece);
    into[..count].copy_from_slice(&from[..count]);
    count
}
