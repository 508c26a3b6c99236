ghost use Rattle.std.specs.Prelude.{◌≡◌, ◌≤◌, ◌==◌, ◌&&◌, length, nat_lt};
ghost use Rattle.std.specs.List.{list_all};
ghost use Rattle.mc_io.specs.Lines.{carriage_return, most_bytes, text_of};

/// The most bytes of a line, its carriage returns counted and its line feed not.
pub const MAX_LINE: usize = 1_048_576;

/// Whether a line of so many bytes, of which so many are its text, is long: carriage returns alone aren't.
pub fn is_long(bytes: usize, text: usize) -> bool
    ensures { result ≡ (nat_lt most_bytes bytes && nat_lt 0 text) }
{
    bytes > MAX_LINE && text > 0
}

/// Whether bytes are carriage returns alone.
pub fn are_returns(bytes: &[u8]) -> bool
    ensures { result ≡ list_all (λ b. b == carriage_return) bytes.now }
{
    bytes.iter().all(|byte| *byte == b'\r')
}

/// How many bytes stand before the carriage returns at the end.
pub fn text_len(piece: &[u8]) -> usize
    ensures value { result ≡ length (text_of piece.now) }
    ensures within { result ≤ length piece.now }
{
    let mut len = piece.len();
    while len > 0 && piece[len - 1] == b'\r' {
        len -= 1;
    }
    len
}
