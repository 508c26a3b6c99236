//! What is known of a line of which parts were passed and aren't kept.

ghost use Rattle.std.specs.Prelude.{◌≡◌, ◌+◌, ◌<◌, ◌^◌, length};
ghost use Rattle.ct_sd.specs.LinesSoFar.{after, ends_here, is_something, is_long_so_far, none_yet, say, step, want};

use crate::text::is_blank;

/// The most bytes of a line, its carriage returns counted and its line feed not.
const MAX_LINE: u64 = 1_048_576;

/// What the text of a line has so far.
#[derive(Clone, Copy, Debug, PartialEq, Eq)]
pub enum Said {
    /// spaces and tabs alone
    Blanks,
    /// these, and carriage returns behind them, which aren't of its text where the line ends here
    Returns,
    Something,
}

impl Said {
    fn say(self, byte: u8) -> Said
        ensures { result ≡ say self byte }
    {
        match self {
            Said::Blanks if is_blank(byte) => Said::Blanks,
            Said::Blanks | Said::Returns if byte == b'\r' => Said::Returns,
            _ => Said::Something,
        }
    }
}

/// A line so far.
#[derive(Clone, Copy, Debug, PartialEq, Eq)]
pub struct LineSoFar {
    len: u64,
    /// it is carriage returns alone
    returns: bool,
    /// how many `$` more make it a line that ends a record; none where it is another line
    wanted: Option<u8>,
    said: Said,
}

fn want(wanted: Option<u8>, byte: u8) -> Option<u8>
    ensures { result ≡ want wanted byte }
{
    match wanted {
        None => None,
        Some(0) => Some(0),
        Some(more) => { if byte == b'$' { Some(more - 1) } else { None } }
    }
}

impl LineSoFar {
    pub fn none() -> LineSoFar
        ensures { result ≡ none_yet }
    {
        LineSoFar {
            len: 0,
            returns: true,
            wanted: Some(4),
            said: Said::Blanks,
        }
    }

    fn step(&mut self, byte: u8)
        requires { self.old.len + 1 < 2 ^ 64 }
        ensures { self.new ≡ step self.old byte }
    {
        self.len += 1;
        self.returns &= byte == b'\r';
        self.wanted = want(self.wanted, byte);
        self.said = self.said.say(byte);
    }

    /// The next bytes of it.
    pub fn extend(&mut self, part: &[u8])
        requires { self.old.len + length part.now < 2 ^ 64 }
        ensures { self.new ≡ after self.old part.now }
    {
        for byte in part {
            self.step(*byte);
        }
    }

    /// Whether it is longer than a line may be.
    pub fn is_long(self) -> bool
        ensures { result ≡ is_long_so_far self }
    {
        self.len > MAX_LINE && !self.returns
    }

    /// Whether it begins as the line that ends a record.
    pub fn ends_record(self) -> bool
        ensures { result ≡ ends_here self.wanted }
    {
        match self.wanted {
            Some(0) => true,
            Some(_) | None => false,
        }
    }

    /// Whether its text has a byte other than space and tab.
    pub fn says_something(self) -> bool
        ensures { result ≡ is_something self.said }
    {
        match self.said {
            Said::Something => true,
            Said::Blanks | Said::Returns => false,
        }
    }
}
