use crate::Sink;
use mc_base::Failed;

/// A sink that takes every piece whole and keeps none of it.
#[derive(Clone, Copy, Debug, Default)]
pub struct SafeSink;

impl SafeSink {
    pub fn new() -> SafeSink {
        SafeSink
    }
}

impl Sink for SafeSink {
    ghost use Rattle.std.specs.Prelude.{◌≡◌, ◌<◌, None, length};

    ghost outputs = { λ _. record { held = λ _. None; faults = 0 } };

    fn write(&mut self, output: u32, piece: &[u8]) -> Result<usize, Failed>
        requires output { output < 2 }
        requires some { 0 < length piece.now }

        ensures { result ≡ Ok (length piece.now) }
    {
        Ok(piece.len())
    }
}
