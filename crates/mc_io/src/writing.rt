ghost use Rattle.std.specs.Prelude.{◌<◌, length, OnOk, OnErr};
ghost use Rattle.mc_io.specs.Outside.{Gets, GetsPart, Outputs, Writes};

use mc_base::Failed;

/// What a run writes: the outputs 0 and 1.
pub trait Sink {
    /// What is told of the outputs.
    ghost outputs: { Self → Outputs };

    /// Adds bytes from the front of a piece to what an output holds.
    fn write(&mut self, output: u32, piece: &[u8]) -> Result<usize, Failed>
        requires output { output < 2 }
        requires some { 0 < length piece.now }

        ensures { Writes output (outputs self.old) (outputs self.new) result piece.now };
}

/// Writes a piece whole, by as many writes as it takes. It ends at the first that fails, and then
/// the output holds a part of the piece.
pub fn put_all<K: Sink>(sink: &mut K, output: u32, piece: &[u8]) -> Result<(), Failed>
    requires { output < 2 }

    ensures all { OnOk result (Gets output (K.outputs sink.old) (K.outputs sink.new) piece.now) }
    ensures part { OnErr result (GetsPart output (K.outputs sink.old) (K.outputs sink.new) piece.now) }
{
    let mut at = 0usize;
    while at < piece.len() {
        let count = sink.write(output, &piece[at..])?;
        at += count;
    }
    Ok(())
}
