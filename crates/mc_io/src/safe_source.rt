use crate::Source;
use crate::inputs::Inputs;
use mc_base::Failed;

/// Inputs in memory that are given in pieces, with no read that fails.
#[derive(Drop)]
pub struct SafeSource<const LIMIT: u64> {
    inputs: Inputs,
}

impl<const LIMIT: u64> SafeSource<LIMIT> {
    ghost use Rattle.std.specs.Prelude.{ℕ, ◌≡◌, ◌≤◌, Some};
    ghost use Rattle.mc_io.specs.Inputs.{bytes_at};
    ghost use Rattle.mc_io.specs.Outside.{unread};
    ghost use Rattle.mc_io.specs.SafeSource.{inputs_of, greatest_piece};

    /// A source that gives at most `piece` bytes at a read.
    pub fn new(inputs: Vec<Vec<u8>>, piece: usize) -> SafeSource<LIMIT>
        requires { 1 ≤ piece }

        ensures inputs { (i : ℕ) → inputs_of result i ≡ unread (Some (bytes_at inputs.items i)) }
        ensures piece { greatest_piece result ≡ piece }
    {
        SafeSource {
            inputs: Inputs::new(inputs, piece),
        }
    }
}

impl<const LIMIT: u64> Source for SafeSource<LIMIT> {
    ghost use Rattle.std.specs.Prelude.{ℕ, ◌≡◌, ◌<◌, length};
    ghost use Rattle.mc_io.specs.Outside.{Reads, SameBut};
    ghost use Rattle.mc_io.specs.SafeSource.{inputs_of, greatest_piece, given};

    ghost LIMIT = { LIMIT };

    ghost inputs = { inputs_of };

    const LIMIT: u64 = LIMIT;

    fn read(&mut self, input: u32, into: &mut [u8]) -> Result<usize, Failed>
        requires input { input < 3 }
        requires room { 0 < length into.old }

        ensures reads { Reads (inputs_of self.old input) (inputs_of self.new input) result into.new }
        ensures others { SameBut input (inputs_of self.old) (inputs_of self.new) }

        // It never fails, and gives as much as it may.
        ensures given { result ≡ Ok (given self.old input (length into.old)) }
        ensures piece { greatest_piece self.new ≡ greatest_piece self.old }
    {
        Ok(self.inputs.take(input, into))
    }
}
