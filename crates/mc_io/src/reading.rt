ghost use Rattle.std.specs.Prelude.{ℕ, ◌<◌, length};
ghost use Rattle.mc_io.specs.Outside.{Input, Reads, SameBut};

use mc_base::Failed;

/// What a run reads: the inputs 0, 1 and 2.
pub trait Source {
    ghost LIMIT: { ℕ };

    /// What is told of each input.
    ghost inputs: { Self → ℕ → Input };

    /// How many bytes of one input a run may take.
    const LIMIT: u64;

    /// Takes bytes from the front of what is left of an input. No bytes is its end.
    fn read(&mut self, input: u32, into: &mut [u8]) -> Result<usize, Failed>
        requires input { input < 3 }
        requires room { 0 < length into.old }

        ensures reads { Reads (inputs self.old input) (inputs self.new input) result into.new }

        // Nothing of the other inputs changes.
        ensures others { SameBut input (inputs self.old) (inputs self.new) };
}
