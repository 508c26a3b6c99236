use crate::Source;
use crate::failing_calls::FailingCalls;
use crate::inputs::Inputs;
use mc_base::Failed;

/// Inputs in memory that are given in pieces, with reads that fail at chosen calls.
#[derive(Drop)]
pub struct MemorySource<const LIMIT: u64> {
    inputs: Inputs,
    failing: FailingCalls,
    faults: [u64; 3],
}

impl<const LIMIT: u64> MemorySource<LIMIT> {
    ghost use Rattle.std.specs.Prelude.{ℕ, ◌≡◌, ◌≤◌, Some};
    ghost use Rattle.mc_io.specs.Inputs.{bytes_at};
    ghost use Rattle.mc_io.specs.Outside.{unread};
    ghost use Rattle.mc_io.specs.MemorySource.{inputs_of, greatest_piece, failing_calls, calls_made};

    /// A source that gives at most `piece` bytes at a read, and fails at the calls whose numbers, from 1,
    /// are listed.
    pub fn new(inputs: Vec<Vec<u8>>, piece: usize, fail: Vec<u64>) -> MemorySource<LIMIT>
        requires { 1 ≤ piece }

        ensures inputs { (i : ℕ) → inputs_of result i ≡ unread (Some (bytes_at inputs.items i)) }
        ensures piece { greatest_piece result ≡ piece }
        ensures fail { failing_calls result ≡ fail.items }
        ensures calls { calls_made result ≡ 0 }
    {
        MemorySource {
            inputs: Inputs::new(inputs, piece),
            failing: FailingCalls::new(fail),
            faults: [0; 3],
        }
    }
}

impl<const LIMIT: u64> Source for MemorySource<LIMIT> {
    ghost use Rattle.std.specs.Prelude.{ℕ, ◌≡◌, ◌<◌, ◌↔◌, ◌+◌, Contains, IfOk, IsErr, is_err, if◌then◌else◌, length};
    ghost use Rattle.mc_io.specs.Causes.{one_more};
    ghost use Rattle.mc_io.specs.Outside.{Reads, SameBut};
    ghost use Rattle.mc_io.specs.MemorySource.{inputs_of, greatest_piece, failing_calls, calls_made, given};

    ghost LIMIT = { LIMIT };

    ghost inputs = { inputs_of };

    const LIMIT: u64 = LIMIT;

    fn read(&mut self, input: u32, into: &mut [u8]) -> Result<usize, Failed>
        requires input { input < 3 }
        requires room { 0 < length into.old }

        ensures reads { Reads (inputs_of self.old input) (inputs_of self.new input) result into.new }
        ensures others { SameBut input (inputs_of self.old) (inputs_of self.new) }

        // It fails exactly at the listed calls, and gives as much as it may at the others.
        ensures fails { IsErr result ↔ Contains (failing_calls self.old) (calls_made self.old + 1) }
        ensures calls { calls_made self.new ≡ one_more (calls_made self.old) }
        ensures given { IfOk result (λ n. n ≡ given self.old input (length into.old)) }
        ensures fault { (inputs_of self.new input).faults ≡ (if is_err result then one_more (inputs_of self.old input).faults else (inputs_of self.old input).faults) }
        ensures fail { failing_calls self.new ≡ failing_calls self.old }
        ensures piece { greatest_piece self.new ≡ greatest_piece self.old }
    {
        if self.failing.next_fails() {
            self.inputs.miss(input);
            let i = input as usize;
            self.faults[i] = self.faults[i].saturating_add(1);
            return Err(Failed);
        }
        Ok(self.inputs.take(input, into))
    }
}
