ghost use Rattle.std.specs.Prelude.{◌≤◌};

use crate::Sink;
use crate::failing_calls::FailingCalls;
use crate::room::Room;
use mc_base::{Failed, NoMemory};
use std::alloc::Global;

/// Outputs in memory that take pieces, with writes that fail at chosen calls and where no room is left.
#[derive(Drop)]
pub struct MemorySink {
    outputs: [Room; 2],
    piece: usize,
    failing: FailingCalls,
    faults: u64,
    ghost some: { 1 ≤ piece },
}

impl MemorySink {
    ghost use Rattle.std.specs.Prelude.{ℕ, ◌≡◌, ◌≤◌, ◌<◌, [], Some, IfOk};
    ghost use Rattle.mc_io.specs.MemorySink.{held, outputs_of, room_left, greatest_piece, failing_calls, calls_made};

    /// A sink with room for `room` bytes at each output, which takes at most `piece` bytes at a write, and
    /// fails at the calls whose numbers, from 1, are listed.
    pub fn new(
        alloc: Global,
        room: usize,
        piece: usize,
        fail: Vec<u64>,
    ) -> Result<MemorySink, NoMemory>
        requires { 1 ≤ piece }

        ensures held { IfOk result (λ sink. (o : ℕ) → o < 2 → held sink o ≡ Some []) }
        ensures room { IfOk result (λ sink. (o : ℕ) → o < 2 → room_left sink o ≡ room) }
        ensures faults { IfOk result (λ sink. (outputs_of sink).faults ≡ 0) }
        ensures piece { IfOk result (λ sink. greatest_piece sink ≡ piece) }
        ensures fail { IfOk result (λ sink. failing_calls sink ≡ fail.items) }
        ensures calls { IfOk result (λ sink. calls_made sink ≡ 0) }
    {
        Ok(MemorySink {
            outputs: [Room::new(alloc, room)?, Room::new(alloc, room)?],
            piece,
            failing: FailingCalls::new(fail),
            faults: 0,
        })
    }

    /// What an output holds.
    pub fn bytes(&self, output: u32) -> &[u8]
        requires { output < 2 }
        ensures { held self.now output ≡ Some result.now }
    {
        self.outputs[output as usize].held()
    }
}

impl Sink for MemorySink {
    ghost use Rattle.std.specs.Prelude.{ℕ, ◌≡◌, ◌<◌, ◌↔◌, ◌+◌, ◌⊎◌, Contains, IfOk, IsErr, is_err, MatchResult, if◌then◌else◌, length};
    ghost use Rattle.mc_io.specs.Causes.{one_more};
    ghost use Rattle.mc_io.specs.Outside.{SameBut, Writes};
    ghost use Rattle.mc_io.specs.MemorySink.{outputs_of, room_left, greatest_piece, failing_calls, calls_made, accepted};

    ghost outputs = { outputs_of };

    fn write(&mut self, output: u32, piece: &[u8]) -> Result<usize, Failed>
        requires output { output < 2 }
        requires some { 0 < length piece.now }

        ensures writes { Writes output (outputs_of self.old) (outputs_of self.new) result piece.now }

        // It fails exactly at the listed calls and where no room is left, and takes as much as it may at the others.
        ensures fails { IsErr result ↔ (Contains (failing_calls self.old) (calls_made self.old + 1) ⊎ (room_left self.old output ≡ 0)) }
        ensures accepted { IfOk result (λ n. n ≡ accepted self.old output (length piece.now)) }
        ensures fault { (outputs_of self.new).faults ≡ (if is_err result then one_more (outputs_of self.old).faults else (outputs_of self.old).faults) }
        ensures room { MatchResult result (λ n. room_left self.new output + n ≡ room_left self.old output)
            (λ _. room_left self.new output ≡ room_left self.old output) }
        ensures room_others { SameBut output (room_left self.old) (room_left self.new) }
        ensures calls { calls_made self.new ≡ one_more (calls_made self.old) }
        ensures fail { failing_calls self.new ≡ failing_calls self.old }
        ensures piece { greatest_piece self.new ≡ greatest_piece self.old }
    {
        let fails = self.failing.next_fails();
        let count = if fails {
            0
        } else {
            self.outputs[output as usize].put(piece, self.piece)
        };
        if count == 0 {
            self.faults = self.faults.saturating_add(1);
            return Err(Failed);
        }
        Ok(count)
    }
}
