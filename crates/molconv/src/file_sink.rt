ghost use Rattle.std.specs.Prelude.{◌<◌, ◌≤◌, IfOk, length, take};
ghost use Rattle.std.specs.Io.KnownBytes.{Appends};

use mc_base::Failed;
use mc_io::Sink;
use std::io::Write;

/// Standard output as output 0 and standard error as output 1, each flushed after a write. It doesn't tell
/// what they hold.
#[derive(Drop)]
pub struct FileSink<O: Write, E: Write> {
    standard_output: O,
    standard_error: E,
    faults: u64,
}

impl<O: Write, E: Write> FileSink<O, E> {
    ghost use Rattle.std.specs.Prelude.{◌≡◌};

    /// No write has failed, and nothing has been written.
    pub fn new(standard_output: O, standard_error: E) -> FileSink<O, E>
        ensures faults { result.faults ≡ 0 }
        ensures streams { (result.standard_output ≡ standard_output) × (result.standard_error ≡ standard_error) }
    {
        FileSink {
            standard_output,
            standard_error,
            faults: 0,
        }
    }
}

impl<O: Write, E: Write> Sink for FileSink<O, E> {
    ghost use Rattle.std.specs.Prelude.{◌≡◌, ◌<◌, IfOk, is_err, if◌then◌else◌, length, take};
    ghost use Rattle.std.specs.Io.KnownBytes.{Appends};
    ghost use Rattle.mc_io.specs.Causes.{one_more};
    ghost use Rattle.mc_io.specs.Outside.{Writes};
    ghost use Rattle.molconv.specs.Outputs.{outputs_of};

    ghost outputs = { λ s. outputs_of s.faults };

    fn write(&mut self, output: u32, piece: &[u8]) -> Result<usize, Failed>
        requires output { output < 2 }
        requires some { 0 < length piece.now }

        ensures writes { Writes output (outputs_of self.old.faults) (outputs_of self.new.faults) result piece.now }

        // What a write takes is passed on to its stream, and nothing to the other.
        ensures to_output { output ≡ 0 → IfOk result (λ n. Appends (O.contents self.old.standard_output) (O.contents self.new.standard_output) (take n piece.now)) }
        ensures to_error { output ≡ 1 → IfOk result (λ n. Appends (E.contents self.old.standard_error) (E.contents self.new.standard_error) (take n piece.now)) }
        ensures output_kept { output ≡ 1 → self.new.standard_output ≡ self.old.standard_output }
        ensures error_kept { output ≡ 0 → self.new.standard_error ≡ self.old.standard_error }

        // Each failure counts, and nothing else does.
        ensures fault { self.new.faults ≡ (if is_err result then one_more self.old.faults else self.old.faults) }
    {
        let written = if output == 0 {
            write_through(&mut self.standard_output, piece)
        } else {
            write_through(&mut self.standard_error, piece)
        };
        if written.is_err() {
            self.faults = self.faults.saturating_add(1);
        }
        written
    }
}

/// Writes some of a piece, and flushes.
fn write_through<W: Write>(writer: &mut W, piece: &[u8]) -> Result<usize, Failed>
    ensures some { IfOk result (λ n. 0 < n) }
    ensures within { IfOk result (λ n. n ≤ length piece.now) }
    ensures passed { IfOk result (λ n. Appends (W.contents writer.old) (W.contents writer.new) (take n piece.now)) }
{
    match writer.write(piece) {
        Ok(count) if count > 0 && writer.flush().is_ok() => Ok(count),
        _ => Err(Failed),
    }
}
