ghost use Rattle.std.specs.Prelude.{◌≡◌, ◌≢◌, ◌⊎◌, ◌≤◌, [], Ok, length, slice_get};
ghost use Rattle.std.specs.Io.{ReadsAtMost};
ghost use Rattle.std.specs.Io.KnownBytes.{ReadConsumes};
ghost use Rattle.mc_io.specs.Outside.{SameBut};
ghost use Rattle.molconv.specs.Inputs.{ReadsFile};

use crate::reads::ReadCounts;
use mc_base::Failed;
use mc_io::Source;
use std::io;
use std::io::Read;

/// The named files as inputs, in order, or standard input as input 0 where no file is named. Any other input has
/// nothing left. It doesn't tell what is left.
#[derive(Drop)]
pub struct FileSource<R: Read, N: Read + Drop> {
    standard_input: R,
    files: Vec<N>,
    inputs: [ReadCounts; 3],
}

const UNREAD: ReadCounts = ReadCounts {
    taken: 0,
    ended: false,
    faults: 0,
};

impl<R: Read, N: Read + Drop> FileSource<R, N> {
    ghost use Rattle.std.specs.Prelude.{ℕ, ◌≡◌, None};
    ghost use Rattle.mc_io.specs.Outside.{unread};
    ghost use Rattle.molconv.specs.Inputs.{input_of};

    /// No input has been read.
    pub fn new(standard_input: R, files: Vec<N>) -> FileSource<R, N>
        ensures inputs { (i : ℕ) → input_of result.inputs i ≡ unread None }
        ensures streams { (result.standard_input ≡ standard_input) × (result.files ≡ files) }
    {
        FileSource {
            standard_input,
            files,
            inputs: [UNREAD, UNREAD, UNREAD],
        }
    }
}

impl<R: Read, N: Read + Drop> Source for FileSource<R, N> {
    ghost use Rattle.std.specs.Prelude.{ℕ, ◌≡◌, ◌≢◌, ◌⊎◌, ◌<◌, ◌≤◌, ◌^◌, [], Ok, is_err, if◌then◌else◌, length, slice_get};
    ghost use Rattle.std.specs.Io.KnownBytes.{ReadConsumes};
    ghost use Rattle.mc_io.specs.Causes.{one_more};
    ghost use Rattle.mc_io.specs.Outside.{Reads, SameBut};
    ghost use Rattle.molconv.specs.Inputs.{input_of, ReadsFile};

    ghost LIMIT = { 2 ^ 40 };

    ghost inputs = { λ s. input_of s.inputs };

    const LIMIT: u64 = 1 << 40;

    fn read(&mut self, input: u32, into: &mut [u8]) -> Result<usize, Failed>
        requires input { input < 3 }
        requires room { 0 < length into.old }

        ensures reads { Reads (input_of self.old.inputs input) (input_of self.new.inputs input) result into.new }
        ensures others { SameBut input (input_of self.old.inputs) (input_of self.new.inputs) }

        // An input with a name takes what its own file gives, and touches no other.
        ensures named { ReadsFile N.remaining self.old.files.items self.new.files.items input result into.new }
        ensures files_others { SameBut input (slice_get self.old.files.items) (slice_get self.new.files.items) }

        // Standard input is input 0 exactly where no file is named; what is neither has nothing left.
        ensures standard { self.old.files.items ≡ [] → input ≡ 0 →
            ReadConsumes (R.remaining self.old.standard_input) (R.remaining self.new.standard_input) result into.new }
        ensures standard_kept { (self.old.files.items ≢ []) ⊎ (input ≢ 0) → self.new.standard_input ≡ self.old.standard_input }
        ensures other { length self.old.files.items ≤ input → input ≢ 0 → result ≡ Ok 0 }

        // Each failure counts, and nothing else does.
        ensures fault { (input_of self.new.inputs input).faults
            ≡ (if is_err result then one_more (input_of self.old.inputs input).faults else (input_of self.old.inputs input).faults) }
    {
        let read = read_stream(
            &mut self.standard_input,
            &mut self.files,
            input as usize,
            into,
        );
        let reads = &mut self.inputs[input as usize];
        match read {
            Ok(count) => {
                reads.taken = reads.taken.saturating_add(count as u128);
                reads.ended = count == 0;
                Ok(count)
            }
            Err(_) => {
                reads.faults = reads.faults.saturating_add(1);
                reads.ended = false;
                Err(Failed)
            }
        }
    }
}

/// Reads from the stream of an input.
fn read_stream<R: Read, N: Read + Drop>(
    standard_input: &mut R,
    files: &mut [N],
    input: usize,
    into: &mut [u8],
) -> io::Result<usize>
    ensures bound { ReadsAtMost result into.new }
    ensures named { ReadsFile N.remaining files.old files.new input result into.new }
    ensures files_others { SameBut input (slice_get files.old) (slice_get files.new) }
    ensures standard { files.old ≡ [] → input ≡ 0 →
        ReadConsumes (R.remaining standard_input.old) (R.remaining standard_input.new) result into.new }
    ensures standard_kept { (files.old ≢ []) ⊎ (input ≢ 0) → standard_input.new ≡ standard_input.old }
    ensures other { length files.old ≤ input → input ≢ 0 → result ≡ Ok 0 }
{
    if files.is_empty() && input == 0 {
        return standard_input.read(into);
    }
    if input < files.len() {
        files[input].read(into)
    } else {
        Ok(0)
    }
}
