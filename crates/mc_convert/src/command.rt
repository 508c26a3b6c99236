ghost use Rattle.std.specs.Prelude.{◌≡◌, ◌↔◌, ◌<◌, ◌≤◌, ℕ, map, string_bytes};
ghost use Rattle.mc_io.specs.Causes.{Rose};
ghost use Rattle.mc_convert.specs.declared.command_line.Command.{Command as CommandWord};
ghost use Rattle.mc_convert.specs.Promises.{Promises};
ghost use Rattle.mc_convert.specs.Words.{IsLineOf, IsNoCommand};

use crate::check::check;
use crate::command_line::{Command, command_of};
use crate::convert::convert;
use crate::status::Status;
use mc_io::{Sink, Source};
use std::alloc::Global;

/// Runs the command whose words these are.
///
/// `convert` answers each record of input 0, in order, with a written record at output 0 or none, and a report line at
/// output 1. `check` reads originals (input 0), converted records (input 1) and a report (input 2), and writes a
/// verdict line for each original to output 0.
#[tactic(auto, using(crate::proofs::Commands::none_of, crate::proofs::Commands::some_of, crate::proofs::Promised::kept_by, crate::proofs::Promised::later_of, crate::proofs::Promised::others_of))]
pub fn run<S: Source, K: Sink>(
    alloc: Global,
    words: &[String],
    source: &mut S,
    sink: &mut K,
) -> Status
    // The words, and nothing read or written where they are no command's.
    ensures usage { (result ≡ Status.Usage) ↔ IsNoCommand (map string_bytes words.now) }
    ensures untouched { result ≡ Status.Usage → (source.new ≡ source.old) × (sink.new ≡ sink.old) }

    // The headline: what the command promises whose words they are.
    ensures promise { (command : CommandWord) → IsLineOf command (map string_bytes words.now) →
        Promises command S.LIMIT (S.inputs source.old) (S.inputs source.new) (K.outputs sink.old) (K.outputs sink.new) result }

    // Whatever the words are: a failed write is counted, counts of faults never fall, and there are no other inputs.
    ensures write { result ≡ Status.WriteFault → Rose (K.outputs sink.old).faults (K.outputs sink.new).faults }
    ensures later_read { (i : ℕ) → i < 3 → (S.inputs source.old i).faults ≤ (S.inputs source.new i).faults }
    ensures later_written { (K.outputs sink.old).faults ≤ (K.outputs sink.new).faults }
    ensures beyond { (i : ℕ) → 3 ≤ i → S.inputs source.new i ≡ S.inputs source.old i }
{
    match command_of(words) {
        Some(Command::Convert(formats)) => convert(alloc, formats, source, sink),
        Some(Command::Check(formats)) => check(alloc, formats, source, sink),
        None => Status::Usage,
    }
}
