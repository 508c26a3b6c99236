//! What a run shows on worked inputs: one file for each thing that is shown.
ghost use Rattle.std.specs.Prelude.{◌≤◌};

mod centres;
mod command_lines;
mod faults;
mod inputs;
mod rules;
mod sd_records;
mod small_texts;
mod verdicts;

use crate::{Status, run};
use mc_io::{MemorySink, MemorySource};
use std::alloc::Global;
use std::process::Abort;
use std::test::Fail;

pub const CONVERT: [&str; 5] = ["convert", "--from", "smi", "--to", "smi"];

pub const CHECK: [&str; 8] = [
    "check",
    "--from",
    "smi",
    "--to",
    "smi",
    "original",
    "converted",
    "report",
];

/// What is above every input here.
const LIMIT: u64 = 4_000_000;

/// What is above every output here.
const ROOM: usize = 2_000_000;

pub fn words_of(alloc: Global, texts: &[&str]) -> Result<Vec<String>, Fail> {
    let mut words = Vec::new(alloc);
    for text in texts {
        words.push(String::from_str(alloc, text)?)?;
    }
    Ok(words)
}

fn inputs_of(alloc: Global, texts: &[&[u8]]) -> Result<Vec<Vec<u8>>, Fail> {
    let mut inputs = Vec::new(alloc);
    for text in texts {
        inputs.push(text.to_vec(alloc)?)?;
    }
    Ok(inputs)
}

/// These texts as one.
pub fn joined(alloc: Global, texts: &[&str]) -> Result<Vec<u8>, Fail> {
    let mut bytes = Vec::new(alloc);
    for text in texts {
        bytes.extend_from_slice(text.as_bytes())?;
    }
    Ok(bytes)
}

/// How reads and writes go: the most bytes of each, and the numbers of the reads and of the writes that fail.
#[derive(Drop)]
pub struct Calls {
    pub piece: usize,
    pub failing_reads: Vec<u64>,
    pub failing_writes: Vec<u64>,
}

/// Runs these words over these inputs.
pub fn ran(
    alloc: Global,
    words: &[&str],
    inputs: &[&[u8]],
    calls: Calls,
) -> Result<(Status, MemorySink), Fail>
    requires { 1 ≤ calls.piece }
{
    let words = words_of(alloc, words)?;
    let inputs = inputs_of(alloc, inputs)?;
    let mut source: MemorySource<LIMIT> = MemorySource::new(
        inputs,
        calls.piece,
        calls.failing_reads,
    );
    let mut sink = MemorySink::new(alloc, ROOM, calls.piece, calls.failing_writes)?;
    let status = run(alloc, &words, &mut source, &mut sink);
    Ok((status, sink))
}

/// Runs these words over these inputs, where no call fails, and compares the status and both outputs.
pub fn gives(
    rt: &(impl Abort + AllocGlobal),
    words: &[&str],
    inputs: &[&[u8]],
    status: Status,
    out: &[u8],
    report: &[u8],
) -> Result<(), Fail> {
    let alloc = rt.alloc();
    let calls = Calls {
        piece: 60_000,
        failing_reads: Vec::new(alloc),
        failing_writes: Vec::new(alloc),
    };
    let (answer, sink) = ran(alloc, words, inputs, calls)?;
    assert_eq!(rt; sink.bytes(0), out);
    assert_eq!(rt; sink.bytes(1), report);
    assert!(rt; answer == status);
    Ok(())
}
