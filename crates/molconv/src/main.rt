//! Converts molecule records: reads the words of the command line, and runs them over the files that they name and
//! the standard streams.
#![tactic(auto)]

mod ending;
mod file_sink;
mod file_source;
mod named_file;
mod reads;

use file_sink::FileSink;
use file_source::FileSource;
use mc_base::NoMemory;
use mc_convert::{Status, input_names, run};
use named_file::named_files;
use std::io::ErrorKind;
use std::process::ExitCode;
use std::{env, io};

fn main(rt: HostRuntime) -> ExitCode {
    let status = match words(&rt) {
        Ok(words) => run_words(&rt, &words).unwrap_or(Status::Memory),
        Err(error) => match error.kind() {
            ErrorKind::OutOfMemory => Status::Memory,
            // A word that isn't UTF-8 isn't in the table.
            _ => Status::Usage,
        },
    };
    // There is nobody left to be told that standard error can't be written.
    let _ = ending::tell(&rt, status);
    ExitCode::from(status.number())
}

/// The words of the command line behind the program's name.
fn words(rt: &HostRuntime) -> io::Result<Vec<String>> {
    let words = env::args(rt)?.skip(1).collect(rt.alloc())?;
    Ok(words)
}

/// Runs the words over the files that they name.
fn run_words(rt: &HostRuntime, words: &[String]) -> Result<Status, NoMemory> {
    let alloc = rt.alloc();
    let names = input_names(alloc, words)?;
    let files = named_files(alloc, rt, &names)?;
    let mut source = FileSource::new(rt.stdin(), files);
    let mut sink = FileSink::new(rt.stdout(), rt.stderr());
    Ok(run(alloc, words, &mut source, &mut sink))
}

#[cfg(test)]
mod tests;
