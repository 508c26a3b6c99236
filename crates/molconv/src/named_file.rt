ghost use Rattle.std.specs.Prelude.{◌≡◌, IfOk, is_none, map, true};
ghost use Rattle.std.specs.List.{list_all};

use mc_base::{NoMemory, Text};
use mc_convert::NameList;
use std::alloc::Global;
use std::io::{Error, ErrorKind, Read};
use std::rt::Files;
use std::{fs, io, str};

/// A file that is opened at its first read. A read that can't open it has failed, and leaves it unopened.
#[derive(Drop)]
pub struct NamedFile<'a, F: Files> {
    files: &'a F,
    name: Text,
    file: Option<F::File>,
}

impl<'a, F: Files> Read for NamedFile<'a, F> {
    ghost use Rattle.std.specs.Prelude.{◌≡◌, ◌≢◌, None, OnOk};
    ghost use Rattle.std.specs.Io.{ReadsAtMost};
    ghost use Rattle.std.specs.Io.KnownBytes.{ReadConsumes};
    ghost use Rattle.molconv.specs.Inputs.{left_in};

    ghost remaining = { λ s. left_in F.File.remaining s.file };

    fn read(&mut self, into: &mut [u8]) -> io::Result<usize>
        ensures bound { ReadsAtMost result into.new }
        ensures bytes { ReadConsumes (left_in F.File.remaining self.old.file) (left_in F.File.remaining self.new.file) result into.new }

        // What is read comes from an open file, and an open file stays open.
        ensures name { self.new.name ≡ self.old.name }
        ensures opened { OnOk result (self.new.file ≢ None) }
        ensures stays { self.old.file ≢ None → self.new.file ≢ None }
    {
        let file = match self.file.take() {
            Some(file) => file,
            None => open(self.files, &self.name)?,
        };
        self.file.insert(file).read(into)
    }
}

fn open<F: Files>(files: &F, name: &Text) -> io::Result<F::File> {
    match str::from_utf8(name.as_slice()) {
        Ok(path) => fs::open(files, path),
        Err(_) => Err(Error::from(ErrorKind::InvalidInput)),
    }
}

/// The files of these names, in order, none of them opened.
#[tactic(auto, using(crate::proofs::Files::all_push))]
pub fn named_files<'a, F: Files>(
    alloc: Global,
    files: &'a F,
    names: &NameList,
) -> Result<Vec<NamedFile<'a, F>>, NoMemory>
    ensures names { IfOk result (λ named. map (λ file. file.name) named.items ≡ names.now) }
    ensures unopened { IfOk result (λ named. list_all (λ file. is_none file.file) named.items ≡ true) }
{
    let mut named = Vec::new(alloc);
    for name in names.as_slice() {
        let mut own = Text::new(alloc);
        own.extend(name.as_slice())?;
        named.push(NamedFile {
            files,
            name: own,
            file: None,
        })?;
    }
    Ok(named)
}
