use super::*;
use crate::named_file::NamedFile;
use mc_base::{Failed, Text};
use mc_convert::NameList;
use mc_io::{Sink, Source};
use std::fs;
use std::io::{Error, Read, Write};
use std::test::Fail;

/// A stream on which nothing works.
#[derive(Drop)]
struct Broken;

impl Read for Broken {
    fn read(&mut self, _: &mut [u8]) -> io::Result<usize> {
        Err(Error::from(ErrorKind::Other))
    }
}

impl Write for Broken {
    fn write(&mut self, _: &[u8]) -> io::Result<usize> {
        Err(Error::from(ErrorKind::Other))
    }

    fn flush(&mut self) -> io::Result<()> {
        Err(Error::from(ErrorKind::Other))
    }
}

/// A stream that takes bytes but can't pass them on.
#[derive(Drop)]
struct Stuck;

impl Write for Stuck {
    fn write(&mut self, bytes: &[u8]) -> io::Result<usize> {
        Ok(bytes.len())
    }

    fn flush(&mut self) -> io::Result<()> {
        Err(Error::from(ErrorKind::Other))
    }
}

#[test]
fn standard_input_is_input_0_where_no_file_is_named(rt: HostRuntime) {
    let alloc = rt.alloc();
    let mut source = FileSource::new(b"CN".as_slice(), Vec::<&[u8]>::new(alloc));
    let mut into = [0; 4];
    assert_eq!(rt; source.read(1, &mut into), Ok(0));
    assert_eq!(rt; source.read(0, &mut into), Ok(2));
    assert_eq!(rt; into, *b"CN\0\0");
    assert_eq!(rt; source.read(0, &mut into), Ok(0));
    let mut source = FileSource::new(Broken, Vec::<&[u8]>::new(alloc));
    assert_eq!(rt; source.read(0, &mut into), Err(Failed));
}

#[test]
fn each_named_file_is_an_input(rt: HostRuntime) -> Result<(), Fail> {
    let alloc = rt.alloc();
    let files = vec![in alloc; b"C".as_slice(), b"NO".as_slice()]?;
    let mut source = FileSource::new(b"S".as_slice(), files);
    let mut into = [0; 4];
    assert_eq!(rt; source.read(1, &mut into), Ok(2));
    assert_eq!(rt; into, *b"NO\0\0");
    assert_eq!(rt; source.read(0, &mut into), Ok(1));
    assert_eq!(rt; into, *b"CO\0\0");
    assert_eq!(rt; source.read(0, &mut into), Ok(0));
    assert_eq!(rt; source.read(2, &mut into), Ok(0));
    Ok(())
}

/// The files of some names.
fn of_names<'a>(
    rt: &'a HostRuntime,
    texts: &[&[u8]],
) -> Result<Vec<NamedFile<'a, HostRuntime>>, Fail> {
    let alloc = rt.alloc();
    let mut names = NameList::new(alloc);
    for text in texts {
        names.push(Text::from_vec(text.to_vec(alloc)?))?;
    }
    Ok(named_files(alloc, rt, &names)?)
}

#[test]
fn a_named_file_is_opened_at_its_first_read(rt: HostRuntime) -> Result<(), Fail> {
    let name = "opened_at_its_first_read.smi";
    let files = of_names(&rt, &[name.as_bytes(), b"no folder/no file"])?;
    let mut source = FileSource::new(Broken, files);
    fs::write(&rt, name, b"CN".as_slice())?;
    let mut into = [0; 4];
    let first = source.read(0, &mut into);
    fs::remove_file(&rt, name)?;
    assert_eq!(rt; first, Ok(2));
    assert_eq!(rt; into, *b"CN\0\0");
    assert_eq!(rt; source.read(0, &mut into), Ok(0));
    // a file that can't be opened is a failed read
    assert_eq!(rt; source.read(1, &mut into), Err(Failed));
    assert_eq!(rt; source.read(2, &mut into), Ok(0));
    Ok(())
}

#[test]
fn a_write_that_does_not_pass_on_its_bytes_has_failed(rt: HostRuntime) {
    let alloc = rt.alloc();
    let mut sink = FileSink::new(Broken, Stuck);
    assert_eq!(rt; sink.write(0, b"C"), Err(Failed));
    assert_eq!(rt; sink.write(1, b"C"), Err(Failed));
    let mut sink = FileSink::new(Vec::new(alloc), Broken);
    assert_eq!(rt; sink.write(0, b"C"), Ok(1));
}

#[test]
fn each_status_has_its_number_and_message(rt: HostRuntime) {
    for (status, number, message) in [
        (Status::Done, 0, ""),
        (Status::SomeRefused, 1, ""),
        (
            Status::Usage,
            2,
            "usage: molconv convert --from smi --to smi [FILE]\nusage: molconv check --from smi --to smi ORIGINAL CONVERTED REPORT\n",
        ),
        (
            Status::ReadFault,
            3,
            "molconv: an input could not be read\n",
        ),
        (
            Status::WriteFault,
            4,
            "molconv: an output could not be written\n",
        ),
        (Status::Memory, 5, "molconv: out of memory\n"),
        (Status::InputLimit, 6, "molconv: input limit reached\n"),
    ] {
        assert_eq!(rt; status.number(), number);
        assert_eq!(rt; ending::message(status), message);
    }
}
