//! Standard streams that fail.

use script_text::{Failed, Sink, Source, StdSink, StdSource};
use std::alloc::Allocator;
use std::fmt::Display;
use std::fs::{File, OpenOptions};
use std::io::{self, BufRead, ErrorKind, Lines, Read, Write};
use std::test::Fail;

/// An output that is a file.
#[derive(Drop)]
struct FileOutput {
    file: File,
}

impl Print for FileOutput {
    fn print<D: Display + Drop>(&self, _value: D) -> io::Result<()> {
        Ok(())
    }

    fn println<D: Display + Drop>(&self, _value: D) -> io::Result<()> {
        Ok(())
    }

    fn write_all(&self, bytes: &[u8]) -> io::Result<()> {
        let mut file = &self.file;
        file.write_all(bytes)
    }
}

fn put_into(file: File) -> Result<(), Failed> {
    let output = FileOutput { file };
    StdSink::new(&output).put(b"one\n")
}

#[test]
fn output_that_fails_is_told(rt: HostRuntime) -> Result<(), Fail> {
    // A device that is full, and a file that is not open to be written, as a closed output is none.
    let full = OpenOptions::new().write(true).open(&rt, "/dev/full")?;
    assert_eq!(rt; put_into(full), Err(Failed));
    let closed = File::open(&rt, "/dev/null")?;
    assert_eq!(rt; put_into(closed), Err(Failed));
    let open = OpenOptions::new().write(true).open(&rt, "/dev/null")?;
    assert_eq!(rt; put_into(open), Ok(()));
    Ok(())
}

/// An input of which each read fails.
#[derive(Drop)]
struct FailingInput;

impl Read for FailingInput {
    fn read(&mut self, _buf: &mut [u8]) -> io::Result<usize> {
        Err(io::Error::from(ErrorKind::Other))
    }
}

impl BufRead for FailingInput {
    fn fill_buf(&mut self) -> io::Result<&[u8]> {
        Err(io::Error::from(ErrorKind::Other))
    }

    fn consume(&mut self, _amount: usize) {}
}

impl Input for FailingInput {
    type Reader = FailingInput;

    fn read_line<A: Allocator + Clone>(&self, _buf: &mut String<A>) -> io::Result<usize> {
        Err(io::Error::from(ErrorKind::Other))
    }

    fn lines<A: Allocator>(&self, alloc: A) -> Lines<FailingInput, A> {
        FailingInput.lines(alloc)
    }

    fn reader(&self) -> FailingInput {
        FailingInput
    }
}

#[test]
fn a_read_error_is_no_end_of_input(rt: HostRuntime) {
    let mut source = StdSource::new(&FailingInput);
    let mut byte = [0u8; 1];
    assert_eq!(rt; source.take(&mut byte), Err(Failed));
}
