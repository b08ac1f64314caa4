//! Readers and writers that move a few bytes at a time and fail at a chosen call, and the words of
//! a command line.
use std::alloc::{AllocError, Global};
use std::io::{self, ErrorKind, Read, Write};

/// Reads at most `most` bytes at a time. One call fails: the one after `left` others.
#[derive(Clone, Copy)]
pub struct FailingReader<'a> {
    pub rest: &'a [u8],
    pub most: usize,
    pub left: usize,
    pub kind: ErrorKind,
}

impl<'a> FailingReader<'a> {
    pub fn new(rest: &'a [u8], most: usize, left: usize, kind: ErrorKind) -> FailingReader<'a> {
        FailingReader {
            rest,
            most,
            left,
            kind,
        }
    }

    /// One that does not fail.
    pub fn sound(rest: &'a [u8], most: usize) -> FailingReader<'a> {
        FailingReader::new(rest, most, usize::MAX, ErrorKind::PermissionDenied)
    }
}

impl Read for FailingReader<'_> {
    fn read(&mut self, buffer: &mut [u8]) -> io::Result<usize> {
        if self.left == 0 {
            self.left = usize::MAX;
            return Err(io::Error::from(self.kind));
        }
        self.left -= 1;
        let count = buffer.len().min(self.most);
        self.rest.read(&mut buffer[..count])
    }
}

/// Writes at most `most` bytes at a time. One call fails, to write or to flush: the one after
/// `left` others.
#[derive(Drop)]
pub struct FailingWriter {
    pub written: Vec<u8>,
    pub most: usize,
    pub left: usize,
    pub kind: ErrorKind,
}

impl FailingWriter {
    pub fn new(alloc: Global, most: usize, left: usize, kind: ErrorKind) -> FailingWriter {
        let written = Vec::new(alloc);
        FailingWriter {
            written,
            most,
            left,
            kind,
        }
    }

    /// One that does not fail.
    pub fn sound(alloc: Global, most: usize) -> FailingWriter {
        FailingWriter::new(alloc, most, usize::MAX, ErrorKind::PermissionDenied)
    }
}

impl Write for FailingWriter {
    fn write(&mut self, bytes: &[u8]) -> io::Result<usize> {
        self.flush()?;
        let count = bytes.len().min(self.most);
        self.written.extend_from_slice(&bytes[..count])?;
        Ok(count)
    }

    fn flush(&mut self) -> io::Result<()> {
        if self.left == 0 {
            self.left = usize::MAX;
            return Err(io::Error::from(self.kind));
        }
        self.left -= 1;
        Ok(())
    }
}

/// The words, each in memory of its own.
pub fn words(alloc: Global, words: &[&str]) -> Result<Vec<String>, AllocError> {
    words
        .iter()
        .map(|word| String::from_str(alloc, word))
        .try_collect(alloc)
}
