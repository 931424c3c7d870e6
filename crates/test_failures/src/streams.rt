//! Readers and writers of one byte a call, which fail at a call of theirs.
use std::io;
use std::io::{Error, ErrorKind, Read, Write};

/// More calls than a run makes.
pub(crate) const NEVER: usize = 1000000000;

/// Gives one byte a call, and fails at the call of a number, counted from 0.
#[derive(Drop)]
pub(crate) struct Reader<'a> {
    pub(crate) bytes: &'a [u8],
    pub(crate) calls: usize,
    pub(crate) fails_at: usize,
}

impl Read for Reader<'_> {
    fn read(&mut self, buf: &mut [u8]) -> io::Result<usize> {
        if self.calls >= self.fails_at {
            return Err(Error::from(ErrorKind::Other));
        }
        self.calls += 1;
        let count = buf.len().min(self.bytes.len()).min(1);
        let (given, left) = self.bytes.split_at(count);
        buf[..count].copy_from_slice(given);
        self.bytes = left;
        Ok(count)
    }
}

/// Takes one byte a call, and fails at the call of a number, counted from 0; a flush is a call too.
#[derive(Drop)]
pub(crate) struct Writer {
    pub(crate) taken: Vec<u8>,
    pub(crate) calls: usize,
    pub(crate) fails_at: usize,
}

impl Writer {
    fn call(&mut self) -> io::Result<()> {
        if self.calls >= self.fails_at {
            return Err(Error::from(ErrorKind::Other));
        }
        self.calls += 1;
        Ok(())
    }
}

impl Write for Writer {
    fn write(&mut self, buf: &[u8]) -> io::Result<usize> {
        self.call()?;
        let count = buf.len().min(1);
        if self.taken.extend_from_slice(&buf[..count]).is_err() {
            return Err(Error::from(ErrorKind::OutOfMemory));
        }
        Ok(count)
    }

    fn flush(&mut self) -> io::Result<()> {
        self.call()
    }
}
