//! Readers and writers that move few bytes at a time and are interrupted.
use std::io::{self, ErrorKind, Read, Write};

/// A reader or a writer of std that moves three bytes in a call, and of whose calls each third is
/// interrupted by a signal.
#[derive(Drop)]
pub struct Halting<T> {
    inner: T,
    calls: u8,
}

impl<T> Halting<T> {
    pub fn new(inner: T) -> Halting<T> {
        Halting { inner, calls: 0 }
    }

    /// How many of so many bytes the next call moves.
    fn next_count(&mut self, length: usize) -> io::Result<usize> {
        self.calls = self.calls % 3 + 1;
        if self.calls == 3 {
            return Err(io::Error::from(ErrorKind::Interrupted));
        }
        Ok(length.min(3))
    }
}

impl<T: Read> Read for Halting<T> {
    fn read(&mut self, buf: &mut [u8]) -> io::Result<usize> {
        let count = self.next_count(buf.len())?.min(buf.len());
        self.inner.read(&mut buf[..count])
    }
}

impl<T: Write> Write for Halting<T> {
    fn write(&mut self, buf: &[u8]) -> io::Result<usize> {
        let count = self.next_count(buf.len())?.min(buf.len());
        self.inner.write(&buf[..count])
    }

    fn flush(&mut self) -> io::Result<()> {
        Ok(())
    }
}
