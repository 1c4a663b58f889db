//! Sources and sinks over std's readers and writers: `sf_main` runs over standard input and output
//! by these.
ghost use Rattle.std.specs.Prelude.{◌≡◌, IfOk, if◌then◌else◌, is_ok, length};
ghost use Rattle.std.specs.Io.{ReadsAtMost, WritesAtMost};
ghost use Rattle.std.specs.Io.KnownBytes.{Keeps, ReadConsumes, WriteAppends};
ghost use Rattle.sf_io.specs.Causes.{HasCause};
ghost use Rattle.sf_io.specs.Memory.{next_count};

use crate::{Failed, Sink, Source};
use std::io::{ErrorKind, Read, Write};
use std::marker::Model;

/// One read, tried again while signals interrupt it.
fn read_through<T: Read>(reader: &mut T, buf: &mut [u8]) -> Result<usize, Failed>
    ensures bound { ReadsAtMost result buf.new }
    ensures bytes { ReadConsumes (T.remaining reader.old) (T.remaining reader.new) result buf.new }
{
    'tries: for _ in 0..u64::MAX {
        match reader.read(buf) {
            Ok(count) => return Ok(count),
            Err(error) if error.kind() == ErrorKind::Interrupted => {}
            Err(_) => return Err(Failed),
        }
    }
    Err(Failed)
}

/// One write, tried again while signals interrupt it. A writer that takes nothing of a piece that is
/// not empty has failed.
fn write_through<T: Write>(writer: &mut T, piece: &[u8]) -> Result<usize, Failed>
    ensures bound { WritesAtMost result piece.now }
    ensures some { IfOk result (λ n. n ≡ 0 → length piece.now ≡ 0) }
    ensures bytes { WriteAppends (T.contents writer.old) (T.contents writer.new) result piece.now }
{
    'tries: for _ in 0..u64::MAX {
        match writer.write(piece) {
            Ok(count) if count > 0 || piece.is_empty() => return Ok(count),
            Err(error) if error.kind() == ErrorKind::Interrupted => {}
            _ => return Err(Failed),
        }
    }
    Err(Failed)
}

/// One flush, tried again while signals interrupt it.
fn flush_through<T: Write>(writer: &mut T) -> Result<(), Failed>
    ensures bytes { Keeps (T.contents writer.old) (T.contents writer.new) }
{
    'tries: for _ in 0..u64::MAX {
        match writer.flush() {
            Ok(()) => return Ok(()),
            Err(error) if error.kind() == ErrorKind::Interrupted => {}
            Err(_) => return Err(Failed),
        }
    }
    Err(Failed)
}

/// A source over any reader of std, such as standard input. It says which bytes are left where the
/// reader does. A read that a signal interrupts is tried again. What a real file, pipe or terminal
/// gives is not known to any proof.
#[derive(Drop)]
pub struct ReadSource<T: Read> {
    inner: T,
    faults: u64,
}

impl<T: Read> Model for ReadSource<T> {
    ghost use Rattle.sf_io.specs.Outside.{Outside};

    ghost Value = { Outside };

    ghost view = { λ s. record { bytes = T.remaining s.inner; faults = s.faults } };
}

impl<T: Read> ReadSource<T> {
    ghost use Rattle.sf_io.specs.Outside.{Outside};

    /// A source over this reader, with no faults so far.
    pub fn new(inner: T) -> ReadSource<T>
        ensures { result ≡ record { bytes = T.remaining inner; faults = 0 } }
    {
        ReadSource { inner, faults: 0 }
    }
}

impl<T: Read> Source for ReadSource<T> {
    ghost left = { λ s. s.bytes };

    ghost faults = { λ s. s.faults };

    // The count rises by one in a call that fails, and in no other.
    fn read(&mut self, buf: &mut [u8]) -> Result<usize, Failed>
        ensures bound { ReadsAtMost result buf.new }
        ensures bytes { ReadConsumes self.old.bytes self.new.bytes result buf.new }
        ensures cause { HasCause self.old.faults self.new.faults result }
        ensures counted { self.new.faults ≡ (if is_ok result then self.old.faults else next_count self.old.faults) }
    {
        match read_through(&mut self.inner, buf) {
            Ok(count) => Ok(count),
            Err(fault) => {
                self.faults = self.faults.saturating_add(1);
                Err(fault)
            }
        }
    }
}

/// A sink over any writer of std, such as standard output. It says which bytes were taken where the
/// writer does. A write that a signal interrupts is tried again; a writer that takes nothing of a
/// piece that is not empty has failed.
#[derive(Drop)]
pub struct WriteSink<T: Write> {
    inner: T,
    faults: u64,
}

impl<T: Write> Model for WriteSink<T> {
    ghost use Rattle.sf_io.specs.Outside.{Outside};

    ghost Value = { Outside };

    ghost view = { λ s. record { bytes = T.contents s.inner; faults = s.faults } };
}

impl<T: Write> WriteSink<T> {
    ghost use Rattle.sf_io.specs.Outside.{Outside};

    /// A sink over this writer, with no faults so far.
    pub fn new(inner: T) -> WriteSink<T>
        ensures { result ≡ record { bytes = T.contents inner; faults = 0 } }
    {
        WriteSink { inner, faults: 0 }
    }

    /// Has the writer hand on what it took and has not handed on yet, as a writer with a buffer does.
    /// The count rises by one where that fails, and not else.
    pub fn flush(&mut self) -> Result<(), Failed>
        ensures bytes { Keeps self.old.bytes self.new.bytes }
        ensures cause { HasCause self.old.faults self.new.faults result }
        ensures counted { self.new.faults ≡ (if is_ok result then self.old.faults else next_count self.old.faults) }
    {
        match flush_through(&mut self.inner) {
            Ok(()) => Ok(()),
            Err(fault) => {
                self.faults = self.faults.saturating_add(1);
                Err(fault)
            }
        }
    }
}

impl<T: Write> Sink for WriteSink<T> {
    ghost taken = { λ s. s.bytes };

    ghost faults = { λ s. s.faults };

    // The count rises by one in a call that fails, and in no other.
    fn write(&mut self, piece: &[u8]) -> Result<usize, Failed>
        ensures bound { WritesAtMost result piece.now }
        ensures some { IfOk result (λ n. n ≡ 0 → length piece.now ≡ 0) }
        ensures bytes { WriteAppends self.old.bytes self.new.bytes result piece.now }
        ensures cause { HasCause self.old.faults self.new.faults result }
        ensures counted { self.new.faults ≡ (if is_ok result then self.old.faults else next_count self.old.faults) }
    {
        match write_through(&mut self.inner, piece) {
            Ok(count) => Ok(count),
            Err(fault) => {
                self.faults = self.faults.saturating_add(1);
                Err(fault)
            }
        }
    }
}
