//! Sources and sinks of bytes, as traits: what `sf_app::run` reads from and writes to. Contracts of
//! whole runs speak of what these have left and took.
ghost use Rattle.std.specs.Prelude.{◌≡◌, List, ℕ, Option, IfOk, length};
ghost use Rattle.std.specs.Io.{ReadsAtMost, WritesAtMost};
ghost use Rattle.std.specs.Io.KnownBytes.{ReadConsumes, WriteAppends};
ghost use Rattle.sf_io.specs.Causes.{HasCause};

/// A read or a write that failed: of the bytes nothing changed, and the count of faults rose.
#[derive(Clone, Copy)]
pub struct Failed;

/// A source of bytes that counts its faults.
pub trait Source {
    /// The bytes that are left, where the source says which.
    ghost left: { Self → Option (List ℕ) };

    /// How often it has failed. The count never falls; one that stands at 2^64 - 1 counts as risen.
    ghost faults: { Self → ℕ };

    /// Reads into the front of the buffer, and answers how many bytes. 0 is the end, unless the
    /// buffer is empty, of which nothing is read. `Failed` comes only where the count of faults
    /// rose in this call, and then nothing was read.
    fn read(&mut self, buf: &mut [u8]) -> Result<usize, Failed>
        ensures bound { ReadsAtMost result buf.new }
        ensures bytes { ReadConsumes (left self.old) (left self.new) result buf.new }
        ensures cause { HasCause (faults self.old) (faults self.new) result };
}

/// A sink of bytes that counts its faults.
pub trait Sink {
    /// The bytes that it took, where the sink says which.
    ghost taken: { Self → Option (List ℕ) };

    /// How often it has failed. The count never falls; one that stands at 2^64 - 1 counts as risen.
    ghost faults: { Self → ℕ };

    /// Takes a front of the piece, at least a byte of a piece that has one, and answers how many
    /// bytes. `Failed` comes only where the count of faults rose in this call, and then nothing
    /// was taken.
    fn write(&mut self, piece: &[u8]) -> Result<usize, Failed>
        ensures bound { WritesAtMost result piece.now }
        ensures some { IfOk result (λ n. n ≡ 0 → length piece.now ≡ 0) }
        ensures bytes { WriteAppends (taken self.old) (taken self.new) result piece.now }
        ensures cause { HasCause (faults self.old) (faults self.new) result };
}
