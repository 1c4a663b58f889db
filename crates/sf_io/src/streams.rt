//! A source read to its end, as a script is, and a record written to a sink.
ghost use Rattle.std.specs.Prelude.{◌≡◌, ◌<◌, ◌≤◌, ◌+◌, ◌^◌, ◌++◌, length, IfOk, OnOk, OnErr, IsErrOf};
ghost use Rattle.std.specs.Io.KnownBytes.{Appends, Consumes, IsAtEnd};
ghost use Rattle.byteorder.specs.Endian.{big_bytes};
ghost use Rattle.sf_io.specs.Causes.{HasCause, Rose};
ghost use Rattle.sf_io.specs.Streams.{Took, TookAtMost, TookPrefix, framed};

use crate::{Sink, Source};
use byteorder::{BigEndian, ByteOrder};
use std::alloc::Global;

/// Why the bytes of a source were not read to their end.
#[derive(Clone, Copy)]
pub enum ReadFault {
    /// A read failed.
    Failed,
    /// The source has more bytes than the limit.
    TooLong,
    /// Out of memory.
    NoMemory,
}

/// A record was not written whole, since a write failed.
#[derive(Clone, Copy)]
pub struct WriteFault;

// The most bytes that one read asks for.
const PIECE: usize = 4096;

/// All the bytes of a source to its end, at most `limit` of them. Each turn makes one read, into
/// 4,096 bytes, or into what is left up to one byte more than the limit where that is less.
///
/// `TooLong` comes where `limit + 1` bytes were taken. `Failed` comes only where the source's
/// count of faults rose in this call. After `Failed` and `NoMemory` at most `limit` bytes were
/// taken, and they are given up.
pub fn read_all<S: Source>(
    alloc: Global,
    source: &mut S,
    limit: usize,
) -> Result<Vec<u8>, ReadFault>
    ensures all { IfOk result (λ v. Consumes (S.left source.old) (S.left source.new) v.items × IsAtEnd (S.left source.new)) }
    ensures bound { IfOk result (λ v. length v.items ≤ limit) }

    ensures too_long { IsErrOf result ReadFault.TooLong → Took (S.left source.old) (S.left source.new) (limit + 1) }
    ensures failed { IsErrOf result ReadFault.Failed → Rose (S.faults source.old) (S.faults source.new) }
    ensures before_failed { IsErrOf result ReadFault.Failed → TookAtMost (S.left source.old) (S.left source.new) limit }
    ensures before_no_memory { IsErrOf result ReadFault.NoMemory → TookAtMost (S.left source.old) (S.left source.new) limit }
    ensures later { S.faults source.old ≤ S.faults source.new }
{
    let mut buf = [0u8; PIECE];
    let mut all = Vec::new(alloc);
    loop {
        let room = limit - all.len();
        let want = room.min(PIECE - 1) + 1;
        let count = match source.read(&mut buf[..want]) {
            Ok(count) => count,
            Err(_) => return Err(ReadFault::Failed),
        };
        if count == 0 {
            return Ok(all);
        }
        if count > room {
            return Err(ReadFault::TooLong);
        }
        match all.extend_from_slice(&buf[..count]) {
            Ok(()) => {}
            Err(_) => return Err(ReadFault::NoMemory),
        }
    }
}

/// Writes a piece, as often as it takes.
fn put_piece<K: Sink>(sink: &mut K, piece: &[u8]) -> Result<(), WriteFault>
    ensures ok { OnOk result (Appends (K.taken sink.old) (K.taken sink.new) piece.now) }
    ensures err { OnErr result (TookPrefix (K.taken sink.old) (K.taken sink.new) piece.now) }
    ensures cause { HasCause (K.faults sink.old) (K.faults sink.new) result }
{
    let mut done = 0;
    while done < piece.len() {
        match sink.write(&piece[done..]) {
            Ok(count) => done += count,
            Err(_) => return Err(WriteFault),
        }
    }
    Ok(())
}

/// The tag and the length of a record.
fn head_of(tag: [u8; 4], length_of_body: u32) -> [u8; 8]
    ensures { result ≡ tag ++ big_bytes 4 length_of_body }
{
    let mut head = [0u8; 8];
    head[..4].copy_from_slice(&tag);
    BigEndian::write_u32(&mut head[4..], length_of_body);
    head
}

/// Writes a record: its tag of 4 bytes, the length of its body in 4 bytes with the highest first,
/// and the body. The 8 bytes of the head are written first, then the body if it is not empty, each
/// as often as the sink takes a part.
///
/// `WriteFault` comes only where the sink's count of faults rose in this call, and then a prefix
/// of the record was taken. The body is shorter than 2^32 bytes.
pub fn put<K: Sink>(sink: &mut K, tag: [u8; 4], body: &[u8]) -> Result<(), WriteFault>
    requires { length body.now < 2 ^ 32 }
    ensures ok { OnOk result (Appends (K.taken sink.old) (K.taken sink.new) (framed tag body.now)) }
    ensures err { OnErr result (TookPrefix (K.taken sink.old) (K.taken sink.new) (framed tag body.now)) }
    ensures cause { HasCause (K.faults sink.old) (K.faults sink.new) result }
{
    let head = head_of(tag, body.len() as u32);
    match put_piece(sink, &head) {
        Ok(()) => put_piece(sink, body),
        Err(fault) => Err(fault),
    }
}
