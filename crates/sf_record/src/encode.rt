//! From a record to its bytes, and to a sink: each record that a run writes goes through here.
ghost use Rattle.std.specs.Prelude.{◌≡◌, ◌<◌, ◌≤◌, ◌^◌, ◌++◌, ◌∷◌, [], All, List, ℕ, length, take, OnOk, OnErr, IfOk, IsErrOf};
ghost use Rattle.std.specs.Io.KnownBytes.{Appends};
ghost use Rattle.std.specs.List.{flat_map};
ghost use Rattle.sf_io.specs.Causes.{Rose};
ghost use Rattle.sf_io.specs.Streams.{TookPrefix, framed};
ghost use Rattle.sf_record.specs.Fitting.{ArrivalFits, BufferFits, CallFits, CommitFits, FaultFits, FieldsFit, Fits32, Fits64, FrameFits, HeldFits};
ghost use Rattle.sf_record.specs.Fitting.{HistoryFits, HitFits, ListFits, NumberedFits, RecordFits, ReplyFits, SceneFits, StuckFits, SummaryFits, TimelineFits, VsyncFits};
ghost use Rattle.sf_record.specs.Records.{AppendsFirst, BeginsImage, arrival_bytes, body_of, buffer_bytes, bytes_of, commit_bytes, held_bytes, history_entry_bytes, hit_bytes};
ghost use Rattle.sf_record.specs.Records.{image_in, list_bytes, numbered_bytes, record_bytes, reply_bytes, scene_bytes, stuck_bytes, summary_bytes, tag_of, timeline_bytes};
ghost use Rattle.sf_record.specs.Records.{u32_bytes, u64_bytes, vsync_bytes};

use crate::record::{
    ArrivalEntry, CommitRecord, CommittedBuffer, Frame, HeldEntry, HistoryEntry, Hit,
    NumberedFrame, QueueHistory, Record, ReplyRecord, SceneHeader, StuckEntry, Summary,
    TimelineValue, VsyncHeader,
};
use byteorder::{BigEndian, ByteOrder};
use sf_base::NoMemory;
use sf_io::{Sink, put};
use sf_output::ImageId;
use sf_script::ScriptFault;
use std::alloc::Global;

/// The four bytes of a number.
#[tactic(auto, unfolding(crate::specs::Records::u32_bytes))]
fn four_bytes(n: u32) -> [u8; 4]
    ensures { result ≡ u32_bytes n }
{
    let mut buf = [0u8; 4];
    BigEndian::write_u32(&mut buf, n);
    buf
}

/// Appends a number as four bytes, the highest first.
fn push_u32(out: &mut Vec<u8>, n: u32) -> Result<(), NoMemory>
    ensures ok { OnOk result (out.new.items ≡ out.old.items ++ u32_bytes n) }
    ensures fits { OnOk result (Fits32 n) }
{
    out.extend_from_slice(&four_bytes(n))?;
    Ok(())
}

/// Appends a number as eight bytes, the highest first.
#[tactic(auto, unfolding(crate::specs::Records::u64_bytes))]
fn push_u64(out: &mut Vec<u8>, n: u64) -> Result<(), NoMemory>
    ensures ok { OnOk result (out.new.items ≡ out.old.items ++ u64_bytes n) }
    ensures fits { OnOk result (Fits64 n) }
{
    let mut buf = [0u8; 8];
    BigEndian::write_u64(&mut buf, n);
    out.extend_from_slice(&buf)?;
    Ok(())
}

/// An item of a list in a record.
trait Encode {
    /// The bytes of the item.
    ghost bytes: { Self → List ℕ };

    /// Each number of the item fits its field.
    ghost fits: { Self → Type 0 };

    /// Appends the item's bytes.
    fn push(&self, out: &mut Vec<u8>) -> Result<(), NoMemory>
        ensures ok { OnOk result (out.new.items ≡ out.old.items ++ bytes self.now) }
        ensures fits { OnOk result (fits self.now) };
}

impl Encode for u64 {
    ghost bytes = { u64_bytes };

    ghost fits = { Fits64 };

    fn push(&self, out: &mut Vec<u8>) -> Result<(), NoMemory> {
        push_u64(out, *self)
    }
}

impl Encode for TimelineValue {
    ghost bytes = { timeline_bytes };

    ghost fits = { TimelineFits };

    fn push(&self, out: &mut Vec<u8>) -> Result<(), NoMemory> {
        push_u32(out, self.timeline)?;
        push_u64(out, self.value)
    }
}

impl Encode for CommittedBuffer {
    ghost bytes = { buffer_bytes };

    ghost fits = { BufferFits };

    fn push(&self, out: &mut Vec<u8>) -> Result<(), NoMemory> {
        push_u32(out, self.layer)?;
        push_u32(out, self.queue)?;
        push_u64(out, self.frame)?;
        push_u32(out, self.picture)?;
        push_u32(out, self.x)?;
        push_u32(out, self.y)?;
        push_u32(out, self.width)?;
        push_u32(out, self.height)
    }
}

impl Encode for ArrivalEntry {
    ghost bytes = { arrival_bytes };

    ghost fits = { ArrivalFits };

    fn push(&self, out: &mut Vec<u8>) -> Result<(), NoMemory> {
        push_u32(out, self.actor)?;
        push_u32(out, self.step)?;
        push_u32(out, self.token)
    }
}

impl Encode for HistoryEntry {
    ghost bytes = { history_entry_bytes };

    ghost fits = { CallFits };

    fn push(&self, out: &mut Vec<u8>) -> Result<(), NoMemory> {
        push_u32(out, self.caller)?;
        push_u32(out, self.step)?;
        push_u32(out, self.kind)?;
        push_u32(out, self.status)?;
        push_u32(out, self.slot)?;
        push_u64(out, self.frame)
    }
}

impl Encode for HeldEntry {
    ghost bytes = { held_bytes };

    ghost fits = { HeldFits };

    fn push(&self, out: &mut Vec<u8>) -> Result<(), NoMemory> {
        push_u32(out, self.arrival)?;
        push_u32(out, self.hold)?;
        push_u64(out, self.a)?;
        push_u64(out, self.b)
    }
}

impl Encode for StuckEntry {
    ghost bytes = { stuck_bytes };

    ghost fits = { StuckFits };

    fn push(&self, out: &mut Vec<u8>) -> Result<(), NoMemory> {
        push_u32(out, self.actor)?;
        push_u32(out, self.step)
    }
}

/// The items, one after another.
fn push_all<T: Encode>(out: &mut Vec<u8>, items: &[T]) -> Result<(), NoMemory>
    ensures ok { OnOk result (out.new.items ≡ out.old.items ++ flat_map T.bytes items.now) }
    ensures fits { OnOk result (All T.fits items.now) }
{
    let mut rest = items;
    while let [item, after @ ..] = rest {
        item.push(out)?;
        rest = after;
    }
    Ok(())
}

/// A list: how many items it has, and the items.
#[tactic(auto, unfolding(crate::specs::Records::list_bytes))]
fn push_list<T: Encode>(out: &mut Vec<u8>, items: &[T]) -> Result<(), NoMemory>
    ensures ok { OnOk result (out.new.items ≡ out.old.items ++ list_bytes T.bytes items.now) }
    ensures fits { OnOk result (ListFits T.fits items.now) }
{
    match u32::try_from(items.len()) {
        Ok(count) => {
            push_u32(out, count)?;
            push_all(out, items)
        }
        Err(_) => Err(NoMemory),
    }
}

/// The four letters that a record begins with.
fn tag(shown: &Record) -> [u8; 4]
    ensures { result ≡ tag_of shown.now }
{
    match shown {
        Record::Scen(_) => *b"SCEN",
        Record::Repl(_) => *b"REPL",
        Record::Vsyn(_) => *b"VSYN",
        Record::Comm(_) => *b"COMM",
        Record::Fram(_) => *b"FRAM",
        Record::Frad(_) => *b"FRAD",
        Record::Capt(_) => *b"CAPT",
        Record::Hits(_) => *b"HITS",
        Record::Arrv(_) => *b"ARRV",
        Record::Hist(_) => *b"HIST",
        Record::Hold(_) => *b"HOLD",
        Record::Stuk(_) => *b"STUK",
        Record::Done => *b"DONE",
        Record::Sflt(_) => *b"SFLT",
        Record::Summ(_) => *b"SUMM",
    }
}

fn push_scene(out: &mut Vec<u8>, scene: &SceneHeader) -> Result<(), NoMemory>
    ensures ok { OnOk result (out.new.items ≡ out.old.items ++ scene_bytes scene.now) }
    ensures fits { OnOk result (SceneFits scene.now) }
{
    push_u32(out, scene.version)?;
    push_u32(out, scene.width)?;
    push_u32(out, scene.height)?;
    push_u64(out, scene.period)
}

/// Four numbers of four bytes at once, as a reply begins with.
#[tactic(auto, unfolding(crate::specs::Records::u32_bytes))]
fn push_four(out: &mut Vec<u8>, a: u32, b: u32, c: u32, d: u32) -> Result<(), NoMemory>
    ensures ok { OnOk result (out.new.items ≡ out.old.items ++ (u32_bytes a ++ u32_bytes b ++ u32_bytes c ++ u32_bytes d)) }
    ensures fits { OnOk result ((Fits32 a × Fits32 b) × (Fits32 c × Fits32 d)) }
{
    let [a0, a1, a2, a3] = four_bytes(a);
    let [b0, b1, b2, b3] = four_bytes(b);
    let [c0, c1, c2, c3] = four_bytes(c);
    let [d0, d1, d2, d3] = four_bytes(d);
    let bytes = [
        a0, a1, a2, a3, b0, b1, b2, b3, c0, c1, c2, c3, d0, d1, d2, d3,
    ];
    out.extend_from_slice(&bytes)?;
    Ok(())
}

/// More values than a length of 32 bits holds count as out of memory.
#[tactic(auto, unfolding(crate::specs::Records::list_bytes))]
fn push_reply(out: &mut Vec<u8>, reply: &ReplyRecord) -> Result<(), NoMemory>
    ensures ok { OnOk result (out.new.items ≡ out.old.items ++ reply_bytes reply.now) }
    ensures fits { OnOk result (ReplyFits reply.now) }
{
    match u32::try_from(reply.values.len()) {
        Ok(count) => {
            push_four(out, reply.actor, reply.step, reply.status, count)?;
            push_all(out, reply.values.as_slice())
        }
        Err(_) => Err(NoMemory),
    }
}

fn push_vsync(out: &mut Vec<u8>, vsync: &VsyncHeader) -> Result<(), NoMemory>
    ensures ok { OnOk result (out.new.items ≡ out.old.items ++ vsync_bytes vsync.now) }
    ensures fits { OnOk result (VsyncFits vsync.now) }
{
    push_u32(out, vsync.number)?;
    push_u64(out, vsync.expected)?;
    push_list(out, vsync.timelines.as_slice())
}

fn push_commit(out: &mut Vec<u8>, commit: &CommitRecord) -> Result<(), NoMemory>
    ensures ok { OnOk result (out.new.items ≡ out.old.items ++ commit_bytes commit.now) }
    ensures fits { OnOk result (CommitFits commit.now) }
{
    push_u32(out, commit.token)?;
    push_u32(out, commit.arrival)?;
    push_u32(out, commit.result)?;
    push_u32(out, commit.operation)?;
    push_list(out, commit.buffers.as_slice())
}

/// A frame has no length of its own: its pixels go on to the end of the body.
fn push_frame(out: &mut Vec<u8>, frame: &Frame) -> Result<(), NoMemory>
    ensures ok { OnOk result (out.new.items ≡ out.old.items ++ (u32_bytes frame.now.number ++ frame.now.pixels)) }
    ensures fits { OnOk result (FrameFits frame.now) }
{
    push_u32(out, frame.number)?;
    out.extend_from_slice(frame.pixels.as_slice())?;
    Ok(())
}

fn push_numbered(out: &mut Vec<u8>, frame: &NumberedFrame) -> Result<(), NoMemory>
    ensures ok { OnOk result (out.new.items ≡ out.old.items ++ numbered_bytes frame.now) }
    ensures fits { OnOk result (NumberedFits frame.now) }
{
    push_u32(out, frame.output)?;
    push_u32(out, frame.number)?;
    out.extend_from_slice(frame.pixels.as_slice())?;
    Ok(())
}

fn push_hit(out: &mut Vec<u8>, hit: &Hit) -> Result<(), NoMemory>
    ensures ok { OnOk result (out.new.items ≡ out.old.items ++ hit_bytes hit.now) }
    ensures fits { OnOk result (HitFits hit.now) }
{
    push_u32(out, hit.output)?;
    push_u32(out, hit.number)?;
    push_u32(out, hit.layer)
}

fn push_history(out: &mut Vec<u8>, history: &QueueHistory) -> Result<(), NoMemory>
    ensures ok { OnOk result (out.new.items ≡ out.old.items ++ (u32_bytes history.now.queue ++ list_bytes history_entry_bytes history.now.entries)) }
    ensures fits { OnOk result (HistoryFits history.now) }
{
    push_u32(out, history.queue)?;
    push_list(out, history.entries.as_slice())
}

fn push_fault(out: &mut Vec<u8>, fault: &ScriptFault) -> Result<(), NoMemory>
    ensures ok { OnOk result (out.new.items ≡ out.old.items ++ (u32_bytes fault.now.line ++ u32_bytes fault.now.word ++ u32_bytes fault.now.cause)) }
    ensures fits { OnOk result (FaultFits fault.now) }
{
    push_u32(out, fault.line)?;
    push_u32(out, fault.word)?;
    push_u32(out, fault.cause)
}

fn push_summary(out: &mut Vec<u8>, summary: &Summary) -> Result<(), NoMemory>
    ensures ok { OnOk result (out.new.items ≡ out.old.items ++ summary_bytes summary.now) }
    ensures fits { OnOk result (SummaryFits summary.now) }
{
    push_u64(out, summary.replies)?;
    push_u64(out, summary.vsyncs)?;
    push_u64(out, summary.commits)?;
    push_u64(out, summary.rejected)?;
    push_u64(out, summary.frames)?;
    push_u64(out, summary.pixel_sum)?;
    push_u64(out, summary.held)?;
    push_u64(out, summary.stuck)
}

// So many bytes a body has room for at first: most records, a reply above all, have no more.
const FIRST_ROOM: usize = 64;

/// The body of a record.
#[tactic(auto, unfolding(crate::specs::Records::body_of))]
fn body(alloc: Global, shown: &Record) -> Result<Vec<u8>, NoMemory>
    ensures ok { IfOk result (λ v. v.items ≡ body_of shown.now) }
    ensures fits { OnOk result (FieldsFit shown.now) }
{
    let mut out = Vec::with_capacity(alloc, FIRST_ROOM)?;
    match shown {
        Record::Scen(scene) => push_scene(&mut out, scene)?,
        Record::Repl(reply) => push_reply(&mut out, reply)?,
        Record::Vsyn(vsync) => push_vsync(&mut out, vsync)?,
        Record::Comm(commit) => push_commit(&mut out, commit)?,
        Record::Fram(frame) => push_frame(&mut out, frame)?,
        Record::Frad(frame) | Record::Capt(frame) => push_numbered(&mut out, frame)?,
        Record::Hits(hit) => push_hit(&mut out, hit)?,
        Record::Arrv(arrivals) => push_list(&mut out, arrivals.as_slice())?,
        Record::Hist(history) => push_history(&mut out, history)?,
        Record::Hold(held) => push_list(&mut out, held.as_slice())?,
        Record::Stuk(stuck) => push_list(&mut out, stuck.as_slice())?,
        Record::Done => {}
        Record::Sflt(fault) => push_fault(&mut out, fault)?,
        Record::Summ(summary) => push_summary(&mut out, summary)?,
    }
    Ok(out)
}

/// Why a run ended early.
#[derive(Clone, Copy)]
pub enum RunFault {
    /// The sink failed.
    WriteFault,
    /// Out of memory; or a record has a list of more than 2^32 - 1 items or a body of more bytes,
    /// whose length its bytes could not show.
    NoMemory,
}

/// Writes the record with this tag and this body.
fn write_body<K: Sink>(sink: &mut K, tag: [u8; 4], body: &[u8]) -> Result<(), RunFault>
    ensures ok { OnOk result (Appends (K.taken sink.old) (K.taken sink.new) (framed tag body.now)) }
    ensures fits { OnOk result (Fits32 (length body.now)) }
    ensures err { OnErr result (TookPrefix (K.taken sink.old) (K.taken sink.new) (framed tag body.now)) }
    ensures begun { IsErrOf result RunFault.WriteFault → Fits32 (length body.now) }
    ensures nothing { IsErrOf result RunFault.NoMemory → sink.new ≡ sink.old }
    ensures later { K.faults sink.old ≤ K.faults sink.new }
    ensures failed { IsErrOf result RunFault.WriteFault → Rose (K.faults sink.old) (K.faults sink.new) }
{
    if body.len() > u32::MAX as usize {
        return Err(RunFault::NoMemory);
    }
    match put(sink, tag, body) {
        Ok(()) => Ok(()),
        Err(_) => Err(RunFault::WriteFault),
    }
}

/// Writes a record. After a fault the sink has a prefix of it, after running out of memory none of
/// it. A record with a list of more than 2^32 - 1 items, or with a body of more bytes, is answered
/// as out of memory; so each number of a record that is written, or was begun, fits its field.
#[tactic(auto, unfolding(crate::specs::Records::record_bytes))]
pub fn write_record<K: Sink>(alloc: Global, sink: &mut K, shown: &Record) -> Result<(), RunFault>
    ensures ok { OnOk result (Appends (K.taken sink.old) (K.taken sink.new) (record_bytes shown.now)) }
    ensures fits { OnOk result (RecordFits shown.now) }
    ensures err { OnErr result (TookPrefix (K.taken sink.old) (K.taken sink.new) (record_bytes shown.now)) }
    ensures begun { IsErrOf result RunFault.WriteFault → RecordFits shown.now }
    ensures nothing { IsErrOf result RunFault.NoMemory → sink.new ≡ sink.old }
    ensures later { K.faults sink.old ≤ K.faults sink.new }
    ensures failed { IsErrOf result RunFault.WriteFault → Rose (K.faults sink.old) (K.faults sink.new) }
{
    let body = match body(alloc, shown) {
        Ok(body) => body,
        Err(_) => return Err(RunFault::NoMemory),
    };
    write_body(sink, tag(shown), &body)
}

/// The tag of the record of an image, whose numbers fit their fields if that of its vsync does.
fn image_tag(of: ImageId) -> [u8; 4]
    ensures tag { (number : ℕ) (body : List ℕ) → result ≡ tag_of (image_in of number body) }
    ensures fits { (number : ℕ) (body : List ℕ) → Fits32 number → FieldsFit (image_in of number body) }
{
    match of {
        ImageId::Frame => *b"FRAM",
        ImageId::Display(_output) => *b"FRAD",
        ImageId::Capture(_output) => *b"CAPT",
    }
}

/// Writes the record of an image from its body, without a copy: the number of its display or capture,
/// if it has one, and that of its vsync, in four bytes each, highest first, and then the pixels. Else
/// it is as [`write_record`].
#[tactic(auto, unfolding(crate::specs::Records::record_bytes, crate::specs::Records::body_of))]
pub fn write_image<K: Sink>(
    sink: &mut K,
    of: ImageId,
    number: u32,
    body: &[u8],
) -> Result<(), RunFault>
    requires begins { BeginsImage of number body.now }
    ensures ok { OnOk result (Appends (K.taken sink.old) (K.taken sink.new) (record_bytes (image_in of number body.now))) }
    ensures fits { OnOk result (RecordFits (image_in of number body.now)) }
    ensures err { OnErr result (TookPrefix (K.taken sink.old) (K.taken sink.new) (record_bytes (image_in of number body.now))) }
    ensures begun { IsErrOf result RunFault.WriteFault → RecordFits (image_in of number body.now) }
    ensures nothing { IsErrOf result RunFault.NoMemory → sink.new ≡ sink.old }
    ensures later { K.faults sink.old ≤ K.faults sink.new }
    ensures failed { IsErrOf result RunFault.WriteFault → Rose (K.faults sink.old) (K.faults sink.new) }
{
    write_body(sink, image_tag(of), body)
}

/// Writes records in order. After a fault the sink has a prefix of their bytes, after running out
/// of memory whole records alone. A record that is too long, as in [`write_record`], is answered as
/// out of memory.
#[tactic(auto, unfolding(crate::specs::Records::bytes_of))]
pub fn write_all<K: Sink>(alloc: Global, sink: &mut K, records: &[Record]) -> Result<(), RunFault>
    ensures ok { OnOk result (Appends (K.taken sink.old) (K.taken sink.new) (bytes_of records.now)) }
    ensures fits { OnOk result (All RecordFits records.now) }
    ensures err { OnErr result (TookPrefix (K.taken sink.old) (K.taken sink.new) (bytes_of records.now)) }
    ensures whole { IsErrOf result RunFault.NoMemory → AppendsFirst (K.taken sink.old) (K.taken sink.new) records.now }
    ensures later { K.faults sink.old ≤ K.faults sink.new }
    ensures failed { IsErrOf result RunFault.WriteFault → Rose (K.faults sink.old) (K.faults sink.new) }
{
    for record in records {
        match write_record(alloc, sink, record) {
            Ok(()) => {}
            Err(fault) => return Err(fault),
        }
    }
    Ok(())
}
