//! The records of a run as plain data, one type for each.
use sf_base::Items;
use sf_script::ScriptFault;

/// What a run shows of its scene.
#[derive(Clone, Copy)]
pub struct SceneHeader {
    pub version: u32,
    /// In pixels.
    pub width: u32,
    pub height: u32,
    /// The time from a vsync to the next one, in nanoseconds.
    pub period: u64,
}

/// The reply to a step.
#[derive(Drop)]
pub struct ReplyRecord {
    pub actor: u32,
    /// The step's place in its actor's script, from 1.
    pub step: u32,
    /// 0, or why the step was refused.
    pub status: u32,
    /// What a step that was done answers.
    pub values: Items<u64>,
}

/// What a vsync saw of a timeline.
#[derive(Clone, Copy)]
pub struct TimelineValue {
    pub timeline: u32,
    pub value: u64,
}

/// The head of a vsync's records.
#[derive(Drop)]
pub struct VsyncHeader {
    /// From 1. Vsyncs that show nothing are counted.
    pub number: u32,
    /// When the frame is expected, in nanoseconds from the start of the run.
    pub expected: u64,
    /// What the vsync saw of each declared timeline, by rising number.
    pub timelines: Items<TimelineValue>,
}

/// A buffer that a transaction brought to a layer, and the crop of it that is shown.
#[derive(Clone, Copy)]
pub struct CommittedBuffer {
    pub layer: u32,
    pub queue: u32,
    pub frame: u64,
    pub picture: u32,
    pub x: u32,
    pub y: u32,
    pub width: u32,
    pub height: u32,
}

/// The commit of a transaction.
#[derive(Drop)]
pub struct CommitRecord {
    pub token: u32,
    /// The number of the arrival, from 1.
    pub arrival: u32,
    /// 0, or the number of the cause for which the transaction was rejected.
    pub result: u32,
    /// The place of the operation that was rejected, from 1, or 0.
    pub operation: u32,
    /// The buffers of the transaction.
    pub buffers: Items<CommittedBuffer>,
}

/// A frame: the number of its vsync, and its pixels, four bytes each in the order red, green, blue,
/// alpha, rows from the top.
#[derive(Drop)]
pub struct Frame {
    pub number: u32,
    pub pixels: Items<u8>,
}

/// A frame of a further display, or a capture: its number, that of its vsync, and its pixels.
#[derive(Drop)]
pub struct NumberedFrame {
    pub output: u32,
    pub number: u32,
    pub pixels: Items<u8>,
}

/// What a hit test answers in a vsync: its number, that of the vsync, and that of the layer in
/// front, 0 for none.
#[derive(Clone, Copy)]
pub struct Hit {
    pub output: u32,
    pub number: u32,
    pub layer: u32,
}

/// What a run shows of an arrival.
#[derive(Clone, Copy)]
pub struct ArrivalEntry {
    pub actor: u32,
    pub step: u32,
    pub token: u32,
}

/// A call on a queue.
#[derive(Clone, Copy)]
pub struct HistoryEntry {
    /// The actor that called, or 0 for the compositor.
    pub caller: u32,
    /// The place of the actor's step, from 1, or for the compositor the number of its vsync.
    pub step: u32,
    /// 1 connect, 2 disconnect, 3 max dequeued, 4 async, 5 dequeue, 6 request, 7 queue, 8 cancel,
    /// 9 producer detach, 10 producer attach, 11 max acquired, 12 abandon, 13 acquire, 14 release,
    /// 15 consumer detach, 16 consumer attach.
    pub kind: u32,
    /// The number of the reply's status, 0 for a call that was done.
    pub status: u32,
    /// The slot that the call names or got, or 4294967295 if there is none.
    pub slot: u32,
    /// The frame of a queue, acquire, release or consumer detach that has one, or 0.
    pub frame: u64,
}

/// The calls on a queue, in order.
#[derive(Drop)]
pub struct QueueHistory {
    pub queue: u32,
    pub entries: Items<HistoryEntry>,
}

/// A transaction that is held at the end of a run: the number of its arrival, the number of the
/// hold, and what the hold is for.
#[derive(Clone, Copy)]
pub struct HeldEntry {
    pub arrival: u32,
    pub hold: u32,
    pub a: u64,
    pub b: u64,
}

/// An actor that is stuck at the end of a run, and the step that is not done.
#[derive(Clone, Copy)]
pub struct StuckEntry {
    pub actor: u32,
    pub step: u32,
}

/// What records come to.
#[derive(Clone, Copy)]
pub struct Summary {
    /// The replies to steps.
    pub replies: u64,
    pub vsyncs: u64,
    /// All commits, those that were rejected too.
    pub commits: u64,
    pub rejected: u64,
    pub frames: u64,
    /// The sum of all bytes of pixels.
    pub pixel_sum: u64,
    /// The transactions that are held at the end.
    pub held: u64,
    /// The actors that are stuck at the end.
    pub stuck: u64,
}

/// A record of a run.
#[derive(Drop)]
pub enum Record {
    /// The scene, first of all.
    Scen(SceneHeader),
    /// The reply to a step.
    Repl(ReplyRecord),
    /// A vsync that commits something; the records of its commits and of what it shows follow.
    Vsyn(VsyncHeader),
    /// The commit of a transaction.
    Comm(CommitRecord),
    /// A frame.
    Fram(Frame),
    /// A frame of a further display.
    Frad(NumberedFrame),
    /// A capture.
    Capt(NumberedFrame),
    /// A hit test.
    Hits(Hit),
    /// All arrivals, in order.
    Arrv(Items<ArrivalEntry>),
    /// The calls on a queue; one such record a queue, by rising number.
    Hist(QueueHistory),
    /// The transactions that are held at the end, in the order of arrival.
    Hold(Items<HeldEntry>),
    /// The actors that are stuck at the end, by rising number.
    Stuk(Items<StuckEntry>),
    /// The end of a whole run.
    Done,
    /// The place of a script's fault; nothing else is written then.
    Sflt(ScriptFault),
    /// What the records of a run come to, instead of them.
    Summ(Summary),
}
