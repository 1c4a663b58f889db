//! The records of a vsync and of its commits, from what the handler of `sf_commit` answers.
ghost use Rattle.std.specs.Prelude.{◌≡◌, ◌≤◌, IfOk, All, length, map};
ghost use Rattle.law_played.specs.sf_record.declared.record.Record.TheVariants as rec;
ghost use Rattle.law_played.specs.Commits.{buffer_shown, commit_shown};
ghost use Rattle.law_played.specs.Seeing.{value_shown};

use law_played::{
    Commit, CommitRecord, CommittedBuffer, Record, Shown, TimelineValue, VsyncHeader,
};
use sf_base::{Items, LayerId, NoMemory, Seen};
use std::alloc::Global;

/// What the record of a commit shows of a buffer.
fn buffer_of(buffer: &(LayerId, Shown)) -> CommittedBuffer
    ensures { result ≡ buffer_shown buffer.now }
{
    let (layer, shown) = buffer;
    CommittedBuffer {
        layer: layer.0,
        queue: shown.queue.0,
        frame: shown.frame,
        picture: shown.picture,
        x: shown.crop.x.max(0) as u32,
        y: shown.crop.y.max(0) as u32,
        width: shown.crop.width,
        height: shown.crop.height,
    }
}

/// The record of a commit.
pub fn commit_record(alloc: Global, commit: &Commit) -> Result<Record, NoMemory>
    ensures { IfOk result (λ written. written ≡ rec.Comm (commit_shown commit.now)) }
{
    let mut buffers = Vec::new(alloc);
    for buffer in commit.buffers.as_slice() {
        buffers.push(buffer_of(buffer))?;
    }
    Ok(Record::Comm(CommitRecord {
        token: commit.token.0,
        arrival: commit.number,
        result: commit.cause,
        operation: commit.op,
        buffers: Items::new(buffers),
    }))
}

/// What was seen of a timeline, which is 1 to 64.
fn value_of(seen: &Seen, timeline: u32) -> TimelineValue
    requires low { 1 ≤ timeline }
    requires high { timeline ≤ 64 }
    ensures { result ≡ value_shown seen.now timeline }
{
    TimelineValue {
        timeline,
        value: seen.values[timeline as usize - 1],
    }
}

/// What was seen of timelines, each of which is 1 to 64.
fn values_of(alloc: Global, timelines: &[u32], seen: &Seen) -> Result<Vec<TimelineValue>, NoMemory>
    requires { All (λ timeline. (1 ≤ timeline) × (timeline ≤ 64)) timelines.now }
    ensures { IfOk result (λ values. values.items ≡ map (value_shown seen.now) timelines.now) }
{
    let mut values = Vec::new(alloc);
    for timeline in timelines {
        values.push(value_of(seen, *timeline))?;
    }
    Ok(values)
}

/// The record that stands before the commits of a vsync: its number, when its frame is expected, and
/// what it saw of these timelines, each of which is 1 to 64.
pub fn vsync_record(
    alloc: Global,
    number: u32,
    expected: u64,
    timelines: &[u32],
    seen: &Seen,
) -> Result<Record, NoMemory>
    requires { All (λ timeline. (1 ≤ timeline) × (timeline ≤ 64)) timelines.now }
    ensures { IfOk result (λ written. written ≡ rec.Vsyn (record { number = number; expected = expected; timelines = map (value_shown seen.now) timelines.now })) }
{
    let timelines = Items::new(values_of(alloc, timelines, seen)?);
    Ok(Record::Vsyn(VsyncHeader {
        number,
        expected,
        timelines,
    }))
}
