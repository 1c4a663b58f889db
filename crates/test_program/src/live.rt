//! Live runs with gates, and what of them is the same under every schedule.
use crate::gate::{MeetingGate, SlowGate, StepOf};
use sf_app::run;
use sf_io::{Gate, MemSink, MemSource, OpenGate};
use std::alloc::Global;
use std::rt::Files;
use std::sync::Wait;
use std::thread::Threads;
use std::{fs, io};
use test_lines::{Body, Records, TAGS, push_records};

/// How many of the writes of a run fail in turn: those of the first record, of vsyncs and of replies.
const FAILING_WRITES: u64 = 24;

/// The words of a play, of a live run, and of one whose transactions arrive through a queue.
const PLAY: &[&str] = &["--run=play"];

const LIVE: &[&str] = &["--run=live"];

const LIVE_QUEUE: &[&str] = &["--run=live", "--intake=queue"];

/// Runs the script of this name with words and a gate, into a sink of which some writes fail: the
/// status, and the sink with what was written.
fn run_with<R: Files + AllocGlobal + Threads + Wait + Sync, G: Gate + Sync>(
    rt: &R,
    name: &str,
    asked: &[&str],
    failing_writes: Vec<u64>,
    gate: &G,
) -> io::Result<(u8, MemSink)> {
    let alloc = rt.alloc();
    let mut words = Vec::new(alloc);
    for word in asked {
        words.push(String::from_str(alloc, word)?)?;
    }
    let path = format!(in alloc; "{name}.sf")?;
    let mut source = MemSource::new(fs::read(rt, path.as_str())?, Vec::new(alloc));
    let mut sink = MemSink::new(alloc, failing_writes);
    let status = run(rt, alloc, &words, &mut source, &mut sink, gate);
    Ok((status, sink))
}

/// Runs the script of this name live.
fn run_live<R: Files + AllocGlobal + Threads + Wait + Sync, G: Gate + Sync>(
    rt: &R,
    name: &str,
    failing_writes: Vec<u64>,
    gate: &G,
) -> io::Result<(u8, MemSink)> {
    run_with(rt, name, LIVE, failing_writes, gate)
}

/// The steps that have replies, and then those at which actors are stuck.
fn steps_in(alloc: Global, records: &[u8]) -> io::Result<Vec<StepOf>> {
    let mut steps = Vec::new(alloc);
    for (tag, body) in (Records { rest: records }) {
        let mut body = Body { rest: body };
        let count = match tag {
            "REPL" => 1,
            "STUK" => body.number(4)?,
            _ => 0,
        };
        for _ in 0..count {
            let actor = body.number(4)?;
            let step = body.number(4)?;
            steps.push((actor, step))?;
        }
    }
    Ok(steps)
}

/// Prints whether something holds.
fn say<R: Print>(rt: &R, claim: &str, holds: bool) -> io::Result<()> {
    let answer = if holds { "yes" } else { "no" };
    println!(rt; "{claim}: {answer}")
}

/// Runs a script live at whose gate actors meet, and prints what came of it: the records too, where
/// every schedule writes the same.
fn show_meeting<R: Files + AllocGlobal + Print + Threads + Wait + Sync>(
    rt: &R,
    name: &str,
    gate: MeetingGate,
    is_fixed: bool,
) -> io::Result<()> {
    let (status, sink) = run_live(rt, name, Vec::new(rt.alloc()), &gate)?;
    println!(rt; "== {name} live status {status}")?;
    say(rt, "an actor waited in vain", gate.gave_up())?;
    let mut steps = steps_in(rt.alloc(), sink.bytes())?;
    steps.sort()?;
    let mut passed = gate.into_passes();
    passed.sort()?;
    println!(rt; "steps: {}", steps.len())?;
    say(rt, "the gate was passed once for each", passed == steps)?;
    let mut text = String::new(rt.alloc());
    if is_fixed {
        push_records(&mut text, sink.bytes())?;
    }
    print!(rt; "{text}")
}

/// Whether these bytes could be the beginning of a record.
fn begins_record(bytes: &[u8]) -> bool {
    let tag = &bytes[..bytes.len().min(4)];
    TAGS.iter().any(|known| known.as_bytes().starts_with(tag))
}

/// Whether what was written is whole records, and then at most one that is cut.
fn is_cut_once(bytes: &[u8]) -> bool {
    let mut records = Records { rest: bytes };
    let are_known = records.all(|(tag, _)| TAGS.contains(&tag));
    are_known && begins_record(records.rest)
}

/// Runs live two actors that each send a transaction off, into a sink that fails at one write after the
/// other, and prints the statuses.
fn show_failing<R: Files + AllocGlobal + Print + Threads + Wait + Sync>(rt: &R) -> io::Result<()> {
    for place in 1..=FAILING_WRITES {
        let write = vec![in rt.alloc(); place]?;
        let (status, sink) = run_live(rt, "two-transactions", write, &OpenGate)?;
        println!(rt; "== two-transactions live: write {place} status {status}")?;
        say(
            rt,
            "whole records and one cut at most",
            is_cut_once(sink.bytes()),
        )?;
    }
    Ok(())
}

/// The number of the last vsync that committed something.
fn last_vsync(records: &[u8]) -> io::Result<u64> {
    let mut last = 0;
    for (tag, body) in (Records { rest: records }) {
        if tag == "VSYN" {
            last = Body { rest: body }.number(4)?;
        }
    }
    Ok(last)
}

/// Runs live an actor with many steps that no one else can see, and then a transaction. It rests before
/// each; the compositor looks at the start alone, and at what was sent.
fn show_unseen<R: Files + AllocGlobal + Print + Threads + Wait + Sync>(rt: &R) -> io::Result<()> {
    let name = "steps-that-no-one-sees";
    let (status, sink) = run_live(rt, name, Vec::new(rt.alloc()), &SlowGate)?;
    println!(rt; "== {name} live status {status}")?;
    let number = last_vsync(sink.bytes())?;
    let is_soon = (1..=2).contains(&number);
    say(rt, "a vsync was the first or the second", is_soon)
}

/// The pixels of the frames of a run.
fn frames_in(alloc: Global, records: &[u8]) -> io::Result<Vec<&[u8]>> {
    let mut frames = Vec::new(alloc);
    for (tag, body) in (Records { rest: records }) {
        if tag != "FRAM" {
            continue;
        }
        if let Some((_, pixels)) = body.split_at_checked(4) {
            frames.push(pixels)?;
        }
    }
    Ok(frames)
}

/// Whether frames are some of all those, in their order, up to the last one.
fn are_among(frames: &[&[u8]], all: &[&[u8]]) -> bool {
    let mut found = 0;
    for frame in all {
        if frames.get(found) == Some(frame) {
            found += 1;
        }
    }
    found == frames.len() && frames.last() == all.last()
}

/// Plays a script whose frames one actor sends off one after another, and runs it live: each frame of
/// the live run is one of the play, in their order, although the next vsync is decided while a frame is
/// composed, and a buffer is drawn in again that was given back before it was read for the last time.
fn show_frames<R: Files + AllocGlobal + Print + Threads + Wait + Sync>(rt: &R) -> io::Result<()> {
    let name = "two-large-buffers";
    let alloc = rt.alloc();
    let (_, played) = run_with(rt, name, PLAY, Vec::new(alloc), &OpenGate)?;
    let (status, sink) = run_live(rt, name, Vec::new(alloc), &OpenGate)?;
    println!(rt; "== {name} live status {status}")?;
    println!(rt; "steps: {}", steps_in(alloc, sink.bytes())?.len())?;
    let all = frames_in(alloc, played.bytes())?;
    let frames = frames_in(alloc, sink.bytes())?;
    say(
        rt,
        "each frame is one of the play",
        are_among(&frames, &all),
    )
}

/// The steps whose transactions arrived.
fn arrived_in(alloc: Global, records: &[u8]) -> io::Result<Vec<StepOf>> {
    let mut steps = Vec::new(alloc);
    for (tag, body) in (Records { rest: records }) {
        if tag == "ARRV" {
            let mut body = Body { rest: body };
            for _ in 0..body.number(4)? {
                let actor = body.number(4)?;
                let step = body.number(4)?;
                body.number(4)?;
                steps.push((actor, step))?;
            }
        }
    }
    Ok(steps)
}

/// The steps that were done and answered with one value, which is 0.
fn answered_0(alloc: Global, records: &[u8]) -> io::Result<Vec<StepOf>> {
    let mut steps = Vec::new(alloc);
    for (tag, body) in (Records { rest: records }) {
        if tag == "REPL" {
            let mut body = Body { rest: body };
            let actor = body.number(4)?;
            let step = body.number(4)?;
            let status = body.number(4)?;
            let count = body.number(4)?;
            if status == 0 && count == 1 && body.number(8)? == 0 {
                steps.push((actor, step))?;
            }
        }
    }
    Ok(steps)
}

/// Runs a script live at whose gate actors meet, where transactions arrive through a queue, and prints
/// what came of it: each step that sent one has the one value 0.
fn show_queue<R: Files + AllocGlobal + Print + Threads + Wait + Sync>(
    rt: &R,
    name: &str,
) -> io::Result<()> {
    let alloc = rt.alloc();
    let gate = MeetingGate::new(alloc, 1, 10, 0);
    let (status, sink) = run_with(rt, name, LIVE_QUEUE, Vec::new(alloc), &gate)?;
    println!(rt; "== {name} live through a queue status {status}")?;
    say(rt, "an actor waited in vain", gate.gave_up())?;
    println!(rt; "steps: {}", steps_in(alloc, sink.bytes())?.len())?;
    let mut arrived = arrived_in(alloc, sink.bytes())?;
    println!(rt; "arrivals: {}", arrived.len())?;
    arrived.sort()?;
    let mut answered = answered_0(alloc, sink.bytes())?;
    answered.sort()?;
    say(
        rt,
        "each was answered with 0, and no other step was",
        arrived == answered,
    )
}

/// Prints the live runs with gates, and those into a sink that fails.
pub fn show<R: Files + AllocGlobal + Print + Threads + Wait + Sync>(rt: &R) -> io::Result<()> {
    for (name, one, meetings, ahead, is_fixed) in [
        ("phone", 1, 10, 0, false),
        ("phone", 2, 10, 0, false),
        ("producers-with-two-buffers", 1, 10, 0, false),
        ("a-wait-that-never-ends", 1, 0, 0, true),
        ("an-actor-that-is-left", 1, 0, 0, true),
        ("a-signal-that-is-held-back", 1, 1, 1, true),
        ("sixteen-actors-in-a-ring", 1, 1, 0, true),
    ] {
        let gate = MeetingGate::new(rt.alloc(), one, meetings, ahead);
        show_meeting(rt, name, gate, is_fixed)?;
    }
    show_queue(rt, "phone")?;
    show_queue(rt, "producers-with-two-buffers")?;
    show_frames(rt)?;
    show_unseen(rt)?;
    show_failing(rt)
}
