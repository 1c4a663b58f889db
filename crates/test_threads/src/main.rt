//! Runs of what threads share: timelines, the turns of buffers, an object under a lock, a watch over
//! who is idle, an intake of transactions. Standard input has runs with an empty line between them;
//! the first line of a run says what it is of, and each other line is a call on it. A line is written
//! for each call: the call, and what it answered. Lines that begin with '#' say what a run shows.
#![tactic(auto)]

mod answer;
mod counted;
mod counter;
mod crowd_run;
mod entered;
mod intake_run;
mod lock_run;
mod seat;
mod signals_run;
mod thread_run;
mod time_run;
mod token;
mod turn_run;
mod watch_call;
mod watch_run;
mod words;
mod write_run;

use std::alloc::Global;
use std::io;
use std::sync::Wait;
use std::thread::Threads;

/// Makes the calls of a run, and writes what each answered.
fn play<R: Print + Threads + Wait + Sync>(
    rt: &R,
    alloc: Global,
    lines: &[String],
) -> io::Result<()> {
    let [head, calls @ ..] = lines else {
        return Ok(());
    };
    match head.as_str() {
        "timelines" => time_run::play(rt, alloc, calls)?,
        "turns" => turn_run::play(rt, alloc, calls)?,
        "lock" => lock_run::play(rt, alloc, calls)?,
        "threads" => thread_run::play(rt, alloc, calls)?,
        "watch" => watch_run::play(rt, calls)?,
        _ => {}
    }
    println!(rt; "")
}

fn main(rt: HostRuntime) -> io::Result<()> {
    let alloc = rt.alloc();
    let mut lines = Vec::new(alloc);
    for line in rt.lines(alloc) {
        let line = line?;
        if line.is_empty() {
            play(&rt, alloc, &lines)?;
            lines = Vec::new(alloc);
        } else if !line.starts_with('#') {
            lines.push(line)?;
        }
    }
    play(&rt, alloc, &lines)
}
