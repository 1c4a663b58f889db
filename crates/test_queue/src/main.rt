//! Runs of calls on BufferQueues: reads cases of calls from standard input, makes them on a queue,
//! and prints each with its answer. `stdin` says how a case is written. The rights to a queue's
//! buffers are numbers, and what is left in its slots is printed; or they are turns of buffers that
//! two actors draw and read through passes under a lock, and the history is printed at the end. A
//! compositor shows their frames, and can lend the pixels while it makes its next vsync.
#![tactic(auto)]

mod answer;
mod bringing;
mod call;
mod compositor;
mod desk;
mod numbers;
mod reply;
mod run;
mod state;
mod tools;
mod turns;

use call::Rights;
use std::alloc::Global;
use std::io;
use std::sync::Wait;
use test_words::{BufferSize, buffer_size};

/// What the first line of a case says: what its rights are, and its queue's default size.
fn head_of(head: &str) -> Option<(Rights, BufferSize)> {
    let mut words = head.split_whitespace();
    let rights = match words.next()? {
        "case" => Rights::Numbers,
        "turns" => Rights::Turns,
        _ => return None,
    };
    Some((rights, buffer_size(&mut words)?))
}

/// Makes the calls of a case, and prints what came out.
fn play<R: Print + Wait>(rt: &R, alloc: Global, lines: &[String]) -> io::Result<()> {
    let [head, calls @ ..] = lines else {
        return Ok(());
    };
    println!(rt; "{head}")?;
    match head_of(head.as_str()) {
        Some((Rights::Numbers, size)) => numbers::play(rt, alloc, size, calls),
        Some((Rights::Turns, size)) => turns::play(rt, alloc, size, calls),
        None => println!(rt; "no case"),
    }
}

fn main(rt: HostRuntime) -> io::Result<()> {
    let alloc = rt.alloc();
    let mut lines = Vec::new(alloc);
    for line in rt.lines(alloc) {
        let line = line?;
        if line.is_empty() {
            play(&rt, alloc, &lines)?;
            lines = Vec::new(alloc);
        } else if !line.starts_with('#') {
            lines.push(line)?;
        }
    }
    play(&rt, alloc, &lines)
}
