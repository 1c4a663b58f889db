//! Plays each script of the folder that it is run in, over a source and a sink in memory, and prints
//! the status of each run and its records in readable lines. The scripts come in the order of their
//! names. Beside `NAME.sf` may lie
//!
//! - `NAME.lines`: a run for each line, which is put behind the script; a semicolon ends a line;
//! - `NAME.fails`: a run for each line, as `read 2` or `write 5`, in which that call fails;
//! - `NAME.words`: the words of the run, one a line;
//! - `NAME.length`: how many bytes the script has, with a comment at its end;
//! - `NAME.pieces`: the run reads and writes through a reader and a writer of std that move a few
//!   bytes in a call and are often interrupted;
//! - `NAME.counts`: of the records only how many of each kind there are is printed, and the sum of
//!   the bytes of all frames' pixels.
//!
//! Then it prints how many bytes the record of a long history has, and last of live runs what every
//! schedule gives, with gates that make threads meet or hold them back:
//!
//! - A phone's screen, in which two actors meet before each of their first ten steps, which they could
//!   not do if one ran after the other; and two producers that wait for the compositor.
//! - An actor that waits for a signal that nobody gives: the run ends, and the actor is stuck.
//! - The same behind steps that are done, beside an actor that ends: when the threads are joined it is
//!   tried again, and the gate is not passed again.
//! - A signal that is held back until the actor that waits for it has come to its next step: it is held
//!   back in vain, since that step may not be begun before the wait is done.
//! - Sixteen actors that wait for one another's signals in a ring.
//! - The phone's screen and the two producers with transactions that arrive through a queue: each step
//!   that sent one is answered with 0.
//! - A producer with two buffers and a large display, whose images are composed in a thread beside the
//!   next vsync: each frame of the run is one of the play, though a buffer is given back while its pixels
//!   are still read.
//! - An actor with many steps that no one else can see, and then a transaction: the compositor doesn't
//!   make a vsync for each of them.
//! - A sink that fails at one write after the other, while threads run and behind them: what was written
//!   is whole records, and then at most one that is cut.
//!
//! The gate is passed once for each step, before its first try.
#![tactic(auto)]

mod case;
mod gate;
mod live;
mod pieces;
mod sizes;

use case::{Case, cases, names};
use pieces::Halting;
use sf_app::run;
use sf_io::{Gate, MemSink, MemSource, OpenGate, ReadSource, WriteSink};
use sizes::history_length;
use std::alloc::Global;
use std::io;
use std::sync::Wait;
use std::thread::Threads;
use test_lines::{push_counts, push_records};

/// More calls on a queue than a script can make.
const LONG_HISTORY: u32 = 65_536;

/// What is printed of a run.
fn shown(
    alloc: Global,
    title: &str,
    status: u8,
    records: &[u8],
    is_counted: bool,
) -> io::Result<String> {
    let mut text = format!(in alloc; "== {title} status {status}\n")?;
    if is_counted {
        push_counts(&mut text, records)?;
    } else {
        push_records(&mut text, records)?;
    }
    Ok(text)
}

/// Runs a case over a source and a sink in memory, some of whose calls fail.
fn in_memory<R: AllocGlobal + Threads + Wait + Sync>(rt: &R, case: Case) -> io::Result<String> {
    let Case {
        title,
        script,
        words,
        failing_reads,
        failing_writes,
        is_counted,
        ..
    } = case;
    let mut source = MemSource::new(script, failing_reads);
    let mut sink = MemSink::new(rt.alloc(), failing_writes);
    let status = run(rt, rt.alloc(), &words, &mut source, &mut sink, &OpenGate);
    shown(rt.alloc(), title.as_str(), status, sink.bytes(), is_counted)
}

/// Runs a case over a reader and a writer that move three bytes in a call and are interrupted now
/// and then.
fn in_pieces<R: AllocGlobal + Threads + Wait + Sync>(rt: &R, case: Case) -> io::Result<String> {
    let mut records = Vec::new(rt.alloc());
    let mut source = ReadSource::new(Halting::new(case.script.as_slice()));
    let mut sink = WriteSink::new(Halting::new(&mut records));
    let status = run(
        rt,
        rt.alloc(),
        &case.words,
        &mut source,
        &mut sink,
        &OpenGate,
    );
    drop(sink);
    shown(
        rt.alloc(),
        case.title.as_str(),
        status,
        &records,
        case.is_counted,
    )
}

fn main(rt: HostRuntime) -> io::Result<()> {
    for name in names(&rt)? {
        for case in cases(&rt, name.as_str())? {
            let text = if case.in_pieces {
                in_pieces(&rt, case)?
            } else {
                in_memory(&rt, case)?
            };
            print!(rt; "{text}")?;
        }
    }
    OpenGate.pass(&rt, 1, 1);
    let length = history_length(rt.alloc(), LONG_HISTORY)?;
    println!(rt; "== a history of {LONG_HISTORY} calls: {length} bytes")?;
    live::show(&rt)
}
