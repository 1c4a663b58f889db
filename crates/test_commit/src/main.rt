//! What commits when: runs of cases of transactions, which arrive under a lock, wait, are held, and
//! commit at vsyncs. It reads cases from standard input, and prints what each line answers. Empty
//! lines and lines that begin with `#` are skipped; of a line that can't be done it says so.
//!
//! | Line | What it says |
//! |---|---|
//! | `case NAME` | a case begins: nothing was sent or committed, no write ended, and all timelines are at 0 |
//! | `create LAYER`, `destroy LAYER` | the next transaction makes a layer for buffers, or takes one out |
//! | `press LAYER`, `calm LAYER` | it gives a layer backpressure, or none |
//! | `page LAYER FRAME NUMBER` | it shows a frame of queue 1, with the page of this number, whose write ends as the write of its number |
//! | `behind LAYER FRAME NUMBER TIMELINE VALUE` | the same, behind an acquire fence of one point |
//! | `barrier LAYER FRAME` | it waits for a frame of a layer |
//! | `desire TIME` | its desired present time |
//! | `seen TIMELINE VALUE`, `writes COUNT` | what was observed of a timeline; so many writes ended |
//! | `frame LAYER FRAME` | for the decision of a hold: a frame was committed for a layer |
//! | `fresh LAYER`, `pressed LAYER` | the layer got a buffer in this vsync, has backpressure |
//! | `begin-vsync`, `clear-pressed` | a vsync begins; no layer has backpressure |
//! | `ask EXPECTED MARK..` | what holds the next transaction at this expected present time, with a mark for each of its buffers: `drawn`, or `owed` |
//! | `send ACTOR STEP TOKEN` | it arrives for a token, of this client's step, by the pass of actor 1 or 2 |
//! | `take ACTOR` | what arrived is taken by this pass, into the queues of tokens |
//! | `arrivals` | the lock is closed: all that arrived; then there is a lock over it again |
//! | `head TOKEN`, `pop TOKEN` | the token's first transaction in the queues, which `pop` takes out |
//! | `number NUMBER` | the token of the transaction of this number in the queues |
//! | `tokens`, `look` | the tokens with something in the queues; which pages there are written |
//! | `vsync EXPECTED` | the compositor takes what arrived, and makes a vsync that expects its frame at this present time |
//! | `lend`, `give` | the pixels of the buffers on layers are lent, or given back |
#![tactic(auto)]

mod compositor;
mod form;
mod line;
mod run;
mod told;

use run::Run;
use std::alloc::Global;
use std::io;
use std::sync::Wait;

/// Does what a line of the input says, and prints what it answers.
fn step<R: Print + Wait>(rt: &R, alloc: Global, run: &mut Run, line: &str) -> io::Result<()> {
    if line.is_empty() || line.starts_with('#') {
        return Ok(());
    }
    let mut told = String::new(alloc);
    match run.follow(rt, line, &mut told) {
        Some(()) => print!(rt; "{told}"),
        None => println!(rt; "{line}: not done"),
    }
}

fn main(rt: HostRuntime) -> io::Result<()> {
    let alloc = rt.alloc();
    let Some(mut run) = Run::new(alloc, "") else {
        return println!(rt; "no memory");
    };
    for line in rt.lines(alloc) {
        step(&rt, alloc, &mut run, line?.as_str().trim())?;
    }
    Ok(())
}
