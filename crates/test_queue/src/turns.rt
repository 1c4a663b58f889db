//! Calls on a queue whose rights are the turns of buffers, by two actors under a lock.
ghost use Rattle.std.specs.Prelude.{◌≡◌, length, true};

use crate::answer;
use crate::answer::Answer;
use crate::call::{Rights, read};
use crate::compositor::Compositor;
use crate::desk::{Caller, Desk, Steps};
use crate::run::Run;
use crate::tools::Tools;
use sf_base::{NoMemory, Seen};
use sf_picture::Painted;
use sf_surface::Gives;
use sf_turns::{Stock, TableName, TurnSeat, open_turns};
use std::alloc::Global;
use std::io;
use std::marker::Brand;
use std::sync::Wait;
use test_words::BufferSize;

/// How many permits a case has.
const PERMITS: u32 = 100;

/// How many tokens the callers of a case may hold.
const PLACES: u32 = 8;

/// Does what a line asks for: who makes the call, and the call.
fn answer_to<B: TableName, W: Wait>(rt: &W, run: &mut Run<B>, line: &str) -> Answer {
    let mut words = line.split_whitespace();
    let by = match words.next() {
        Some("1") => Caller::First,
        Some("2") => Caller::Second,
        _ => return Answer::Plain("no caller"),
    };
    match read(run.alloc, Rights::Turns, &mut words) {
        Some((call, said)) => run.act(rt, by, call, said),
        None => Answer::Plain("not a call"),
    }
}

/// As many empty places as there are.
fn places<B: TableName>(alloc: Global) -> Result<Vec<Gives<B>>, NoMemory> {
    let mut tokens = Vec::new(alloc);
    for _ in 0..PLACES {
        tokens.push(Gives::Nothing)?;
    }
    Ok(tokens)
}

/// Makes the calls of a case, with buffers of the table that B names.
fn play_at<B: TableName, R: Print + Wait>(
    rt: &R,
    alloc: Global,
    size: BufferSize,
    mut seat: TurnSeat<Painted>,
    stock: Stock<Painted>,
    lines: &[String],
) -> io::Result<()>
    requires own { (seat.table ≡ B.table) × (stock.table ≡ B.table) }
    requires first { seat.is_first ≡ true }
    requires counted { length stock.buffers ≡ PERMITS }
{
    let (Ok(desk), Ok(tokens), Ok(compositor)) = (
        Desk::open(alloc, size.width, size.height),
        places(alloc),
        Compositor::new(alloc, &mut seat),
    ) else {
        return println!(rt; "out of memory");
    };
    let mut run: Run<B> = Run {
        alloc,
        desk,
        steps: Steps {
            first: 0,
            second: 0,
        },
        tokens,
        tools: Tools::new(seat, stock, PERMITS),
        compositor,
        seen: Seen { values: [0; 64] },
    };
    for line in lines {
        print!(rt; "{line}: ")?;
        answer::print(rt, &answer_to(rt, &mut run, line.as_str()))?;
    }
    run.desk.close(rt)
}

/// Makes the calls of a case, on a new queue of this default size, and prints its history.
pub fn play<R: Print + Wait>(
    rt: &R,
    alloc: Global,
    size: BufferSize,
    lines: &[String],
) -> io::Result<()> {
    match open_turns::<Painted>(alloc, PERMITS) {
        Ok((seat, stock)) => play_at::<Brand, R>(rt, alloc, size, seat, stock, lines)?,
        Err(_) => println!(rt; "out of memory")?,
    }
    println!(rt)
}
