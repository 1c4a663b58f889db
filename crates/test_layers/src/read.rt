//! Takes a transaction apart and reads its buffers, as a compositor does.
ghost use Rattle.std.specs.Prelude.{◌≡◌, ◌≤◌, IfOk};

use sf_base::NoMemory;
use sf_txn::{BufferOp, Lease, Transaction};
use std::alloc::Global;
use std::io;
use test_leases::{Ends, Page, Writes};

/// Someone who knows of this many writes that ended, and of no read that did.
fn knowing(count: u32) -> Writes {
    Writes {
        count,
        ends: Ends::new(),
    }
}

/// Looks at all buffers of a transaction, and prints what the looks showed.
pub fn look(
    rt: &impl Print,
    alloc: Global,
    txn: &mut Transaction<Page>,
    count: u32,
) -> io::Result<()> {
    let mut drawn = Vec::new(alloc);
    if drawn.reserve(txn.buffers().len()).is_err() {
        return println!(rt; "look: no memory");
    }
    txn.look(&mut knowing(count), &mut drawn);
    print!(rt; "look:")?;
    for is_drawn in drawn {
        let word = if is_drawn { "drawn" } else { "owed" };
        print!(rt; " {word}")?;
    }
    println!(rt)
}

/// Reads a page that is drawn: opens it, hands its next turn on, and closes it.
fn read_turn(alloc: Global, eye: &mut Writes, page: Page) -> Result<Page, NoMemory>
    requires { page.number ≤ eye.old.count }
    ensures eye { page.number ≤ eye.new.count }
    ensures next { IfOk result (λ next. next.number ≡ page.number) }
{
    let (reading, pixels) = page.open(eye);
    match Page::hand_on(alloc, reading) {
        Ok((closing, next)) => {
            Page::close(closing, eye, pixels);
            Ok(next)
        }
        Err(_) => Err(NoMemory),
    }
}

/// Reads a page that is drawn, and its next turn after it.
fn read_twice(alloc: Global, eye: &mut Writes, page: Page) -> Result<Page, NoMemory>
    requires { page.number ≤ eye.old.count }
{
    let next = read_turn(alloc, eye, page)?;
    read_turn(alloc, eye, next)
}

/// Looks at a buffer and reads it twice where its write has ended. Prints its picture and its next turn.
fn read_buffer(
    rt: &impl Print,
    alloc: Global,
    eye: &mut Writes,
    buffer: BufferOp<Page>,
) -> io::Result<()> {
    let mut buffer = buffer;
    if !buffer.look(eye) {
        return println!(rt; "  layer {}: owed", buffer.layer.0);
    }
    let BufferOp { layer, lease, .. } = buffer;
    match read_twice(alloc, eye, lease) {
        Ok(next) => println!(rt;
            "  layer {}: {}, next turn {}",
            layer.0,
            next.number(),
            next.turn()
        ),
        Err(NoMemory) => println!(rt; "  layer {}: no memory", layer.0),
    }
}

/// Prints which reads ended, the last one first.
fn print_ends(rt: &impl Print, ends: Ends) -> io::Result<()> {
    let mut ends = ends;
    while let Some((number, turn)) = ends.take_last() {
        println!(rt; "  ended: {number}, turn {turn}")?;
    }
    Ok(())
}

/// Takes a transaction apart and reads its buffers, in order.
pub fn read(rt: &impl Print, alloc: Global, txn: Transaction<Page>, count: u32) -> io::Result<()> {
    let mut eye = knowing(count);
    let parts = txn.into_parts();
    println!(rt;
        "read: {} buffers, {} operations",
        parts.buffers.as_slice().len(),
        parts.ops.as_slice().len()
    )?;
    for buffer in parts.buffers.into_vec() {
        read_buffer(rt, alloc, &mut eye, buffer)?;
    }
    print_ends(rt, eye.ends)
}
