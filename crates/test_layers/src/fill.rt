//! Fills and merges the transactions of a case, and prints them.
ghost use Rattle.std.specs.Prelude.{◌≡◌, ◌<◌, [], IsTrue, IfOk};
ghost use Rattle.sf_layer.specs.Ranges.{IsOperation};
ghost use Rattle.sf_txn.specs.Transactions.{shows_of};

use crate::show;
use sf_base::{Fence, LayerId, NoMemory, QueueId, Rect};
use sf_layer::{Op, Shown};
use sf_txn::{BufferOp, Transaction};
use std::alloc::Global;
use std::{io, mem};
use test_leases::Page;

/// Whether a transaction may be given the operation without a lease.
fn is_settable(layer: LayerId, op: &Op) -> bool
    ensures in_range { IsTrue result → IsOperation (layer, op.now) }
    ensures plain { IsTrue result → shows_of op.now layer ≡ [] }
{
    match op {
        Op::Show(_) => false,
        op => layer.0 > 0 && op.is_in_range(),
    }
}

/// Sets operations in a transaction, in their order. Prints those that are refused.
pub fn set_all(
    rt: &impl Print,
    txn: &mut Transaction<Page>,
    ops: &[(LayerId, Op)],
) -> io::Result<()> {
    for (layer, op) in ops {
        if !is_settable(*layer, op) || txn.set(*layer, *op).is_err() {
            print!(rt; "refused:")?;
            show::operation(rt, *layer, op)?;
        }
    }
    Ok(())
}

/// A frame of queue 1 for a layer, with the picture of its number.
fn frame(alloc: Global, layer: LayerId, number: u32) -> Result<BufferOp<Page>, NoMemory>
    ensures { IfOk result (λ buffer. buffer.layer ≡ layer) }
{
    Ok(BufferOp {
        layer,
        shown: Shown {
            queue: QueueId(1),
            frame: u64::from(number),
            picture: number,
            crop: Rect {
                x: 0,
                y: 0,
                width: 1,
                height: 1,
            },
        },
        fence: Fence::none(),
        lease: Page::new(alloc, number)?,
    })
}

/// Shows the frame of a number on a layer, and prints the frame whose place it takes.
pub fn set_buffer(
    rt: &impl Print,
    alloc: Global,
    txn: &mut Transaction<Page>,
    layer: LayerId,
    number: u32,
) -> io::Result<()> {
    if layer.0 == 0 {
        return println!(rt; "buffer: not in range");
    }
    let Ok(buffer) = frame(alloc, layer, number) else {
        return println!(rt; "buffer: no memory");
    };
    match txn.set_buffer(buffer) {
        Ok(None) => println!(rt; "buffer: replaces none"),
        Ok(Some(old)) => println!(rt; "buffer: replaces {}", old.lease.number()),
        Err(_) => println!(rt; "buffer: no memory"),
    }
}

fn buffers(rt: &impl Print, buffers: &[BufferOp<Page>]) -> io::Result<()> {
    for buffer in buffers {
        println!(rt;
            "  layer {} frame {}",
            buffer.layer.0,
            buffer.lease.number()
        )?;
    }
    Ok(())
}

fn operations(rt: &impl Print, txn: &Transaction<Page>) -> io::Result<()> {
    let Ok(ops) = txn.ops() else {
        return println!(rt; "show: no memory");
    };
    for (layer, op) in ops.as_slice() {
        show::operation(rt, *layer, op)?;
    }
    Ok(())
}

/// Prints a transaction: its token and time, its operations, its buffers and its barriers.
pub fn show_all(rt: &impl Print, txn: &Transaction<Page>) -> io::Result<()> {
    match txn.desired() {
        Some(time) => println!(rt; "token {}, time {time}", txn.token().0)?,
        None => println!(rt; "token {}, no time", txn.token().0)?,
    }
    operations(rt, txn)?;
    buffers(rt, txn.buffers())?;
    for (layer, frame) in txn.barriers() {
        println!(rt; "  barrier {} {frame}", layer.0)?;
    }
    Ok(())
}

/// Merges another transaction, which is empty then, into one, and prints the frames whose places
/// others took.
pub fn merge(
    rt: &impl Print,
    alloc: Global,
    txn: &mut Transaction<Page>,
    other: &mut Transaction<Page>,
) -> io::Result<()> {
    let first = mem::replace(txn, Transaction::new(alloc));
    let second = mem::replace(other, Transaction::new(alloc));
    match first.merge(second) {
        Ok((merged, replaced)) => {
            *txn = merged;
            println!(rt; "merge: replaces {} frames", replaced.len())?;
            buffers(rt, &replaced)
        }
        Err((NoMemory, first, _)) => {
            *txn = first;
            println!(rt; "merge: no memory")
        }
    }
}
