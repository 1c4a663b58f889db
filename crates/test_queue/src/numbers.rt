//! Calls on the slots of a queue whose rights are numbers.
ghost use Rattle.std.specs.Prelude.{◌≡◌, ◌<◌, ◌-◌, ◌^◌, IfOk, is_some};
ghost use Rattle.sf_queue.specs.Lending.{takes_fresh};
ghost use Rattle.sf_slots.specs.Queue.{told_of};

use crate::call::{Call, Rights, Said, read};
use crate::reply::{acquired, done, handed_back, known, lent, refused, seated, taken_in};
use crate::state;
use sf_base::{ActorId, NoMemory, QStatus, QueueId};
use sf_queue::QueueOrder;
use sf_slots::Slots;
use std::alloc::Global;
use std::io;
use test_words::{BufferSize, is_buffer_size};

/// The right to a new buffer, where a dequeue needs one.
fn fresh(q: &Slots<u64>, said: &Said) -> Option<u64>
    ensures { is_some result ≡ takes_fresh (told_of q.now) said.now.by said.now.width said.now.height }
{
    match sf_queue::choose(q, said.by, said.width, said.height) {
        Ok(chosen) => chosen.needs.then_some(said.right),
        Err(_) => None,
    }
}

fn dequeue(rt: &impl Print, q: &mut Slots<u64>, said: &Said) -> io::Result<()> {
    if q.settings().buffers == u64::MAX {
        return println!(rt; "not made");
    }
    let fresh = fresh(q, said);
    match sf_queue::dequeue(q, said.by, said.width, said.height, fresh) {
        Ok(made) => lent(rt, &made),
        Err((cause, None)) => refused(rt, cause),
        Err((cause, Some(right))) => handed_back(rt, cause, right),
    }
}

/// The order of a frame.
fn order(alloc: Global, said: Said) -> Result<QueueOrder<u64>, NoMemory>
    ensures { IfOk result (λ order. order.kept ≡ order.fence) }
{
    let kept = said.fence.copy(alloc)?;
    Ok(QueueOrder {
        slot: said.slot,
        buffer: said.number,
        picture: said.picture,
        width: said.width,
        height: said.height,
        time: said.time,
        crop: said.crop,
        fence: said.fence,
        kept,
        right: said.right,
    })
}

/// Queues a frame where a test finds no refusal, by the call that tests nothing.
fn queue_tested(
    rt: &impl Print,
    q: &mut Slots<u64>,
    by: ActorId,
    order: QueueOrder<u64>,
) -> io::Result<()>
    requires numbered { q.old.settings.frames < 2 ^ 64 - 1 }
    requires kept { order.kept ≡ order.fence }
{
    let refusal = sf_queue::queue_refusal(
        q,
        by,
        order.slot,
        order.buffer,
        order.width,
        order.height,
        order.crop,
    );
    match refusal {
        Some(cause) => refused(rt, cause),
        None => println!(rt; "frame {}", sf_queue::queue_allowed(q, by, order)),
    }
}

/// Queues a frame, by the call that tests it or after a test of its own.
fn queue(
    rt: &impl Print,
    alloc: Global,
    q: &mut Slots<u64>,
    call: Call,
    said: Said,
) -> io::Result<()> {
    if q.settings().frames == u64::MAX {
        return println!(rt; "not made");
    }
    let by = said.by;
    let Ok(order) = order(alloc, said) else {
        return println!(rt; "out of memory");
    };
    if matches!(call, Call::QueueAllowed) {
        return queue_tested(rt, q, by, order);
    }
    match sf_queue::queue(q, by, order) {
        Ok(frame) => println!(rt; "frame {frame}"),
        Err((cause, order)) => handed_back(rt, cause, order.right),
    }
}

fn cancel_allowed(rt: &impl Print, q: &mut Slots<u64>, said: Said) -> io::Result<()> {
    match sf_queue::lent_refusal(q, said.by, said.slot, said.number, false) {
        Some(cause) => refused(rt, cause),
        None => {
            sf_queue::cancel_allowed(q, said.by, said.slot, said.number, said.right, said.fence);
            done(rt, Ok(()))
        }
    }
}

fn detach_allowed(rt: &impl Print, q: &mut Slots<u64>, said: &Said) -> io::Result<()> {
    match sf_queue::lent_refusal(q, said.by, said.slot, said.number, true) {
        Some(cause) => refused(rt, cause),
        None => {
            sf_queue::detach_allowed(q, said.by, said.slot, said.number);
            done(rt, Ok(()))
        }
    }
}

/// Puts a buffer in, lent to its producer or held by the consumer.
fn attach(rt: &impl Print, q: &mut Slots<u64>, call: Call, said: &Said) -> io::Result<()> {
    if q.settings().buffers == u64::MAX || !is_buffer_size(said.width, said.height) {
        return println!(rt; "not made");
    }
    if matches!(call, Call::Attach) {
        seated(rt, sf_queue::attach(q, said.by, said.width, said.height))
    } else {
        seated(rt, sf_consume::attach_read(q, said.width, said.height))
    }
}

fn acquire(rt: &impl Print, q: &mut Slots<u64>, expected: u64) -> io::Result<()> {
    match sf_consume::acquire(q, expected) {
        Ok(taken) => acquired(rt, &taken),
        Err(cause) => refused(rt, cause),
    }
}

/// Makes a call that gives nothing out; None for another one.
fn change(q: &mut Slots<u64>, call: Call, said: &Said) -> Option<Result<(), QStatus>> {
    match call {
        Call::Connect => Some(sf_queue::connect(q, said.by)),
        Call::Disconnect => Some(sf_queue::disconnect(q, said.by)),
        Call::MaxDequeued => Some(sf_queue::set_max_dequeued(q, said.count)),
        Call::Async => Some(sf_queue::set_async(q, said.count == 1)),
        Call::MaxAcquired => Some(sf_consume::set_max_acquired(q, said.count)),
        Call::Abandon => Some(sf_consume::abandon(q)),
        Call::Detach => Some(sf_queue::detach(q, said.by, said.slot, said.number)),
        Call::DetachRead => Some(sf_consume::detach_read(q, said.slot, said.number)),
        _ => None,
    }
}

/// Makes a call that takes no fence, and prints its answer.
fn make_plain(rt: &impl Print, q: &mut Slots<u64>, call: Call, said: &Said) -> io::Result<()> {
    if let Some(made) = change(q, call, said) {
        return done(rt, made);
    }
    match call {
        Call::Dequeue => dequeue(rt, q, said),
        Call::Request => known(rt, sf_queue::request(q, said.by, said.slot, said.number)),
        Call::Acquire => acquire(rt, q, said.number),
        Call::DetachAllowed => detach_allowed(rt, q, said),
        _ => attach(rt, q, call, said),
    }
}

/// Makes a call, and prints its answer.
fn make(
    rt: &impl Print,
    alloc: Global,
    q: &mut Slots<u64>,
    call: Call,
    said: Said,
) -> io::Result<()> {
    match call {
        Call::Queue | Call::QueueAllowed => queue(rt, alloc, q, call, said),
        Call::Cancel => taken_in(
            rt,
            sf_queue::cancel(q, said.by, said.slot, said.number, said.right, said.fence),
        ),
        Call::CancelAllowed => cancel_allowed(rt, q, said),
        Call::Release => taken_in(
            rt,
            sf_consume::release(q, said.slot, said.number, said.right, said.fence),
        ),
        _ => make_plain(rt, q, call, &said),
    }
}

/// Does what a line asks for, and prints the line and its answer.
fn follow(rt: &impl Print, alloc: Global, q: &mut Slots<u64>, line: &str) -> io::Result<()> {
    match read(alloc, Rights::Numbers, &mut line.split_whitespace()) {
        Some((Call::State, _)) => state::print(rt, q),
        Some((call, said)) => {
            print!(rt; "{line}: ")?;
            make(rt, alloc, q, call, said)
        }
        None => println!(rt; "{line}: not a call"),
    }
}

/// Makes the calls of a case, on a new queue of this default size.
pub fn play(rt: &impl Print, alloc: Global, size: BufferSize, lines: &[String]) -> io::Result<()> {
    let Ok(mut queue) = Slots::new(alloc, QueueId(1), size.width, size.height) else {
        return println!(rt; "out of memory");
    };
    for line in lines {
        follow(rt, alloc, &mut queue, line.as_str())?;
    }
    Ok(())
}
