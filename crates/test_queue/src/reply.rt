//! How answers are printed.
use sf_base::{Fence, QStatus, SlotId, TimelineId};
use sf_consume::Acquired;
use sf_queue::Dequeued;
use sf_slots::{Held, Item};
use std::io;

/// The name of a status.
pub fn status_name(status: QStatus) -> &'static str {
    match status {
        QStatus::Ok => "Ok",
        QStatus::Stale => "Stale",
        QStatus::NoBuffer => "NoBuffer",
        QStatus::PresentLater => "PresentLater",
        QStatus::NoInit => "NoInit",
        QStatus::BadValue => "BadValue",
        QStatus::InvalidOperation => "InvalidOperation",
        QStatus::WouldBlock => "WouldBlock",
        QStatus::NoSlot => "NoSlot",
    }
}

/// Prints a refusal.
pub fn refused(rt: &impl Print, cause: QStatus) -> io::Result<()> {
    println!(rt; "{}", status_name(cause))
}

/// Prints a refusal that hands a right back.
pub fn handed_back(rt: &impl Print, cause: QStatus, right: u64) -> io::Result<()> {
    println!(rt; "{}, right {right} back", status_name(cause))
}

/// Prints the answer of a call that gives nothing out.
pub fn done(rt: &impl Print, made: Result<(), QStatus>) -> io::Result<()> {
    match made {
        Ok(()) => println!(rt; "done"),
        Err(cause) => refused(rt, cause),
    }
}

/// Prints the answer of a call that takes a right.
pub fn taken_in(rt: &impl Print, made: Result<(), (QStatus, (u64, Fence))>) -> io::Result<()> {
    match made {
        Ok(()) => println!(rt; "done"),
        Err((cause, (right, _fence))) => handed_back(rt, cause, right),
    }
}

/// Prints a buffer.
pub fn print_buffer(rt: &impl Print, held: Held) -> io::Result<()> {
    print!(rt;
        "buffer {} of {} x {}",
        held.number, held.width, held.height
    )
}

/// Prints a fence: its points, as `3:70`, or `-` where there are none.
pub fn print_fence(rt: &impl Print, fence: &Fence) -> io::Result<()> {
    print!(rt; ", fence")?;
    if fence.is_none() {
        return print!(rt; " -");
    }
    for timeline in 1..65 {
        let value = fence.value(TimelineId(timeline));
        if value > 0 {
            print!(rt; " {timeline}:{value}")?;
        }
    }
    Ok(())
}

/// Prints the answer of a request.
pub fn known(rt: &impl Print, made: Result<Held, QStatus>) -> io::Result<()> {
    match made {
        Ok(held) => {
            print_buffer(rt, held)?;
            println!(rt)
        }
        Err(cause) => refused(rt, cause),
    }
}

/// Prints the answer of a call that puts a buffer in.
pub fn seated(rt: &impl Print, made: Result<(SlotId, Held), QStatus>) -> io::Result<()> {
    match made {
        Ok((slot, held)) => {
            print!(rt; "slot {}, ", slot.0)?;
            print_buffer(rt, held)?;
            println!(rt)
        }
        Err(cause) => refused(rt, cause),
    }
}

/// Prints the slot and the buffer that a dequeue lends, and whether the buffer is new.
fn print_lent(rt: &impl Print, lent: &Dequeued<u64>) -> io::Result<()> {
    print!(rt; "slot {}, ", lent.slot.0)?;
    print_buffer(rt, lent.held)?;
    let age = if lent.reallocated { "new" } else { "as it was" };
    print!(rt; ", {age}")
}

/// Prints what a dequeue lends.
pub fn lent(rt: &impl Print, lent: &Dequeued<u64>) -> io::Result<()> {
    print_lent(rt, lent)?;
    print_fence(rt, &lent.fence)?;
    match lent.old {
        Some(right) => println!(rt; ", right {}, the old right {right}", lent.right),
        None => println!(rt; ", right {}", lent.right),
    }
}

/// Prints a frame that waits: its slot, its buffer, its number and its picture.
fn print_frame(rt: &impl Print, item: &Item<u64>) -> io::Result<()> {
    print!(rt; "slot {}, ", item.slot.0)?;
    print_buffer(rt, item.held)?;
    print!(rt; ", frame {}, picture {}, ", item.frame, item.picture)
}

/// Prints a present time.
fn print_time(rt: &impl Print, time: Option<u64>) -> io::Result<()> {
    match time {
        Some(time) => print!(rt; "time {time}, "),
        None => print!(rt; "no time, "),
    }
}

/// Prints whether a frame may be dropped, its crop and its fence.
fn print_crop(rt: &impl Print, item: &Item<u64>) -> io::Result<()> {
    let mode = if item.droppable { "droppable" } else { "kept" };
    let crop = item.crop;
    print!(rt;
        "{mode}, crop {} {} {} {}",
        crop.x, crop.y, crop.width, crop.height
    )?;
    print_fence(rt, &item.fence)
}

/// Prints the frame that an acquire gives.
pub fn acquired(rt: &impl Print, taken: &Acquired<u64>) -> io::Result<()> {
    print_frame(rt, &taken.item)?;
    print_time(rt, taken.item.time)?;
    print_crop(rt, &taken.item)?;
    println!(rt; ", right {}, {} dropped", taken.item.right, taken.dropped)
}
