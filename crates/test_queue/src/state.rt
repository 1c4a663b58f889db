//! What is known of a queue whose rights are numbers.
ghost use Rattle.std.specs.Prelude.{◌<◌};

use crate::reply::{print_buffer, print_fence};
use sf_base::SlotId;
use sf_slots::{SlotState, Slots};
use std::io;

/// The name of a slot's state.
fn state_name(state: SlotState) -> &'static str {
    match state {
        SlotState::Free => "Free",
        SlotState::Dequeued => "Dequeued",
        SlotState::Queued => "Queued",
        SlotState::Acquired => "Acquired",
    }
}

/// Prints a slot that is not as it was at first.
fn print_slot(rt: &impl Print, q: &Slots<u64>, slot: SlotId) -> io::Result<()>
    requires { slot.0 < 64 }
{
    let known = q.slot(slot);
    if known.held.is_none() && known.frame == 0 && known.fence.is_none() {
        return Ok(());
    }
    print!(rt; "  slot {}: {}, ", slot.0, state_name(q.state(slot)))?;
    if let Some(held) = q.held(slot) {
        print_buffer(rt, held)?;
        print!(rt; ", ")?;
    }
    let mark = if q.requested(slot) {
        "requested"
    } else {
        "not requested"
    };
    print!(rt; "{mark}, frame {}", q.frame(slot))?;
    print_fence(rt, &known.fence)?;
    println!(rt)
}

/// Prints the items that wait, as far as they show.
fn print_items(rt: &impl Print, q: &Slots<u64>) -> io::Result<()> {
    print!(rt; "  {} waiting", q.len())?;
    if let Some(front) = q.front() {
        print!(rt; ": frame {}", front.frame)?;
    }
    if let Some(time) = q.second_time() {
        print!(rt; ", and a second for {time}")?;
    }
    println!(rt)
}

/// Prints what is known of a queue.
pub fn print(rt: &impl Print, q: &Slots<u64>) -> io::Result<()> {
    println!(rt;
        "state\n  {} usable, {} free, {} dequeued, {} queued, {} acquired",
        q.usable(),
        q.count(SlotState::Free),
        q.count(SlotState::Dequeued),
        q.count(SlotState::Queued),
        q.count(SlotState::Acquired)
    )?;
    let settings = q.settings();
    let producer = match settings.connected {
        Some(actor) => actor.0,
        None => 0,
    };
    println!(rt;
        "  producer {producer}, something queued {}, abandoned {}, {} frames, {} buffers",
        settings.queued, settings.abandoned, settings.frames, settings.buffers
    )?;
    print_items(rt, q)?;
    for slot in 0..64u32 {
        print_slot(rt, q, SlotId(slot))?;
    }
    Ok(())
}
