//! Two threads that signal a timeline each, and observe that of the other rising.
ghost use Rattle.std.specs.Prelude.{◌≡◌, ◌≤◌};

use sf_base::TimelineId;
use sf_times::{TimeSeat, Timelines};
use std::alloc::Global;
use std::thread::{Threads, join};

/// Signals the timeline from 1 to the last value, and observes the other one after each signal.
/// Whether what was observed never fell and never passed the last value is returned with the seat.
fn signal_and_observe(
    times: &Timelines,
    seat: TimeSeat,
    mine: u32,
    other: u32,
    last: u64,
) -> (TimeSeat, bool)
    requires own { seat.table ≡ times.now }
    requires range { (1 ≤ mine) × (mine ≤ 64) × (1 ≤ other) × (other ≤ 64) }
    ensures { result.0.table ≡ times.now }
{
    let mut seat = seat;
    let mut highest = 0;
    for value in 1..=last {
        seat.signal(times, TimelineId(mine), value);
        let observed = seat.seen(times, TimelineId(other));
        if observed < highest || observed > last {
            return (seat, false);
        }
        highest = observed;
    }
    (seat, true)
}

/// Both threads signal up to the last value. The sum of both counters at the end, or 0 where what
/// one of them observed fell.
pub fn play<R: Threads>(rt: &R, alloc: Global, last: u64) -> u64 {
    let Ok((times, mut first)) = Timelines::open(alloc) else {
        return 0;
    };
    let left = first.split(&times);
    let right = first.split(&times);
    let shared = &times;
    let ((left, left_rose), (right, right_rose)) = join(
        rt,
        move || -> (TimeSeat, bool)
            requires { left.table ≡ shared.now }
            ensures { result.0.table ≡ shared.entry.now }
        { signal_and_observe(shared, left, 1, 64, last) },
        move || -> (TimeSeat, bool)
            requires { right.table ≡ shared.now }
            ensures { result.0.table ≡ shared.entry.now }
        { signal_and_observe(shared, right, 64, 1, last) },
    );
    first.join(&times, left);
    first.join(&times, right);
    if left_rose && right_rose {
        let low = first.seen(&times, TimelineId(1));
        let high = first.seen(&times, TimelineId(64));
        low.saturating_add(high)
    } else {
        0
    }
}
