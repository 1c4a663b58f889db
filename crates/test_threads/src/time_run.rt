//! Calls on timelines through a first seat and one that is split off it.
ghost use Rattle.std.specs.Prelude.{◌≡◌, ◌≤◌, true, IfSome};
ghost use Rattle.std.specs.Option.{ForSome};

use crate::answer::Answer;
use crate::seat::Seat;
use crate::words::{number, words};
use sf_base::TimelineId;
use sf_times::{TimeSeat, Timelines};
use std::alloc::Global;
use std::io;

#[derive(Clone, Copy)]
enum Call {
    Split,
    Join,
    At(Seat, Act),
}

/// A call through one seat.
#[derive(Clone, Copy)]
enum Act {
    Signal(u64, u64),
    See(u64),
    SeeAll,
}

fn call_of(line: &str) -> Option<Call> {
    let [word, seat, timeline, value] = words(line);
    match word {
        "split" => Some(Call::Split),
        "join" => Some(Call::Join),
        "all" => Some(Call::At(Seat::of(seat)?, Act::SeeAll)),
        "see" => Some(Call::At(Seat::of(seat)?, Act::See(number(timeline)?))),
        "signal" => {
            let act = Act::Signal(number(timeline)?, number(value)?);
            Some(Call::At(Seat::of(seat)?, act))
        }
        _ => None,
    }
}

/// The timeline with this number, where it is 1 to 64.
fn timeline(number: u64) -> Option<TimelineId>
    ensures { IfSome result (λ t. (1 ≤ t.0) × (t.0 ≤ 64)) }
{
    if number >= 1 && number <= 64 {
        Some(TimelineId(number as u32))
    } else {
        None
    }
}

fn apply(times: &Timelines, seat: &mut TimeSeat, act: Act) -> Answer
    requires { seat.old.table ≡ times.now }
    ensures table { seat.new.table ≡ seat.old.table }
    ensures first { seat.new.knows.is_first ≡ seat.old.knows.is_first }
{
    match act {
        Act::Signal(number, value) => {
            let Some(id) = timeline(number) else {
                return Answer::Plain("no timeline");
            };
            seat.signal(times, id, value);
            Answer::Plain("signalled")
        }
        Act::See(number) => {
            let Some(id) = timeline(number) else {
                return Answer::Plain("no timeline");
            };
            Answer::Value(seat.seen(times, id))
        }
        Act::SeeAll => Answer::Risen(seat.see_all(times)),
    }
}

#[derive(Drop)]
struct Run {
    times: Timelines,
    first: TimeSeat,
    second: Option<TimeSeat>,
    ghost own: { first.table ≡ times },
    ghost leads: { first.knows.is_first ≡ true },
    ghost other: { ForSome second (λ s. s.table ≡ times) },
}

impl Run {
    fn split(&mut self) -> Answer {
        self.second = Some(self.first.split(&self.times));
        Answer::Plain("split")
    }

    fn join(&mut self) -> Answer {
        match self.second.take() {
            Some(second) => {
                self.first.join(&self.times, second);
                Answer::Plain("joined")
            }
            None => Answer::Plain("no seat"),
        }
    }

    fn on_second(&mut self, act: Act) -> Answer {
        match self.second.take() {
            Some(mut second) => {
                let answer = apply(&self.times, &mut second, act);
                self.second = Some(second);
                answer
            }
            None => Answer::Plain("no seat"),
        }
    }

    /// A call through the seat that it names. The second seat is there between a split and a join.
    fn call(&mut self, call: Call) -> Answer {
        match call {
            Call::Split => self.split(),
            Call::Join => self.join(),
            Call::At(Seat::First, act) => apply(&self.times, &mut self.first, act),
            Call::At(Seat::Second, act) => self.on_second(act),
        }
    }
}

pub fn play(rt: &impl Print, alloc: Global, calls: &[String]) -> io::Result<()> {
    let Ok((times, first)) = Timelines::open(alloc) else {
        return println!(rt; "out of memory");
    };
    first.exact();
    let mut run = Run {
        times,
        first,
        second: None,
    };
    for line in calls {
        let answer = match call_of(line) {
            Some(call) => run.call(call),
            None => Answer::Plain("no call"),
        };
        println!(rt; "{line}: {answer}")?;
    }
    Ok(())
}
