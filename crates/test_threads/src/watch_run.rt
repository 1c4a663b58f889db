//! Calls on a watch by one thread, and threads that wait for each other's news and sleep meanwhile.
use crate::answer::Answer;
use crate::watch_call::{AWAITED, Ask, At, Awaits, CALLS, Call, Tell};
use crate::words::{number_or_0, words};
use sf_live_watch::{Awaited, Effect, MOST_WATCHED, Slots, Watch};
use std::sync::Wait;
use std::sync::atomic::{AtomicUsize, Ordering};
use std::thread::Threads;
use std::{io, thread};
use test_words::named;

/// Nothing that a thread waits for, but something to look at.
const NOTHING: Effect = Effect {
    slots: Slots::OfNone,
    points: false,
    turns: false,
    looks: true,
};

/// Nothing that anybody waits for.
const SILENT: Effect = Effect {
    looks: false,
    ..NOTHING
};

/// What brings only this.
fn bringing(awaited: Awaited) -> Effect {
    match awaited {
        Awaited::Slot(queue) => Effect {
            slots: Slots::Of(queue),
            ..NOTHING
        },
        Awaited::Point => Effect {
            points: true,
            ..NOTHING
        },
        Awaited::Turn => Effect {
            turns: true,
            ..NOTHING
        },
    }
}

/// What the thread at a place waits for: threads that follow one another wait for different things.
fn awaited_at(place: usize) -> Awaited {
    match place % 3 {
        0 => Awaited::Slot(1),
        1 => Awaited::Point,
        _ => Awaited::Turn,
    }
}

/// Once the count is its place, a thread raises it, which brings what the next one waits for, and ends.
/// Whether it did.
fn raise_in_turn<R: Wait>(rt: &R, watch: &Watch, count: &AtomicUsize, place: usize) -> bool {
    for _ in rt.forever() {
        let seen = watch.news();
        if count.load(Ordering::SeqCst) == place {
            let next = count.fetch_add(1, Ordering::SeqCst).wrapping_add(1);
            watch.tell_done(rt, bringing(awaited_at(next)));
            watch.tell_ended(rt);
            return true;
        }
        if !watch.idle(rt, awaited_at(place), seen) {
            return false;
        }
    }
    unreachable!()
}

/// Waits for the same thing again and again, until all are to stop. How often it was let go on.
fn count_wakes<R: Wait>(rt: &R, watch: &Watch, awaited: Awaited) -> usize {
    let mut wakes = 0usize;
    for _ in rt.forever() {
        let seen = watch.news();
        if !watch.idle(rt, awaited, seen) {
            return wakes;
        }
        wakes = wakes.saturating_add(1);
    }
    unreachable!()
}

/// Looks whenever there is news, until all rest. Whether there was news.
fn wait_for_rest<R: Wait>(rt: &R, watch: &Watch) -> bool {
    let mut looked = false;
    for _ in rt.forever() {
        if !watch.next(rt) {
            return looked;
        }
        watch.tell_looked();
        looked = true;
    }
    unreachable!()
}

/// How often a thread that waits for this is let go on, while something is done so often that has this
/// effect, each time once it is idle.
fn wakes_of<R: Threads + Wait + Sync>(
    rt: &R,
    awaited: Awaited,
    effect: Effect,
    often: u64,
) -> usize {
    let watch = Watch::new(1);
    let shared = &watch;
    thread::scope(thread::scope_env(), rt, move |scope| {
        let started = scope.spawn(move || count_wakes(rt, shared, awaited));
        let Ok(waiting) = started else {
            return usize::MAX;
        };
        for _ in 0..often {
            wait_for_rest(rt, shared);
            shared.tell_done(rt, effect);
        }
        wait_for_rest(rt, shared);
        shared.stop();
        waiting.join(rt)
    })
}

/// Looks whenever there is news, until all rest. Then all are to stop. Whether there was news.
fn look<R: Wait>(rt: &R, watch: &Watch) -> bool {
    let looked = wait_for_rest(rt, watch);
    watch.stop();
    looked
}

/// Whether a thread goes on that has seen news before it is idle, and for which they are brought only
/// then: it has seen a number that no news have yet.
fn goes_on_late<R: Threads + Wait + Sync>(rt: &R, awaited: Awaited) -> bool {
    let watch = Watch::new(1);
    let shared = &watch;
    thread::scope(thread::scope_env(), rt, move |scope| {
        let started = scope.spawn(move || -> bool {
            let seen = shared.news().wrapping_add(1);
            let goes_on = shared.idle(rt, awaited, seen);
            shared.tell_ended(rt);
            goes_on
        });
        let Ok(waiting) = started else {
            return false;
        };
        wait_for_rest(rt, shared);
        shared.tell_done(rt, bringing(awaited));
        wait_for_rest(rt, shared);
        waiting.join(rt)
    })
}

/// Threads for these places, the last one first, each of which waits for its turn: where the count
/// came to in the end.
fn count_to<R: Threads + Wait + Sync>(rt: &R, places: usize, start: usize) -> usize {
    let watch = Watch::new(places);
    let count = AtomicUsize::new(start);
    let (shared, counted) = (&watch, &count);
    let looked = thread::scope(thread::scope_env(), rt, move |scope| {
        for i in 0..places {
            let place = places - 1 - i;
            if scope
                .spawn(move || raise_in_turn(rt, shared, counted, place))
                .is_err()
            {
                shared.tell_ended(rt);
            }
        }
        look(rt, shared)
    });
    if looked {
        count.load(Ordering::SeqCst)
    } else {
        0
    }
}

/// Does something so often, and waits each time until it was looked at. Counts what was not seen
/// before it went on.
fn do_and_wait<R: Wait>(
    rt: &R,
    watch: &Watch,
    done: &AtomicUsize,
    seen: &AtomicUsize,
    missed: &AtomicUsize,
    often: usize,
) {
    for i in 0..often {
        done.store(i + 1, Ordering::SeqCst);
        let looked = match watch.tell_done(rt, NOTHING) {
            Some(told) => watch.wait_for_look(rt, told),
            None => false,
        };
        if !looked || seen.load(Ordering::SeqCst) <= i {
            missed.fetch_add(1, Ordering::SeqCst);
        }
    }
    watch.tell_ended(rt);
}

/// Looks whenever there is news, until all rest, at what was done.
fn look_at<R: Wait>(rt: &R, watch: &Watch, done: &AtomicUsize, seen: &AtomicUsize) {
    for _ in rt.forever() {
        if !watch.next(rt) {
            break;
        }
        watch.look_on();
        seen.store(done.load(Ordering::SeqCst), Ordering::SeqCst);
        watch.tell_looked();
    }
    watch.stop();
}

/// How often a thread went on before what it did was looked at, and what was seen of it in the end.
fn missed_of<R: Threads + Wait + Sync>(rt: &R, often: usize) -> (usize, usize) {
    let watch = Watch::new(1);
    let (done, seen, missed) = (
        AtomicUsize::new(0),
        AtomicUsize::new(0),
        AtomicUsize::new(0),
    );
    let (shared, did, saw, lost) = (&watch, &done, &seen, &missed);
    thread::scope(thread::scope_env(), rt, move |scope| {
        let started = scope.spawn(move || do_and_wait(rt, shared, did, saw, lost, often));
        if started.is_err() {
            shared.tell_ended(rt);
        }
        look_at(rt, shared, did, saw)
    });
    (missed.load(Ordering::SeqCst), seen.load(Ordering::SeqCst))
}

/// Whether a thread that waits for a look goes on once none could be started for another place.
fn goes_on_unseen<R: Threads + Wait + Sync>(rt: &R) -> bool {
    let watch = Watch::new(2);
    let shared = &watch;
    thread::scope(thread::scope_env(), rt, move |scope| {
        let started = scope.spawn(move || -> bool {
            match shared.tell_done(rt, NOTHING) {
                Some(told) => shared.wait_for_look(rt, told),
                None => false,
            }
        });
        shared.turn_away(rt, 1);
        match started {
            Ok(waiting) => waiting.join(rt),
            Err(_) => false,
        }
    })
}

/// The least and the greatest of what so many rounds counted to.
fn counts_to<R: Threads + Wait + Sync>(
    rt: &R,
    places: usize,
    start: usize,
    rounds: u64,
) -> (usize, usize) {
    let mut least = usize::MAX;
    let mut greatest = 0;
    for _ in 0..rounds {
        let count = count_to(rt, places, start);
        least = least.min(count);
        greatest = greatest.max(count);
    }
    (least, greatest)
}

/// What brings only what a word says, if it says anything.
fn effect(word: &str) -> Effect {
    match (named(AWAITED, word), word) {
        (Some(awaited), _) => bringing(awaited),
        (None, "slots") => Effect {
            slots: Slots::OfAny,
            ..NOTHING
        },
        (None, "silent") => SILENT,
        (None, _) => NOTHING,
    }
}

/// Makes a call that answers nothing.
fn tell<R: Wait>(rt: &R, watch: &Watch, call: Tell) -> Answer {
    match call {
        Tell::LookOn => watch.look_on(),
        Tell::Looked => watch.tell_looked(),
        Tell::Again => watch.look_again(),
        Tell::Ended => watch.tell_ended(rt),
        Tell::Stop => watch.stop(),
    }
    Answer::Plain("told")
}

/// Asks the watch, or a new one with threads of its own.
fn ask<R: Threads + Wait + Sync>(rt: &R, watch: &Watch, told: u64, question: Ask) -> bool {
    match question {
        Ask::Next => watch.next(rt),
        Ask::IsStopped => watch.is_stopped(),
        Ask::Wait => watch.wait_for_look(rt, told),
        Ask::Unseen => goes_on_unseen(rt),
    }
}

/// Makes a call on a place.
fn call_at<R: Wait>(rt: &R, watch: &Watch, call: At, place: usize) -> Answer {
    if place >= MOST_WATCHED {
        return Answer::Plain("no call");
    }
    match call {
        At::TurnAway => {
            watch.turn_away(rt, place);
            Answer::Plain("turned away")
        }
        At::IsTurnedAway => Answer::Is(watch.is_turned_away(rt, place)),
    }
}

/// Something is done that has this effect. News for the starter are kept.
fn tell_done<R: Wait>(rt: &R, watch: &Watch, told: &mut u64, effect: Effect) -> Answer {
    let news = watch.tell_done(rt, effect);
    if let (Some(news), true) = (news, effect.looks) {
        *told = news;
    }
    Answer::Is(news.is_some())
}

/// Runs threads that wait for what the first word says.
fn run_awaiting<R: Threads + Wait + Sync>(rt: &R, run: Awaits, words: [&str; 3]) -> Answer {
    let [first, second, third] = words;
    let Some(awaited) = named(AWAITED, first) else {
        return Answer::Plain("no call");
    };
    match run {
        Awaits::Late => Answer::Is(goes_on_late(rt, awaited)),
        Awaits::Wakes => {
            let wakes = wakes_of(rt, awaited, effect(second), number_or_0(third));
            Answer::Value(wakes as u64)
        }
    }
}

/// Makes the call of a line.
fn answer<R: Threads + Wait + Sync>(rt: &R, watch: &Watch, told: &mut u64, line: &str) -> Answer {
    let [word, first, second, third] = words(line);
    let Some(call) = named(CALLS, word) else {
        return Answer::Plain("no call");
    };
    let place = number_or_0(first) as usize;
    match call {
        Call::Tell(call) => tell(rt, watch, call),
        Call::Ask(question) => Answer::Is(ask(rt, watch, *told, question)),
        Call::At(call) => call_at(rt, watch, call, place),
        Call::Done => tell_done(rt, watch, told, effect(first)),
        Call::Awaits(run) => run_awaiting(rt, run, [first, second, third]),
        Call::Count => {
            let start = number_or_0(second) as usize;
            let (least, greatest) = counts_to(rt, place, start, number_or_0(third));
            Answer::Between(least, greatest)
        }
        Call::Look => {
            let (missed, seen) = missed_of(rt, place);
            Answer::Missed(missed, seen)
        }
    }
}

pub fn play<R: Print + Threads + Wait + Sync>(rt: &R, calls: &[String]) -> io::Result<()> {
    let watch = Watch::new(2);
    let mut told = 1;
    for line in calls {
        let answer = answer(rt, &watch, &mut told, line);
        println!(rt; "{line}: {answer}")?;
    }
    Ok(())
}
