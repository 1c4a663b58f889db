//! The whole work of an actor's thread: try a step, report what it did, sleep while it can't be
//! done, up to the last step or the stop.
ghost use Rattle.std.specs.Prelude.{◌<◌};
ghost use Rattle.sf_live_threads.specs.SeatedActors.{MayTryNext};
ghost use Rattle.sf_live_threads.specs.Backs.{IfWhole};

use crate::pacing::Pacing;
use crate::seated_actor::{Back, SeatedActor};
use crate::try_next::try_next;
use sf_actor_steps::Stepped;
use sf_io::Gate;
use sf_live_seats::{Locks, Noted};
use sf_live_watch::Watch;
use sf_picture::Picture;
use sf_turns::TableName;
use std::sync::Wait;

/// Reports what a step did that is done, if it did anything at what all share. Whether the thread
/// goes on; behind a transaction it does once the visitor has looked at it.
fn tell_step<R: Wait>(rt: &R, watch: &Watch, noted: Noted) -> bool {
    if noted.is_silent() {
        return !watch.is_stopped();
    }
    match watch.tell_done(rt, noted.effect()) {
        Some(news) => !noted.sends || watch.wait_for_look(rt, news),
        None => false,
    }
}

/// What a thread does after a try, with the news before it. Whether it goes on.
fn goes_on<R: Wait>(rt: &R, watch: &Watch, seen: u64, stepped: Stepped, noted: Noted) -> bool {
    match stepped {
        Stepped::Done => tell_step(rt, watch, noted),
        Stepped::NotYet => watch.idle(rt, noted.awaited, seen),
        Stepped::Ended => {
            watch.tell_ended(rt);
            false
        }
    }
}

/// Tries a seated actor's steps, one after the other, until it has done all or is stopped; while a step
/// can't be done it sleeps, and so it does after a transaction until the visitor has looked at it.
/// One for which no thread could be started is left as it is. Out of memory, all are stopped.
pub(crate) fn work<R: Wait, G: Gate, B: TableName>(
    pacing: &Pacing<R, G>,
    locks: &Locks<B>,
    pictures: &[Picture],
    index: usize,
    seated_actor: SeatedActor<B>,
) -> Back<B>
    requires index { index < 64 }
    requires may_try_next { MayTryNext B.table locks.now pictures.now seated_actor }
    ensures { IfWhole B.table locks.now pictures.now seated_actor result }
{
    let (rt, watch) = (pacing.rt, pacing.watch);
    let mut seated_actor = seated_actor;
    if watch.is_turned_away(rt, index) {
        return Back::Whole(seated_actor);
    }
    for _ in rt.forever() {
        let seen = watch.news();
        let (after, stepped, noted) = try_next(pacing, locks, pictures, seated_actor);
        seated_actor = after;
        match stepped {
            Ok(stepped) => {
                if !goes_on(rt, watch, seen, stepped, noted) {
                    return Back::Whole(seated_actor);
                }
            }
            Err(_) => {
                watch.stop();
                return Back::Spent(seated_actor);
            }
        }
    }
    unreachable!()
}
