//! Who waits for what, and who wakes whom: threads sleep here until another one has done what they
//! wait for, and the starter until there is something to look at. Who does something takes the lock
//! only where somebody is idle that waits for it.
ghost use Rattle.std.specs.Prelude.{◌<◌};

use crate::kind::{Idle, Kind};
use crate::news::{Awaited, Effect, FIRST_SLOT, KINDS, Slots};
use crate::wait_point::WaitPoint;
use std::array;
use std::sync::atomic::{AtomicBool, AtomicU64, Ordering};
use std::sync::{Mutex, Wait};

/// How many threads are watched at most.
pub const MOST_WATCHED: usize = 64;

/// What is counted under the lock.
#[derive(Drop)]
struct State {
    /// Who is idle, by the kind of news that it waits for.
    idle: [Idle; KINDS],
    /// How many do no more steps.
    ended: usize,
    /// For which indexes no thread could be started.
    turned_away: [bool; MOST_WATCHED],
}

impl State {
    /// Whether so many threads are all idle, or have ended.
    fn rests(&self, many: usize) -> bool {
        let mut count = self.ended;
        for idle in &self.idle {
            count = count.saturating_add(idle.count);
        }
        count >= many
    }
}

/// A watch over some threads, each with an index from 0, and over their starter.
#[derive(Drop)]
pub struct Watch {
    many: usize,
    state: Mutex<State>,
    /// How often something was done, from 1: the start counts as new.
    news: AtomicU64,
    kinds: [Kind; KINDS],
    /// The latest news for the starter.
    called: AtomicU64,
    /// Up to which news it looks.
    looking: AtomicU64,
    /// Up to which news it has looked.
    looked: AtomicU64,
    /// Whether all are idle or have ended.
    at_rest: AtomicBool,
    stopped: AtomicBool,
    /// Whether no thread could be started for some index.
    has_turned_away: AtomicBool,
    /// For threads that wait for a look.
    looked_on: WaitPoint,
    /// For the starter: there are news, or all rest.
    starter: WaitPoint,
}

impl Watch {
    /// A watch over so many threads.
    pub fn new(many: usize) -> Watch {
        Watch {
            many,
            state: Mutex::new(State {
                idle: [Idle::none(); KINDS],
                ended: 0,
                turned_away: [false; MOST_WATCHED],
            }),
            news: AtomicU64::new(1),
            kinds: array::from_fn(|_| Kind::new()),
            called: AtomicU64::new(1),
            looking: AtomicU64::new(0),
            looked: AtomicU64::new(0),
            at_rest: AtomicBool::new(many == 0),
            stopped: AtomicBool::new(false),
            has_turned_away: AtomicBool::new(false),
            looked_on: WaitPoint::new(),
            starter: WaitPoint::new(),
        }
    }

    /// The latest news. A thread reads it before it tries a step, so that it misses none.
    pub fn news(&self) -> u64 {
        self.news.load(Ordering::SeqCst)
    }

    /// Whether all are to stop.
    pub fn is_stopped(&self) -> bool {
        self.stopped.load(Ordering::SeqCst)
    }

    /// Whether there are news for the starter that it has not looked at.
    fn is_called(&self) -> bool {
        self.looked.load(Ordering::SeqCst) < self.called.load(Ordering::SeqCst)
    }

    /// Whether the starter has looked up to these news, or nobody is to wait for a look.
    fn is_looked_at(&self, news: u64) -> bool {
        news <= self.looked.load(Ordering::SeqCst)
            || self.has_turned_away.load(Ordering::SeqCst)
            || self.is_stopped()
    }

    /// Notes whether all rest, and lets the starter go on where they do.
    fn note_rest(&self, rests: bool) {
        self.at_rest.store(rests, Ordering::SeqCst);
        if rests {
            self.starter.notify();
        }
    }

    /// These news are of the kind with this index. Who waits for them counts as idle no more.
    fn bring<R: Wait>(&self, rt: &R, index: usize, news: u64)
        requires { index < 18 }
    {
        let kind = &self.kinds[index];
        if !kind.bring(news) {
            return;
        }
        let mut state = self.state.lock(rt);
        state.idle[index].know(kind.latest());
        kind.set_awaited(state.idle[index].count > 0);
        self.note_rest(state.rests(self.many));
        drop(state);
        kind.changed.notify();
    }

    /// These news have this effect on those that wait.
    fn bring_all<R: Wait>(&self, rt: &R, effect: Effect, news: u64) {
        match effect.slots {
            Slots::OfNone => {}
            Slots::Of(queue) => self.bring(rt, Awaited::Slot(queue).index(), news),
            Slots::OfAny => {
                for index in FIRST_SLOT..KINDS {
                    self.bring(rt, index, news);
                }
            }
        }
        if effect.points {
            self.bring(rt, Awaited::Point.index(), news);
        }
        if effect.turns {
            self.bring(rt, Awaited::Turn.index(), news);
        }
    }

    /// Something was done: it lets those go on that wait for what it may have brought, and the
    /// starter look at it, if it has something for it. Where a thread could not be started the starter
    /// tries that one's steps, so it looks at all. The number of these news, or none where all are to
    /// stop.
    pub fn tell_done<R: Wait>(&self, rt: &R, effect: Effect) -> Option<u64> {
        let news = self.news.fetch_add(1, Ordering::SeqCst).wrapping_add(1);
        self.bring_all(rt, effect, news);
        if effect.looks || self.has_turned_away.load(Ordering::SeqCst) {
            self.called.fetch_max(news, Ordering::SeqCst);
            self.starter.notify();
        }
        if self.is_stopped() { None } else { Some(news) }
    }

    /// A thread does no more steps.
    pub fn tell_ended<R: Wait>(&self, rt: &R) {
        let mut state = self.state.lock(rt);
        state.ended = state.ended.saturating_add(1);
        self.note_rest(state.rests(self.many));
    }

    /// All are to stop, whatever they wait for here.
    pub fn stop(&self) {
        self.stopped.store(true, Ordering::SeqCst);
        for kind in &self.kinds {
            kind.changed.notify();
        }
        self.looked_on.notify();
        self.starter.notify();
    }

    /// Counts a thread as idle that has seen so much, unless more of the kind with this index came. The
    /// latest of the kind: the thread counts as idle as long as these are the latest.
    fn count_idle<R: Wait>(&self, rt: &R, index: usize, seen: u64) -> u64
        requires { index < 18 }
    {
        let kind = &self.kinds[index];
        let mut state = self.state.lock(rt);
        kind.set_awaited(true);
        let latest = kind.latest();
        state.idle[index].know(latest);
        if seen >= latest {
            state.idle[index].add();
        }
        self.note_rest(state.rests(self.many));
        latest
    }

    /// A thread is idle until there are news for those that wait for this, later ones than it has seen.
    /// Where some come late that it has seen it goes on, too, since it counts as idle no more. False where
    /// it is to stop.
    pub fn idle<R: Wait>(&self, rt: &R, awaited: Awaited, seen: u64) -> bool {
        let index = awaited.index();
        let kind = &self.kinds[index];
        if !kind
            .changed
            .look_for(&|| kind.has_come(seen) || self.is_stopped())
        {
            let latest = self.count_idle(rt, index, seen);
            if seen >= latest {
                kind.changed
                    .sleep_until(rt, &|| kind.has_come(latest) || self.is_stopped());
            }
        }
        !self.is_stopped()
    }

    /// The starter waits for news that it has not looked at, and begins to look. False where all threads
    /// are idle or have ended, or are to stop.
    pub fn next<R: Wait>(&self, rt: &R) -> bool {
        let came = || self.is_called() || self.at_rest.load(Ordering::SeqCst) || self.is_stopped();
        self.starter.wait_until(rt, &came);
        if self.is_stopped() || !self.is_called() {
            return false;
        }
        self.looking.store(self.news(), Ordering::SeqCst);
        true
    }

    /// The starter, which began to look, looks at all that was done up to now. Where no thread could be
    /// started for some index it looks no further than it began to: what it did since then for that
    /// actor is news, so that it goes on with it.
    pub fn look_on(&self) {
        if !self.has_turned_away.load(Ordering::SeqCst) {
            self.looking.store(self.news(), Ordering::SeqCst);
        }
    }

    /// The starter has looked at all that it looks at.
    pub fn tell_looked(&self) {
        let news = self.looking.load(Ordering::SeqCst);
        if self.looked.swap(news, Ordering::SeqCst) != news {
            self.looked_on.notify();
        }
    }

    /// The starter is to look again, though nothing else is done.
    pub fn look_again(&self) {
        let news = self.news.fetch_add(1, Ordering::SeqCst).wrapping_add(1);
        self.called.fetch_max(news, Ordering::SeqCst);
    }

    /// A thread, which isn't idle, waits until the starter has looked up to these news, its own. Where no
    /// thread could be started for some index it doesn't: the starter, which tries the steps of that
    /// actor, may wait meanwhile for what this thread does next. False where it is to stop.
    pub fn wait_for_look<R: Wait>(&self, rt: &R, news: u64) -> bool {
        let came = || self.is_looked_at(news);
        self.looked_on.wait_until(rt, &came);
        !self.is_stopped()
    }

    /// No thread could be started for the actor of this index. Nobody waits for it.
    pub fn turn_away<R: Wait>(&self, rt: &R, index: usize)
        requires { index < 64 }
    {
        let mut state = self.state.lock(rt);
        state.turned_away[index] = true;
        state.ended = state.ended.saturating_add(1);
        self.has_turned_away.store(true, Ordering::SeqCst);
        self.note_rest(state.rests(self.many));
        drop(state);
        self.looked_on.notify();
    }

    /// Whether none could be.
    pub fn is_turned_away<R: Wait>(&self, rt: &R, index: usize) -> bool
        requires { index < 64 }
    {
        self.state.lock(rt).turned_away[index]
    }
}
