//! What the words of the lock, the object's place and the passes keep between any two atomic steps,
//! and what each kind of step shows the caller that makes it. Nothing here has code that runs. The
//! word 0 is the next ticket, the word 1 the ticket that is served, and the word 2 is written by
//! the step that names a new caller; the one slot has the object.
use crate::object::{Entry, Object};
use atomic_table::{Join, Play, Split, TableRule};
use std::collections::LinkedList;
use std::marker::PhantomData;
use std::snapshot::Snapshot;

/// What a pass knows. It exists in proofs alone: no value of it is made.
pub struct Knows<C, R, M> {
    /// Whether this is the pass that `CallLock::open` gave, which alone is split and meets others.
    pub is_first: bool,
    /// 1 for a pass in use, 0 once it was taken in.
    pub live: u64,
    /// The caller's number.
    pub by: u32,
    /// The object's mark; none once the pass was taken in.
    pub mark: Option<M>,
    /// The history that the object had at `open`.
    pub start: LinkedList<Entry<C, R>>,
    /// The numbers of the passes that were split off it, the last one first.
    pub gave: LinkedList<u32>,
    /// The numbers of the passes that it took in, each with the history that that pass knew.
    pub took: LinkedList<(u32, LinkedList<Entry<C, R>>)>,
    /// The history as it knows it.
    pub seen: LinkedList<Entry<C, R>>,
    /// How many turns it had under the lock.
    pub turns: u64,
    /// The ticket that it drew and that was not passed on yet.
    pub ticket: Option<u64>,
    /// Whether it has the object now.
    pub inside: bool,
    /// While it has the object, the history that it found; else a history that it knew before.
    pub found: LinkedList<Entry<C, R>>,
    /// The number that its last step named for a new pass.
    pub asked: u32,
}

/// The rule that holds between any two steps.
pub struct LockRule<O> {
    of: PhantomData<O>,
}

impl<O: Object> TableRule<
    Option<O>,
    Knows<O::PlainCall, O::PlainReply, O::Mark>,
    (Snapshot<O>, u32),
> for LockRule<O> {
    ghost use Rattle.sf_calls.specs.inner.Rule.{Kept, opened};

    ghost holds = { λ key. Kept O.history O.mark O.answers key.0.value };

    ghost first = { λ key. opened key.1 (O.mark key.0.value) (O.history key.0.value) };
}

/// Draws a ticket, where the next one is as expected.
pub struct DrawTicket;

impl<O, C, R, M> Play<Option<O>, Knows<C, R, M>> for DrawTicket {
    ghost use Rattle.sf_calls.specs.inner.Rule.{Draws};

    ghost then = { Draws };
}

/// Loads the ticket that is served, and takes the object where it is this caller's.
pub struct LoadServing;

impl<O: Object> Play<Option<O>, Knows<O::PlainCall, O::PlainReply, O::Mark>> for LoadServing {
    ghost use Rattle.sf_calls.specs.inner.Rule.{Finds};

    ghost then = { Finds O.history O.mark O.answers };
}

/// Gives the object back and serves the next ticket, after a turn.
pub struct PassOn;

impl<O: Object> Play<Option<O>, Knows<O::PlainCall, O::PlainReply, O::Mark>> for PassOn {
    ghost use Rattle.sf_calls.specs.inner.Rule.{PassesOn};

    ghost then = { PassesOn O.history };
}

/// Gives the object back unchanged and serves the next ticket, after running out of memory.
pub struct GiveUp;

impl<O, C, R, M> Play<Option<O>, Knows<C, R, M>> for GiveUp {
    ghost use Rattle.sf_calls.specs.inner.Rule.{GivesUp};

    ghost then = { GivesUp };
}

/// Names the number of the caller for whom a pass is split off next.
pub struct NameCaller;

impl<O, C, R, M> Play<Option<O>, Knows<C, R, M>> for NameCaller {
    ghost use Rattle.sf_calls.specs.inner.Rule.{Asks};

    ghost then = { Asks };
}

/// A load that shows the first pass what it knows since it took another in.
pub struct Recall;

impl<O, C, R, M> Play<Option<O>, Knows<C, R, M>> for Recall {
    ghost use Rattle.sf_calls.specs.inner.Rule.{Recalls};

    ghost then = { Recalls };
}

/// A pass for the caller that was named, split off the first.
pub struct SplitOff;

impl<C, R, M> Split<Knows<C, R, M>> for SplitOff {
    ghost use Rattle.sf_calls.specs.inner.Rule.{giving, given};

    ghost left = { giving };

    ghost right = { given };
}

/// The first pass takes in another.
pub struct TakeIn;

impl<C, R, M> Join<Knows<C, R, M>> for TakeIn {
    ghost use Rattle.sf_calls.specs.inner.Rule.{met, spent};

    ghost both = { met };

    ghost spent = { spent };
}
