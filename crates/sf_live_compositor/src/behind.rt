//! Beside a vsync the images of the last one are composed, where that is worth a thread, from pixels
//! that are lent; then the pixels come back.
ghost use Rattle.std.specs.Prelude.{◌≡◌, ◌+◌, ◌≤◌, false, IfOk, OnOk, length, map};
ghost use Rattle.sf_live_threads.specs.sf_actor.Plain.{taken_in};
ghost use Rattle.sf_play_write.specs.sf_play.Playing.{expected_by};
ghost use Rattle.sf_play_write.specs.Vsyncs.{AreImagesOf, AreReadableViews, KeepsShown};
ghost use Rattle.sf_live_threads.specs.sf_calls_stamped.Stamps.{unstamped};
ghost use Rattle.sf_live_compositor.specs.Keeping.{IsSame, sitting_in};
ghost use Rattle.sf_live_compositor.specs.Vsyncs.{sitting_at};
ghost use Rattle.sf_live_compositor.specs.Sitting.{HasAll, MadeOne, MakesNext, MayMake, ShowsBuffers};
ghost use Rattle.sf_live_compositor.specs.inner.Visits.{MadeLentIn, MadeOneIn};

use crate::compositor::Compositor;
use crate::vsync::{MadeVsync, make_vsync};
use sf_base::NoMemory;
use sf_live_threads::{Handler, Lease, Locks, Look, Painted, ReadLease, Seats, Sink, TableName};
use sf_play_write::{
    Beside, Engine, Output, Screen, Screens, SourcedView, Workers, compose_beside,
};
use std::alloc::Global;
use std::sync::Wait;
use std::thread::Threads;

/// What comes of composing images, and of the vsync that is made beside it.
pub(crate) type Both = (
    Result<Vec<Output<Screen>>, NoMemory>,
    Result<MadeVsync, NoMemory>,
);

/// States that a compositor's layers are no more than they may be, and that each shows the one
/// buffer that stands for it. It does nothing.
fn tell_layers<B: TableName>(handler: &Handler<ReadLease<B>>)
    ensures few { length handler.now.tree.layers ≤ handler.now.tree.most }
    ensures buffers { handler.now.is_spent ≡ false → ShowsBuffers handler.now }
{
    let _layers = handler.tree().layers();
}

/// What a visit makes its vsync with, besides seats and handler.
#[derive(Drop)]
struct Visiting<'r, 'n, 'l, R, B: TableName> {
    rt: &'r R,
    alloc: Global,
    workers: Workers,
    look: Look<'n>,
    locks: &'l Locks<B>,
    period: u64,
    /// How many vsyncs were made before.
    before: u32,
}

/// The next vsync, which is made beside composing what the last one shows.
#[derive(Drop)]
struct NextVsync<'a, R, B: TableName> {
    rt: &'a R,
    look: Look<'a>,
    locks: &'a Locks<B>,
    seats: &'a mut Seats<B>,
    handler: &'a mut Handler<ReadLease<B>>,
    period: u64,
    /// How many were made before.
    before: u32,
    /// Whether something is composed beside it, so that pixels are read for long.
    is_beside: bool,
}

impl<'a, R: Wait, B: TableName> Beside for NextVsync<'a, R, B> {
    type Done = Result<MadeVsync, NoMemory>;

    ghost may = { λ next. MayMake B.table next.locks.now next.period (sitting_at next.handler.now next.seats.now next.before) };

    ghost does = { λ next result done. (done.seats.ghost_name ≡ next.seats.ghost_name) × (done.handler.ghost_name ≡ next.handler.ghost_name)
        × MakesNext ⟦<ReadLease<B> as Lease>⟧ B.table next.locks.now next.period (sitting_at next.handler.now next.seats.now next.before)
        (sitting_at done.handler.now done.seats.now (next.before + 1)) result };

    /// Makes it, and, where something is composed beside it, notifies threads before that is done of the
    /// look at all that was done before.
    fn run(&mut self) -> Result<MadeVsync, NoMemory> {
        let look = self.look;
        look.begin();
        let made = make_vsync(
            self.rt,
            self.locks,
            self.seats,
            self.handler,
            self.period,
            self.before,
        );
        if let (Ok(made), true) = (&made, self.is_beside) {
            look.tell_given(self.rt, made.releases);
        }
        made
    }
}

/// Composes the images of views from pixels that are lent, and makes the next vsync beside it.
fn compose_and_make<R: Threads + Wait + Sync, B: TableName>(
    visit: &Visiting<R, B>,
    screens: &mut Screens,
    contents: &[Painted],
    views: Vec<Output<SourcedView>>,
    seats: &mut Seats<B>,
    handler: &mut Handler<ReadLease<B>>,
) -> Both
    requires readable { AreReadableViews (map (λ p. p) contents.now) views.items }
    requires next { MayMake B.table visit.now.locks.now visit.now.period (sitting_at handler.old seats.old visit.now.before) }
    ensures images { IfOk result.0 (λ images. AreImagesOf (map (λ p. p) contents.now) views.items screens.old images.items) }
    ensures shown { KeepsShown screens.old screens.new }
    ensures makes { MadeLentIn ⟦<ReadLease<B> as Lease>⟧ B.table visit.now (handler.old, seats.old) (handler.new, seats.new) result.1 }
    ensures known { OnOk result.1 (handler.new.last ≤ taken_in (unstamped seats.new.arrivals.seen)) }
    ensures early { OnOk result.1 (seats.new.last.step ≤ visit.now.before + 1) }
    ensures lent { handler.new.lent ≡ handler.old.lent }
    ensures table { seats.new.turns.table ≡ seats.old.turns.table }
{
    let engine = Engine {
        rt: visit.rt,
        alloc: visit.alloc,
        workers: visit.workers,
    };
    let mut next = NextVsync {
        rt: visit.rt,
        look: visit.look,
        locks: visit.locks,
        seats,
        handler,
        period: visit.period,
        before: visit.before,
        is_beside: !views.as_slice().is_empty(),
    };
    compose_beside(&engine, screens, contents, views, &mut next)
}

/// Composes the images of views from the pixels of what the handler shows, which are lent meanwhile,
/// and makes the next vsync beside it. Frames that go are given back at once; reads of them end when
/// the pixels come back.
fn make_beside<R: Threads + Wait + Sync, B: TableName>(
    visit: &Visiting<R, B>,
    screens: &mut Screens,
    views: Vec<Output<SourcedView>>,
    seats: &mut Seats<B>,
    handler: &mut Handler<ReadLease<B>>,
) -> Both
    requires next { MayMake B.table visit.now.locks.now visit.now.period (sitting_at handler.old seats.old visit.now.before) }
    requires all { HasAll handler.old }
    requires readable { AreReadableViews (map expected_by handler.old.on) views.items }
    ensures images { IfOk result.0 (λ images. AreImagesOf (map expected_by handler.old.on) views.items screens.old images.items) }
    ensures shown { KeepsShown screens.old screens.new }
    ensures makes { MadeOneIn ⟦<ReadLease<B> as Lease>⟧ B.table visit.now (handler.old, seats.old) (handler.new, seats.new) result.1 }
    ensures known { OnOk result.1 (handler.new.last ≤ taken_in (unstamped seats.new.arrivals.seen)) }
    ensures early { OnOk result.1 (seats.new.last.step ≤ visit.now.before + 1) }
    ensures all { HasAll handler.new }
    ensures few { length handler.new.tree.layers ≤ handler.new.tree.most }
    ensures buffers { handler.new.is_spent ≡ false → ShowsBuffers handler.new }
{
    let contents = handler.lend();
    let both = compose_and_make(
        visit,
        screens,
        contents.list.as_slice(),
        views,
        seats,
        handler,
    );
    seats.give_back(handler, contents);
    tell_layers(handler);
    both
}

impl<'a, K: Sink, B: TableName> Compositor<'a, K, B> {
    /// Makes the next vsync while views of what the last one left are composed. It counts it.
    pub(crate) fn make_behind<R: Threads + Wait + Sync>(
        &mut self,
        rt: &R,
        locks: &Locks<B>,
        seats: &mut Seats<B>,
        look: &Look,
        views: Vec<Output<SourcedView>>,
    ) -> Both
        requires next { MayMake B.table locks.now self.old.period (sitting_in seats.old self.old) }
        requires all { HasAll self.old.decider.handler }
        requires readable { AreReadableViews (map expected_by self.old.decider.handler.on) views.items }
        ensures same { IsSame self.old self.new }
        ensures sink { self.new.sink ≡ self.old.sink }
        ensures images { IfOk result.0 (λ images. AreImagesOf (map expected_by self.old.decider.handler.on) views.items self.old.screens images.items) }
        ensures shown { KeepsShown self.old.screens self.new.screens }
        ensures makes { MadeOne ⟦<ReadLease<B> as Lease>⟧ B.table locks.now self.old.period (sitting_in seats.old self.old) (sitting_in seats.new self.new) result.1 }
        ensures known { OnOk result.1 (self.new.decider.handler.last ≤ taken_in (unstamped seats.new.arrivals.seen)) }
        ensures early { OnOk result.1 (seats.new.last.step ≤ self.new.vsyncs) }
        ensures all { HasAll self.new.decider.handler }
        ensures few { length self.new.decider.handler.tree.layers ≤ self.new.decider.handler.tree.most }
        ensures buffers { self.new.decider.handler.is_spent ≡ false → ShowsBuffers self.new.decider.handler }
    {
        let visit = Visiting {
            rt,
            alloc: self.alloc,
            workers: self.workers,
            look: *look,
            locks,
            period: self.period,
            before: self.vsyncs,
        };
        let both = make_beside(
            &visit,
            &mut self.screens,
            views,
            seats,
            &mut self.decider.handler,
        );
        self.vsyncs += 1;
        both
    }
}
