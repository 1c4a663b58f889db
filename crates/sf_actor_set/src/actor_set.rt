//! The actors of a scene over one desk: a player tries one of them at a time here, and makes the
//! calls of the compositor over the same desk.
ghost use Rattle.std.specs.Prelude.{◌≡◌, ◌<◌, length};
ghost use Rattle.sf_actor_steps.specs.sf_actor.Plain.{home_of};
ghost use Rattle.sf_actor_steps.specs.sf_actor.Scripts.{picture_at};
ghost use Rattle.sf_actor_set.specs.ActorSets.{MayStep, TriesAt, scripts_of};

use crate::compositing::{legal_each, owns_at, release_at, see_at, take_at, vsync_at};
use crate::open::{open_actors, open_queues};
use sf_actor_steps::{
    Actor, ActorScript, Desk, PlainDesk, QueueDecl, ReadLease, Stepped, Stock, TableName,
    Timelines, TurnSeat,
};
use sf_base::{Items, NoMemory, Seen};
use sf_commit::{Arrivals, Arrived, Committed, Handler, Lease, Painted, Picture, Release};
use std::alloc::Global;
use std::marker::Model;

/// The actors of a scene, by rising number, over one desk.
pub struct ActorSet<B: TableName> {
    pictures: Items<Picture>,
    actors: Vec<Actor<B>>,
    desk: PlainDesk<B>,
    /// Whether a try found no memory, after which no actor does any more steps.
    is_spent: bool,
}

impl<B: TableName> Model for ActorSet<B> {
    ghost use Rattle.sf_actor_set.specs.ActorSets.{ActorSetOf, IsActorSet};

    ghost Value = { ActorSetOf B };

    ghost view = { λ c. record { pictures = c.pictures; actors = c.actors.items; desk = c.desk; is_spent = c.is_spent } };

    ghost invariant = { λ c. IsActorSet B.table (record { pictures = c.pictures; actors = c.actors.items; desk = c.desk; is_spent = c.is_spent }) };
}

/// Tries the next step of the actor at an index.
fn try_at<B: TableName>(
    actors: &mut [Actor<B>],
    desk: &mut PlainDesk<B>,
    pictures: &[Picture],
    index: usize,
) -> Result<Stepped, NoMemory>
    requires there { index < length actors.old }
    requires may { MayStep B.table pictures.now actors.old desk.old }
    ensures steps { TriesAt B.table (picture_at pictures.now) index actors.old desk.old actors.new desk.new result }
    ensures scripts { scripts_of actors.new ≡ scripts_of actors.old }
    ensures home { home_of desk.new ≡ home_of desk.old }
{
    actors[index].try_step(desk, pictures)
}

impl<B: TableName> ActorSet<B> {
    ghost use Rattle.std.specs.Prelude.{◌≡◌, ℕ, ◌<◌, ◌==◌, true, false, length, IfOk, IfErr, IfSome, IsErr, OnErr};
    ghost use Rattle.std.specs.List.{position};
    ghost use Rattle.sf_commit.specs.sf_calls.Histories.{IsLegal};
    ghost use Rattle.sf_actor_steps.specs.sf_surface.Histories.{Answers};
    ghost use Rattle.sf_commit.specs.Handlers.{Decides, Stops, last_of};
    ghost use Rattle.sf_commit.specs.sf_token.Pending.{IsRisingFrom};
    ghost use Rattle.sf_actor_steps.specs.sf_turns.Counts.{range};
    ghost use Rattle.sf_actor_steps.specs.sf_actor.Desks.{IsAsBefore, KnowsAll, has_queue, mark_among};
    ghost use Rattle.sf_actor_steps.specs.sf_actor.Plain.{home_of, taken_in, view_of};
    ghost use Rattle.sf_actor_steps.specs.sf_actor.Scripts.{picture_at};
    ghost use Rattle.sf_actor_steps.specs.sf_actor.Tries.{Sees};
    ghost use Rattle.sf_actor_steps.specs.declared.actor.Actor.{Actor as ActorIn};
    ghost use Rattle.sf_actor_set.specs.ActorSets.{IsActorSet, IsSameActorSet, Opens, TriesAt, number_of};
    ghost use Rattle.sf_actor_set.specs.Compositing.{GivesFrameBack, OnlyDesk, Takes};
    ghost use Rattle.sf_actor_set.specs.Scripts.{AreOfScene, permits_of};

    /// The actors of a scene, which have done nothing, over its queues, which have no calls. It takes
    /// the seat and the whole stock of the turns, with a permit for each dequeue.
    pub fn new(
        alloc: Global,
        queues: &[QueueDecl],
        pictures: Items<Picture>,
        scripts: Items<ActorScript>,
        seat: TurnSeat<Painted>,
        stock: Stock<Painted>,
    ) -> Result<ActorSet<B>, NoMemory>
        requires scene { AreOfScene queues.now pictures scripts }
        requires own { (seat.table ≡ B.table) × (stock.table ≡ B.table) }
        requires first { (seat.is_first ≡ true) × (seat.out ≡ 0) }
        requires whole { stock.buffers ≡ range 0 (permits_of scripts) }
        ensures { IfOk result (Opens B.table queues.now pictures scripts seat stock.buffers) }
    {
        let actors = open_actors(alloc, scripts.into_vec(), stock)?;
        let queues = open_queues(alloc, queues)?;
        let (table, times) = Timelines::open(alloc)?;
        let desk = PlainDesk::new(queues, Arrivals::new(alloc)?, table, times, seat, true);
        Ok(ActorSet {
            pictures,
            actors,
            desk,
            is_spent: false,
        })
    }

    /// An actor set that goes on with actors who did some steps over this desk.
    pub fn resume(
        pictures: Items<Picture>,
        actors: Vec<Actor<B>>,
        desk: PlainDesk<B>,
    ) -> ActorSet<B>
        requires { IsActorSet B.table (record { pictures = pictures; actors = actors.items; desk = desk; is_spent = false }) }
        ensures { result ≡ record { pictures = pictures; actors = actors.items; desk = desk; is_spent = false } }
    {
        ActorSet {
            pictures,
            actors,
            desk,
            is_spent: false,
        }
    }

    /// The pictures, the actors by rising number, and the desk.
    pub fn into_parts(self) -> (Items<Picture>, Vec<Actor<B>>, PlainDesk<B>)
        ensures pictures { result.0 ≡ self.pictures }
        ensures actors { result.1.items ≡ self.actors }
        ensures desk { result.2 ≡ self.desk }
        ensures kept { IsActorSet B.table self }
    {
        let ActorSet {
            pictures,
            actors,
            desk,
            is_spent: _,
        } = self;
        (pictures, actors, desk)
    }

    /// The actors, by rising number.
    pub fn actors(&self) -> &[Actor<B>]
        ensures { result.now ≡ self.now.actors }
    {
        &self.actors
    }

    /// The desk.
    pub fn desk(&self) -> &PlainDesk<B>
        ensures { result.now ≡ self.now.desk }
    {
        &self.desk
    }

    /// The index of the actor of this number, from 0.
    pub fn index_of(&self, number: u32) -> Option<usize>
        ensures first { result ≡ position (λ (actor : ActorIn B). number_of actor == number) self.now.actors }
        ensures there { IfSome result (λ index. index < length self.now.actors) }
    {
        self.actors
            .iter()
            .position(|actor| actor.number() == number)
    }

    /// Tries the next step of the actor at an index, from 0. An actor set that found no memory does no
    /// more steps.
    pub fn try_step(&mut self, index: usize) -> Result<Stepped, NoMemory>
        requires there { index < length self.old.actors }
        ensures steps { TriesAt B.table (picture_at self.old.pictures) index self.old.actors self.old.desk self.new.actors self.new.desk result }
        ensures same { IsSameActorSet self.old self.new }
        ensures many { length self.new.actors ≡ length self.old.actors }
        ensures ok { IfOk result (λ _. self.new.is_spent ≡ false) }
        ensures no_memory { IfErr result (λ _. self.new.is_spent ≡ true) }
        ensures spent { self.old.is_spent ≡ true → IsErr result }
    {
        if self.is_spent {
            return Err(NoMemory);
        }
        let tried = try_at(
            &mut self.actors,
            &mut self.desk,
            self.pictures.as_slice(),
            index,
        );
        self.is_spent = tried.is_err();
        tried
    }

    /// States that the desk knows all that happened. It does nothing.
    pub fn exact(&self)
        ensures { KnowsAll (view_of self.now.desk) }
    {
        self.desk.exact();
    }

    /// States that each reply of a queue is what its calls before say. It changes nothing.
    pub fn legal(&self)
        ensures { (queue : ℕ) → IsLegal (Answers (mark_among (home_of self.now.desk).marks queue)) ((view_of self.now.desk).calls queue) }
    {
        legal_each(&self.desk.queues);
    }

    /// States that the desk's seat at the turns is at the named table. It changes nothing.
    pub fn owns(&self)
        ensures { self.now.desk.turns.table ≡ B.table }
    {
        owns_at(&self.desk);
    }

    /// What the timelines show a compositor that shares the desk with the actors.
    pub fn see(&mut self) -> Seen
        ensures sees { Sees (home_of self.old.desk) (view_of self.old.desk) (view_of self.new.desk) result }
        ensures times { self.new.desk ≡ record self.old.desk { times = self.new.desk.times } }
        ensures only { OnlyDesk B.table (taken_in self.old.desk.arrivals) self.old self.new }
    {
        see_at(&mut self.desk)
    }

    /// Takes the transactions that arrived since the last one was taken, in order. Out of memory
    /// leaves them.
    pub fn take(&mut self) -> Result<Vec<Arrived<ReadLease<B>>>, NoMemory>
        ensures taken { IfOk result (λ batch. Takes self.old.desk.arrivals self.new.desk.arrivals batch.items) }
        ensures stays { IfErr result (λ _. self.new.desk ≡ self.old.desk) }
        ensures arrivals { self.new.desk ≡ record self.old.desk { arrivals = self.new.desk.arrivals } }
        ensures only { OnlyDesk B.table (taken_in self.new.desk.arrivals) self.old self.new }
    {
        take_at(&mut self.desk)
    }

    /// A vsync of a compositor, whose eye is the desk's seat at the turns: `arrived` is what it took,
    /// `seen` what it saw of the timelines, and its frame is expected at this present time, in
    /// nanoseconds.
    pub fn vsync(
        &mut self,
        handler: &mut Handler<ReadLease<B>>,
        arrived: Vec<Arrived<ReadLease<B>>>,
        seen: &Seen,
        expected: u64,
    ) -> Result<Committed<ReadLease<B>>, NoMemory>
        requires rising { handler.old.is_spent ≡ false → IsRisingFrom handler.old.last arrived.items (last_of handler.old.last arrived.items) }
        ensures decides { IfOk result (λ told. Decides ⟦<ReadLease<B> as Lease>⟧ handler.old self.old.desk.turns arrived.items seen.now expected told
            handler.new self.new.desk.turns) }
        ensures stops { OnErr result (Stops ⟦<ReadLease<B> as Lease>⟧ handler.old self.old.desk.turns arrived.items seen.now expected
            handler.new self.new.desk.turns) }
        ensures again { handler.old.is_spent ≡ true → IsErr result }
        ensures turns { self.new.desk ≡ record self.old.desk { turns = self.new.desk.turns } }
        ensures only { OnlyDesk B.table (taken_in self.old.desk.arrivals) self.old self.new }
    {
        vsync_at(&mut self.desk, handler, arrived, seen, expected)
    }

    /// Gives a frame back to its queue after a vsync. It is a call of the compositor, whose number
    /// is 0, for the vsync of this number. A frame that the queue refuses is dropped. Where memory
    /// runs out nothing was done but that the frame is dropped.
    pub fn release(&mut self, vsync: u32, release: Release<ReadLease<B>>) -> Result<(), NoMemory>
        requires there { has_queue (home_of self.old.desk) release.queue.0 ≡ true }
        ensures released { IfOk result (λ _. GivesFrameBack self.old.desk self.new.desk vsync release) }
        ensures as_before { IfErr result (λ _. IsAsBefore (view_of self.old.desk) (view_of self.new.desk)) }
        ensures only { OnlyDesk B.table (taken_in self.old.desk.arrivals) self.old self.new }
    {
        release_at(&mut self.desk, vsync, release)
    }
}

impl<B: TableName> Drop for ActorSet<B> {
    fn drop(self) {
        let ActorSet {
            pictures: _,
            actors: _,
            desk: _,
            is_spent: _,
        } = self;
    }
}
