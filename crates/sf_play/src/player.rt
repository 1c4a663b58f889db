//! The player of a scene: actors over one desk, and the compositor. It is begun, or goes on with a
//! run that threads did, and makes vsyncs.
ghost use Rattle.std.specs.Prelude.{◌≡◌, ◌+◌, ◌<◌, ◌≤◌, true, [], IfOk, None, map};
ghost use Rattle.law_rights.specs.sf_actor_set.Scripts.{permits_of};
ghost use Rattle.sf_play_report.specs.sf_turns.Counts.{range};
ghost use Rattle.sf_play.specs.Playing.{KeepsItself, MakesReport, MayMakeVsync, expected_by};
ghost use Rattle.sf_play.specs.Players.{before_round};
ghost use Rattle.sf_play.specs.Standing.{Begins, IsStanding};

use crate::outcome::VsyncOutcome;
use crate::place::Place;
use crate::vsync::vsync_over;
use law_rights::ActorSet;
use sf_base::{Items, NoMemory};
use sf_picture::Painted;
use sf_play_report::{Handler, Hold, Lease, ReadLease, Stock, TableName, TurnSeat, VsyncReport};
use sf_script_scene::{Pick, Scene, most_layers};
use std::alloc::Global;
use std::marker::Model;

/// The play of a scene, one action after another.
pub struct Player<B: TableName> {
    pub(crate) alloc: Global,
    pub(crate) period: u64,
    pub(crate) order: Items<Pick>,
    pub(crate) actor_set: ActorSet<B>,
    pub(crate) handler: Handler<ReadLease<B>>,
    /// How many vsyncs there were.
    pub(crate) vsyncs: u32,
    pub(crate) place: Place,
    /// What was held after the last vsync, by the numbers of arrivals.
    pub(crate) held: Items<(u32, Hold)>,
    /// Whether it found no memory, after which nothing is done any more.
    pub(crate) is_spent: bool,
}

impl<B: TableName> Model for Player<B> {
    ghost use Rattle.sf_play.specs.Players.{PlayerOf};
    ghost use Rattle.sf_play.specs.Standing.{IsPlayer};

    ghost Value = { PlayerOf B };

    ghost view = { λ p. record {
      play = record { period = p.period; order = p.order; actor_set = p.actor_set; handler = p.handler; vsyncs = p.vsyncs };
      place = p.place;
      held = p.held;
      is_spent = p.is_spent;
    } };

    ghost invariant = { λ p. IsPlayer B.table (record {
      play = record { period = p.period; order = p.order; actor_set = p.actor_set; handler = p.handler; vsyncs = p.vsyncs };
      place = p.place;
      held = p.held;
      is_spent = p.is_spent;
    }) };
}

impl<B: TableName> Player<B> {
    /// The play of a scene, before its first action. It takes the seat and the whole stock of the turns,
    /// with a permit for each dequeue.
    pub fn new(
        alloc: Global,
        scene: Scene,
        seat: TurnSeat<Painted>,
        stock: Stock<Painted>,
    ) -> Result<Player<B>, NoMemory>
        requires own { (seat.table ≡ B.table) × (stock.table ≡ B.table) }
        requires first { (seat.is_first ≡ true) × (seat.out ≡ 0) }
        requires fresh { seat.leaves ≡ [] }
        requires whole { stock.buffers ≡ range 0 (permits_of scene.actors) }
        requires sized { permits_of scene.actors ≤ B.table.slots }
        ensures { IfOk result (λ player. Begins B.table scene player) }
    {
        let Scene {
            version,
            width,
            height,
            period,
            queues,
            pictures,
            actors,
            order,
            ..
        } = scene;
        let actor_set = ActorSet::new(alloc, queues.as_slice(), pictures, actors, seat, stock)?;
        let handler = Handler::with_limit(alloc, width, height, most_layers(version))?;
        Ok(Player {
            alloc,
            period,
            order,
            actor_set,
            handler,
            vsyncs: 0,
            place: Place::Order(0, 0),
            held: Items::new(Vec::new(alloc)),
            is_spent: false,
        })
    }

    /// A player that goes on with a run whose actors did their steps elsewhere and are together again,
    /// and in which so many vsyncs were made: it does rounds, up to the first in which nothing is done.
    /// The order is the scene's, of which no pick is left.
    pub fn resume(
        alloc: Global,
        period: u64,
        order: Items<Pick>,
        actor_set: ActorSet<B>,
        handler: Handler<ReadLease<B>>,
        vsyncs: u32,
    ) -> Player<B>
        requires { IsStanding B.table (before_round period order actor_set handler vsyncs) }
        ensures { result ≡ before_round period order actor_set handler vsyncs }
    {
        Player {
            alloc,
            period,
            order,
            actor_set,
            handler,
            vsyncs,
            place: Place::Round(0, false),
            held: Items::new(Vec::new(alloc)),
            is_spent: false,
        }
    }

    /// The actors and their desk.
    pub fn actor_set(&self) -> &ActorSet<B>
        ensures { result.now ≡ self.now.play.actor_set }
    {
        &self.actor_set
    }

    /// The compositor: the layers and the buffers on them as the last vsync left them. Nothing is lent.
    pub fn handler(&self) -> &Handler<ReadLease<B>>
        ensures handler { result.now ≡ self.now.play.handler }
        ensures unlent { self.now.play.handler.lent ≡ None }
    {
        &self.handler
    }

    /// How many vsyncs there were.
    pub fn vsyncs(&self) -> u32
        ensures { result ≡ self.now.play.vsyncs }
    {
        self.vsyncs
    }

    /// What is held since the last vsync, by the numbers of arrivals.
    pub fn held(&self) -> &[(u32, Hold)]
        ensures { result.now ≡ self.now.held }
    {
        self.held.as_slice()
    }

    /// The pixels of the buffers on layers since the last vsync.
    pub fn contents(&self) -> &[Painted]
        ensures { result.now ≡ map expected_by self.now.play.handler.on }
    {
        self.handler.contents()
    }

    /// Ends the play.
    pub fn finish(self) {
        let Player {
            alloc: _,
            period: _,
            order: _,
            actor_set: _,
            handler,
            vsyncs: _,
            place: _,
            held: _,
            is_spent: _,
        } = self;
        handler.finish();
    }

    /// States what the desk and the compositor keep of themselves. It changes nothing.
    pub(crate) fn tells(&self)
        ensures { KeepsItself ⟦<ReadLease<B> as Lease>⟧ B.table self.now.play }
    {
        self.actor_set.exact();
        self.actor_set.legal();
        self.actor_set.owns();
        self.handler.contents();
        self.handler.tree().layers();
    }

    /// Does a vsync.
    pub(crate) fn vsync(&mut self) -> Result<VsyncReport, NoMemory>
        requires spent { self.old.is_spent ≡ true }
        requires may { MayMakeVsync B.table self.old.play }
        ensures makes { IfOk result (λ report. MakesReport ⟦<ReadLease<B> as Lease>⟧ B.table self.old self.new report) }
        ensures spent { self.new.is_spent ≡ true }
        ensures place { self.new.place ≡ self.old.place }
    {
        let number = self.vsyncs + 1;
        self.vsyncs = number;
        let expected = u64::from(number) * self.period;
        let VsyncOutcome {
            report,
            held,
            taken: _,
            released: _,
        } = vsync_over(
            &mut self.actor_set,
            &(),
            &mut self.handler,
            number,
            expected,
        )?;
        self.held = held;
        Ok(report)
    }
}
