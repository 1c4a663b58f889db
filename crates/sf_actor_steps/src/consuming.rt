//! The steps of a consumer: they acquire and release buffers, and give a queue up.
use crate::asking::{fence_of, named, release};
use crate::bindings::Bindings;
use crate::tried::Tried;
use sf_actor::{Desk, Points, QCall, TableName, TokensOf};
use sf_base::{NoMemory, QueueId};

impl<B: TableName> Bindings<B> {
    ghost use Rattle.std.specs.Prelude.{◌≡◌, true, IfOk};
    ghost use Rattle.sf_actor.specs.sf_script_scene.declared.step.Step.TheVariants as step;
    ghost use Rattle.sf_actor.specs.Desks.{has_queue};
    ghost use Rattle.sf_actor.specs.Names.{is_frame, name_in};
    ghost use Rattle.sf_actor_steps.specs.Doing.{HasQueueOf, Makes};
    ghost use Rattle.sf_actor_steps.specs.Forming.{ArePoints};
    ghost use Rattle.sf_actor_steps.specs.Bindings.{holdings_of};

    /// Limits how many buffers a consumer may hold.
    pub fn limit_acquired<D: Desk<TokensOf<B>>>(
        &mut self,
        desk: &mut D,
        step_number: u32,
        queue: u32,
        n: u32,
    ) -> Result<Tried, NoMemory>
        requires served { (D.home desk.old).serves self.old.by.0 ≡ true }
        requires there { has_queue (D.home desk.old) queue ≡ true }
        ensures makes { IfOk result (Makes (D.home desk.old) step_number (step.MaxAcquired queue n) self.old self.new (D.view desk.old) (D.view desk.new)) }
        ensures home { D.home desk.new ≡ D.home desk.old }
    {
        self.ask(
            desk,
            step_number,
            named(QueueId(queue), 0, QCall::MaxAcquired(n)),
        )
    }

    /// Abandons a queue, as its consumer.
    pub fn abandon<D: Desk<TokensOf<B>>>(
        &mut self,
        desk: &mut D,
        step_number: u32,
        queue: u32,
    ) -> Result<Tried, NoMemory>
        requires served { (D.home desk.old).serves self.old.by.0 ≡ true }
        requires there { has_queue (D.home desk.old) queue ≡ true }
        ensures makes { IfOk result (Makes (D.home desk.old) step_number (step.Abandon queue) self.old self.new (D.view desk.old) (D.view desk.new)) }
        ensures home { D.home desk.new ≡ D.home desk.old }
    {
        self.ask(desk, step_number, named(QueueId(queue), 0, QCall::Abandon))
    }

    /// Lets a name hold the frame in front of a queue.
    pub fn acquire<D: Desk<TokensOf<B>>>(
        &mut self,
        desk: &mut D,
        step_number: u32,
        queue: u32,
        name: u32,
        at: Option<u64>,
    ) -> Result<Tried, NoMemory>
        requires served { (D.home desk.old).serves self.old.by.0 ≡ true }
        requires there { has_queue (D.home desk.old) queue ≡ true }
        ensures makes { IfOk result (Makes (D.home desk.old) step_number (step.Acquire queue name at) self.old self.new (D.view desk.old) (D.view desk.new)) }
        ensures home { D.home desk.new ≡ D.home desk.old }
    {
        self.ask(
            desk,
            step_number,
            named(QueueId(queue), name, QCall::Acquire(at.unwrap_or(0))),
        )
    }

    /// Gives a frame's buffer back.
    pub fn release<D: Desk<TokensOf<B>>>(
        &mut self,
        desk: &mut D,
        step_number: u32,
        name: u32,
        points: &Points,
    ) -> Result<Tried, NoMemory>
        requires served { (D.home desk.old).serves self.old.by.0 ≡ true }
        requires frame { is_frame (name_in (holdings_of self.old) name) ≡ true }
        requires there { HasQueueOf (D.home desk.old) (name_in (holdings_of self.old) name) }
        requires points { ArePoints points.now }
        ensures makes { IfOk result (Makes (D.home desk.old) step_number (step.Release name points.now) self.old self.new (D.view desk.old) (D.view desk.new)) }
        ensures home { D.home desk.new ≡ D.home desk.old }
    {
        let lease = self.take_frame(name);
        let fence = fence_of(self.alloc, points)?;
        let asking = release(self.alloc, name, lease, fence)?;
        self.ask(desk, step_number, asking)
    }
}
