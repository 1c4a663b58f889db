//! The steps of a producer: they connect, dequeue, request, queue and cancel buffers.
use crate::asking::{cancel, fence_of, moving, named, queueing};
use crate::bindings::Bindings;
use crate::tried::Tried;
use sf_actor::{Desk, Picture, Points, QCall, TableName, TokensOf};
use sf_base::{NoMemory, QueueId};

/// What a step asks of a dequeue: a buffer of this size in pixels, if it names one, and whether to wait
/// until there is one.
#[derive(Clone, Copy)]
pub struct DequeueInput {
    pub size: Option<(u32, u32)>,
    pub wait: bool,
}

/// What a step queues a frame with: its picture, its desired present time in nanoseconds, the part to
/// show, and the points of its acquire fence.
#[derive(Clone, Copy)]
pub struct QueueInput<'a> {
    pub picture: &'a Picture,
    pub time: Option<u64>,
    pub crop: Option<(u32, u32, u32, u32)>,
    pub points: &'a Points,
}

impl<B: TableName> Bindings<B> {
    ghost use Rattle.std.specs.Prelude.{◌≡◌, ◌<◌, true, length, IfOk};
    ghost use Rattle.sf_actor.specs.sf_script_scene.declared.step.Step.TheVariants as step;
    ghost use Rattle.sf_actor.specs.Desks.{has_queue};
    ghost use Rattle.sf_actor.specs.Names.{is_lent, name_in};
    ghost use Rattle.sf_actor_steps.specs.Doing.{HasQueueOf, Makes, MakesQueue};
    ghost use Rattle.sf_actor_steps.specs.Forming.{AreOfTable, ArePoints, IsCrop, dequeue_step, permits_of};
    ghost use Rattle.sf_actor_steps.specs.Bindings.{holdings_of};

    /// Becomes a queue's producer.
    pub fn connect<D: Desk<TokensOf<B>>>(
        &mut self,
        desk: &mut D,
        step_number: u32,
        queue: u32,
    ) -> Result<Tried, NoMemory>
        requires served { (D.home desk.old).serves self.old.by.0 ≡ true }
        requires there { has_queue (D.home desk.old) queue ≡ true }
        ensures makes { IfOk result (Makes (D.home desk.old) step_number (step.Connect queue) self.old self.new (D.view desk.old) (D.view desk.new)) }
        ensures home { D.home desk.new ≡ D.home desk.old }
    {
        self.ask(desk, step_number, named(QueueId(queue), 0, QCall::Connect))
    }

    /// Limits how many buffers a producer may hold.
    pub fn limit_dequeued<D: Desk<TokensOf<B>>>(
        &mut self,
        desk: &mut D,
        step_number: u32,
        queue: u32,
        n: u32,
    ) -> Result<Tried, NoMemory>
        requires served { (D.home desk.old).serves self.old.by.0 ≡ true }
        requires there { has_queue (D.home desk.old) queue ≡ true }
        ensures makes { IfOk result (Makes (D.home desk.old) step_number (step.MaxDequeued queue n) self.old self.new (D.view desk.old) (D.view desk.new)) }
        ensures home { D.home desk.new ≡ D.home desk.old }
    {
        self.ask(
            desk,
            step_number,
            named(QueueId(queue), 0, QCall::MaxDequeued(n)),
        )
    }

    /// Makes a queue asynchronous, or not.
    pub fn set_async<D: Desk<TokensOf<B>>>(
        &mut self,
        desk: &mut D,
        step_number: u32,
        queue: u32,
        on: bool,
    ) -> Result<Tried, NoMemory>
        requires served { (D.home desk.old).serves self.old.by.0 ≡ true }
        requires there { has_queue (D.home desk.old) queue ≡ true }
        ensures makes { IfOk result (Makes (D.home desk.old) step_number (step.Async queue on) self.old self.new (D.view desk.old) (D.view desk.new)) }
        ensures home { D.home desk.new ≡ D.home desk.old }
    {
        self.ask(
            desk,
            step_number,
            named(QueueId(queue), 0, QCall::Async(on)),
        )
    }

    /// Lets a name hold a buffer of a queue, of this size where one is asked. It may wait until there
    /// is one, or not.
    pub fn dequeue<D: Desk<TokensOf<B>>>(
        &mut self,
        desk: &mut D,
        step_number: u32,
        queue: u32,
        name: u32,
        input: DequeueInput,
    ) -> Result<Tried, NoMemory>
        requires served { (D.home desk.old).serves self.old.by.0 ≡ true }
        requires there { has_queue (D.home desk.old) queue ≡ true }
        requires left { 0 < length (permits_of self.old) }
        requires table { AreOfTable B.table self.old }
        ensures makes { IfOk result (Makes (D.home desk.old) step_number (dequeue_step input.wait queue name input.size) self.old self.new (D.view desk.old) (D.view desk.new)) }
        ensures home { D.home desk.new ≡ D.home desk.old }
    {
        let (width, height) = input.size.unwrap_or((0, 0));
        let permit = self.take_permit()?;
        let call = QCall::Dequeue {
            width,
            height,
            wait: input.wait,
            permit,
        };
        self.ask(desk, step_number, named(QueueId(queue), name, call))
    }

    /// Makes the buffer that a name holds known.
    pub fn request<D: Desk<TokensOf<B>>>(
        &mut self,
        desk: &mut D,
        step_number: u32,
        name: u32,
    ) -> Result<Tried, NoMemory>
        requires served { (D.home desk.old).serves self.old.by.0 ≡ true }
        requires lent { is_lent (name_in (holdings_of self.old) name) ≡ true }
        requires there { HasQueueOf (D.home desk.old) (name_in (holdings_of self.old) name) }
        ensures makes { IfOk result (Makes (D.home desk.old) step_number (step.Request name) self.old self.new (D.view desk.old) (D.view desk.new)) }
        ensures home { D.home desk.new ≡ D.home desk.old }
    {
        let lease = self.take_lent(name);
        let (queue, held) = (lease.queue, lease.held);
        self.ask(
            desk,
            step_number,
            moving(queue, name, name, held, QCall::Request(lease)),
        )
    }

    /// Gives back the buffer that a name holds.
    pub fn cancel<D: Desk<TokensOf<B>>>(
        &mut self,
        desk: &mut D,
        step_number: u32,
        name: u32,
        points: &Points,
    ) -> Result<Tried, NoMemory>
        requires served { (D.home desk.old).serves self.old.by.0 ≡ true }
        requires lent { is_lent (name_in (holdings_of self.old) name) ≡ true }
        requires there { HasQueueOf (D.home desk.old) (name_in (holdings_of self.old) name) }
        requires points { ArePoints points.now }
        ensures makes { IfOk result (Makes (D.home desk.old) step_number (step.Cancel name points.now) self.old self.new (D.view desk.old) (D.view desk.new)) }
        ensures home { D.home desk.new ≡ D.home desk.old }
    {
        let lease = self.take_lent(name);
        let fence = fence_of(self.alloc, points)?;
        let asking = cancel(self.alloc, name, lease, fence)?;
        self.ask(desk, step_number, asking)
    }

    /// Queues the buffer that a name holds, as a frame of this picture.
    pub fn queue<D: Desk<TokensOf<B>>>(
        &mut self,
        desk: &mut D,
        step_number: u32,
        name: u32,
        input: QueueInput,
    ) -> Result<Tried, NoMemory>
        requires served { (D.home desk.old).serves self.old.by.0 ≡ true }
        requires lent { is_lent (name_in (holdings_of self.old) name) ≡ true }
        requires there { HasQueueOf (D.home desk.old) (name_in (holdings_of self.old) name) }
        requires points { ArePoints input.points.now }
        requires crop { IsCrop input.crop }
        ensures makes { IfOk result (MakesQueue (D.home desk.old) step_number name input.entry self.old self.new (D.view desk.old) (D.view desk.new)) }
        ensures home { D.home desk.new ≡ D.home desk.old }
    {
        let picture = input.picture.copy(self.alloc)?;
        let fence = fence_of(self.alloc, input.points)?;
        let lease = self.take_lent(name);
        let asking = queueing(name, lease, picture, input.time, input.crop, fence);
        self.ask(desk, step_number, asking)
    }
}
