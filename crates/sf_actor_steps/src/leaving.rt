//! The steps that disconnect a producer or take a buffer out of its queue, once its fence is
//! signalled.
ghost use Rattle.std.specs.Prelude.{◌≡◌};
ghost use Rattle.std.specs.Option.{option_copied};
ghost use Rattle.sf_actor_steps.specs.Leaving.{Looks, was_ok};

use crate::asking::{Asking, Move, moving, named};
use crate::bindings::Bindings;
use crate::drawing::look;
use crate::refusal::BAD_VALUE;
use crate::tried::Tried;
use sf_actor::{Desk, Holding, QCall, TableName, TokensOf};
use sf_base::{Fence, NoMemory, QueueId};

/// Whether a point of a fence is not signalled, as a look shows, if there is a fence.
fn is_open<B: TableName, D: Desk<TokensOf<B>>>(desk: &mut D, fence: Option<&Fence>) -> bool
    ensures looks { Looks (D.home desk.old) (option_copied fence.entry) (D.view desk.old) (D.view desk.new) result }
    ensures home { D.home desk.new ≡ D.home desk.old }
{
    match fence {
        Some(fence) => fence.first_open(&look(desk)).is_some(),
        None => false,
    }
}

/// Whether a call was done.
fn was_ok(tried: &Tried) -> bool
    ensures { result ≡ was_ok tried.now }
{
    match tried {
        Tried::Called(status, _) => status.number() == 0,
        _ => false,
    }
}

impl<B: TableName> Bindings<B> {
    ghost use Rattle.std.specs.Prelude.{◌≡◌, ℕ, true, IfOk, None, get_or, length};
    ghost use Rattle.std.specs.Option.{option_copied};
    ghost use Rattle.sf_actor.specs.sf_picture.declared.picture.Picture.{Picture};
    ghost use Rattle.sf_actor.specs.sf_surface.Marks.{PermitFits};
    ghost use Rattle.sf_actor.specs.Desks.{DeskHome, has_queue};
    ghost use Rattle.sf_actor.specs.Names.{name_in};
    ghost use Rattle.sf_actor.specs.Points.{frame_fence, requested_fence};
    ghost use Rattle.sf_actor_steps.specs.Calling.{with_held};
    ghost use Rattle.sf_actor_steps.specs.Doing.{HasQueueOf};
    ghost use Rattle.sf_actor_steps.specs.Forming.{FormsCall, detach_step};
    ghost use Rattle.sf_actor_steps.specs.Bindings.{holdings_of};
    ghost use Rattle.sf_actor_steps.specs.Leaving.{MakesDisconnect, TriesToDetach, holds_leaving, holds_lent, leaving_fence, let_go_of, without_lent};

    /// Drops what a name holds, if it is a lent buffer of a queue.
    fn drop_if_lent(&mut self, name: u32, queue: u32)
        ensures { self.new ≡ with_held self.old name (let_go_of queue (get_or self.old.names name None)) }
    {
        if self.is_lent_by(name, queue) {
            let _lease = self.names.take(name);
        }
    }

    /// Whether a name holds a lent buffer of a queue.
    fn is_lent_by(&self, name: u32, queue: u32) -> bool
        ensures { result ≡ holds_lent queue (get_or self.now.names name None) }
    {
        match self.names.get(name) {
            Some(Holding::Lends(lease)) => lease.queue.0 == queue,
            _ => false,
        }
    }

    /// Drops the lent buffers of a queue.
    fn drop_lent(&mut self, queue: u32)
        requires { length self.old.names ≡ 32 }
        ensures { self.new ≡ without_lent queue self.old }
    {
        for name in 0..32 {
            self.drop_if_lent(name, queue);
        }
    }

    /// Disconnects from a queue. Once it is done, the buffers that it lent are dropped.
    pub fn disconnect<D: Desk<TokensOf<B>>>(
        &mut self,
        desk: &mut D,
        step_number: u32,
        queue: u32,
    ) -> Result<Tried, NoMemory>
        requires served { (D.home desk.old).serves self.old.by.0 ≡ true }
        requires there { has_queue (D.home desk.old) queue ≡ true }
        requires names { length self.old.names ≡ 32 }
        ensures makes { IfOk result (MakesDisconnect (D.home desk.old) step_number queue self.old self.new (D.view desk.old) (D.view desk.new)) }
        ensures home { D.home desk.new ≡ D.home desk.old }
    {
        let tried = self.ask(
            desk,
            step_number,
            named(QueueId(queue), 0, QCall::Disconnect),
        )?;
        if was_ok(&tried) {
            self.drop_lent(queue);
        }
        Ok(tried)
    }

    /// What a lent buffer has to wait for before it leaves its queue: nothing where its producer does
    /// not know it, since the queue refuses it then.
    #[tactic(auto, using(crate::proofs::HoldingLemmas::held))]
    fn requested_fence(&self, name: u32) -> Option<&Fence>
        ensures { option_copied result ≡ requested_fence (name_in (holdings_of self.now) name) }
    {
        match self.names.get(name) {
            Some(Holding::Lends(lease)) if lease.requested => Some(&lease.fence),
            _ => None,
        }
    }

    /// What a frame has to wait for before its buffer leaves its queue.
    #[tactic(auto, using(crate::proofs::HoldingLemmas::held))]
    fn frame_fence(&self, name: u32) -> Option<&Fence>
        ensures { option_copied result ≡ frame_fence (name_in (holdings_of self.now) name) }
    {
        match self.names.get(name) {
            Some(Holding::Reads(lease)) => Some(&lease.fence),
            _ => None,
        }
    }

    /// What a buffer has to wait for before it leaves its queue: a frame's, or a lent one.
    fn leaving_fence(&self, name: u32, reads: bool) -> Option<&Fence>
        ensures { option_copied result ≡ leaving_fence reads (name_in (holdings_of self.now) name) }
    {
        if reads {
            self.frame_fence(name)
        } else {
            self.requested_fence(name)
        }
    }

    /// The call that takes a buffer out of its queue: a frame's, or a lent one.
    fn leaving_call(&mut self, names: Move, reads: bool) -> Asking<B>
        requires held { holds_leaving reads (name_in (holdings_of self.old) names.from) ≡ true }
        ensures forms { (pictures : ℕ → Picture) → FormsCall pictures (detach_step reads names.from names.to) self.old self.new result }
        ensures there { (home : DeskHome) → HasQueueOf home (name_in (holdings_of self.old) names.from) → has_queue home result.queue.0 ≡ true }
        ensures permit { PermitFits B.table result.call }
        ensures by { self.new.by ≡ self.old.by }
    {
        let Move { from, to } = names;
        if reads {
            let lease = self.take_frame(from);
            let (queue, held) = (lease.queue, lease.held);
            moving(queue, from, to, held, QCall::DetachRead(lease))
        } else {
            let lease = self.take_lent(from);
            let (queue, held) = (lease.queue, lease.held);
            moving(queue, from, to, held, QCall::Detach(lease))
        }
    }

    /// Takes a buffer out of its queue, a frame's or a lent one, once its fence is signalled: a loose
    /// buffer has none.
    pub fn detach<D: Desk<TokensOf<B>>>(
        &mut self,
        desk: &mut D,
        step_number: u32,
        names: Move,
        reads: bool,
    ) -> Result<Tried, NoMemory>
        requires served { (D.home desk.old).serves self.old.by.0 ≡ true }
        requires held { holds_leaving reads (name_in (holdings_of self.old) names.from) ≡ true }
        requires there { HasQueueOf (D.home desk.old) (name_in (holdings_of self.old) names.from) }
        ensures tries { IfOk result (TriesToDetach (D.home desk.old) step_number reads names.from names.to
            self.old self.new (D.view desk.old) (D.view desk.new)) }
        ensures home { D.home desk.new ≡ D.home desk.old }
    {
        if is_open(desk, self.leaving_fence(names.from, reads)) {
            return Ok(Tried::Own(BAD_VALUE));
        }
        let asking = self.leaving_call(names, reads);
        self.ask(desk, step_number, asking)
    }
}
