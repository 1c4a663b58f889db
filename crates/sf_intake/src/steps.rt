//! The steps of the taker and of senders, each over a pass of the queue.
ghost use Rattle.std.specs.Prelude.{◌≡◌, ◌<◌, true, false, length, MatchResult, MatchOption, Contains};
ghost use Rattle.sf_token.specs.Arrivals.{HoldsAll};
ghost use Rattle.sf_intake.specs.Passes.{IsPassOf, known};
ghost use Rattle.sf_intake.specs.Posts.{Begins, posts_by};
ghost use Rattle.sf_intake.specs.Rule.{giving, given, posted, note, hearing, tale, told, Takes, IsDry};

use crate::intake::{Intake, IntakePass};
use crate::naming::SenderNumber;
use crate::posted::Posted;
use crate::protocol::{Compare, Draw, Make, Note, Send, Tale};
use sf_token::{Lease, LeaseHome};
use std::sync::Wait;

impl<L: Lease + Drop, N: LeaseHome<L>> Intake<L, N> {
    /// A pass for a new sender, split off the taker's.
    pub(crate) fn make<S: SenderNumber>(&self, taker: &mut IntakePass<L>) -> IntakePass<L>
        requires own { IsPassOf self.now taker.old }
        requires role { (known taker.old).is_taker ≡ true }
        requires fresh { Contains (known taker.old).made S.number → ⊥ }
        ensures own { IsPassOf self.now taker.new × IsPassOf self.now result }
        ensures made { known taker.new ≡ giving S.number (known taker.old) }
        ensures given { known result ≡ given S.number }
    {
        self.queue.another::<Make<S>>(taker)
    }

    /// A sender puts a transaction into the queue. Out of memory hands it back.
    pub(crate) fn push<R: Wait>(
        &self,
        rt: &R,
        sender: &mut IntakePass<L>,
        post: Posted<L>,
    ) -> Result<(), Posted<L>>
        requires own { IsPassOf self.now sender.old }
        requires role { (known sender.old).sends ≡ true }
        requires mine { post.actor.0 ≡ (known sender.old).by }
        requires few { length (known sender.old).sent < 16777216 }
        requires fits { HoldsAll N.holds post.txn.buffers }
        ensures own { IsPassOf self.now sender.new }
        ensures sent { MatchResult result
            (λ _. known sender.new ≡ posted post (known sender.old))
            (λ back. (back ≡ post) × (known sender.new ≡ known sender.old)) }
    {
        self.queue.push_as::<Send, R>(rt, sender, post)
    }

    /// The taker takes the oldest transaction out of the queue. There is none only where the queue was
    /// empty at one moment of this call, so that all that the taker heard of was taken.
    pub(crate) fn pop<R: Wait>(&self, rt: &R, taker: &mut IntakePass<L>) -> Option<Posted<L>>
        requires own { IsPassOf self.now taker.old }
        requires role { (known taker.old).is_taker ≡ true }
        ensures own { IsPassOf self.now taker.new }
        ensures popped { MatchOption result
            ((known taker.new ≡ known taker.old) × IsDry (known taker.old))
            (λ post. Takes N.holds (known taker.old) post (known taker.new)) }
    {
        self.queue.pop_as::<Draw<L, N>, R>(rt, taker)
    }

    /// The taker hears what a sender sent.
    pub(crate) fn hear(&self, taker: &mut IntakePass<L>, sender: &mut IntakePass<L>)
        requires own { IsPassOf self.now taker.old × IsPassOf self.now sender.old }
        requires role { (known sender.old).sends ≡ true }
        ensures own { IsPassOf self.now taker.new × IsPassOf self.now sender.new }
        ensures same { known sender.new ≡ known sender.old }
        ensures heard { known taker.new ≡ hearing (known taker.old) (note (known sender.old)) }
    {
        let heard = self.queue.another::<Note>(sender);
        self.queue.absorb::<Note>(taker, heard);
    }

    /// A sender learns what was taken: its own of it is what it sent first.
    pub(crate) fn compare<R: Wait>(
        &self,
        rt: &R,
        taker: &mut IntakePass<L>,
        sender: &mut IntakePass<L>,
    )
        requires own { IsPassOf self.now taker.old × IsPassOf self.now sender.old }
        requires taker { (known taker.old).is_taker ≡ true }
        requires sender { ((known sender.old).sends ≡ true) × ((known sender.old).is_taker ≡ false) }
        ensures own { IsPassOf self.now taker.new × IsPassOf self.now sender.new }
        ensures same { known taker.new ≡ known taker.old }
        ensures told { known sender.new ≡ told (known sender.old) (tale (known taker.old)) }
        ensures ahead { Begins (posts_by (known sender.old).by (known taker.old).taken) (known sender.old).sent }
    {
        let tale = self.queue.another::<Tale>(taker);
        self.queue.absorb::<Tale>(sender, tale);
        self.queue.len_as::<Compare, R>(rt, sender);
    }
}
