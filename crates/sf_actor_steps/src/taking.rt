//! Takes what a step needs out of the names that hold it.
use crate::bindings::Bindings;
use sf_actor::{Holding, Loose, Painted, Permit, ReadLease, TableName, WriteLease};
use sf_base::{NoMemory, QueueId};

impl<B: TableName> Bindings<B> {
    ghost use Rattle.std.specs.Prelude.{◌≡◌, ◌<◌, true, length, IfOk};
    ghost use Rattle.sf_actor.specs.Names.{is_apart, is_frame, is_lent, name_in};
    ghost use Rattle.sf_actor.specs.declared.holding.Holding.TheVariants as holding;
    ghost use Rattle.sf_actor_steps.specs.Forming.{Takes, TakesPermit, permits_of};
    ghost use Rattle.sf_actor_steps.specs.Bindings.{holdings_of};

    /// Takes the lent buffer that a name holds.
    #[tactic(auto, using(crate::proofs::HoldingLemmas::held))]
    pub fn take_lent(&mut self, name: u32) -> WriteLease<B>
        requires { is_lent (name_in (holdings_of self.old) name) ≡ true }
        ensures { Takes self.old self.new name (holding.Lends result) }
    {
        match self.names.take(name) {
            Some(Holding::Lends(lease)) => lease,
            _other => unreachable!(),
        }
    }

    /// Takes the frame that a name holds.
    #[tactic(auto, using(crate::proofs::HoldingLemmas::held))]
    pub fn take_frame(&mut self, name: u32) -> ReadLease<B>
        requires { is_frame (name_in (holdings_of self.old) name) ≡ true }
        ensures { Takes self.old self.new name (holding.Reads result) }
    {
        match self.names.take(name) {
            Some(Holding::Reads(lease)) => lease,
            _other => unreachable!(),
        }
    }

    /// Takes the loose buffer that a name holds, with the queue in which it was last.
    #[tactic(auto, using(crate::proofs::HoldingLemmas::held))]
    pub fn take_free(&mut self, name: u32) -> (QueueId, Loose<B>)
        requires { is_apart (name_in (holdings_of self.old) name) ≡ true }
        ensures { Takes self.old self.new name (holding.Frees result.0 result.1) }
    {
        match self.names.take(name) {
            Some(Holding::Frees(queue, loose)) => (queue, loose),
            _other => unreachable!(),
        }
    }

    /// Takes a permit for a dequeue: the one that was handed back, or one of the stock. Something is
    /// left.
    pub fn take_permit(&mut self) -> Result<Permit<Painted>, NoMemory>
        requires { 0 < length (permits_of self.old) }
        ensures { IfOk result (TakesPermit self.old self.new) }
    {
        match self.spare.take() {
            Some(permit) => Ok(permit),
            None => self.stock.one(),
        }
    }
}
