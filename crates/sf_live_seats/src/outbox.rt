//! An actor's side of an intake without a lock: its sender, with what it may send.
use crate::clock::Clock;
use sf_actor::ReadLease;
use sf_base::NoMemory;
use sf_intake::{Intake, Sender, Transaction};
use sf_turns::TableName;
use std::marker::Brand;
use std::sync::Wait;

/// How many transactions a caller sends through an intake at most.
const MOST_SENT: u32 = 16_777_216;

/// A caller's sender at an intake.
#[derive(Drop)]
pub struct Outbox<B: TableName> {
    pub(crate) sender: Sender<ReadLease<B>>,
    // How many transactions it sent.
    pub(crate) count: u32,
}

impl<B: TableName> Outbox<B> {
    ghost use Rattle.std.specs.Prelude.{◌≡◌, ◌+◌, ◌≤◌, length, IfOk, IfErr};
    ghost use Rattle.sf_live_seats.specs.Outboxes.{IsReady, Posts, SendsStill};

    /// Sends a transaction, for a step of its caller. It is refused as out of memory where the step
    /// is before that of the caller's last call, and where the caller has sent as much as it may.
    pub(crate) fn send<R: Wait>(
        &mut self,
        intake: &Intake<ReadLease<B>, Brand>,
        rt: &R,
        last: &mut Clock,
        step: u32,
        txn: Transaction<ReadLease<B>>,
    ) -> Result<u32, (NoMemory, Transaction<ReadLease<B>>)>
        requires own { self.old.sender.intake ≡ intake.now }
        requires ready { IsReady last.old self.old }
        ensures ready { IsReady last.new self.new }
        ensures still { SendsStill self.old self.new }
        ensures sent { IfOk result (λ number. (number ≡ 0) × Posts self.old self.new last.old last.new step txn) }
        ensures back { IfErr result (λ back. (back.1 ≡ txn) × (self.new.sender.sent ≡ self.old.sender.sent) × (last.new ≡ last.old)) }
    {
        if step < last.step || self.count >= MOST_SENT || last.stamp == u64::MAX {
            return Err((NoMemory, txn));
        }
        let stamp = last.stamp + 1;
        self.sender.stamp_from(stamp);
        self.sender.send(intake, rt, step, txn)?;
        self.count += 1;
        *last = Clock { step, stamp };
        Ok(0)
    }
}
