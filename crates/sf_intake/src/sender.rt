//! An actor's side of the queue: it puts transactions in and waits for nobody.
ghost use Rattle.std.specs.Prelude.{◌≡◌, ◌<◌, length, OnOk, IfErr};
ghost use Rattle.sf_token.specs.Arrivals.{HoldsAll};
ghost use Rattle.sf_intake.specs.Views.{sending, stamped_from};

use crate::intake::{Intake, IntakePass};
use crate::posted::Posted;
use sf_base::{ActorId, NoMemory};
use sf_token::{Lease, LeaseHome, Transaction};
use std::marker::Model;
use std::sync::Wait;

/// One client's right to put transactions into an intake. Contracts see which intake it is, the
/// client's number, the stamp that its next transaction carries, and what it sent, in order.
pub struct Sender<L: Lease> {
    pub(crate) pass: IntakePass<L>,
    pub(crate) actor: ActorId,
    pub(crate) stamp: u64,
}

impl<L: Lease> Model for Sender<L> {
    ghost use Rattle.std.specs.Prelude.{◌≡◌, None};
    ghost use Rattle.sf_intake.specs.Passes.{known};
    ghost use Rattle.sf_intake.specs.Views.{IsSender, SenderView};

    ghost Value = { SenderView L };

    ghost view = { λ s. record { intake = s.pass.web; by = s.actor; stamp = s.stamp; sent = (known s.pass).sent } };

    ghost invariant = { λ s. IsSender (known s.pass) s.actor × (s.pass.me.hand ≡ None) × (s.pass.me.spare ≡ None) };
}

impl<L: Lease> Sender<L> {
    /// From now on what is sent carries this stamp, or a greater one that was given before. A
    /// client whose last call on another shared object has a stamp gives it before it sends, so
    /// that the taker of the transaction can put what follows from it behind that call.
    pub fn stamp_from(&mut self, stamp: u64)
        ensures { self.new ≡ stamped_from stamp self.old }
    {
        self.stamp = self.stamp.max(stamp);
    }
}

impl<L: Lease + Drop> Sender<L> {
    /// Sends a transaction, which was applied at this step of the client. Its leases fit the intake.
    /// A sender sends at most 16,777,216 of them. Out of memory hands the transaction back, and the
    /// sender is as it was.
    pub fn send<R: Wait, N: LeaseHome<L>>(
        &mut self,
        intake: &Intake<L, N>,
        rt: &R,
        step: u32,
        txn: Transaction<L>,
    ) -> Result<(), (NoMemory, Transaction<L>)>
        requires own { self.old.intake ≡ intake.now }
        requires fits { HoldsAll N.holds txn.buffers }
        requires few { length self.old.sent < 16777216 }
        ensures ok { OnOk result (self.new ≡ sending self.old step txn) }
        ensures err { IfErr result (λ refused. (refused.1 ≡ txn) × (self.new ≡ self.old)) }
    {
        let posted = Posted {
            actor: self.actor,
            step,
            stamp: self.stamp,
            txn,
        };
        match intake.push(rt, &mut self.pass, posted) {
            Ok(()) => Ok(()),
            Err(back) => {
                let Posted {
                    actor: _,
                    step: _,
                    stamp: _,
                    txn,
                } = back;
                Err((NoMemory, txn))
            }
        }
    }
}

impl<L: Lease + Drop> Drop for Sender<L> {
    fn drop(self) {
        let Sender {
            pass: _,
            actor: _,
            stamp: _,
        } = self;
    }
}
