//! How a step makes its one call on a queue: it brings the tokens, and puts what comes back under
//! names.
ghost use Rattle.std.specs.Prelude.{◌≡◌};
ghost use Rattle.sf_actor.specs.sf_surface.Hands.{brought};
ghost use Rattle.sf_actor_steps.specs.Calling.{Ends};

use crate::asking::{Asking, Homes};
use crate::bindings::Bindings;
use crate::tried::Tried;
use sf_actor::{
    CallFault, Desk, Ending, Gives, Holding, Painted, Permit, QCall, QReply, TableName, TokensOf,
};
use sf_base::NoMemory;

/// What a queue call brought, as what it would give.
fn brought<B: TableName>(call: QCall<B>) -> Gives<B>
    ensures { result ≡ brought call }
{
    match call {
        QCall::Request(lease) | QCall::Detach(lease) => Gives::Write(lease),
        QCall::Cancel(lease, _fence) => Gives::Write(lease),
        QCall::Queue {
            lease,
            picture: _picture,
            time: _time,
            crop: _crop,
            fence: _fence,
        } => Gives::Write(lease),
        QCall::Attach(loose) | QCall::AttachRead(loose) => Gives::Free(loose),
        QCall::Release(lease, _fence) => Gives::Read(lease),
        QCall::DetachRead(lease) => Gives::Read(lease),
        other => {
            drop(other);
            Gives::Nothing
        }
    }
}

/// Ends the drawing that a call ended, if it ended one.
pub fn leave<B: TableName, D: Desk<TokensOf<B>>>(desk: &mut D, ends: Option<Ending<B>>)
    ensures ends { Ends ends (D.view desk.old) (D.view desk.new) }
    ensures home { D.home desk.new ≡ D.home desk.old }
{
    if let Some(ending) = ends {
        desk.end(ending);
    }
}

impl<B: TableName> Bindings<B> {
    ghost use Rattle.std.specs.Prelude.{◌≡◌, true, IfOk};
    ghost use Rattle.sf_actor.specs.sf_surface.Marks.{PermitFits};
    ghost use Rattle.sf_actor.specs.Desks.{has_queue};
    ghost use Rattle.sf_actor_steps.specs.Calling.{Ends, TriesCall, placed, received, taken_back, with_spare};
    ghost use Rattle.sf_actor_steps.specs.declared.tried.Tried.TheVariants as tried;

    /// Lets the name of its kind hold a token.
    fn hold(&mut self, homes: Homes, gives: Gives<B>)
        ensures { self.new ≡ placed homes self.old gives }
    {
        match gives {
            Gives::Nothing => {}
            Gives::Write(lease) => self.names.put(homes.lent, Holding::Lends(lease)),
            Gives::Owes(owing) => self.names.put(homes.lent, Holding::Owes(owing, homes.held)),
            Gives::Read(lease) => self.names.put(homes.frame, Holding::Reads(lease)),
            Gives::Free(loose) => self
                .names
                .put(homes.free, Holding::Frees(homes.last, loose)),
        }
    }

    /// Keeps a permit that made no buffer.
    fn keep(&mut self, spare: Option<Permit<Painted>>)
        ensures { self.new ≡ with_spare self.old spare }
    {
        if let Some(permit) = spare {
            self.spare = Some(permit);
        }
    }

    /// Takes back what a call brought that was not made.
    fn take_back(&mut self, homes: Homes, call: QCall<B>)
        ensures { self.new ≡ taken_back homes self.old call }
    {
        match call {
            QCall::Dequeue { permit, .. } => self.keep(Some(permit)),
            other => self.hold(homes, brought(other)),
        }
    }

    /// Takes what a call gave. A drawing that ends leaves.
    fn receive<D: Desk<TokensOf<B>>>(
        &mut self,
        desk: &mut D,
        homes: Homes,
        reply: QReply<B>,
    ) -> Tried
        ensures told { result ≡ tried.Called reply.status reply.values }
        ensures bindings { self.new ≡ received homes self.old reply }
        ensures ends { Ends reply.ends (D.view desk.old) (D.view desk.new) }
        ensures home { D.home desk.new ≡ D.home desk.old }
    {
        let QReply {
            status,
            values,
            gives,
            ends,
            spare,
        } = reply;
        leave(desk, ends);
        self.hold(homes, gives);
        self.keep(spare);
        Tried::Called(status, values)
    }

    /// Makes a call on a queue.
    pub fn ask<D: Desk<TokensOf<B>>>(
        &mut self,
        desk: &mut D,
        step_number: u32,
        asking: Asking<B>,
    ) -> Result<Tried, NoMemory>
        requires served { (D.home desk.old).serves self.old.by.0 ≡ true }
        requires there { has_queue (D.home desk.old) asking.queue.0 ≡ true }
        requires permit { PermitFits B.table asking.call }
        ensures tries { IfOk result (TriesCall (D.home desk.old) self.old.by.0 step_number asking self.old self.new (D.view desk.old) (D.view desk.new)) }
        ensures home { D.home desk.new ≡ D.home desk.old }
    {
        let Asking { queue, call, homes } = asking;
        match desk.call(self.by, queue, step_number, call) {
            Ok(reply) => Ok(self.receive(desk, homes, reply)),
            Err(CallFault::NotYet(call)) => {
                self.take_back(homes, call);
                Ok(Tried::NotYet)
            }
            Err(CallFault::NoMemory(call)) => {
                drop(call);
                Err(NoMemory)
            }
        }
    }
}
