//! The step that puts a loose buffer into a queue, for its producer or its consumer.
use crate::asking::{Move, attach_call, joining};
use crate::bindings::Bindings;
use crate::tried::Tried;
use sf_actor::{Desk, TableName, TokensOf};
use sf_base::{NoMemory, QueueId};

impl<B: TableName> Bindings<B> {
    ghost use Rattle.std.specs.Prelude.{◌≡◌, true, IfOk};
    ghost use Rattle.sf_actor.specs.Desks.{has_queue};
    ghost use Rattle.sf_actor.specs.Names.{is_apart, name_in};
    ghost use Rattle.sf_actor_steps.specs.Doing.{Makes};
    ghost use Rattle.sf_actor_steps.specs.Forming.{attach_step};
    ghost use Rattle.sf_actor_steps.specs.Bindings.{holdings_of};

    /// Puts a loose buffer into a queue: held by its consumer, or lent to its producer.
    pub fn attach<D: Desk<TokensOf<B>>>(
        &mut self,
        desk: &mut D,
        step_number: u32,
        queue: u32,
        names: Move,
        reads: bool,
    ) -> Result<Tried, NoMemory>
        requires served { (D.home desk.old).serves self.old.by.0 ≡ true }
        requires there { has_queue (D.home desk.old) queue ≡ true }
        requires apart { is_apart (name_in (holdings_of self.old) names.from) ≡ true }
        ensures makes { IfOk result (Makes (D.home desk.old) step_number (attach_step reads queue names.from names.to) self.old self.new (D.view desk.old) (D.view desk.new)) }
        ensures home { D.home desk.new ≡ D.home desk.old }
    {
        let (last, loose) = self.take_free(names.from);
        let call = attach_call(loose, reads);
        let asking = joining(QueueId(queue), names.from, names.to, last, call);
        self.ask(desk, step_number, asking)
    }
}
