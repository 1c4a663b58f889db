//! An actor with the steps of its script: a player or a thread tries the next one here, again and
//! again until it is done.
use crate::bindings::Bindings;
use crate::tried::{Tried, reply_to};
use sf_actor::{
    ActorScript, Desk, Painted, Picture, Reply, Step, Stepped, Stock, TableName, TokensOf,
};
use sf_base::{ActorId, NoMemory};
use std::alloc::Global;

/// An actor: the steps of its script, of which the first are done, with its replies.
pub struct Actor<B: TableName> {
    script: ActorScript,
    bindings: Bindings<B>,
    replies: Vec<Reply>,
    /// Whether it found no memory, after which it does no more steps.
    is_spent: bool,
}

impl<B: TableName> Bindings<B> {
    ghost use Rattle.std.specs.Prelude.{◌≡◌, true, None, IfOk};
    ghost use Rattle.sf_actor.specs.sf_script_scene.Named.{KnowsPicture};
    ghost use Rattle.sf_actor.specs.Scripts.{picture_at};
    ghost use Rattle.sf_actor.specs.Tests.{refusal_of};
    ghost use Rattle.sf_actor_steps.specs.Acting.{AttemptsStep, MayAct};
    ghost use Rattle.sf_actor_steps.specs.Bindings.{holdings_of};

    /// Tries a step: its own tests come first.
    fn attempt<D: Desk<TokensOf<B>>>(
        &mut self,
        desk: &mut D,
        pictures: &[Picture],
        step_number: u32,
        step: &Step,
    ) -> Result<Tried, NoMemory>
        requires served { (D.home desk.old).serves self.old.by.0 ≡ true }
        requires known { KnowsPicture pictures.now step.now }
        requires may { refusal_of (picture_at pictures.now) (holdings_of self.old) step.now ≡ None
            → MayAct (picture_at pictures.now) B.table (D.home desk.old) step.now self.old }
        ensures attempts { IfOk result (AttemptsStep (picture_at pictures.now) (D.home desk.old) step_number step.now
            self.old self.new (D.view desk.old) (D.view desk.new)) }
        ensures home { D.home desk.new ≡ D.home desk.old }
    {
        match self.refusal(pictures, step) {
            Some(status) => Ok(Tried::Own(status)),
            None => self.act(desk, pictures, step_number, step),
        }
    }
}

impl<B: TableName> Actor<B> {
    ghost use Rattle.std.specs.Prelude.{◌≡◌, false, true, nat_le, length, IfOk, IfErr, IsErr};
    ghost use Rattle.sf_actor.specs.Scripts.{picture_at};
    ghost use Rattle.sf_actor_steps.specs.Actors.{IsActor, IsKept, TriesToStep, new_actor};
    ghost use Rattle.sf_actor_steps.specs.Playable.{MayPlay};

    /// An actor that has done nothing. Out of memory hands script and stock back.
    pub fn new(
        alloc: Global,
        script: ActorScript,
        stock: Stock<Painted>,
    ) -> Result<Actor<B>, (NoMemory, ActorScript, Stock<Painted>)>
        requires { stock.table ≡ B.table }
        ensures actor { IfOk result (λ actor. IsActor B.table actor (new_actor script stock.buffers)) }
        ensures back { IfErr result (λ back. (back.1 ≡ script) × (back.2 ≡ stock)) }
    {
        match Bindings::new(alloc, ActorId(script.number), stock) {
            Ok(bindings) => Ok(Actor {
                script,
                bindings,
                replies: Vec::new(alloc),
                is_spent: false,
            }),
            Err((_, stock)) => Err((NoMemory, script, stock)),
        }
    }

    /// The replies of the steps that are done, in order.
    pub fn replies(&self) -> &[Reply]
        ensures { result.now ≡ self.now.replies.items }
    {
        &self.replies
    }

    /// The number of the actor.
    pub fn number(&self) -> u32
        ensures { result ≡ self.now.script.number }
    {
        self.script.number
    }

    /// Whether no step is left.
    pub fn is_ended(&self) -> bool
        ensures { result ≡ nat_le (length self.now.script.steps) (length self.now.replies.items) }
    {
        self.replies.len() >= self.script.steps.len()
    }

    /// Tries the next step. An actor that found no memory does no more steps.
    pub fn try_step<D: Desk<TokensOf<B>>>(
        &mut self,
        desk: &mut D,
        pictures: &[Picture],
    ) -> Result<Stepped, NoMemory>
        requires plays { MayPlay (D.home desk.old) pictures.now self.old.script }
        requires kept { self.old.is_spent ≡ false → IsKept B.table (picture_at pictures.now) (D.home desk.old) self.old (D.view desk.old) }
        ensures steps { TriesToStep B.table (picture_at pictures.now) (D.home desk.old) self.old (D.view desk.old)
            self.new (D.view desk.new) result }
        ensures spent { self.old.is_spent ≡ true → IsErr result }
        ensures no_memory { IfErr result (λ _. self.new.is_spent ≡ true) }
        ensures script { self.new.script ≡ self.old.script }
        ensures home { D.home desk.new ≡ D.home desk.old }
    {
        if self.is_spent {
            return Err(NoMemory);
        }
        let tried = self.go_on(desk, pictures);
        self.is_spent = tried.is_err();
        tried
    }

    /// Tries the next step. Memory for its reply is reserved before it makes a call.
    fn go_on<D: Desk<TokensOf<B>>>(
        &mut self,
        desk: &mut D,
        pictures: &[Picture],
    ) -> Result<Stepped, NoMemory>
        requires plays { MayPlay (D.home desk.old) pictures.now self.old.script }
        requires kept { IsKept B.table (picture_at pictures.now) (D.home desk.old) self.old (D.view desk.old) }
        ensures steps { TriesToStep B.table (picture_at pictures.now) (D.home desk.old) self.old (D.view desk.old)
            self.new (D.view desk.new) result }
        ensures spent { self.new.is_spent ≡ self.old.is_spent }
        ensures script { self.new.script ≡ self.old.script }
        ensures home { D.home desk.new ≡ D.home desk.old }
    {
        let done = self.replies.len();
        let Some(step) = self.script.steps.as_slice().get(done) else {
            return Ok(Stepped::Ended);
        };
        self.replies.reserve(1)?;
        let room = Vec::with_capacity(self.bindings.alloc, 1)?;
        let step_number = done as u32 + 1;
        let tried = self.bindings.attempt(desk, pictures, step_number, step)?;
        if !tried.is_done() {
            return Ok(Stepped::NotYet);
        }
        let reply = reply_to(self.script.number, step_number, tried, room);
        self.replies.push_reserved(reply);
        Ok(Stepped::Done)
    }
}

impl<B: TableName> Drop for Actor<B> {
    fn drop(self) {
        let Actor {
            script: _,
            bindings: _,
            replies: _,
            is_spent: _,
        } = self;
    }
}
