//! The compositor's side of the queue: it takes transactions out at its vsyncs, numbers them, and
//! takes the rest once all threads are joined.
ghost use Rattle.std.specs.Prelude.{◌≡◌, ◌<◌, ◌≤◌, ◌+◌, ◌++◌, true, false, [], length, IfOk, IfErr, OnOk, OnErr, None, Contains};
ghost use Rattle.std.specs.List.{All};
ghost use Rattle.sf_intake.specs.Passes.{IsPassOf, known};
ghost use Rattle.sf_intake.specs.Posts.{Begins, newest_of};
ghost use Rattle.sf_intake.specs.Rule.{giving, given, opened};
ghost use Rattle.sf_intake.specs.Views.{AreSenders, FoundEmpty, HasAllHeard, HasFinished, HasHanded, HasHeard, HasPopped, HasTaken, HasTakenRest};
ghost use Rattle.sf_intake.specs.Views.{IsBeginningOf, IsSameTaker, first_taker, hearing_of, making, new_sender};

use crate::intake::{Intake, IntakePass};
use crate::naming::SenderNumber;
use crate::posted::Posted;
use crate::sender::Sender;
use sf_base::{ActorId, NoMemory};
use sf_token::{Arrived, Lease, LeaseHome};
use std::alloc::Global;
use std::marker::{Brand, Model, PhantomData};
use std::mem;
use std::sync::Wait;

/// How many transactions one call takes at most.
const MOST_TAKEN: usize = 4096;

/// The one right to take transactions out of an intake, in the one order of their arrival. Contracts
/// see which intake it is, the numbers of the senders that it made, what it took so far, what of that
/// it gave and what it did not give yet, and how many of its pops found the queue empty.
pub struct Taker<L: Lease, N: LeaseHome<L>> {
    pass: IntakePass<L>,
    alloc: Global,
    // The number of the last transaction that was taken.
    last: u32,
    // What was taken and not given yet.
    waiting: Vec<Arrived<L>>,
    // The greatest stamp of what was taken, 0 where nothing was.
    newest: u64,
    // How many pops found the queue empty.
    empties: u64,
    home: PhantomData<N>,
}

impl<L: Lease, N: LeaseHome<L>> Model for Taker<L, N> {
    ghost use Rattle.std.specs.Prelude.{◌≡◌, true, None};
    ghost use Rattle.sf_intake.specs.Passes.{known};
    ghost use Rattle.sf_intake.specs.Posts.{newest_of};
    ghost use Rattle.sf_intake.specs.Views.{TakerView, taker_view, IsTaker};

    ghost Value = { TakerView L };

    ghost view = { λ t. taker_view t.pass.web (known t.pass) t.waiting.items t.empties };

    ghost invariant = { λ t. IsTaker N.holds (known t.pass) t.waiting.items t.last
        × (t.newest ≡ newest_of (known t.pass).taken)
        × (t.pass.me.hand ≡ None) × (t.pass.me.spare ≡ None) };
}

impl<L: Lease, N: LeaseHome<L>> Taker<L, N> {
    /// The taker of a pass as it is opened.
    pub(crate) fn of(alloc: Global, pass: IntakePass<L>) -> Taker<L, N>
        requires opened { known pass ≡ opened }
        requires idle { (pass.me.hand ≡ None) × (pass.me.spare ≡ None) }
        ensures { result ≡ first_taker pass.web }
    {
        Taker {
            pass,
            alloc,
            last: 0,
            waiting: Vec::new(alloc),
            newest: 0,
            empties: 0,
            home: PhantomData,
        }
    }
}

impl<L: Lease + Drop, N: LeaseHome<L>> Taker<L, N> {
    /// The right of another client to send. No other sender has its number, and fewer than 64 senders
    /// were made. It takes no memory.
    pub fn sender(&mut self, intake: &Intake<L, N>, by: ActorId) -> Result<Sender<L>, NoMemory>
        requires own { self.old.intake ≡ intake.now }
        requires fresh { Contains self.old.made by.0 → ⊥ }
        requires few { length self.old.made < 64 }
        ensures kept { OnOk result (self.new ≡ making by self.old) }
        ensures given { IfOk result (λ sender. sender ≡ new_sender intake.now by) }
        ensures err { OnErr result (self.new ≡ self.old) }
    {
        let pass = split_for::<L, N, Brand>(intake, &mut self.pass, by);
        Ok(Sender {
            pass,
            actor: by,
            stamp: 0,
        })
    }

    /// The greatest stamp that what was taken carries, 0 where nothing was taken: who does what follows
    /// from the transactions taken under a greater stamp does it behind all that their senders did before.
    pub fn newest(&self) -> u64
        ensures { result ≡ newest_of self.now.taken }
    {
        self.newest
    }

    /// The taker hears what a sender sent so far: whatever it takes until a pop finds the queue empty has
    /// all of that. It takes no memory.
    pub fn hear(&mut self, intake: &Intake<L, N>, sender: &mut Sender<L>)
        requires own { self.old.intake ≡ intake.now }
        requires theirs { sender.old.intake ≡ intake.now }
        ensures heard { self.new ≡ hearing_of sender.old self.old }
        ensures same { sender.new ≡ sender.old }
    {
        intake.hear(&mut self.pass, &mut sender.pass);
    }

    /// Nothing is done but a look at the queue. It shows that of what was taken, this sender's is
    /// what it sent first, in its order, each once.
    pub fn compare<R: Wait>(&mut self, intake: &Intake<L, N>, rt: &R, sender: &mut Sender<L>)
        requires own { self.old.intake ≡ intake.now }
        requires theirs { sender.old.intake ≡ intake.now }
        ensures taker { self.new ≡ self.old }
        ensures sender { sender.new ≡ sender.old }
        ensures begins { IsBeginningOf sender.old self.old.taken }
    {
        intake.compare(rt, &mut self.pass, &mut sender.pass);
    }

    /// Takes one transaction, which waits then. False is only answered where a pop of this call found
    /// the queue empty.
    fn pull<R: Wait>(&mut self, intake: &Intake<L, N>, rt: &R) -> Result<bool, NoMemory>
        requires own { self.old.intake ≡ intake.now }
        ensures popped { HasPopped self.old self.new }
        ensures one { IfOk result (λ more. more ≡ true → length self.new.waiting ≡ length self.old.waiting + 1) }
        ensures dry { IfOk result (λ more. more ≡ false → FoundEmpty self.old self.new) }
        ensures none { IfOk result (λ more. more ≡ false → self.new.waiting ≡ self.old.waiting) }
        ensures err { OnErr result (self.new ≡ self.old) }
    {
        if self.waiting.reserve(1).is_err() {
            return Err(NoMemory);
        }
        match intake.pop(rt, &mut self.pass) {
            Some(post) => {
                let Posted {
                    actor,
                    step,
                    stamp,
                    txn,
                } = post;
                self.newest = self.newest.max(stamp);
                self.last += 1;
                let number = self.last;
                self.waiting.push_reserved(Arrived {
                    number,
                    actor,
                    step,
                    txn,
                });
                Ok(true)
            }
            None => {
                self.empties = self.empties.saturating_add(1);
                Ok(false)
            }
        }
    }
}

impl<L: Lease + Drop, N: LeaseHome<L>> Taker<L, N> {
    /// Takes until as many wait as one call gives, or a pop found the queue empty.
    fn fill<R: Wait>(&mut self, intake: &Intake<L, N>, rt: &R) -> Result<(), NoMemory>
        requires own { self.old.intake ≡ intake.now }
        ensures popped { HasPopped self.old self.new }
        ensures dry { OnOk result (length self.new.waiting < 4096 → FoundEmpty self.old self.new) }
    {
        for i in self.waiting.len()..MOST_TAKEN {
            let _ = i;
            if !self.pull(intake, rt)? {
                return Ok(());
            }
        }
        Ok(())
    }

    /// Gives all that waits, in the order in which it was taken.
    fn give_rest(&mut self) -> Vec<Arrived<L>>
        ensures handed { HasHanded N.holds self.old self.new result.items }
        ensures none { self.new.waiting ≡ [] }
        ensures theirs { All (λ arrived. Contains self.old.made arrived.actor.0) (self.old.given ++ result.items) }
    {
        mem::replace(&mut self.waiting, Vec::new(self.alloc))
    }

    /// Gives what waits, at most so many, in the order in which it was taken.
    fn hand_over(&mut self) -> Result<Vec<Arrived<L>>, NoMemory>
        ensures ok { IfOk result (λ list. HasHanded N.holds self.old self.new list.items) }
        ensures few { IfOk result (λ list. length list.items ≤ 4096) }
        ensures short { IfOk result (λ list. length list.items < 4096 → self.new.waiting ≡ []) }
        ensures err { OnErr result (self.new ≡ self.old) }
    {
        if self.waiting.len() <= MOST_TAKEN {
            return Ok(self.give_rest());
        }
        match self.waiting.split_off(MOST_TAKEN) {
            Ok(rest) => Ok(mem::replace(&mut self.waiting, rest)),
            Err(_) => Err(NoMemory),
        }
    }

    /// The transactions that arrived since the last call, at most 4,096, numbered on from the last one.
    /// What was taken before a refusal stands first. There are fewer only where a pop of this call found
    /// the queue empty. Out of memory keeps what was taken for the next answer.
    pub fn take<R: Wait>(
        &mut self,
        intake: &Intake<L, N>,
        rt: &R,
    ) -> Result<Vec<Arrived<L>>, NoMemory>
        requires own { self.old.intake ≡ intake.now }
        ensures ok { IfOk result (λ list. HasTaken N.holds self.old self.new list.items) }
        ensures short { IfOk result (λ list. length list.items < 4096 → self.new.waiting ≡ []) }
        ensures err { OnErr result (HasPopped self.old self.new) }
    {
        self.fill(intake, rt)?;
        let list = self.hand_over()?;
        Ok(list)
    }

    /// Takes until a pop finds the queue empty.
    fn drain<R: Wait>(&mut self, intake: &Intake<L, N>, rt: &R) -> Result<(), NoMemory>
        requires own { self.old.intake ≡ intake.now }
        ensures popped { HasPopped self.old self.new }
        ensures dry { OnOk result (HasAllHeard self.new) }
    {
        for _ in rt.forever() {
            if !self.pull(intake, rt)? {
                return Ok(());
            }
        }
        unreachable!()
    }

    /// The taker hears what each of these senders sent.
    fn hear_each(&mut self, intake: &Intake<L, N>, senders: &mut [Sender<L>])
        requires own { self.old.intake ≡ intake.now }
        requires theirs { All (λ sender. sender.intake ≡ intake.now) senders.old }
        ensures same { HasHeard self.old self.new }
        ensures senders { senders.new ≡ senders.old }
        ensures heard { All (λ sender. Contains self.new.heard (sender.by.0, sender.sent)) senders.old }
    {
        for i in 0..senders.len() {
            self.hear(intake, &mut senders[i]);
        }
    }

    /// Shows for each of these senders that of what was taken, its own is what it sent first.
    fn compare_each<R: Wait>(&mut self, intake: &Intake<L, N>, rt: &R, senders: &mut [Sender<L>])
        requires own { self.old.intake ≡ intake.now }
        requires theirs { All (λ sender. sender.intake ≡ intake.now) senders.old }
        ensures same { self.new ≡ self.old }
        ensures senders { senders.new ≡ senders.old }
        ensures begins { All (λ sender. IsBeginningOf sender self.old.taken) senders.old }
    {
        for i in 0..senders.len() {
            self.compare(intake, rt, &mut senders[i]);
        }
    }

    /// Takes the rest, once all has been sent: these are all the senders. What was given before and this
    /// list have of each sender exactly what it sent, in its order, each once, and nothing waits then.
    /// Intake, taker and senders stay, so more can be sent and taken. Out of memory gives nothing, and
    /// keeps what was taken for the next answer.
    pub fn take_rest<R: Wait>(
        &mut self,
        intake: &Intake<L, N>,
        rt: &R,
        senders: &mut [Sender<L>],
    ) -> Result<Vec<Arrived<L>>, NoMemory>
        requires own { self.old.intake ≡ intake.now }
        requires senders { AreSenders self.old senders.old }
        ensures ok { IfOk result (λ list. HasTakenRest N.holds self.old self.new senders.old list.items) }
        ensures senders { senders.new ≡ senders.old }
        ensures err { OnErr result (IsSameTaker self.old self.new × Begins self.old.taken self.new.taken
            × Begins self.old.waiting self.new.waiting) }
    {
        self.hear_each(intake, senders);
        self.drain(intake, rt)?;
        self.compare_each(intake, rt, senders);
        Ok(self.give_rest())
    }

    /// Takes the rest, once all has been sent: these are all the senders. What was given before and this
    /// list have of each sender exactly what it sent, in its order, each once. Out of memory hands
    /// everything back, with what was taken for the next answer.
    pub fn finish<R: Wait>(
        self,
        intake: Intake<L, N>,
        rt: &R,
        senders: Vec<Sender<L>>,
    ) -> Result<Vec<Arrived<L>>, (NoMemory, Taker<L, N>, Intake<L, N>, Vec<Sender<L>>)>
        requires own { self.intake ≡ intake }
        requires senders { AreSenders self senders.items }
        ensures ok { IfOk result (λ list. HasFinished N.holds self senders.items list.items) }
        ensures err { IfErr result (λ back. IsSameTaker self back.1 × Begins self.waiting back.1.waiting
            × (back.2 ≡ intake) × (back.3.items ≡ senders.items)) }
    {
        let mut taker = self;
        let mut senders = senders;
        match taker.take_rest(&intake, rt, &mut senders) {
            Ok(rest) => Ok(rest),
            Err(_) => Err((NoMemory, taker, intake, senders)),
        }
    }
}

impl<L: Lease + Drop, N: LeaseHome<L>> Drop for Taker<L, N> {
    fn drop(self) {
        let Taker {
            pass: _,
            alloc: _,
            last: _,
            waiting: _,
            newest: _,
            empties: _,
            home: _,
        } = self;
    }
}

/// A pass for the sender of this number, which the type `S` names.
fn split_for<L: Lease + Drop, N: LeaseHome<L>, S: SenderNumber>(
    intake: &Intake<L, N>,
    taker: &mut IntakePass<L>,
    by: ActorId,
) -> IntakePass<L>
    requires named { by.0 ≡ S.number }
    requires own { IsPassOf intake.now taker.old }
    requires role { (known taker.old).is_taker ≡ true }
    requires fresh { Contains (known taker.old).made by.0 → ⊥ }
    ensures own { IsPassOf intake.now taker.new × IsPassOf intake.now result }
    ensures made { known taker.new ≡ giving by.0 (known taker.old) }
    ensures given { known result ≡ given by.0 }
{
    let _ = by;
    intake.make::<S>(taker)
}
