//! What can lie under a lock: an object whose calls have a history. Queues and arrivals are such
//! objects.
ghost use Rattle.std.specs.Prelude.{◌≡◌, ℕ, List};
ghost use Rattle.sf_calls.specs.declared.object.Answer.{Answer};
ghost use Rattle.sf_calls.specs.declared.object.Entry.{Entry};
ghost use Rattle.sf_calls.specs.Histories.{IsDone, IsLegal, waits};
ghost use Rattle.sf_calls.specs.Outcomes.{IfDone, IfNotYet, IfNoMemory};

/// A call in an object's history: its caller's number, and what the history keeps of the call
/// and of its reply.
#[derive(Clone, Copy, Drop)]
pub struct Entry<C, R> {
    pub by: u32,
    pub call: C,
    pub reply: R,
}

/// What the object of one thread answers to a call. It exists in proofs alone: no value of it is
/// made.
pub enum Answer<R> {
    /// It is done, with this reply.
    Replies(R),
    /// It is not time for the call yet.
    Waits,
}

/// What a call did to the object.
#[derive(Drop)]
pub enum Outcome<C, R> {
    /// It is done: the history has one more entry.
    Done(R),
    /// It is not time for the call yet. Nothing changed, and the call comes back.
    NotYet(C),
    /// Out of memory. Nothing changed, and the call comes back.
    NoMemory(C),
}

/// What lies under a lock: a state with the history of the calls that made it. The types and
/// meanings here are what the lock's promises speak of, for any object.
pub trait Object: Sized {
    type Call;

    type Reply;
    /// What the history keeps of a call.
    type PlainCall;
    /// What the history keeps of a reply.
    type PlainReply;
    /// What `new` fixed for good, and which tokens a call may bring.
    type Mark;

    // The calls that were done, the newest first.
    ghost history: { Self → List (Entry Self.PlainCall Self.PlainReply) };

    ghost mark: { Self → Self.Mark };

    ghost plain_call: { Self.Call → Self.PlainCall };

    ghost plain_reply: { Self.Reply → Self.PlainReply };

    // The tokens that a call brings, and those that a reply brings, are ones of the mark.
    ghost call_fits: { Self.Mark → Self.Call → Type 0 };

    ghost reply_fits: { Self.Mark → Self.Reply → Type 0 };

    // What the object of one thread answers to a caller's call after a history.
    ghost answers: { Self.Mark → List (Entry Self.PlainCall Self.PlainReply) → ℕ → Self.PlainCall → Answer Self.PlainReply → Type 0 };

    /// States that each reply in the history is what the object of one thread answers after the
    /// calls before it. It does nothing: an object keeps this of itself.
    fn legal(&self)
        ensures { IsLegal (answers (mark self.now)) (history self.now) };

    /// Applies a caller's call, as the only thread that has the object. Where it is not done, the
    /// object is as it was, and the call comes back.
    fn apply(&mut self, by: u32, call: Self::Call) -> Outcome<Self::Call, Self::Reply>
        requires { call_fits (mark self.old) call }
        ensures mark { mark self.new ≡ mark self.old }
        ensures done { IfDone result (λ r. IsDone (answers (mark self.old)) (reply_fits (mark self.old) r)
            by (plain_call call) (plain_reply r) (history self.old) (history self.new)) }
        ensures not_yet { IfNotYet result (λ back. (self.new ≡ self.old) × (back ≡ call)
            × answers (mark self.old) (history self.old) by (plain_call call) waits) }
        ensures no_memory { IfNoMemory result (λ back. (self.new ≡ self.old) × (back ≡ call)) };
}
