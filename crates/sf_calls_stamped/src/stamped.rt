//! An object that stamps its calls: whatever lies under a lock in a live run, so that the calls of
//! all objects have one order.
use sf_calls::{Object, Outcome};
use std::alloc::Global;
use std::marker::Model;
use std::snapshot::Snapshot;

/// The stamps of one call, for proofs alone: they take no room.
pub(crate) struct Pair {
    pub(crate) brought: Snapshot<u64>,
    pub(crate) given: Snapshot<u64>,
}

/// An object that stamps its calls. Each call brings its caller's stamp; the reply gives the call's
/// own, one more than the greater of that and the stamp of the newest call before it.
pub struct Stamped<O: Object> {
    object: O,
    // The stamp of the newest call, 0 where there is none.
    newest: u64,
    // In the order of the calls.
    stamps: Vec<Pair>,
}

impl<O: Object> Model for Stamped<O> {
    ghost use Rattle.std.specs.Prelude.{map, reverse};
    ghost use Rattle.sf_calls_stamped.specs.Objects.{IsKept, StampedOf, pair_of};

    ghost Value = { StampedOf O };

    ghost view = { λ s. record { object = s.object; stamps = reverse (map pair_of s.stamps.items) } };

    ghost invariant = { λ s. IsKept s.newest (reverse (map pair_of s.stamps.items)) (O.history s.object) };
}

impl<O: Object> Stamped<O> {
    ghost use Rattle.std.specs.Prelude.{◌≡◌, []};
    ghost use Rattle.sf_calls_stamped.specs.Stamps.{unstamped};
    ghost use Rattle.sf_calls_stamped.specs.Objects.{history_of};

    /// An object without calls, whose first call has a stamp above 0.
    pub fn new(alloc: Global, object: O) -> Stamped<O>
        requires { O.history object ≡ [] }
        ensures { result ≡ record { object = object; stamps = [] } }
    {
        Stamped {
            object,
            newest: 0,
            stamps: Vec::new(alloc),
        }
    }

    /// The object, whose history is this one's without the stamps.
    pub fn into_object(self) -> O
        ensures object { result ≡ self.object }
        ensures history { O.history result ≡ unstamped (history_of O.history self) }
    {
        let Stamped {
            object,
            newest: _,
            stamps: _,
        } = self;
        object
    }
}

impl<O: Object> Object for Stamped<O> {
    ghost use Rattle.std.specs.Prelude.{◌≡◌};
    ghost use Rattle.sf_calls_stamped.specs.Stamps.{AnswersStamped};
    ghost use Rattle.sf_calls_stamped.specs.Objects.{history_of};

    type Call = (u64, O::Call);

    type Reply = (u64, O::Reply);

    type PlainCall = (u64, O::PlainCall);

    type PlainReply = (u64, O::PlainReply);

    type Mark = O::Mark;

    ghost history = { history_of O.history };

    ghost mark = { λ s. O.mark s.object };

    ghost plain_call = { λ call. (call.0, O.plain_call call.1) };

    ghost plain_reply = { λ reply. (reply.0, O.plain_reply reply.1) };

    ghost call_fits = { λ m call. O.call_fits m call.1 };

    ghost reply_fits = { λ m reply. O.reply_fits m reply.1 };

    ghost answers = { λ m. AnswersStamped (O.answers m) };

    fn legal(&self) {
        self.object.legal();
    }

    /// Makes a call, and stamps it. Where the greatest stamp is reached, the call comes back as for
    /// out of memory.
    fn apply(&mut self, by: u32, call: (u64, O::Call)) -> Outcome<(u64, O::Call), (u64, O::Reply)> {
        let (brought, asked) = call;
        let before = brought.max(self.newest);
        if before == u64::MAX || self.stamps.reserve(1).is_err() {
            return Outcome::NoMemory((brought, asked));
        }
        let given = before + 1;
        match self.object.apply(by, asked) {
            Outcome::Done(reply) => {
                self.newest = given;
                self.stamps.push_reserved(Pair {
                    brought: Snapshot::of(&brought),
                    given: Snapshot::of(&given),
                });
                Outcome::Done((given, reply))
            }
            Outcome::NotYet(asked) => Outcome::NotYet((brought, asked)),
            Outcome::NoMemory(asked) => Outcome::NoMemory((brought, asked)),
        }
    }
}

impl<O: Object + Drop> Drop for Stamped<O> {
    fn drop(self) {
        let Stamped {
            object: _,
            newest: _,
            stamps: _,
        } = self;
    }
}

impl Drop for Pair {
    fn drop(self) {
        let Pair {
            brought: _,
            given: _,
        } = self;
    }
}
