//! The arrivals of transactions as an object under a lock whose calls have stamps: what actors
//! send, and the compositor takes.
use sf_actor::ReadLease;
use sf_calls::{Object, Outcome};
use sf_calls_stamped::Stamped;
use sf_intake::{Arrivals, ArriveCall, ArriveReply};
use sf_turns::TableName;
use std::alloc::Global;
use std::marker::Brand;

/// The arrivals, which stamp their calls.
pub struct StampedArrivals<B: TableName> {
    pub(crate) of: Stamped<Arrivals<ReadLease<B>, Brand>>,
}

impl<B: TableName> StampedArrivals<B> {
    ghost use Rattle.std.specs.Prelude.{◌≡◌, []};
    ghost use Rattle.sf_calls_stamped.specs.Stamps.{unstamped};
    ghost use Rattle.sf_live_seats.specs.Arriving.{history_of};

    /// Arrivals where nothing arrived yet.
    pub fn new(alloc: Global, arrivals: Arrivals<ReadLease<B>, Brand>) -> StampedArrivals<B>
        requires { arrivals ≡ [] }
        ensures { history_of result ≡ [] }
    {
        StampedArrivals {
            of: Stamped::new(alloc, arrivals),
        }
    }

    /// The arrivals themselves.
    pub fn into_arrivals(self) -> Arrivals<ReadLease<B>, Brand>
        ensures { result ≡ unstamped (history_of self) }
    {
        let StampedArrivals { of } = self;
        of.into_object()
    }
}

impl<B: TableName> Object for StampedArrivals<B> {
    ghost use Rattle.sf_calls_stamped.specs.Stamps.{AnswersStamped};
    ghost use Rattle.sf_intake.specs.sf_token.Arrivals.{AnswersCall};
    ghost use Rattle.sf_live_seats.specs.Arriving.{history_of};

    type Call = (u64, ArriveCall<ReadLease<B>>);

    type Reply = (u64, ArriveReply<ReadLease<B>>);

    type PlainCall = (u64, ArriveCall<ReadLease<B>>);

    type PlainReply = (u64, ArriveReply<ReadLease<B>>);

    type Mark = ();

    ghost history = { history_of };

    ghost mark = { λ arrivals. tt };

    ghost plain_call = { λ call. call };

    ghost plain_reply = { λ reply. reply };

    ghost call_fits = { λ m call. Unit {0} };

    ghost reply_fits = { λ m reply. Unit {0} };

    ghost answers = { λ m. AnswersStamped AnswersCall };

    fn legal(&self) {
        self.of.legal();
    }

    fn apply(
        &mut self,
        by: u32,
        call: (u64, ArriveCall<ReadLease<B>>),
    ) -> Outcome<(u64, ArriveCall<ReadLease<B>>), (u64, ArriveReply<ReadLease<B>>)> {
        self.of.apply(by, call)
    }
}

impl<B: TableName> Drop for StampedArrivals<B> {
    fn drop(self) {
        let StampedArrivals { of } = self;
        let _arrivals = of.into_object();
    }
}
