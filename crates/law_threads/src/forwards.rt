//! A law about transactions that arrive later than they were sent.
ghost use Rattle.std.specs.Prelude.{◌≡◌, ◌<◌};
ghost use Rattle.law_threads.specs.Cuts.{HasLedger, IsPart, now, with_sent};
ghost use Rattle.law_threads.specs.Callers.{LateArrival, with_arrival};

use sf_turns::TableName;

/// What a caller sent may be put among the arrivals later on.
pub fn what_was_sent_may_arrive_later<B: TableName>()
    ensures sent { (late : LateArrival B) → now (with_arrival late) late.last ≡ with_sent late.one (now late.rest late.last) }
    ensures part { (late : LateArrival B) → IsPart late.whole HasLedger (with_arrival late) late.last }
{}
