//! A law that the events of all callers can be done in one order.
ghost use Rattle.law_threads.specs.Orders.{Order};
ghost use Rattle.law_threads.specs.Callers.{StampedCalls};

/// Where stamps rise along each lock and along what each caller has yet to do, all events can be done
/// in one order, in which each call is the next one on its lock.
pub fn calls_come_in_one_order()
    ensures { (calls : StampedCalls) → Order (λ spot. spot) calls.many calls.heights calls.rest }
{}
