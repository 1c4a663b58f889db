//! One order of all calls, arrivals and vsyncs of a run, said over its records alone, and what it
//! refuses: calls in a circle, and a release before what was called to get its frame.
#![tactic(auto)]

ghost use Rattle.std.specs.Prelude.{Bool};
ghost use Rattle.law_order.specs.Crossings.{crossed, released_first};
ghost use Rattle.law_order.specs.Order.{Happened, InOneOrder};
ghost use Rattle.law_order.specs.Refused.{HasCircle, HasEarlyRelease};

/// The calls of two actors stand in no circle: where an actor calls on a first queue and in a later
/// step on a second one, and another on the second and in a later step on the first, then not both
/// later calls stand before the other's first one. So no order explains the example.
pub fn calls_stand_in_no_circle()
    ensures circle { (tells : Bool) (all : Happened) → HasCircle all → InOneOrder tells all → ⊥ }
    ensures example { (tells : Bool) → InOneOrder tells crossed → ⊥ }
{}

/// A release of a vsync stands behind all that an actor called before it sent what this vsync or
/// one before it committed: so behind the calls that queued the frame and acquired it, and no order
/// explains the example.
pub fn releases_follow_calls()
    ensures release { (tells : Bool) (all : Happened) → HasEarlyRelease all → InOneOrder tells all → ⊥ }
    ensures example { (tells : Bool) → InOneOrder tells released_first → ⊥ }
{}
