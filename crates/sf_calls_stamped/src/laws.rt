//! Laws about histories whose calls have stamps, called for their clauses alone: stamps rise along
//! a history.
ghost use Rattle.std.specs.Prelude.{ℕ, List};
ghost use Rattle.sf_calls.specs.declared.object.Entry.{Entry};
ghost use Rattle.sf_calls_stamped.specs.Stamps.{IsLegalInTurn, IsLegalStamped, StampsRise};

use sf_calls::Object;

/// Along a legal history stamps rise, and each call's is above the one that it brought.
pub fn stamps_rise<O: Object>()
    ensures { (mark : O.Mark) (calls : List (Entry (ℕ × O.PlainCall) (ℕ × O.PlainReply)))
        → IsLegalStamped (O.answers mark) calls → StampsRise calls }
{}

/// A history is legal where it is so without its stamps and each call has the stamp that comes
/// next, and only there.
pub fn legal<O: Object>()
    ensures without { (mark : O.Mark) (calls : List (Entry (ℕ × O.PlainCall) (ℕ × O.PlainReply)))
        → IsLegalStamped (O.answers mark) calls → IsLegalInTurn (O.answers mark) calls }
    ensures back { (mark : O.Mark) (calls : List (Entry (ℕ × O.PlainCall) (ℕ × O.PlainReply)))
        → IsLegalInTurn (O.answers mark) calls → IsLegalStamped (O.answers mark) calls }
{}
