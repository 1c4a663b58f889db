//! A law that says which draw an earlier turn belongs to, called for its clauses alone.
ghost use Rattle.std.specs.Prelude.{Contains};
ghost use Rattle.sf_actor_set.specs.sf_actor.Tries.{ActorOf};
ghost use Rattle.law_rights.specs.RunNow.{LookedRun, SeesOlder, at_now};

use sf_actor_set::TableName;

/// Where a ledger stands, and makers determine the turns at buffers, an earlier turn that has not
/// left is that of an older draw that is owed.
pub fn an_earlier_turn_is_an_older_draw<B: TableName>()
    ensures { (looked : LookedRun B) (of : ActorOf B) → Contains (at_now looked.known).ofs of → SeesOlder looked of }
{}
