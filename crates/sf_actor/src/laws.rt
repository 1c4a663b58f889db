//! Laws about actors and their traces, called for their clauses alone.
ghost use Rattle.std.specs.Prelude.{ℕ};
ghost use Rattle.sf_actor.specs.Keeping.{KeepsTraces};
ghost use Rattle.sf_actor.specs.Known.{GoesOn, Known, share_of};
ghost use Rattle.sf_actor.specs.Tries.{ActorOf, KeepsActor};

use sf_surface::TableName;

/// What an actor's trace keeps stays true where the histories go on without an entry of it, where
/// values rise, and where signals and turns left are added.
pub fn a_trace_keeps_what_it_keeps<B: TableName>()
    ensures { (actor : ℕ) (old new : Known B) → GoesOn actor old new → KeepsTraces (share_of actor old) (share_of actor new) }
{}

/// All that an actor keeps stays true so: beside what its trace keeps also what it has, with its
/// rights and permits.
pub fn an_actor_keeps_what_it_keeps<B: TableName>()
    ensures { (actor : ActorOf B) (old new : Known B) → GoesOn actor.script.number old new → KeepsActor actor old new }
{}
