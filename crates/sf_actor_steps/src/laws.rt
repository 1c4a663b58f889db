//! A law about an actor that has done nothing, called for its clauses alone.
ghost use Rattle.std.specs.Prelude.{ℕ};
ghost use Rattle.sf_actor.specs.sf_picture.declared.picture.Picture.{Picture};
ghost use Rattle.sf_actor.specs.Desks.{DeskHome, DeskView};
ghost use Rattle.sf_actor.specs.Tries.{ActorOf, Keeps};
ghost use Rattle.sf_actor_steps.specs.Actors.{IsNewActor};

use sf_actor::TableName;

/// An actor that has done nothing keeps what it keeps, over a desk that knows no call and no arrival
/// of it, where it has enough permits for the dequeues of its script, each once.
pub fn a_new_actor_keeps_what_it_keeps<B: TableName>()
    ensures { (pictures : ℕ → Picture) (home : DeskHome) (view : DeskView B) (actor : ActorOf B)
        → IsNewActor home view actor → Keeps pictures home actor view }
{}
