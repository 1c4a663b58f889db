//! How a live run begins: the scene's actors, its queues, arrivals and timelines under locks, and
//! the first seats, which are the compositor's.
ghost use Rattle.std.specs.Prelude.{◌≡◌, ◌≤◌, All, true, [], IfOk};
ghost use Rattle.sf_script_scene.specs.declared.step.ActorScript.{ActorScript as ScriptValue};
ghost use Rattle.sf_turns.specs.Counts.{range};
ghost use Rattle.sf_live_compositor.specs.sf_actor_set.Scripts.{AreOfScene, permits_of};
ghost use Rattle.sf_live_compositor.specs.sf_live_seats.Seats.{tells_of};
ghost use Rattle.sf_live.specs.Openings.{IsOpen, MayStart};

use sf_base::{Items, NoMemory};
use sf_live_compositor::{Actor, ActorSet, FirstSeats, Locks};
use sf_picture::{Painted, Picture};
use sf_script_scene::{ActorScript, QueueDecl};
use sf_turns::{Stock, TableName, TurnSeat};
use std::alloc::Global;

/// A scene before anything was done: its pictures, its actors by rising number, what they are to
/// share, and the first seats, which are the compositor's.
#[derive(Drop)]
pub struct Opened<B: TableName> {
    pub pictures: Items<Picture>,
    pub actors: Vec<Actor<B>>,
    pub locks: Locks<B>,
    pub first: FirstSeats<B>,
}

/// The first seat at a table of turns, and its whole stock.
#[derive(Drop)]
pub struct Turns {
    pub seat: TurnSeat<Painted>,
    pub stock: Stock<Painted>,
}

/// Opens a scene's actors and queues. It takes the seat and the whole stock of the turns, with a
/// permit for each dequeue. Senders learn their places, or send through an intake.
pub fn open<B: TableName>(
    alloc: Global,
    queues: &[QueueDecl],
    pictures: Items<Picture>,
    scripts: Items<ActorScript>,
    turns: Turns,
    tells: bool,
) -> Result<Opened<B>, NoMemory>
    requires scene { AreOfScene queues.now pictures scripts }
    requires numbers { All (λ (script : ScriptValue). script.number ≤ 64) scripts }
    requires own { (turns.seat.table ≡ B.table) × (turns.stock.table ≡ B.table) }
    requires first { (turns.seat.is_first ≡ true) × (turns.seat.out ≡ 0) }
    requires whole { turns.stock.buffers ≡ range 0 (permits_of scripts) }
    ensures opens { (of : AreOfScene queues.now pictures scripts) → turns.seat.leaves ≡ [] → permits_of scripts ≤ B.table.slots → IfOk result (IsOpen of.scene B.table) }
    ensures may { IfOk result (MayStart B.table) }
    ensures told { IfOk result (λ opened. tells_of opened.locks ≡ tells) }
{
    let Turns { seat, stock } = turns;
    let actor_set = ActorSet::new(alloc, queues, pictures, scripts, seat, stock)?;
    let (pictures, actors, desk) = actor_set.into_parts();
    let (locks, first) = Locks::open(alloc, desk, tells)?;
    Ok(Opened {
        pictures,
        actors,
        locks,
        first,
    })
}
