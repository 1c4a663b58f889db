//! The table of turns that a run takes place over, with a permit for each dequeue of its scene.
ghost use Rattle.std.specs.Prelude.{◌≡◌, ◌≤◌, true, [], IfOk};
ghost use Rattle.sf_live.specs.sf_actor_set.Scripts.{permits_of};
ghost use Rattle.sf_turns.specs.Counts.{range};

use sf_base::NoMemory;
use sf_live::permits_for;
use sf_script_scene::Scene;
use sf_script_scene::sf_picture::Painted;
use sf_turns::{Stock, TurnSeat, open_turns};
use std::alloc::Global;

/// Opens the table of turns of a scene: its first seat, and the stock of its permits.
pub fn turns_for(
    alloc: Global,
    scene: &Scene,
) -> Result<(TurnSeat<Painted>, Stock<Painted>), NoMemory>
    ensures table { IfOk result (λ r. r.1.table ≡ r.0.table) }
    ensures first { IfOk result (λ r. (r.0.is_first ≡ true) × (r.0.out ≡ 0) × (r.0.leaves ≡ []) × (r.0.seen ≡ [])) }
    ensures whole { IfOk result (λ r. r.1.buffers ≡ range 0 (permits_of scene.now.actors)) }
    ensures sized { IfOk result (λ r. permits_of scene.now.actors ≤ r.0.table.slots) }
{
    // No scene comes to more permits than a number has: 64 actors have at most 4,096 steps each.
    let permits = permits_for(scene.actors.as_slice()).ok_or(NoMemory)?;
    open_turns::<Painted>(alloc, permits)
}
