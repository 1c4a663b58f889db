//! What the vsyncs of a run show: which outputs, and which timelines. It is read from the scene once,
//! before the first vsync, for a play and for a live run.
ghost use Rattle.std.specs.Prelude.{IfOk};
ghost use Rattle.sf_play.specs.sf_actor_set.Opening.{IsSortedFrom};

use sf_base::NoMemory;
use sf_play::{Plan, Scene, plan_of};
use std::alloc::Global;

/// What each vsync of a run shows.
#[derive(Drop)]
pub struct Shows {
    /// The displays, captures and hit tests that are asked for.
    pub plan: Plan,
    /// The declared timelines, by rising number.
    pub timelines: Vec<u32>,
}

/// Timelines by rising number.
fn rising_timelines(alloc: Global, timelines: &[u32]) -> Result<Vec<u32>, NoMemory>
    ensures { IfOk result (λ rising. IsSortedFrom (λ timeline. timeline) timelines.now rising.items) }
{
    let mut rising = Vec::new(alloc);
    rising.extend_from_slice(timelines)?;
    rising.sort_unstable();
    Ok(rising)
}

impl Shows {
    ghost use Rattle.std.specs.Prelude.{IfOk};
    ghost use Rattle.sf_play_write.specs.Showing.{IsOfScene};

    /// What the vsyncs of a scene show.
    pub fn of_scene(alloc: Global, scene: &Scene) -> Result<Shows, NoMemory>
        ensures { IfOk result (IsOfScene scene.now) }
    {
        let plan = plan_of(alloc, scene)?;
        let timelines = rising_timelines(alloc, scene.timelines.as_slice())?;
        Ok(Shows { plan, timelines })
    }
}
