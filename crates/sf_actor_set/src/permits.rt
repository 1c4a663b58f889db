//! How many permits to make a buffer the actors of a scene need: `sf_app` opens the table of turns
//! by this.
ghost use Rattle.std.specs.Prelude.{◌≡◌, ◌<◌, MatchOption};
ghost use Rattle.sf_actor_steps.specs.sf_actor.Tries.{dequeues_in, is_dequeue};
ghost use Rattle.sf_actor_set.specs.Scripts.{permits_of};

use sf_actor_steps::{ActorScript, Step};

/// Whether a step needs the permit to open a buffer.
fn is_dequeue(step: &Step) -> bool
    ensures { result ≡ is_dequeue step.now }
{
    match step {
        Step::Dequeue(..) | Step::DequeueWait(..) => true,
        _ => false,
    }
}

/// How many permits the steps need: one for each dequeue.
pub fn dequeues(steps: &[Step]) -> usize
    ensures { result ≡ dequeues_in steps.now }
{
    steps.iter().filter(|step| is_dequeue(step)).count()
}

/// How many permits an actor set of these scripts needs: one for each dequeue. None where they are
/// more than the buffers of a run can be.
pub fn permits_for(scripts: &[ActorScript]) -> Option<u32>
    ensures { MatchOption result (4294967295 < permits_of scripts.now) (λ permits. permits ≡ permits_of scripts.now) }
{
    let mut permits = 0u32;
    for script in scripts {
        let more = u32::try_from(dequeues(script.steps.as_slice())).ok()?;
        permits = permits.checked_add(more)?;
    }
    Some(permits)
}
