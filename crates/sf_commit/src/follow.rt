//! The first half of a vsync: what arrived is received, each pending buffer is looked at once, and
//! all that is ready is committed.
ghost use Rattle.std.specs.Prelude.{◌≡◌, [], IfOk};
ghost use Rattle.sf_commit.specs.inner.Following.{DecidesFrom};
ghost use Rattle.sf_commit.specs.Handlers.{last_of};
ghost use Rattle.sf_commit.specs.Rounds.{pressed_in};
ghost use Rattle.sf_commit_next.specs.sf_ready.Facts.{HasSame};
ghost use Rattle.sf_commit_next.specs.sf_token.Loads.{AllLeases};
ghost use Rattle.sf_commit_next.specs.sf_token.Pending.{IsRisingFrom};
ghost use Rattle.sf_commit_next.specs.sf_txn.Leases.{IsEyeAfter};

use crate::commit::Stage;
use crate::decide::decide;
use crate::held::held;
use crate::receive::receive;
use sf_base::NoMemory;
use sf_commit_next::{Arrived, Facts, Hold, Instant, Lease, TokenQueues};

/// Takes what arrived, looks once at each pending lease, and commits until nothing is left to
/// commit, on a stage that nothing was committed on. Returns what the stage is then, and what waits.
pub(crate) fn decide_all<L: Lease + Drop>(
    mut stage: Stage<L>,
    queues: &mut TokenQueues<L>,
    facts: &mut Facts,
    eye: &mut L::Eye,
    arrived: Vec<Arrived<L>>,
    instant: Instant,
) -> Result<(Stage<L>, Vec<(u32, Hold)>), NoMemory>
where
    L::Reading: Drop,
    requires pending { AllLeases (L.fits (L.mark eye.old)) queues.old.pending }
    requires brought { AllLeases (L.fits (L.mark eye.old)) arrived.items }
    requires earlier { IsRisingFrom 0 queues.old.pending queues.old.last }
    requires pressed { HasSame facts.old.pressed (pressed_in stage.tree.layers) }
    requires no_commits { stage.commits ≡ [] }
    requires none_gone { stage.gone ≡ [] }
    requires rising { IsRisingFrom queues.old.last arrived.items (last_of queues.old.last arrived.items) }
    ensures decides { IfOk result (DecidesFrom L.Lease stage facts.old queues.old eye.old arrived.items
        instant.entry.seen.now instant.entry.expected queues.new facts.new eye.new) }
    ensures eye { IsEyeAfter L.Lease eye.old eye.new [] }
{
    receive(queues, arrived)?;
    let looks = queues.look(eye)?;
    facts.begin_vsync();
    decide(&mut stage, queues, facts, looks.as_slice(), instant)?;
    let waits = held(stage.alloc, queues, looks.as_slice(), facts, instant)?;
    Ok((stage, waits))
}
