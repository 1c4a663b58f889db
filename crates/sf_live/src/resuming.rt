//! Where a live run becomes a play again: the player that goes on with it once its threads are
//! joined.
ghost use Rattle.std.specs.Prelude.{◌≡◌};
ghost use Rattle.sf_live_compositor.specs.sf_play.Players.{home_in};
ghost use Rattle.sf_live_compositor.specs.sf_live_seats.Seats.{tells_of};
ghost use Rattle.sf_live_compositor.specs.sf_live_seats.declared.locks.Locks.{Locks};
ghost use Rattle.sf_live_compositor.specs.sf_live_threads.Gates.{HavePassed};
ghost use Rattle.sf_live.specs.inner.Resuming.{MayGoOn, ShowsJoined};
ghost use Rattle.sf_live.specs.inner.Threads.{IsTogether, RunOf};

use crate::threads::Joined;
use law_live_order::{
    a_run_in_threads_goes_on, buffers_among_threads_have_their_pictures, what_threads_did_is_played,
};
use sf_base::Items;
use sf_live_compositor::{Gates, Handler, Lease, Player, ReadLease};
use sf_script_scene::Pick;
use sf_turns::TableName;
use std::alloc::Global;

/// A player that goes on with a run, and the gates that its actors passed.
pub(crate) struct Resumed<B: TableName> {
    pub(crate) player: Player<B>,
    pub(crate) gates: Vec<Gates>,
}

/// A player that goes on with a run whose actors are together again, and the gates that they passed:
/// what was written so far are the vsyncs that it has shown.
pub(crate) fn go_on<B: TableName>(
    alloc: Global,
    period: u64,
    order: Items<Pick>,
    joined: Joined<B>,
    handler: Handler<ReadLease<B>>,
    vsyncs: u32,
) -> Resumed<B>
    requires goes { MayGoOn ⟦<ReadLease<B> as Lease>⟧ B.table joined period order handler vsyncs }
    ensures shown { ShowsJoined ⟦<ReadLease<B> as Lease>⟧ B.table joined period order handler vsyncs result.player }
    ensures told { (run : RunOf B) (locks : Locks B) → IsTogether ⟦<ReadLease<B> as Lease>⟧ B.table run locks joined
        → (home_in result.player.play).tells ≡ tells_of locks }
    ensures gates { HavePassed result.player.play.actor_set.actors result.gates.items }
{
    a_run_in_threads_goes_on::<B>();
    buffers_among_threads_have_their_pictures::<B>();
    what_threads_did_is_played::<B>();
    let Joined { actor_set, gates } = joined;
    let player = Player::resume(alloc, period, order, actor_set, handler, vsyncs);
    Resumed { player, gates }
}
