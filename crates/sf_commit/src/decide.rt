//! The middle of a vsync: one transaction after another is committed, the next of them each time,
//! until none is left to commit.
ghost use Rattle.std.specs.List.{All};
ghost use Rattle.std.specs.Prelude.{◌≡◌, false, IfOk, OnOk, None, Some};
ghost use Rattle.sf_base.specs.declared.ids.TokenId.{TokenId};
ghost use Rattle.sf_commit_next.specs.Asking.{has_token};
ghost use Rattle.sf_commit.specs.inner.Deciding.{ComesFrom, CommitsOne};
ghost use Rattle.sf_commit_next.specs.Next.{AreRising, IsLookedAt};
ghost use Rattle.sf_commit.specs.Rounds.{pressed_in};
ghost use Rattle.sf_commit_next.specs.sf_ready.Facts.{HasSame};
ghost use Rattle.sf_commit_next.specs.sf_token.Pending.{Arrival, head_of, is_of};
ghost use Rattle.sf_commit_next.specs.sf_txn.Transactions.{without_first};

use crate::commit::Stage;
use sf_base::{NoMemory, TokenId};
use sf_commit_next::{Asking, Facts, Instant, Lease, Looks, TokenQueues, next_token};
use std::alloc::Global;

/// The tokens with something pending.
fn all_tokens<L: Lease + Drop>(alloc: Global, queues: &TokenQueues<L>) -> Result<Asking, NoMemory>
    ensures { IfOk result (λ asking. (token : TokenId) → has_token asking token ≡ false → head_of token queues.now.pending ≡ None) }
{
    let mut tokens = queues.tokens()?;
    let mut asking = Asking::new(alloc);
    while let Some(token) = tokens.pop() {
        asking.add_lowest(token)?;
    }
    Ok(asking)
}

/// The first transaction of a token is committed.
fn commit_first<L: Lease + Drop>(
    stage: &mut Stage<L>,
    queues: &mut TokenQueues<L>,
    facts: &mut Facts,
    token: TokenId,
) -> Result<(), NoMemory>
where
    L::Reading: Drop,
    requires pressed { HasSame facts.old.pressed (pressed_in stage.old.tree.layers) }
    ensures left { queues.new ≡ record queues.old { pending = without_first (is_of token) queues.old.pending } }
    ensures commits { OnOk result ((a : Arrival L) → head_of token queues.old.pending ≡ Some a
        → CommitsOne stage.old stage.new facts.old facts.new a) }
{
    match queues.pop(token) {
        Some(arrived) => stage.commit(facts, arrived),
        None => Ok(()),
    }
}

/// Commits one transaction after another, the next of them each time, until none is left to commit.
/// The looks are those at all that waits. After a commit only those tokens are asked again of which
/// it can change what holds the first transaction, from the lowest on.
pub(crate) fn decide<L: Lease + Drop>(
    stage: &mut Stage<L>,
    queues: &mut TokenQueues<L>,
    facts: &mut Facts,
    looks: &[Looks],
    instant: Instant,
) -> Result<(), NoMemory>
where
    L::Reading: Drop,
    requires looked { All (IsLookedAt L.shown looks.now) queues.old.pending }
    requires rising { AreRising 0 looks.now }
    requires pressed { HasSame facts.old.pressed (pressed_in stage.old.tree.layers) }
    ensures comes { OnOk result (ComesFrom L.shown instant.entry.seen.now instant.entry.expected stage.old queues.old facts.old stage.new queues.new facts.new) }
    ensures last { queues.new.last ≡ queues.old.last }
{
    let alloc = stage.alloc;
    let mut asking = all_tokens(alloc, queues)?;
    while let Some(token) = next_token(alloc, &mut asking, queues, looks, facts, instant)? {
        commit_first(stage, queues, facts, token)?;
    }
    Ok(())
}
