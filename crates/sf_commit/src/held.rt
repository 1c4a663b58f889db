//! Why each transaction that is still pending waits, asked once a vsync has committed all that was
//! ready.
ghost use Rattle.std.specs.Prelude.{◌≡◌, IfOk, map};
ghost use Rattle.sf_commit.specs.inner.Holding.{AreLooks, IsFoundDrawn, held_of, hold_in, is_first, told_by};

use sf_base::NoMemory;
use sf_commit_next::{Arrived, Facts, Hold, Instant, Lease, Looks, TokenQueues, hold_of};
use std::alloc::Global;

/// Whether a pending transaction is the first of its token.
fn is_first<L: Lease + Drop>(queues: &TokenQueues<L>, arrived: &Arrived<L>) -> bool
    ensures { result ≡ is_first queues.now.pending arrived.now }
{
    queues.is_first(arrived.txn.token(), arrived.number)
}

/// Why a pending transaction waits; None where nothing holds it.
fn hold_at<L: Lease + Drop>(
    queues: &TokenQueues<L>,
    arrived: &Arrived<L>,
    drawn: &[bool],
    facts: &Facts,
    instant: Instant,
) -> Option<Hold>
    requires { drawn.now ≡ map (λ buffer. L.shown buffer.lease) arrived.now.txn.buffers }
    ensures { result ≡ hold_in L.shown instant.entry.seen.now instant.entry.expected facts.now queues.now.pending arrived.now }
{
    if is_first(queues, arrived) {
        hold_of(&arrived.txn, drawn, facts, instant.seen, instant.expected)
    } else {
        Some(Hold::Behind)
    }
}

/// Why the transaction that was looked at waits, with its number; None where it does not wait.
fn told_at<L: Lease + Drop>(
    queues: &TokenQueues<L>,
    look: &Looks,
    facts: &Facts,
    instant: Instant,
) -> Option<(u32, Hold)>
    requires { IsFoundDrawn L.Lease queues.now.pending look.now }
    ensures { result ≡ told_by L.shown instant.entry.seen.now instant.entry.expected facts.now queues.now.pending look.now }
{
    let arrived = queues.get(look.number)?;
    let drawn = look.drawn.as_slice();
    let hold = hold_at(queues, arrived, drawn, facts, instant)?;
    Some((arrived.number, hold))
}

/// What is pending, by its number in the order of arrival, and why it waits. The looks are those at
/// all that was pending before the first commit.
pub(crate) fn held<L: Lease + Drop>(
    alloc: Global,
    queues: &TokenQueues<L>,
    looks: &[Looks],
    facts: &Facts,
    instant: Instant,
) -> Result<Vec<(u32, Hold)>, NoMemory>
    requires { AreLooks L.Lease looks.now queues.now.pending }
    ensures { IfOk result (λ held. held.items ≡ held_of L.shown instant.entry.seen.now instant.entry.expected facts.now queues.now.pending) }
{
    let mut held = Vec::new(alloc);
    for look in looks {
        if let Some(told) = told_at(queues, look, facts, instant) {
            held.push(told)?;
        }
    }
    Ok(held)
}
