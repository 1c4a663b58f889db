//! Which pending transaction commits next, asked after each commit of a vsync until there is none.
ghost use Rattle.std.specs.List.{All};
ghost use Rattle.std.specs.Option.{IfSome};
ghost use Rattle.std.specs.List.Sorted.{IsStrictlySortedBy};
ghost use Rattle.std.specs.Ordering.{nat_cmp};
ghost use Rattle.std.specs.Prelude.{◌≡◌, ◌||◌, ◌++◌, IfOk, OnOk, true};
ghost use Rattle.sf_base.specs.declared.ids.TokenId.{TokenId};
ghost use Rattle.sf_commit_next.specs.Asking.{AsksEnough, FindsNext, IsAnswer, answer_of, has_token};
ghost use Rattle.sf_commit_next.specs.Next.{AreRising, IsLookedAt, IsNextToken, drawn_for};
ghost use Rattle.sf_commit_next.specs.Heads.{head_hold, ready_of};

use crate::asking::Asking;
use crate::instant::Instant;
use sf_base::{NoMemory, TokenId};
use sf_ready::{Facts, Hold, hold_of};
use sf_token::{Arrived, Lease, Looks, TokenQueues};
use std::alloc::Global;

/// What is learned of a token by asking what holds its first transaction.
#[derive(Clone, Copy)]
pub(crate) enum Answer {
    /// Nothing holds it.
    Ready,
    /// It is held by what a commit can change.
    Stopped,
    /// It is held through the whole vsync, or nothing is pending for the token.
    Out,
}

/// What the looks at the transaction of a number showed. The looks are in the order of the numbers.
fn drawn_at(looks: &[Looks], number: u32) -> &[bool]
    requires { AreRising 0 looks.now }
    ensures { result.now ≡ drawn_for looks.now number }
{
    match looks.binary_search_by_key(&number, |look| look.number) {
        Ok(place) => looks[place].drawn.as_slice(),
        Err(_) => &[],
    }
}

/// Why a transaction that is first of its token waits; None where nothing holds it.
fn first_hold<L: Lease + Drop>(
    arrived: &Arrived<L>,
    looks: &[Looks],
    facts: &Facts,
    instant: Instant,
) -> Option<Hold>
    requires looked { IsLookedAt L.shown looks.now arrived.now }
    requires rising { AreRising 0 looks.now }
    ensures { result ≡ head_hold L.shown instant.entry.seen.now instant.entry.expected facts.now arrived.now }
{
    let drawn = drawn_at(looks, arrived.number);
    hold_of(&arrived.txn, drawn, facts, instant.seen, instant.expected)
}

/// What a hold says of the rest of a vsync: time, points and writes are as they were when it began.
fn answer_of(hold: Option<Hold>) -> Answer
    ensures { result ≡ answer_of hold }
{
    match hold {
        None => Answer::Ready,
        Some(Hold::Barrier(..)) => Answer::Stopped,
        Some(Hold::Pressure(_)) => Answer::Stopped,
        Some(_) => Answer::Out,
    }
}

/// Asks what holds the first transaction of a token.
fn ask<L: Lease + Drop>(
    queues: &TokenQueues<L>,
    token: TokenId,
    looks: &[Looks],
    facts: &Facts,
    instant: Instant,
) -> Answer
    requires looked { All (IsLookedAt L.shown looks.now) queues.now.pending }
    requires rising { AreRising 0 looks.now }
    ensures { IsAnswer L.shown instant.entry.seen.now instant.entry.expected facts.now queues.now.pending token result }
{
    match queues.head(token) {
        Some(arrived) => answer_of(first_hold(arrived, looks, facts, instant)),
        None => Answer::Out,
    }
}

/// Asks the tokens from the lowest on, up to the first that is ready. It goes to those that were
/// stopped, so that it is asked again. All that were stopped are lower than those that are left.
fn first_ready<L: Lease + Drop>(
    asking: &mut Asking,
    stopped: &mut Vec<u32>,
    queues: &TokenQueues<L>,
    looks: &[Looks],
    facts: &Facts,
    instant: Instant,
) -> Result<Option<TokenId>, NoMemory>
    requires looked { All (IsLookedAt L.shown looks.now) queues.now.pending }
    requires rising { AreRising 0 looks.now }
    requires sorted { IsStrictlySortedBy nat_cmp (stopped.old.items ++ asking.old) }
    requires asks { AsksEnough L.shown instant.seen.now instant.expected asking.old queues.now.pending }
    ensures next { IfOk result (FindsNext L.shown instant.entry.seen.now instant.entry.expected facts.now queues.now.pending asking.new stopped.new.items) }
    ensures sorted { OnOk result (IsStrictlySortedBy nat_cmp (stopped.new.items ++ asking.new)) }
{
    while let Some(token) = asking.take_lowest() {
        match ask(queues, token, looks, facts, instant) {
            Answer::Ready => {
                stopped.push(token.0)?;
                return Ok(Some(token));
            }
            Answer::Stopped => stopped.push(token.0)?,
            Answer::Out => (),
        }
    }
    Ok(None)
}

/// Tokens that were stopped, which are lower than those that are left, have to be asked again.
fn ask_again(asking: &mut Asking, stopped: Vec<u32>) -> Result<(), NoMemory>
    requires { IsStrictlySortedBy nat_cmp (stopped.items ++ asking.old) }
    ensures { OnOk result ((token : TokenId) → has_token asking.new token ≡ (has_token asking.old token || has_token stopped.items token)) }
{
    let mut left = stopped;
    while let Some(number) = left.pop() {
        asking.add_lowest(TokenId(number))?;
    }
    Ok(())
}

/// The token of the next transaction to commit: the lowest of those whose first one is not held. Of
/// the tokens to be asked those go that are out for the rest of the vsync.
pub fn next_token<L: Lease + Drop>(
    alloc: Global,
    asking: &mut Asking,
    queues: &TokenQueues<L>,
    looks: &[Looks],
    facts: &Facts,
    instant: Instant,
) -> Result<Option<TokenId>, NoMemory>
    requires looked { All (IsLookedAt L.shown looks.now) queues.now.pending }
    requires rising { AreRising 0 looks.now }
    requires asks { AsksEnough L.shown instant.seen.now instant.expected asking.old queues.now.pending }
    ensures next { IfOk result (IsNextToken (ready_of L.shown instant.entry.seen.now instant.entry.expected facts.now queues.now.pending)) }
    ensures asks { OnOk result (AsksEnough L.shown instant.entry.seen.now instant.entry.expected asking.new queues.now.pending) }
    ensures among { IfOk result (λ next. IfSome next (λ token. has_token asking.new token ≡ true)) }
{
    asking.rises();
    let mut stopped = Vec::new(alloc);
    let next = first_ready(asking, &mut stopped, queues, looks, facts, instant)?;
    ask_again(asking, stopped)?;
    Ok(next)
}
