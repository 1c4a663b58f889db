//! Three clients that send transactions from threads of their own, and one taker that takes them.
ghost use Rattle.std.specs.Prelude.{◌≡◌, ◌+◌, ◌<◌, ◌≤◌, [], ◌∷◌, length, map, IfSome};
ghost use Rattle.std.specs.List.{All};

use sf_base::ActorId;
use sf_intake::{Intake, Sender, Taker};
use sf_token::Arrived;
use sf_txn::Transaction;
use std::alloc::Global;
use std::marker::Brand;
use std::sync::Wait;
use std::thread::{Threads, join};
use test_leases::Page;

/// The greatest stamp that a client's transactions carry: that of its third step.
const NEWEST: u64 = 3;

/// Sends an empty transaction at a step, which is its stamp too. Whether it went out.
fn send_at<R: Wait>(
    rt: &R,
    alloc: Global,
    intake: &Intake<Page, Brand>,
    sender: &mut Sender<Page>,
    step: u32,
) -> bool
    requires own { sender.old.intake ≡ intake.now }
    requires few { length sender.old.sent < 9 }
    ensures own { sender.new.intake ≡ sender.old.intake }
    ensures by { sender.new.by ≡ sender.old.by }
    ensures more { length sender.new.sent ≤ length sender.old.sent + 1 }
{
    sender.stamp_from(u64::from(step));
    sender
        .send(intake, rt, step, Transaction::new(alloc))
        .is_ok()
}

/// A client's three transactions.
fn send_three<R: Wait>(
    rt: &R,
    alloc: Global,
    intake: &Intake<Page, Brand>,
    sender: Sender<Page>,
) -> Option<Sender<Page>>
    requires own { sender.intake ≡ intake.now }
    requires none { sender.sent ≡ [] }
    ensures { IfSome result (λ back. (back.intake ≡ intake.now) × (back.by ≡ sender.by)) }
{
    let mut sender = sender;
    for step in 1..4 {
        if !send_at(rt, alloc, intake, &mut sender, step) {
            return None;
        }
    }
    Some(sender)
}

/// Two clients, each in a thread of its own.
fn send_both<R: Threads + Wait + Sync>(
    rt: &R,
    alloc: Global,
    intake: &Intake<Page, Brand>,
    second: Sender<Page>,
    third: Sender<Page>,
) -> (Option<Sender<Page>>, Option<Sender<Page>>)
    requires second { (second.intake ≡ intake.now) × (second.sent ≡ []) }
    requires third { (third.intake ≡ intake.now) × (third.sent ≡ []) }
    ensures second { IfSome result.0 (λ back. (back.intake ≡ intake.now) × (back.by ≡ second.by)) }
    ensures third { IfSome result.1 (λ back. (back.intake ≡ intake.now) × (back.by ≡ third.by)) }
{
    join(
        rt,
        move ||
            requires { (second.intake ≡ intake.now) × (second.sent ≡ []) }
            ensures { IfSome result (λ back. (back.intake ≡ intake.entry.now) × (back.by ≡ second.by)) }
        { send_three(rt, alloc, intake, second) },
        move ||
            requires { (third.intake ≡ intake.now) × (third.sent ≡ []) }
            ensures { IfSome result (λ back. (back.intake ≡ intake.entry.now) × (back.by ≡ third.by)) }
        { send_three(rt, alloc, intake, third) },
    )
}

/// Three clients, each in a thread of its own: their senders, once all has been sent.
fn send_all<R: Threads + Wait + Sync>(
    rt: &R,
    alloc: Global,
    intake: &Intake<Page, Brand>,
    first: Sender<Page>,
    second: Sender<Page>,
    third: Sender<Page>,
) -> Option<Vec<Sender<Page>>>
    requires first { (first.intake ≡ intake.now) × (first.sent ≡ []) }
    requires second { (second.intake ≡ intake.now) × (second.sent ≡ []) }
    requires third { (third.intake ≡ intake.now) × (third.sent ≡ []) }
    ensures own { IfSome result (λ senders. All (λ sender. sender.intake ≡ intake.now) senders.items) }
    ensures numbers { IfSome result (λ senders. map (λ sender. sender.by.0) senders.items ≡ first.by.0 ∷ second.by.0 ∷ third.by.0 ∷ []) }
{
    let (a, (b, c)) = join(
        rt,
        move ||
            requires { (first.intake ≡ intake.now) × (first.sent ≡ []) }
            ensures { IfSome result (λ back. (back.intake ≡ intake.entry.now) × (back.by ≡ first.by)) }
        { send_three(rt, alloc, intake, first) },
        move ||
            requires second { (second.intake ≡ intake.now) × (second.sent ≡ []) }
            requires third { (third.intake ≡ intake.now) × (third.sent ≡ []) }
            ensures second { IfSome result.0 (λ back. (back.intake ≡ intake.entry.now) × (back.by ≡ second.by)) }
            ensures third { IfSome result.1 (λ back. (back.intake ≡ intake.entry.now) × (back.by ≡ third.by)) }
        { send_both(rt, alloc, intake, second, third) },
    );
    let mut senders = Vec::new(alloc);
    senders.push(a?).ok()?;
    senders.push(b?).ok()?;
    senders.push(c?).ok()?;
    Some(senders)
}

/// The senders of the clients 1, 2 and 3, of an intake whose taker made none yet.
fn make_senders(
    intake: &Intake<Page, Brand>,
    taker: &mut Taker<Page, Brand>,
) -> Option<(Sender<Page>, Sender<Page>, Sender<Page>)>
    requires own { taker.old.intake ≡ intake.now }
    requires none { taker.old.made ≡ [] }
    ensures own { IfSome result (λ _. taker.new.intake ≡ intake.now) }
    ensures made { IfSome result (λ _. taker.new.made ≡ 1 ∷ 2 ∷ 3 ∷ []) }
    ensures first { IfSome result (λ all. (all.0.intake ≡ intake.now) × (all.0.sent ≡ []) × (all.0.by.0 ≡ 1)) }
    ensures second { IfSome result (λ all. (all.1.intake ≡ intake.now) × (all.1.sent ≡ []) × (all.1.by.0 ≡ 2)) }
    ensures third { IfSome result (λ all. (all.2.intake ≡ intake.now) × (all.2.sent ≡ []) × (all.2.by.0 ≡ 3)) }
{
    let first = taker.sender(intake, ActorId(1)).ok()?;
    let second = taker.sender(intake, ActorId(2)).ok()?;
    let third = taker.sender(intake, ActorId(3)).ok()?;
    Some((first, second, third))
}

/// What was sent and not taken yet, or the first 4,096 of it.
fn take_some<R: Wait>(
    rt: &R,
    intake: &Intake<Page, Brand>,
    taker: &mut Taker<Page, Brand>,
) -> Option<Vec<Arrived<Page>>>
    requires own { taker.old.intake ≡ intake.now }
    ensures own { IfSome result (λ _. taker.new.intake ≡ intake.now) }
    ensures made { IfSome result (λ _. taker.new.made ≡ taker.old.made) }
{
    taker.take(intake, rt).ok()
}

/// All that the three sent, in the order in which it was taken: what a take gives once all is sent,
/// which shows the newest stamp, and the rest.
fn taken<R: Threads + Wait + Sync>(rt: &R, alloc: Global) -> Option<Vec<Arrived<Page>>> {
    let (intake, mut taker) = Intake::<Page, Brand>::open(alloc).ok()?;
    let (first, second, third) = make_senders(&intake, &mut taker)?;
    let senders = send_all(rt, alloc, &intake, first, second, third)?;
    let mut list = take_some(rt, &intake, &mut taker)?;
    if taker.newest() != NEWEST {
        return None;
    }
    let mut rest = taker.finish(intake, rt, senders).ok()?;
    list.append(&mut rest).ok()?;
    Some(list)
}

/// Whether a client's steps are 1, 2 and 3, in this order.
fn has_steps_of(list: &[Arrived<Page>], client: u32) -> bool {
    let mut next = 1u32;
    for arrived in list {
        if arrived.actor.0 == client {
            if arrived.step != next {
                return false;
            }
            next = next.saturating_add(1);
        }
    }
    next == 4
}

/// Whether the numbers go from 1 on.
fn is_numbered(list: &[Arrived<Page>]) -> bool {
    let mut last = 0u32;
    for arrived in list {
        last = last.saturating_add(1);
        if arrived.number != last {
            return false;
        }
    }
    true
}

/// How many of so many rounds took nine transactions, numbered from 1 on, each client's in its order.
pub fn play<R: Threads + Wait + Sync>(rt: &R, alloc: Global, rounds: u64) -> u64 {
    let mut agreed = 0u64;
    for _ in 0..rounds {
        if let Some(list) = taken(rt, alloc)
            && list.len() == 9
            && is_numbered(&list)
            && has_steps_of(&list, 1)
            && has_steps_of(&list, 2)
            && has_steps_of(&list, 3)
        {
            agreed = agreed.saturating_add(1);
        }
    }
    agreed
}
