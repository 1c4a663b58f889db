//! The reader of `order` lines.
ghost use Rattle.std.specs.Prelude.{◌≡◌, ◌==◌, ◌≤◌, [], length, not, All, IfOk, IfSome};
ghost use Rattle.std.specs.List.{prefix_len};
ghost use Rattle.sf_script_words.specs.Text.{words_of};
ghost use Rattle.sf_script_words.specs.Reading.{Gives};
ghost use Rattle.sf_script_scene.specs.Limits.{IsPick};
ghost use Rattle.sf_script.specs.inner.Memory.{GivesUnless};
ghost use Rattle.sf_script.specs.Order.{order_at, pick_at, pick_of, picked_of, picks_at, times_of};

use crate::fault::LineFault;
use sf_script_scene::{Pick, Scene, most_actors};
use sf_script_words::{Cause, WordFault, is, next_word, number_within, word, wrong};
use std::alloc::Global;

/// Who is picked, of so many.
#[tactic(auto, unfolding(crate::specs::Order::picked_of))]
fn picked(most: u32, who: &[u8]) -> Option<u32>
    ensures { result ≡ picked_of most who.now }
{
    if is(who, b"v") {
        return Some(0);
    }
    let number = number_within(who, 1, u64::from(most))?;
    Some(number as u32)
}

/// How often, by what stands behind who is picked.
#[tactic(auto, unfolding(crate::specs::Order::times_of))]
fn times(behind: &[u8]) -> Option<u32>
    ensures given { result ≡ times_of behind.now }
    ensures range { IfSome result (λ n. (1 ≤ n) × (n ≤ 256)) }
{
    match behind {
        [] => Some(1),
        [_, number @ ..] => {
            let times = number_within(number, 1, 256)?;
            Some(times as u32)
        }
    }
}

/// How long the part before a `*` is.
fn who_length(word: &[u8]) -> usize
    ensures count { result ≡ prefix_len (λ b. not (b == 42)) word.now }
    ensures within { result ≤ length word.now }
{
    word.iter().take_while(|b| **b != b'*').count()
}

/// A word of the order: whose pick it is, and how often, as in `2*5` or `v`.
#[tactic(auto, unfolding(crate::specs::Order::pick_of))]
fn pick(most: u32, word: &[u8]) -> Option<Pick>
    ensures given { result ≡ pick_of most word.now }
    ensures range { IfSome result (λ p. (1 ≤ p.times) × (p.times ≤ 256)) }
{
    let (who, behind) = word.split_at(who_length(word));
    match (picked(most, who), times(behind)) {
        (Some(actor), Some(times)) => Some(Pick { actor, times }),
        _ => None,
    }
}

/// The pick of a word, with which what is left of the line begins.
#[tactic(auto, unfolding(crate::specs::Order::pick_at))]
fn declared_pick(scene: &Scene, line: &[u8], word: &[u8]) -> Result<Pick, WordFault>
    ensures given { Gives (λ x. x) result (pick_at scene.now (length (words_of line.now)) word.now) }
    ensures fits { IfOk result (IsPick scene.now.actors) }
{
    let Some(pick) = pick(most_actors(scene.version), word) else {
        return Err(wrong(line, Cause::BadWord));
    };
    if pick.actor == 0 || scene.has_actor(pick.actor) {
        Ok(pick)
    } else {
        Err(wrong(line, Cause::Undefined))
    }
}

/// `order PICK ..`
#[tactic(auto, unfolding(crate::specs::Order::order_at))]
pub fn order_line(alloc: Global, scene: &Scene, line: &[u8]) -> Result<Vec<Pick>, LineFault>
    ensures given { GivesUnless (λ x. x.items) result (order_at scene.now (words_of line.now)) }
    ensures fits { IfOk result (λ v. All (IsPick scene.now.actors) v.items) }
    ensures few { IfOk result (λ v. length v.items ≤ length line.now) }
{
    word(line)?;
    picks(alloc, scene, line)
}

/// The picks of a line of the order. The first word that is no pick, or names no actor of the
/// scene, gives the fault.
#[tactic(auto, unfolding(crate::specs::Order::picks_at), using(sf_script_words::proofs::Sets::word_counts))]
fn picks(alloc: Global, scene: &Scene, line: &[u8]) -> Result<Vec<Pick>, LineFault>
    ensures given { GivesUnless (λ x. x.items) result (picks_at scene.now [] (words_of line.now)) }
    ensures fits { IfOk result (λ v. All (IsPick scene.now.actors) v.items) }
    ensures few { IfOk result (λ v. length v.items ≤ length line.now) }
{
    let mut picks = Vec::new(alloc);
    let mut rest = line;
    while let Some((word, after)) = next_word(rest) {
        picks.push(declared_pick(scene, rest, word)?)?;
        rest = after;
    }
    Ok(picks)
}
