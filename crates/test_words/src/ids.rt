//! The readers of the numbers of actors, slots, tokens, layers and timelines.
ghost use Rattle.std.specs.Prelude.{◌<◌, ◌≤◌, IfSome};

use crate::number32;
use sf_base::{ActorId, LayerId, SlotId, TimelineId, TokenId};
use std::str::SplitWhitespace;

/// The next word, as the number of an actor.
pub fn actor(words: &mut SplitWhitespace<'_>) -> Option<ActorId> {
    Some(ActorId(number32(words)?))
}

/// The next word, as the number of a slot.
pub fn slot(words: &mut SplitWhitespace<'_>) -> Option<SlotId> {
    Some(SlotId(number32(words)?))
}

/// The next word, as the number of an apply token.
pub fn token(words: &mut SplitWhitespace<'_>) -> Option<TokenId> {
    Some(TokenId(number32(words)?))
}

/// The next word, as the number of a layer, also as 0, which is none's.
pub fn any_layer(words: &mut SplitWhitespace<'_>) -> Option<LayerId> {
    Some(LayerId(number32(words)?))
}

/// The next word, as the number of a layer, 1 or more.
pub fn layer(words: &mut SplitWhitespace<'_>) -> Option<LayerId>
    ensures { IfSome result (λ layer. 0 < layer.0) }
{
    let number = number32(words)?;
    if number > 0 {
        Some(LayerId(number))
    } else {
        None
    }
}

/// The timeline that a text names, 1 to 64.
pub fn timeline_named(text: &str) -> Option<TimelineId>
    ensures low { IfSome result (λ timeline. 1 ≤ timeline.0) }
    ensures high { IfSome result (λ timeline. timeline.0 ≤ 64) }
{
    let number = text.parse().ok()?;
    if 1 <= number && number <= 64 {
        Some(TimelineId(number))
    } else {
        None
    }
}

/// The next word, as the number of a timeline, 1 to 64.
pub fn timeline(words: &mut SplitWhitespace<'_>) -> Option<TimelineId>
    ensures low { IfSome result (λ timeline. 1 ≤ timeline.0) }
    ensures high { IfSome result (λ timeline. timeline.0 ≤ 64) }
{
    timeline_named(words.next()?)
}
