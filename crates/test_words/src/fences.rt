//! The readers of points and fences.
ghost use Rattle.std.specs.Prelude.{◌≤◌, IfSome};

use crate::ids::timeline_named;
use crate::{number64, timeline};
use sf_base::{Fence, TimelineId};
use std::alloc::Global;
use std::str::SplitWhitespace;

/// The next two words, as a point: a timeline, 1 to 64, and a value.
pub fn point(words: &mut SplitWhitespace<'_>) -> Option<(TimelineId, u64)>
    ensures low { IfSome result (λ point. 1 ≤ point.0.0) }
    ensures high { IfSome result (λ point. point.0.0 ≤ 64) }
{
    Some((timeline(words)?, number64(words)?))
}

/// The next two words, as a fence of one point.
pub fn point_fence(alloc: Global, words: &mut SplitWhitespace<'_>) -> Option<Fence> {
    let (timeline, value) = point(words)?;
    let mut fence = Fence::none();
    fence.add(alloc, timeline, value).ok()?;
    Some(fence)
}

/// Adds a point, as `3:70`, to a fence.
fn add_point(alloc: Global, fence: &mut Fence, text: &str) -> Option<()> {
    let (timeline, value) = text.split_once(':')?;
    let timeline = timeline_named(timeline)?;
    fence.add(alloc, timeline, value.parse().ok()?).ok()
}

/// The next word, as a fence: points, as `3:70`, with commas between, or `-` where there are none.
pub fn fence(alloc: Global, words: &mut SplitWhitespace<'_>) -> Option<Fence> {
    let word = words.next()?;
    let mut fence = Fence::none();
    if word != "-" {
        for point in word.split(',') {
            add_point(alloc, &mut fence, point)?;
        }
    }
    Some(fence)
}
