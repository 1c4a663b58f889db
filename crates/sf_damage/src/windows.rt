//! The points at which two lists of drawn layers differ, window by window: a window is cut at the
//! clips until all of its points have other stacks, or none has.
ghost use Rattle.std.specs.List.{All, filter};
ghost use Rattle.std.specs.Prelude.{◌≡◌, ℤ, ◌∷◌, ◌||◌, [], IfOk, IsTrue};
ghost use Rattle.sf_base.specs.Geometry.{covers};
ghost use Rattle.sf_damage.specs.Damage.{AreHalves, AreNear, DamagesLists, DiffersWithin, meets_clip};
ghost use Rattle.sf_region.specs.Points.{IsInBounds, has};

use crate::changes::changes;
use crate::constant::{differ_everywhere, differ_nowhere};
use crate::cuts::halves_at;
use crate::differing::differing;
use crate::gathered::{are_same, region_of};
use crate::parts::{Halves, meets, split};
use crate::shared::{shared_back, shared_front};
use sf_base::{NoMemory, Rect};
use sf_region::Region;
use sf_view::Drawn;
use std::alloc::Global;

// A window that has all clips.
const EVERYWHERE: Rect = Rect {
    x: -33_554_432,
    y: -33_554_432,
    width: 67_108_864,
    height: 67_108_864,
};

// How often a window is cut at most.
const STEPS: u32 = 64;

// How many layers of windows are looked at, for each layer of two lists, before the windows that are left
// are compared layer by layer.
const LOOKS: usize = 48;

/// Those of the layers whose clips may have a point of a window.
fn layers_in(alloc: Global, layers: &[Drawn], window: &Rect) -> Result<Vec<Drawn>, NoMemory>
    requires { AreNear layers.now }
    ensures value { IfOk result (λ kept. kept.items ≡ filter (meets_clip window.now) layers.now) }
    ensures near { IfOk result (λ kept. AreNear kept.items) }
{
    let mut kept = Vec::new(alloc);
    for drawn in layers {
        if meets(&drawn.clip, window) {
            kept.push(*drawn)?;
        }
    }
    Ok(kept)
}

/// A list of one rectangle.
fn only(alloc: Global, rect: Rect) -> Result<Vec<Rect>, NoMemory>
    ensures { IfOk result (λ rects. rects.items ≡ rect ∷ []) }
{
    let mut rects = Vec::new(alloc);
    rects.push(rect)?;
    Ok(rects)
}

/// The rectangles of a region.
fn rects_of(alloc: Global, region: &Region) -> Result<Vec<Rect>, NoMemory>
    ensures value { IfOk result (λ rects. rects.items ≡ region.now) }
    ensures near { IfOk result (λ rects. All IsInBounds rects.items) }
{
    let mut rects = Vec::new(alloc);
    for rect in region.rects() {
        rects.push(*rect)?;
    }
    Ok(rects)
}

/// The points of a window at which two lists have other stacks, compared layer by layer.
fn differing_by_layers(
    alloc: Global,
    olds: &[Drawn],
    news: &[Drawn],
    window: Rect,
) -> Result<Vec<Rect>, NoMemory>
    requires olds { AreNear olds.now }
    requires news { AreNear news.now }
    requires near { IsInBounds window }
    ensures { IfOk result (λ rects. DiffersWithin olds.now news.now window rects.items) }
{
    let part = changes(alloc, olds, news)?;
    let Halves { inside, outside: _ } = split(alloc, part, window)?;
    let region = differing(alloc, olds, news, inside)?;
    rects_of(alloc, &region)
}

/// Whether a list has this rectangle alone.
fn is_only(rects: &[Rect], rect: &Rect) -> bool
    ensures { IsTrue result → rects.now ≡ rect.now ∷ [] }
{
    match rects {
        [one] => are_same(one, rect),
        _ => false,
    }
}

/// The rectangles of the two halves of a window, as one where both halves are whole.
fn of_both(
    alloc: Global,
    one: Vec<Rect>,
    other: Vec<Rect>,
    halves: &(Rect, Rect),
    window: Rect,
) -> Result<Vec<Rect>, NoMemory>
    requires near { IsInBounds window }
    requires one { All IsInBounds one.items }
    requires other { All IsInBounds other.items }
    requires halves { AreHalves window halves.now }
    ensures near { IfOk result (λ rects. All IsInBounds rects.items) }
    ensures points { IfOk result (λ rects. (x y : ℤ) → has rects.items x y ≡ (has one.items x y || has other.items x y)) }
{
    if is_only(&one, &halves.0) && is_only(&other, &halves.1) {
        return only(alloc, window);
    }
    let mut all = one;
    for rect in &other {
        all.push(*rect)?;
    }
    Ok(all)
}

/// The points of a window at which two lists of layers that meet it have other stacks.
#[cycle(windows)]
fn differing_here(
    alloc: Global,
    olds: &[Drawn],
    news: &[Drawn],
    window: Rect,
    steps: u32,
    looks: &mut usize,
) -> Result<Vec<Rect>, NoMemory>
    requires olds { AreNear olds.now }
    requires news { AreNear news.now }
    requires near { IsInBounds window }
    ensures { IfOk result (λ rects. DiffersWithin olds.now news.now window rects.items) }
{
    if differ_nowhere(olds, news, &window) {
        return Ok(Vec::new(alloc));
    }
    if differ_everywhere(olds, news, &window) {
        return only(alloc, window);
    }
    let count = olds.len().saturating_add(news.len());
    if steps == 0 || *looks < count {
        return differing_by_layers(alloc, olds, news, window);
    }
    *looks -= count;
    let halves = halves_at(olds, news, &window);
    let one = differing_in(alloc, olds, news, halves.0, steps - 1, looks)?;
    let other = differing_in(alloc, olds, news, halves.1, steps - 1, looks)?;
    of_both(alloc, one, other, &halves, window)
}

/// The points of a window at which two lists of drawn layers have other stacks: the layers are left out that
/// both lists begin or end with.
#[cycle(windows)]
fn differing_between(
    alloc: Global,
    olds: &[Drawn],
    news: &[Drawn],
    window: Rect,
    steps: u32,
    looks: &mut usize,
) -> Result<Vec<Rect>, NoMemory>
    requires olds { AreNear olds.now }
    requires news { AreNear news.now }
    requires near { IsInBounds window }
    ensures { IfOk result (λ rects. DiffersWithin olds.now news.now window rects.items) }
{
    let front = shared_front(olds, news);
    let old_rest = &olds[front..];
    let new_rest = &news[front..];
    let back = shared_back(old_rest, new_rest);
    differing_here(
        alloc,
        &old_rest[..old_rest.len() - back],
        &new_rest[..new_rest.len() - back],
        window,
        steps,
        looks,
    )
}

/// The same of the layers that meet the window alone.
#[cycle(windows)]
fn differing_in(
    alloc: Global,
    olds: &[Drawn],
    news: &[Drawn],
    window: Rect,
    steps: u32,
    looks: &mut usize,
) -> Result<Vec<Rect>, NoMemory>
    requires olds { AreNear olds.now }
    requires news { AreNear news.now }
    requires near { IsInBounds window }
    ensures { IfOk result (λ rects. DiffersWithin olds.now news.now window rects.items) }
{
    let olds = layers_in(alloc, olds, &window)?;
    let news = layers_in(alloc, news, &window)?;
    differing_between(alloc, &olds, &news, window, steps, looks)
}

/// The points at which two lists of drawn layers have other stacks.
pub fn differing_by_windows(
    alloc: Global,
    olds: &[Drawn],
    news: &[Drawn],
) -> Result<Region, NoMemory>
    requires olds { AreNear olds.now }
    requires news { AreNear news.now }
    ensures { IfOk result (DamagesLists olds.now news.now) }
{
    let count = olds.len().saturating_add(news.len());
    let mut looks = count.saturating_mul(LOOKS);
    let rects = differing_between(alloc, olds, news, EVERYWHERE, STEPS, &mut looks)?;
    region_of(alloc, &rects)
}
