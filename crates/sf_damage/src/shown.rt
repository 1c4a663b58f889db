//! Where each drawn layer shows, below the opaque ones in front of it: of each layer composing
//! paints only that.
ghost use Rattle.std.specs.Prelude.{◌≡◌, ℤ, ◌&&◌, not, true, IfOk, OnOk, reverse};
ghost use Rattle.std.specs.List.{All, filter, list_any};
ghost use Rattle.sf_base.specs.Geometry.{covers};
ghost use Rattle.sf_region.specs.Points.{IsInBounds, has};
ghost use Rattle.sf_damage.specs.Damage.{AreNear};
ghost use Rattle.sf_damage.specs.inner.Meeting.{meets, rect_has};
ghost use Rattle.sf_damage.specs.inner.Showing.{ShowsOneMore};
ghost use Rattle.sf_damage.specs.Visible.{AreVisibleAt, AreVisibleIn, AreWithin, hides_all};

use crate::bounds::bounds;
use crate::gathered::region_of;
use crate::parts::{is_empty, meets, rect_has};
use sf_base::{NoMemory, Rect};
use sf_region::Region;
use sf_view::{Drawn, View};
use std::alloc::Global;

/// Whether a drawn layer hides what lies below its clip.
fn hides_all(drawn: &Drawn) -> bool
    ensures { result ≡ hides_all drawn.now }
{
    drawn.opaque && drawn.alpha == 255
}

/// Those of these rectangles that may share a point with this one.
fn those_met(alloc: Global, rects: &[Rect], rect: &Rect) -> Result<Vec<Rect>, NoMemory>
    ensures { IfOk result (λ met. met.items ≡ filter (λ other. meets other rect.now) rects.now) }
{
    let mut met = Vec::new(alloc);
    for other in rects {
        if meets(other, rect) {
            met.push(*other)?;
        }
    }
    Ok(met)
}

/// Whether one of these rectangles has all points of this one.
fn one_has(rects: &[Rect], rect: &Rect) -> bool
    ensures { result ≡ list_any (λ other. rect_has other rect.now) rects.now }
{
    rects.iter().any(|other| rect_has(other, rect))
}

/// Of the points of a window, those of a rectangle that none of these others has.
fn rest_of(alloc: Global, rect: Rect, window: &Rect, hidden: &[Rect]) -> Result<Region, NoMemory>
    requires near { IsInBounds rect }
    requires hidden { All IsInBounds hidden.now }
    ensures points { IfOk result (λ rest. (x y : ℤ) → covers window.now x y ≡ true
        → has rest x y ≡ (covers rect x y && not (has hidden.now x y))) }
    ensures within { IfOk result (λ rest. (x y : ℤ) → has rest x y ≡ true → covers rect x y ≡ true) }
{
    if one_has(hidden, window) {
        return Ok(Region::empty(alloc));
    }
    let cover = Region::rect(alloc, rect)?;
    if hidden.is_empty() {
        return Ok(cover);
    }
    let over = region_of(alloc, hidden)?;
    Ok(cover.subtract(&over)?)
}

/// The same, and only those of the others that the rectangle meets are gone over, and none of them where
/// it doesn't meet the window.
fn left(alloc: Global, rect: Rect, window: &Rect, hidden: &[Rect]) -> Result<Region, NoMemory>
    requires near { IsInBounds rect }
    requires hidden { All IsInBounds hidden.now }
    ensures points { IfOk result (λ rest. (x y : ℤ) → covers window.now x y ≡ true
        → has rest x y ≡ (covers rect x y && not (has hidden.now x y))) }
    ensures within { IfOk result (λ rest. (x y : ℤ) → has rest x y ≡ true → covers rect x y ≡ true) }
{
    if !meets(&rect, window) {
        return Ok(Region::empty(alloc));
    }
    if hidden.iter().all(|other| meets(other, &rect)) {
        return rest_of(alloc, rect, window, hidden);
    }
    let met = those_met(alloc, hidden, &rect)?;
    rest_of(alloc, rect, window, &met)
}

/// Appends what shows in a window of a layer, and its clip where that hides what is below it there.
fn show_one(
    alloc: Global,
    drawn: &Drawn,
    window: &Rect,
    shown: &mut Vec<Region>,
    hidden: &mut Vec<Rect>,
) -> Result<(), NoMemory>
    requires near { IsInBounds drawn.now.clip }
    requires hidden { All IsInBounds hidden.old.items }
    ensures { OnOk result (ShowsOneMore (covers window.now) drawn.now shown.old.items hidden.old.items shown.new.items hidden.new.items) }
{
    let region = left(alloc, drawn.clip, window, hidden)?;
    let adds = hides_all(drawn) && !is_empty(&region);
    shown.push(region)?;
    if adds {
        Ok(hidden.push(drawn.clip)?)
    } else {
        Ok(())
    }
}

/// What shows in a window of each of the layers, the last one first.
fn show(alloc: Global, layers: &[Drawn], window: &Rect) -> Result<Vec<Region>, NoMemory>
    requires { AreNear layers.now }
    ensures visible { IfOk result (λ shown. AreVisibleAt (covers window.now) layers.now (reverse shown.items)) }
    ensures within { IfOk result (λ shown. AreWithin layers.now (reverse shown.items)) }
{
    let mut shown = Vec::new(alloc);
    let mut hidden = Vec::new(alloc);
    let mut at = layers.len();
    while at > 0 {
        at -= 1;
        show_one(alloc, &layers[at], window, &mut shown, &mut hidden)?;
    }
    Ok(shown)
}

/// Of each drawn layer of a view, from the back, where it shows in a part of the display. Of the points
/// of the part the region of a layer has exactly those of its clip that no layer above it hides: the
/// layers that are opaque and have alpha 255 hide what is below their clips, and translucent ones
/// nothing. Beside the part a region may have any points of the layer's clip. A layer beside the part's
/// bounds costs a comparison.
pub fn visible(alloc: Global, view: &View, part: &Region) -> Result<Vec<Region>, NoMemory>
    ensures visible { IfOk result (λ regions. AreVisibleIn part.now view.now.drawn regions.items) }
    ensures within { IfOk result (λ regions. AreWithin view.now.drawn regions.items) }
{
    let window = bounds(part);
    let mut shown = show(alloc, view.drawn.as_slice(), &window)?;
    shown.reverse();
    Ok(shown)
}
