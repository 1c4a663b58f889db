//! Where two lists of drawn layers can differ at all: the clips of layers that came, went or
//! changed.
ghost use Rattle.std.specs.List.{All};
ghost use Rattle.std.specs.Prelude.{◌≡◌, ◌++◌, ℤ, IfOk, OnOk, false, map};
ghost use Rattle.sf_region.specs.Points.{IsInBounds, has};
ghost use Rattle.sf_damage.specs.Damage.{AreNear, IsSameBeside, clip_of, stack_in};

use crate::gathered::region_of;
use crate::same::is_same;
use sf_base::{NoMemory, Rect};
use sf_region::Region;
use sf_view::Drawn;
use std::alloc::Global;
use std::collections::BTreeMap;

/// Where the layer of each number stands in a list.
fn places_of(alloc: Global, layers: &[Drawn]) -> Result<BTreeMap<u32, usize>, NoMemory> {
    let mut places = BTreeMap::new(alloc);
    for (place, drawn) in layers.iter().enumerate() {
        places.insert(drawn.layer.0, place)?;
    }
    Ok(places)
}

/// How many layers stand before the one that is the same as this, from a place on, if one is.
fn steps_to(
    places: &BTreeMap<u32, usize>,
    layers: &[Drawn],
    from: usize,
    drawn: &Drawn,
) -> Option<usize> {
    let place = *places.get(&drawn.layer.0)?;
    let there = layers.get(place)?;
    if place >= from && is_same(there, drawn) {
        Some(place - from)
    } else {
        None
    }
}

/// Whether a layer that came is nearer than one that went: the old layer is found again behind fewer new
/// ones than the new layer behind old ones.
fn came(old_steps: Option<usize>, new_steps: Option<usize>) -> bool {
    match (old_steps, new_steps) {
        (Some(old), Some(new)) => old <= new,
        (None, Some(_)) => false,
        (_, None) => true,
    }
}

/// Appends the clips of these layers.
fn push_clips(clips: &mut Vec<Rect>, layers: &[Drawn]) -> Result<(), NoMemory>
    ensures { OnOk result (clips.new.items ≡ clips.old.items ++ map clip_of layers.now) }
{
    for drawn in layers {
        clips.push(drawn.clip)?;
    }
    Ok(())
}

/// The clips of the layers that are left over where two lists are gone through together. A layer that
/// came, went, changed or stands at another place in the order is left over; the others are found again,
/// in their order.
fn left_over(alloc: Global, olds: &[Drawn], news: &[Drawn]) -> Result<Vec<Rect>, NoMemory>
    requires olds { AreNear olds.now }
    requires news { AreNear news.now }
    ensures near { IfOk result (λ clips. All IsInBounds clips.items) }
    ensures same { IfOk result (λ clips. IsSameBeside olds.now news.now clips.items) }
{
    let old_places = places_of(alloc, olds)?;
    let new_places = places_of(alloc, news)?;
    let mut clips = Vec::new(alloc);
    let mut old_at = 0;
    let mut new_at = 0;
    while old_at < olds.len() && new_at < news.len() {
        let old = &olds[old_at];
        let new = &news[new_at];
        if is_same(old, new) {
            old_at += 1;
            new_at += 1;
        } else if came(
            steps_to(&new_places, news, new_at, old),
            steps_to(&old_places, olds, old_at, new),
        ) {
            clips.push(new.clip)?;
            new_at += 1;
        } else {
            clips.push(old.clip)?;
            old_at += 1;
        }
    }
    push_clips(&mut clips, &olds[old_at..])?;
    push_clips(&mut clips, &news[new_at..])?;
    Ok(clips)
}

/// A region beside which two lists of drawn layers have the same stacks. Where one layer stands for one,
/// no layer is looked for.
pub fn changes(alloc: Global, olds: &[Drawn], news: &[Drawn]) -> Result<Region, NoMemory>
    requires olds { AreNear olds.now }
    requires news { AreNear news.now }
    ensures { IfOk result (IsSameBeside olds.now news.now) }
{
    if olds.len() == 1 && news.len() == 1 {
        return region_of(alloc, &[olds[0].clip, news[0].clip]);
    }
    let clips = left_over(alloc, olds, news)?;
    region_of(alloc, &clips)
}
