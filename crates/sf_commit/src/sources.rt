//! For each drawn layer of a view, which of the buffers on layers has its pixels: composing finds
//! them by this.
ghost use Rattle.std.specs.BTreeMap.{get};
ghost use Rattle.std.specs.List.{position};
ghost use Rattle.std.specs.Option.{IfSome, unwrap_or};
ghost use Rattle.std.specs.Ordering.{nat_cmp};
ghost use Rattle.std.specs.Prelude.{◌≡◌, ◌↔◌, ℕ, IfOk, IsTrue, map};
ghost use Rattle.sf_commit.specs.Handlers.{source_of};
ghost use Rattle.sf_commit.specs.OnLayers.{IsPlaceOf, is_on};

use crate::opening::Reading;
use sf_base::{LayerId, NoMemory};
use sf_commit_next::Lease;
use sf_view::Drawn;
use sf_view::sf_layer::Shown;
use std::alloc::Global;
use std::collections::BTreeMap;

// Up to so many drawn layers or buffers are few: to look for them costs less than a map of all places.
const FEW: usize = 16;

/// The place of a layer's buffer, if it shows one.
fn index_of<L: Lease>(on: &[Reading<L>], layer: LayerId) -> Option<usize>
    ensures { result ≡ position (is_on layer) on.now }
{
    on.iter().position(|one| one.layer.0 == layer.0)
}

/// Whether this is the buffer that a layer shows, with the same picture and crop.
fn is_shown<L: Lease>(one: &Reading<L>, shown: &Shown) -> bool
    ensures { IsTrue result ↔ (one.now.shown ≡ shown.now) }
{
    one.shown == *shown
}

/// The place of just this buffer, with its picture and its crop, if a layer shows it.
pub(crate) fn index_of_shown<L: Lease>(on: &[Reading<L>], shown: &Shown) -> Option<usize>
    ensures { IsPlaceOf shown.now on.now result }
{
    for place in 0..on.len() {
        let one = &on[place];
        if is_shown(one, shown) {
            return Some(place);
        }
    }
    None
}

/// The place as 32 bits, or 0 where there is none. A place beyond 32 bits is more than memory can have.
fn source_at(place: Option<usize>) -> Result<u32, NoMemory>
    ensures { IfOk result (λ source. source ≡ unwrap_or place 0) }
{
    match place {
        Some(place) => match u32::try_from(place) {
            Ok(source) => Ok(source),
            Err(_) => Err(NoMemory),
        },
        None => Ok(0),
    }
}

/// The place of each layer's buffer, by the layer's number. Of several buffers the first counts.
fn places_of<L: Lease>(alloc: Global, on: &[Reading<L>]) -> Result<BTreeMap<u32, usize>, NoMemory>
    ensures { IfOk result (λ places. (number : ℕ) → get nat_cmp places number ≡ position (is_on (record { 0 = number })) on.now) }
{
    let mut places = BTreeMap::new(alloc);
    let mut place = on.len();
    while place > 0 {
        place -= 1;
        let one = &on[place];
        places.insert(one.layer.0, place)?;
    }
    Ok(places)
}

/// The places by layer, where there are many drawn layers to look for, among many.
fn places_for<L: Lease>(
    alloc: Global,
    drawn: &[Drawn],
    on: &[Reading<L>],
) -> Result<Option<BTreeMap<u32, usize>>, NoMemory>
    ensures { IfOk result (λ made. IfSome made (λ places. (number : ℕ) → get nat_cmp places number ≡ position (is_on (record { 0 = number })) on.now)) }
{
    if drawn.len() <= FEW || on.len() <= FEW {
        return Ok(None);
    }
    Ok(Some(places_of(alloc, on)?))
}

/// The place of a layer's buffer, if it shows one: by the places of all, where they are known.
fn place_of<L: Lease>(
    places: &Option<BTreeMap<u32, usize>>,
    on: &[Reading<L>],
    layer: LayerId,
) -> Option<usize>
    requires { IfSome places.now (λ places. (number : ℕ) → get nat_cmp places number ≡ position (is_on (record { 0 = number })) on.now) }
    ensures { result ≡ position (is_on layer) on.now }
{
    match places {
        Some(places) => places.get(&layer.0).copied(),
        None => index_of(on, layer),
    }
}

/// For each drawn layer the place of its buffer among those on layers.
pub(crate) fn sources<L: Lease>(
    alloc: Global,
    drawn: &[Drawn],
    on: &[Reading<L>],
) -> Result<Vec<u32>, NoMemory>
    ensures { IfOk result (λ sources. sources.items ≡ map (source_of on.now) drawn.now) }
{
    let made = places_for(alloc, drawn, on)?;
    let places = &made;
    let mut sources = Vec::new(alloc);
    for one in drawn {
        sources.push(source_at(place_of(places, on, one.layer))?)?;
    }
    Ok(sources)
}
