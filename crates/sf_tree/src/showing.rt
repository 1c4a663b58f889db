//! Which layers show: those that are not hidden, where what they hang from shows, and what they are
//! relative to.
ghost use Rattle.std.specs.Prelude.{◌≡◌, ◌+◌, ◌<◌, length, map, IfOk, slice_get};
ghost use Rattle.std.specs.List.{All};
ghost use Rattle.sf_layer.specs.declared.layer.Layer.{Layer as LayerValue};
ghost use Rattle.sf_tree.specs.Kept.{HasNoCycle, IsDistinct, IsTied};
ghost use Rattle.sf_tree.specs.Layers.{layer_of};
ghost use Rattle.sf_tree.specs.Showing.{passes, shows, shows_by};
ghost use Rattle.sf_tree.specs.inner.Known.{IsKnown, Outranks};

use crate::layers::Layers;
use sf_base::{LayerId, NoMemory};
use sf_layer::{Layer, Parent};
use std::alloc::Global;

/// Whether the layers show, by place.
pub fn showing(alloc: Global, layers: &Layers) -> Result<Vec<bool>, NoMemory>
    requires distinct { IsDistinct layers.now }
    requires tied { All (IsTied layers.now) layers.now }
    requires no_cycle { HasNoCycle layers.now }
    ensures { IfOk result (λ list. list.items ≡ map (shows layers.now) layers.now) }
{
    let mut known = vec![in alloc; None; layers.len()]?;
    let mut list = Vec::new(alloc);
    for place in 0..layers.len() {
        list.push(show(layers, &mut known, place, layers.len()))?;
    }
    Ok(list)
}

/// Whether the layer at a place shows. What was found out of other layers on the way is noted.
/// The steps bound how far parents and relative layers are followed.
#[cycle(show)]
fn show(layers: &Layers, known: &mut [Option<bool>], place: usize, steps: usize) -> bool
    requires inside { place < length layers.now }
    requires known { IsKnown layers.now known.old }
    requires steps { (layer : LayerValue) → slice_get layers.now place ≡ Some layer → Outranks layers.now layer (steps + 1) }
    ensures shown { (layer : LayerValue) → slice_get layers.now place ≡ Some layer → result ≡ shows layers.now layer }
    ensures known { IsKnown layers.now known.new }
{
    if let Some(shown) = known[place] {
        return shown;
    }
    let shown = decide(layers, known, &layers.at(place), steps);
    known[place] = Some(shown);
    shown
}

/// Whether a layer shows: it is not hidden, its parent is the root or shows, and so does the layer
/// with which it is drawn, if there is one.
#[cycle(show)]
fn decide(layers: &Layers, known: &mut [Option<bool>], layer: &Layer, steps: usize) -> bool
    requires known { IsKnown layers.now known.old }
    requires steps { Outranks layers.now layer.now (steps + 1) }
    ensures shown { result ≡ shows_by layers.now (shows layers.now) layer.now }
    ensures known { IsKnown layers.now known.new }
{
    if layer.hidden {
        return false;
    }
    let hangs = match layer.parent {
        Parent::Root => true,
        Parent::Layer(id) => layer_shows(layers, known, id, steps),
        Parent::Nothing => false,
    };
    if !hangs {
        return false;
    }
    match layer.relative {
        None => true,
        Some(id) => layer_shows(layers, known, id, steps),
    }
}

/// Whether the layer of a number is there and shows.
#[cycle(show)]
fn layer_shows(layers: &Layers, known: &mut [Option<bool>], id: LayerId, steps: usize) -> bool
    requires known { IsKnown layers.now known.old }
    requires steps { (layer : LayerValue) → layer_of layers.now id ≡ Some layer → Outranks layers.now layer steps }
    ensures shown { result ≡ passes (shows layers.now) (layer_of layers.now id) }
    ensures known { IsKnown layers.now known.new }
{
    match layers.index_of(id) {
        Some(place) => show(layers, known, place, steps - 1),
        None => false,
    }
}
