//! The order in which layers are drawn, from the back: what a view of the whole tree goes by.
ghost use Rattle.std.specs.Prelude.{◌≡◌, ◌<◌, ◌++◌, ◌∷◌, [], List, slice_index_or, slice_set, length, map, IfOk, IfSome, OnOk, slice_get};
ghost use Rattle.std.specs.BTreeMap.{keys};
ghost use Rattle.std.specs.List.{All};
ghost use Rattle.sf_layer.specs.declared.layer.Layer.{Layer as LayerValue};
ghost use Rattle.sf_layer.specs.declared.parent.Parent.TheVariants as parent;
ghost use Rattle.sf_tree.specs.DrawOrder.{draw, draw_order, draw_parent, drawn_with, is_behind};
ghost use Rattle.sf_tree.specs.Kept.{HasNoCycle, IsDistinct, IsTied};
ghost use Rattle.sf_tree.specs.inner.Known.{AtPlaces, drawn_on_side, is_on_side, IsBelow, IsSortedBelow, lists_of, showing, SortsOneMore, with_place};
ghost use Rattle.sf_tree.specs.Showing.{shows};

use crate::layers::Layers;
use crate::showing::showing;
use sf_base::{LayerId, NoMemory};
use sf_layer::{Layer, Parent};
use std::alloc::Global;
use std::collections::BTreeMap;

/// The places in keys of z and place, in the keys' order.
fn places(alloc: Global, sorted: &BTreeMap<(i32, usize), ()>) -> Result<Vec<usize>, NoMemory>
    ensures { IfOk result (λ list. list.items ≡ map (λ key. key.1) (keys sorted.now)) }
{
    Ok(sorted.keys().map(|key| key.1).collect(alloc)?)
}

/// The places of the layers that show, by creation, where none has a lower z than an older one; so
/// they stand by z too.
fn by_creation(
    alloc: Global,
    layers: &Layers,
    flags: &[bool],
) -> Result<Option<Vec<usize>>, NoMemory>
    requires { flags.now ≡ map (shows layers.now) layers.now }
    ensures { IfOk result (λ made. IfSome made (λ list. AtPlaces layers.now list.items (showing layers.now))) }
{
    let mut list: Vec<usize> = Vec::new(alloc);
    let mut above = i32::MAX;
    let mut place = flags.len();
    while place > 0 {
        place -= 1;
        if !flags[place] {
            continue;
        }
        let z = layers.at(place).z;
        if z > above {
            return Ok(None);
        }
        list.push(place)?;
        above = z;
    }
    list.reverse();
    Ok(Some(list))
}

/// The places of the layers that show, by z, and by creation where z is equal.
fn by_z(alloc: Global, layers: &Layers, flags: &[bool]) -> Result<Vec<usize>, NoMemory>
    requires { flags.now ≡ map (shows layers.now) layers.now }
    ensures { IfOk result (λ list. AtPlaces layers.now list.items (showing layers.now)) }
{
    if let Some(list) = by_creation(alloc, layers, flags)? {
        return Ok(list);
    }
    let mut sorted: BTreeMap<(i32, usize), ()> = BTreeMap::new(alloc);
    let mut place = flags.len();
    while place > 0 {
        place -= 1;
        if flags[place] {
            sorted.insert((layers.at(place).z, place), ())?;
        }
    }
    places(alloc, &sorted)
}

// The places of the layers that are drawn with the root, and with each layer, by its place.
#[derive(Drop)]
struct Below {
    roots: Vec<usize>,
    lists: Vec<Vec<usize>>,
}

impl Below {
    fn new(alloc: Global, layers: usize) -> Result<Below, NoMemory>
        ensures roots { IfOk result (λ below. below.roots.items ≡ []) }
        ensures size { IfOk result (λ below. length below.lists.items ≡ layers) }
        ensures lists { IfOk result (λ below. All (λ list. list.items ≡ []) below.lists.items) }
    {
        let mut lists: Vec<Vec<usize>> = Vec::new(alloc);
        while lists.len() < layers {
            lists.push(Vec::new(alloc))?;
        }
        Ok(Below {
            roots: Vec::new(alloc),
            lists,
        })
    }

    /// One more layer goes to the end of those that are drawn with what it is drawn with.
    fn add(&mut self, layers: &Layers, place: usize) -> Result<(), NoMemory>
        requires inside { place < length layers.now }
        requires size { length self.old.lists.items ≡ length layers.now }
        ensures { OnOk result (SortsOneMore layers.now place self.old self.new) }
    {
        match draw_parent(&layers.at(place)) {
            Parent::Root => {
                self.roots.push(place)?;
                Ok(())
            }
            Parent::Layer(id) => match layers.index_of(id) {
                Some(with) => self.push(with, place),
                None => Ok(()),
            },
            Parent::Nothing => Ok(()),
        }
    }

    /// One more place goes to the end of the layers that are drawn with the one at a place.
    fn push(&mut self, with: usize, place: usize) -> Result<(), NoMemory>
        requires { with < length self.old.lists.items }
        ensures roots { self.new.roots.items ≡ self.old.roots.items }
        ensures lists { OnOk result (lists_of self.new ≡ with_place (lists_of self.old) with place) }
    {
        let list = &mut self.lists[with];
        list.push(place)?;
        Ok(())
    }
}

/// What a layer is drawn with: its relative layer, if it has one, or else its parent.
fn draw_parent(layer: &Layer) -> Parent
    ensures { result ≡ draw_parent layer.now }
{
    match layer.relative {
        Some(id) => Parent::Layer(id),
        None => layer.parent,
    }
}

/// The layers at these places, by what they are drawn with.
fn sorted_below(alloc: Global, layers: &Layers, places: &[usize]) -> Result<Below, NoMemory>
    requires { AtPlaces layers.now places.now (showing layers.now) }
    ensures { IfOk result (λ below. IsSortedBelow layers.now (showing layers.now) below.roots.items (lists_of below)) }
{
    let mut below = Below::new(alloc, layers.len())?;
    for place in places {
        below.add(layers, *place)?;
    }
    Ok(below)
}

/// Whether a layer lies behind what it is drawn with, or does not.
fn is_on_side(layer: &Layer, behind: bool) -> bool
    ensures { result ≡ is_on_side behind layer.now }
{
    let is_behind = layer.z < 0;
    if behind { is_behind } else { !is_behind }
}

/// Draws the layer at a place with all that is drawn with it. The steps bound how far down.
#[cycle(draw)]
#[tactic(auto, unfolding(crate::specs::inner::Known::showing))]
fn draw(
    layers: &Layers,
    lists: &[Vec<usize>],
    place: usize,
    steps: usize,
    order: &mut Vec<LayerId>,
) -> Result<(), NoMemory>
    requires inside { place < length layers.now }
    requires lists { IsBelow layers.now (showing layers.now) (map (λ list. list.items) lists.now) }
    ensures { OnOk result ((layer : LayerValue) → slice_get layers.now place ≡ Some layer →
        order.new.items ≡ order.old.items ++ draw (showing layers.now) steps layer) }
{
    if steps == 0 {
        return Ok(());
    }
    draw_side(layers, lists, &lists[place], true, steps - 1, order)?;
    order.push(layers.at(place).number)?;
    draw_side(layers, lists, &lists[place], false, steps - 1, order)
}

/// Draws of the layers at these places those that lie behind what they are drawn with, or the
/// others.
#[cycle(draw)]
fn draw_side(
    layers: &Layers,
    lists: &[Vec<usize>],
    places: &[usize],
    behind: bool,
    steps: usize,
    order: &mut Vec<LayerId>,
) -> Result<(), NoMemory>
    requires lists { IsBelow layers.now (showing layers.now) (map (λ list. list.items) lists.now) }
    requires places { (list : List LayerValue) × AtPlaces layers.now places.now list }
    ensures { OnOk result ((list : List LayerValue) → AtPlaces layers.now places.now list →
        order.new.items ≡ order.old.items ++ drawn_on_side layers.now steps behind list) }
{
    for place in places {
        if !is_on_side(&layers.at(*place), behind) {
            continue;
        }
        draw(layers, lists, *place, steps, order)?;
    }
    Ok(())
}

/// The layers that show, from the back.
pub fn draw_order(alloc: Global, layers: &Layers) -> Result<Vec<LayerId>, NoMemory>
    requires distinct { IsDistinct layers.now }
    requires tied { All (IsTied layers.now) layers.now }
    requires no_cycle { HasNoCycle layers.now }
    ensures { IfOk result (λ order. order.items ≡ draw_order layers.now) }
{
    let flags = showing(alloc, layers)?;
    let places = by_z(alloc, layers, &flags)?;
    let below = sorted_below(alloc, layers, &places)?;
    let mut order = Vec::new(alloc);
    for place in &below.roots {
        draw(layers, &below.lists, *place, layers.len(), &mut order)?;
    }
    Ok(order)
}
