//! The layers in the order of their creation, found by their numbers.
ghost use Rattle.std.specs.Prelude.{◌≡◌, ◌<◌, ◌-◌, ◌++◌, ◌∷◌, [], List, length, map, take, IfOk, OnOk, OnErr, slice_get, slice_set, slice_index_or};
ghost use Rattle.sf_tree.specs.Layers.{index_of, has_layer, has_parent};
ghost use Rattle.sf_tree.specs.Changes.{without, without_steps_to};
ghost use Rattle.sf_tree.specs.Index.{IsIndexed, StandsUpTo};
ghost use Rattle.sf_tree.specs.Kept.{IsDistinct};

use sf_base::{LayerId, NoMemory};
use sf_layer::{Layer, Parent};
use std::alloc::Global;
use std::collections::BTreeMap;
use std::marker::Model;

// Layers in the order of their creation, with an index of their places by number. Contracts see
// the list.
pub struct Layers {
    list: Vec<Layer>,
    // No layer stands after its place here. It stands before it where older layers were removed
    // since the place was noted.
    places: BTreeMap<u32, usize>,
    // How many layers were removed since all places were noted.
    removed: usize,
}

// How far a layer may stand before its noted place at the end of a transaction.
const MOST_REMOVED: usize = 16;

impl Model for Layers {
    ghost use Rattle.std.specs.Prelude.{List};
    ghost use Rattle.sf_layer.specs.declared.layer.Layer.{Layer};
    ghost use Rattle.sf_tree.specs.Index.{IsIndexed};

    ghost Value = { List Layer };

    ghost view = { λ s. s.list.items };

    ghost invariant = { λ s. IsIndexed s.list.items s.places };
}

impl Layers {
    pub fn new(alloc: Global) -> Layers
        ensures { result ≡ [] }
    {
        Layers {
            list: Vec::new(alloc),
            places: BTreeMap::new(alloc),
            removed: 0,
        }
    }

    pub fn as_slice(&self) -> &[Layer]
        ensures value { result.now ≡ self.now }
        ensures distinct { IsDistinct self.now }
    {
        &self.list
    }

    pub fn len(&self) -> usize
        ensures { result ≡ length self.now }
    {
        self.list.len()
    }

    pub fn index_of(&self, id: LayerId) -> Option<usize>
        ensures place { result ≡ index_of self.now id }
        ensures distinct { IsDistinct self.now }
    {
        match self.places.get(&id.0) {
            Some(place) => Some(place_up_to(&self.list, id, *place)),
            None => None,
        }
    }

    /// The layer at a place.
    pub fn at(&self, place: usize) -> Layer
        requires { place < length self.now }
        ensures { slice_get self.now place ≡ Some result }
    {
        self.list[place]
    }

    /// Whether a layer that is named as a parent is there.
    pub fn has_parent(&self, parent: Parent) -> bool
        ensures { result ≡ has_parent self.now parent }
    {
        match parent {
            Parent::Root | Parent::Nothing => true,
            Parent::Layer(id) => self.has(id),
        }
    }

    #[tactic(auto, using(crate::proofs::Lookups::lookups))]
    pub fn has(&self, id: LayerId) -> bool
        ensures { result ≡ has_layer self.now id }
    {
        self.index_of(id).is_some()
    }

    /// The layer is the newest then.
    pub fn push(&mut self, layer: Layer) -> Result<(), NoMemory>
        requires { index_of self.old layer.number ≡ None }
        ensures ok { OnOk result (self.new ≡ self.old ++ layer ∷ []) }
        ensures err { OnErr result (self.new ≡ self.old) }
    {
        let place = self.list.len();
        self.list.push(layer)?;
        match self.places.insert(layer.number.0, place) {
            Ok(_) => Ok(()),
            Err(_) => {
                self.list.pop();
                Err(NoMemory)
            }
        }
    }

    /// The newest layer goes.
    pub fn pop(&mut self)
        ensures { self.new ≡ take (length self.old - 1) self.old }
    {
        if let Some(layer) = self.list.pop() {
            self.places.remove(&layer.number.0);
        }
    }

    /// Another state of the layer at a place.
    pub fn set(&mut self, place: usize, layer: Layer)
        requires inside { place < length self.old }
        requires same { (slice_index_or self.old place layer).number ≡ layer.number }
        ensures { self.new ≡ slice_set self.old place layer }
    {
        self.list[place] = layer;
    }

    /// A copy of all layers.
    pub fn copy(&self, alloc: Global) -> Result<Layers, NoMemory>
        ensures { IfOk result (λ copy. copy ≡ self.now) }
    {
        let mut list = Vec::new(alloc);
        list.extend_from_slice(&self.list)?;
        let places = self.places.clone()?;
        Ok(Layers {
            list,
            places,
            removed: self.removed,
        })
    }

    /// The layer of a number, which stands at this place, goes. The places of the newer ones
    /// are noted by `note_places`.
    pub fn remove(&mut self, id: LayerId, place: usize)
        requires { index_of self.old id ≡ Some place }
        ensures { self.new ≡ without id self.old }
    {
        self.places.remove(&id.0);
        self.list.remove(place);
        clear_steps_to(&mut self.list, id);
        self.removed = self.removed.saturating_add(1);
    }

    /// Notes the places of all layers, once many were removed.
    pub fn note_places(&mut self)
        ensures { self.new ≡ self.old }
    {
        if self.removed > MOST_REMOVED {
            note_places(&mut self.places, &self.list);
            self.removed = 0;
        }
    }
}

/// The place of the layer of a number, which stands at this one or before it.
fn place_up_to(list: &[Layer], id: LayerId, bound: usize) -> usize
    requires distinct { IsDistinct list.now }
    requires bound { StandsUpTo list.now id bound }
    ensures { index_of list.now id ≡ Some result }
{
    let mut place = bound.min(list.len() - 1);
    while list[place].number.0 != id.0 {
        place -= 1;
    }
    place
}

fn note_places(places: &mut BTreeMap<u32, usize>, list: &[Layer])
    requires { IsIndexed list.now places.old }
    ensures { IsIndexed list.now places.new }
{
    for place in 0..list.len() {
        note_place(places, list, place);
    }
}

fn note_place(places: &mut BTreeMap<u32, usize>, list: &[Layer], place: usize)
    requires inside { place < length list.now }
    requires indexed { IsIndexed list.now places.old }
    ensures { IsIndexed list.now places.new }
{
    match places.insert(list[place].number.0, place) {
        Ok(_) => {}
        // The number is noted already, so this takes no memory.
        Err(_) => {}
    }
}

/// No layer has this one as parent or is relative to it any more.
fn clear_steps_to(list: &mut [Layer], id: LayerId)
    ensures { list.new ≡ map (without_steps_to id) list.old }
{
    for layer in list.iter_mut() {
        clear_steps(layer, id);
    }
}

/// A layer that had the destroyed one as its parent, or was drawn with it, has none any more.
fn clear_steps(layer: &mut Layer, id: LayerId)
    ensures { layer.new ≡ without_steps_to id layer.old }
{
    if let Parent::Layer(other) = layer.parent
        && other.0 == id.0
    {
        layer.parent = Parent::Nothing;
    }
    if let Some(other) = layer.relative
        && other.0 == id.0
    {
        layer.relative = None;
    }
}

impl Drop for Layers {
    fn drop(self) {
        let Layers {
            list: _,
            places: _,
            removed: _,
        } = self;
    }
}
