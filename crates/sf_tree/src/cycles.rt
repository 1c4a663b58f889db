//! Whether a layer would reach itself by parents or relative layers, which a change is rejected
//! for.
ghost use Rattle.std.specs.Prelude.{◌≡◌, ◌==◌, ℕ, ◌+◌, ◌<◌, ◌∷◌, [], List, length, true, false, IfOk, IfSome, IsSomeAnd, option_to_list, slice_index_or};
ghost use Rattle.std.specs.List.{All, list_any};
ghost use Rattle.sf_base.specs.declared.ids.LayerId.{LayerId as LayerIdValue};
ghost use Rattle.sf_layer.specs.declared.layer.Layer.{Layer as LayerValue};
ghost use Rattle.sf_tree.specs.Layers.{index_of};
ghost use Rattle.sf_tree.specs.Steps.{reaches, reaches_itself, to_parent};
ghost use Rattle.sf_tree.specs.inner.Search.{Grows, IsExplored, IsSearch, KeepsSearch, leads_to, relative_along, steps_along};

use crate::layers::Layers;
use sf_base::{LayerId, NoMemory};
use sf_layer::{Layer, Parent};
use std::alloc::Global;

// Which steps from a layer count.
#[derive(Clone, Copy)]
pub enum Along {
    // To its parent.
    Parents,
    // To its parent and to the layer that it is relative to.
    All,
}

fn parent_step(layer: &Layer) -> Option<LayerId>
    ensures { option_to_list result ≡ to_parent layer.now.parent }
{
    match layer.parent {
        Parent::Layer(id) => Some(id),
        Parent::Root | Parent::Nothing => None,
    }
}

/// The layer with which this one is drawn, where such steps count.
fn relative_step(layer: &Layer, along: Along) -> Option<LayerId>
    ensures { result ≡ relative_along along layer.now }
{
    match along {
        Along::Parents => None,
        Along::All => layer.relative,
    }
}

/// Whether there is a step from a layer.
#[tactic(auto, using(crate::proofs::UnreachedLayers::no_step))]
fn has_step(layer: &Layer, along: Along) -> bool
    ensures { result ≡ false → steps_along along layer.now ≡ [] }
{
    if parent_step(layer).is_some() {
        return true;
    }
    relative_step(layer, along).is_some()
}

/// Whether a step, if there is one, leads to the layer of a number.
fn is_step_to(next: Option<LayerId>, id: LayerId) -> bool
    ensures { result ≡ list_any (λ other. other.0 == id.0) (option_to_list next) }
{
    match next {
        Some(other) => other.0 == id.0,
        None => false,
    }
}

/// Whether a step from a layer does.
#[tactic(auto, using(crate::proofs::UnreachedLayers::led_by_no_step))]
fn leads_to(layer: &Layer, along: Along, id: LayerId) -> bool
    ensures { result ≡ false → leads_to along id layer.now ≡ false }
{
    if is_step_to(parent_step(layer), id) {
        return true;
    }
    is_step_to(relative_step(layer, along), id)
}

/// Whether a step from any of these layers does.
fn any_leads_to(layers: &[Layer], along: Along, id: LayerId) -> bool
    ensures { result ≡ false → All (λ layer. leads_to along id layer ≡ false) layers.now }
{
    for layer in layers {
        if leads_to(layer, along, id) {
            return true;
        }
    }
    false
}

// What a search along steps from a layer has found.
#[derive(Drop)]
struct Search {
    // The layers that were reached, in the order in which they were.
    found: Vec<LayerId>,
    // Whether the layer at a place was reached.
    marks: Vec<bool>,
}

impl Search {
    /// A search that has reached the first layer alone.
    fn from(
        alloc: Global,
        layers: &Layers,
        first: LayerId,
        place: usize,
    ) -> Result<Search, NoMemory>
        requires { index_of layers.now first ≡ Some place }
        ensures search { IfOk result (λ search. (steps : LayerValue → List LayerIdValue) →
            IsSearch steps layers.now first search.found.items search.marks.items) }
        ensures first { IfOk result (λ search. search.found.items ≡ first ∷ []) }
    {
        let mut marks = vec![in alloc; false; layers.len()]?;
        marks[place] = true;
        let mut found = Vec::new(alloc);
        found.push(first)?;
        Ok(Search { found, marks })
    }

    /// Follows a step: whether it leads to the first layer.
    fn follow(
        &mut self,
        layers: &Layers,
        first: LayerId,
        next: Option<LayerId>,
    ) -> Result<bool, NoMemory>
        requires { length self.old.marks.items ≡ length layers.now }
        ensures back { result ≡ Ok true → IsSomeAnd next (λ id. id.0 ≡ first.0) }
        ensures grows { result ≡ Ok false → Grows self.old.found.items self.new.found.items }
        ensures on { result ≡ Ok false → KeepsSearch layers.now first next
            self.old.found.items self.old.marks.items self.new.found.items self.new.marks.items }
    {
        let Some(next) = next else {
            return Ok(false);
        };
        if next.0 == first.0 {
            return Ok(true);
        }
        let Some(place) = layers.index_of(next) else {
            return Ok(false);
        };
        if self.marks[place] {
            return Ok(false);
        }
        self.found.push(next)?;
        self.marks[place] = true;
        Ok(false)
    }

    /// Follows the steps from the layer that was found at an index: whether one leads to the first
    /// layer.
    fn explore(
        &mut self,
        layers: &Layers,
        first: LayerId,
        along: Along,
        index: usize,
    ) -> Result<bool, NoMemory>
        requires inside { index < length self.old.found.items }
        requires search { IsSearch (steps_along along) layers.now first self.old.found.items self.old.marks.items }
        ensures back { result ≡ Ok true → reaches (steps_along along) layers.now (index + 1) first first ≡ true }
        ensures grows { result ≡ Ok false → Grows self.old.found.items self.new.found.items }
        ensures search { result ≡ Ok false → IsSearch (steps_along along) layers.now first self.new.found.items self.new.marks.items }
        ensures explored { result ≡ Ok false → (d : LayerIdValue) → IsExplored (steps_along along) layers.now first
            self.new.found.items (slice_index_or self.old.found.items index d) }
    {
        let from = self.found[index];
        let Some(place) = layers.index_of(from) else {
            return Ok(false);
        };
        let layer = layers.at(place);
        if self.follow(layers, first, parent_step(&layer))? {
            return Ok(true);
        }
        self.follow(layers, first, relative_step(&layer, along))
    }
}

// How many layers a search explores before it looks whether a step leads back at all.
const MOST_BLIND: usize = 16;

/// Whether a layer reaches itself by one step or more.
#[tactic(auto, unfolding(crate::specs::Steps::reaches_itself))]
pub fn reaches_itself(
    alloc: Global,
    layers: &Layers,
    id: LayerId,
    along: Along,
) -> Result<bool, NoMemory>
    ensures { IfOk result (λ back. back ≡ reaches_itself (steps_along along) layers.now id) }
{
    let Some(place) = layers.index_of(id) else {
        return Ok(false);
    };
    if !has_step(&layers.at(place), along) {
        return Ok(false);
    }
    let mut search = Search::from(alloc, layers, id, place)?;
    let mut index = 0;
    while index < search.found.len() {
        if index == MOST_BLIND && !any_leads_to(layers.as_slice(), along, id) {
            return Ok(false);
        }
        if search.explore(layers, id, along, index)? {
            return Ok(true);
        }
        index += 1;
    }
    Ok(false)
}
