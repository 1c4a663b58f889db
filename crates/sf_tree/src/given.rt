//! A tree of given layers, as captures and mirrors make one: whether no two have one number, and no
//! layer reaches itself.
ghost use Rattle.std.specs.Prelude.{◌≡◌, ℕ, ◌+◌, ◌<◌, ◌≤◌, length, Ok, true, false, IfOk, IfSome, IfNone, slice_index_or, slice_set};
ghost use Rattle.std.specs.List.{All};
ghost use Rattle.sf_tree.specs.Kept.{HasNoCycle, IsDistinct, IsRanked, IsTied};
ghost use Rattle.sf_tree.specs.Layers.{has_layer};
ghost use Rattle.sf_tree.specs.inner.Ranking.{rank_by, HasLower, LeadsLower, AllLeadLower, FindsBelow, FindsRank, IsSound, IsFound, KeepsRanks};

use crate::layers::Layers;
use sf_base::{LayerId, NoMemory};
use sf_layer::{Layer, Parent};
use std::alloc::Global;

/// These layers in their order; none exactly where two of them have one number.
#[tactic(auto, using(crate::proofs::Lookups::lookups))]
pub fn layers_of(alloc: Global, list: &[Layer]) -> Result<Option<Layers>, NoMemory>
    ensures made { IfOk result (λ made. IfSome made (λ layers. layers ≡ list.now)) }
    ensures none { IfOk result (λ made. IfNone made (IsDistinct list.now → ⊥)) }
{
    let mut layers = Layers::new(alloc);
    for layer in list {
        if layers.has(layer.number) {
            return Ok(None);
        }
        layers.push(*layer)?;
    }
    Ok(Some(layers))
}

/// The rank of the layer at a place: where no layer reaches itself, it is greater than those of the
/// layers that its steps lead to. A rank that was found is noted, 0 is none. The steps bound how far
/// parents and relative layers are followed: more than the layer's rank in any ranking by which all
/// steps lead lower are enough to find one.
#[cycle(rank)]
fn rank(layers: &Layers, ranks: &mut [usize], place: usize, steps: usize) -> usize
    requires inside { place < length layers.now }
    requires size { length ranks.old ≡ length layers.now }
    ensures size { length ranks.new ≡ length layers.now }
    ensures kept { KeepsRanks ranks.old ranks.new }
    ensures at { result ≡ slice_index_or ranks.new place 0 }
    ensures found { FindsRank layers.now ranks.old ranks.new place steps result }
{
    if ranks[place] == 0 && steps > 0 {
        let below = rank_below(layers, ranks, &layers.at(place), steps - 1);
        note(ranks, place, below.saturating_add(1));
    }
    ranks[place]
}

/// Notes the rank of the layer at a place, unless it has one: where steps form a cycle, the layer may
/// have been met again meanwhile.
fn note(ranks: &mut [usize], place: usize, rank: usize)
    requires { place < length ranks.old }
    ensures kept { 0 < slice_index_or ranks.old place 0 → ranks.new ≡ ranks.old }
    ensures noted { slice_index_or ranks.old place 0 ≡ 0 → ranks.new ≡ slice_set ranks.old place rank }
{
    if ranks[place] == 0 {
        ranks[place] = rank;
    }
}

/// The greatest rank of the layers that the steps of a layer lead to.
#[cycle(rank)]
fn rank_below(layers: &Layers, ranks: &mut [usize], layer: &Layer, steps: usize) -> usize
    requires { length ranks.old ≡ length layers.now }
    ensures size { length ranks.new ≡ length layers.now }
    ensures kept { KeepsRanks ranks.old ranks.new }
    ensures found { FindsBelow layers.now ranks.old ranks.new layer.now steps result }
{
    let parent = match layer.parent {
        Parent::Layer(id) => rank_of(layers, ranks, id, steps),
        Parent::Root | Parent::Nothing => 0,
    };
    let relative = match layer.relative {
        Some(id) => rank_of(layers, ranks, id, steps),
        None => 0,
    };
    parent.max(relative)
}

/// The rank of the layer of a number; 0 where there is none.
#[cycle(rank)]
fn rank_of(layers: &Layers, ranks: &mut [usize], id: LayerId, steps: usize) -> usize
    requires { length ranks.old ≡ length layers.now }
    ensures size { length ranks.new ≡ length layers.now }
    ensures kept { KeepsRanks ranks.old ranks.new }
    ensures at { result ≡ rank_by layers.now ranks.new id.0 }
    ensures found { (ranking : ℕ → ℕ) → IsSound layers.now ranking ranks.old → has_layer layers.now id ≡ true
        → ranking id.0 < steps → IsFound layers.now ranking ranks.new result }
{
    match layers.index_of(id) {
        Some(place) => rank(layers, ranks, place, steps),
        None => 0,
    }
}

/// Whether the layer of a number is there and has a lower rank than this.
fn is_lower(layers: &Layers, ranks: &[usize], id: LayerId, rank: usize) -> bool
    requires { length ranks.now ≡ length layers.now }
    ensures there { result ≡ true → has_layer layers.now id ≡ true }
    ensures lower { result ≡ true → rank_by layers.now ranks.now id.0 < rank }
    ensures yes { HasLower layers.now ranks.now rank id → result ≡ true }
{
    match layers.index_of(id) {
        Some(place) => ranks[place] < rank,
        None => false,
    }
}

/// Whether the steps of a layer of this rank lead to layers of lower ranks.
fn leads_lower(layers: &Layers, ranks: &[usize], layer: &Layer, rank: usize) -> bool
    requires { length ranks.now ≡ length layers.now }
    ensures tied { result ≡ true → IsTied layers.now layer.now }
    ensures ranked { result ≡ true → rank ≡ rank_by layers.now ranks.now layer.now.number.0 → IsRanked (rank_by layers.now ranks.now) layer.now }
    ensures yes { LeadsLower layers.now ranks.now rank layer.now → result ≡ true }
{
    let parent = match layer.parent {
        Parent::Layer(id) => is_lower(layers, ranks, id, rank),
        Parent::Root | Parent::Nothing => true,
    };
    let relative = match layer.relative {
        Some(id) => is_lower(layers, ranks, id, rank),
        None => true,
    };
    parent && relative
}

/// Whether all steps lead to layers of lower ranks, where the layers have these by their places.
fn all_lead_lower(layers: &Layers, ranks: &[usize]) -> bool
    requires distinct { IsDistinct layers.now }
    requires size { length ranks.now ≡ length layers.now }
    ensures tied { result ≡ true → All (IsTied layers.now) layers.now }
    ensures ranked { result ≡ true → All (IsRanked (rank_by layers.now ranks.now)) layers.now }
    ensures yes { AllLeadLower layers.now ranks.now → result ≡ true }
{
    for place in 0..layers.len() {
        if !leads_lower(layers, ranks, &layers.at(place), ranks[place]) {
            return false;
        }
    }
    true
}

/// Whether all steps lead to layers that are there, and no layer reaches itself. Each layer is looked
/// at once.
pub fn steps_end(alloc: Global, layers: &Layers) -> Result<bool, NoMemory>
    requires distinct { IsDistinct layers.now }
    ensures tied { result ≡ Ok true → All (IsTied layers.now) layers.now }
    ensures no_cycle { result ≡ Ok true → HasNoCycle layers.now }
    ensures no { result ≡ Ok false → All (IsTied layers.now) layers.now → HasNoCycle layers.now → ⊥ }
{
    let mut ranks = vec![in alloc; 0usize; layers.len()]?;
    for place in 0..layers.len() {
        rank(layers, &mut ranks, place, layers.len());
    }
    Ok(all_lead_lower(layers, &ranks))
}
