//! The layer tree as its users hold it: commits apply operations to it, and views read its layers
//! and their order.
ghost use Rattle.std.specs.Prelude.{◌≡◌, ◌≤◌, ◌<◌, [], length, IfOk, IfErr, IfSome, IfNone, OnOk, OnErr, option_copied};
ghost use Rattle.std.specs.List.{All};
ghost use Rattle.sf_layer.specs.Ranges.{IsOperation};
ghost use Rattle.sf_tree.specs.Answers.{IsRejection};
ghost use Rattle.sf_tree.specs.Changes.{after};
ghost use Rattle.sf_tree.specs.DrawOrder.{draw_order};
ghost use Rattle.sf_tree.specs.Kept.{IsLayerInRange, IsOfKind, IsTree};
ghost use Rattle.sf_tree.specs.Layers.{index_of, layer_of};

use crate::apply::{ApplyFault, apply_all};
use crate::given::{layers_of, steps_end};
use crate::layers::Layers;
use crate::order;
use sf_base::{LayerId, NoMemory};
use sf_layer::{Layer, Op};
use std::alloc::Global;
use std::marker::Model;

// How many layers fill a tree that has no limit of its own.
const MOST_LAYERS: u32 = 256;

/// The layers, in the order of their creation, and how many there can be, at most 9,216. No two
/// have one number, parents and relative layers are in the tree, and no layer reaches itself by
/// steps to parents and relative layers. What is no colour layer has the colour that it began with,
/// and what is no buffer layer shows nothing.
pub struct Tree {
    alloc: Global,
    most: u32,
    layers: Layers,
}

impl Model for Tree {
    ghost use Rattle.sf_tree.specs.Trees.{TreeOf};
    ghost use Rattle.sf_tree.specs.Kept.{IsTree};

    ghost Value = { TreeOf };

    ghost view = { λ s. record { layers = s.layers; most = s.most } };

    ghost invariant = { λ s. IsTree s.most s.layers };
}

impl Tree {
    /// A tree without layers, for at most 256.
    pub fn new(alloc: Global) -> Result<Tree, NoMemory>
        ensures { IfOk result (λ tree. tree ≡ record { layers = []; most = 256 }) }
    {
        Tree::with_limit(alloc, MOST_LAYERS)
    }

    /// A tree without layers, for at most so many, which are at most 9,216.
    pub fn with_limit(alloc: Global, most: u32) -> Result<Tree, NoMemory>
        requires { most ≤ 9216 }
        ensures { IfOk result (λ tree. tree ≡ record { layers = []; most = most }) }
    {
        Ok(Tree {
            alloc,
            most,
            layers: Layers::new(alloc),
        })
    }

    /// A tree of these layers, in this order, for at most so many, which are at most 9,216. None
    /// exactly where no tree has them: a number stands twice, a parent or a relative layer is not
    /// among them, or a layer reaches itself.
    pub fn of_layers(alloc: Global, most: u32, list: &[Layer]) -> Result<Option<Tree>, NoMemory>
        requires limit { most ≤ 9216 }
        requires few { length list.now ≤ most }
        requires numbered { All (λ layer. 0 < layer.number.0) list.now }
        requires in_range { All IsLayerInRange list.now }
        requires of_kind { All IsOfKind list.now }
        ensures made { IfOk result (λ made. IfSome made (λ tree. tree ≡ record { layers = list.now; most = most })) }
        ensures none { IfOk result (λ made. IfNone made (IsTree most list.now → ⊥)) }
    {
        let Some(layers) = layers_of(alloc, list)? else {
            return Ok(None);
        };
        if !steps_end(alloc, &layers)? {
            return Ok(None);
        }
        Ok(Some(Tree {
            alloc,
            most,
            layers,
        }))
    }

    /// All layers, in the order of their creation.
    pub fn layers(&self) -> &[Layer]
        ensures value { result.now ≡ self.now.layers }
        ensures kept { IsTree self.now.most self.now.layers }
    {
        self.layers.as_slice()
    }

    /// The layer of a number, if it is in the tree.
    #[tactic(auto, using(crate::proofs::Lookups::lookups))]
    pub fn layer(&self, id: LayerId) -> Option<Layer>
        ensures value { result ≡ layer_of self.now.layers id }
        ensures kept { IsTree self.now.most self.now.layers }
    {
        match self.layers.index_of(id) {
            Some(place) => Some(self.layers.at(place)),
            None => None,
        }
    }

    /// Where the layer of a number stands among the layers, if it is in the tree.
    pub fn index_of(&self, id: LayerId) -> Option<usize>
        ensures value { result ≡ index_of self.now.layers id }
        ensures kept { IsTree self.now.most self.now.layers }
    {
        self.layers.index_of(id)
    }

    /// Does all operations, in order, or none of them: then it returns the first that is rejected,
    /// from 1, and the first cause, by number, to reject it. There are at most 4,294,967,295
    /// operations, each on a layer of a number of 1 or more, with positions, crops and orientations
    /// in their ranges.
    pub fn apply(&mut self, ops: &[(LayerId, Op)]) -> Result<(), ApplyFault>
        requires few { length ops.now ≤ 4294967295 }
        requires in_range { All IsOperation ops.now }
        ensures ok { OnOk result (after self.old ops.now ≡ Ok self.new) }
        ensures rejected { IfErr result (IsRejection (after self.old ops.now)) }
        ensures err { OnErr result (self.new ≡ self.old) }
    {
        apply_all(self.alloc, &mut self.layers, self.most, ops)
    }

    /// The numbers of the layers that show, in the order in which they are drawn, from the back.
    pub fn draw_order(&self) -> Result<Vec<LayerId>, NoMemory>
        ensures { IfOk result (λ order. order.items ≡ draw_order self.now.layers) }
    {
        order::draw_order(self.alloc, &self.layers)
    }
}

impl Drop for Tree {
    fn drop(self) {
        let Tree {
            alloc: _,
            most: _,
            layers: _,
        } = self;
    }
}
