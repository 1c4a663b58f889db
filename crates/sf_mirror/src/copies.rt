//! The copies of layers that a mirror shows, each with its number and in its place below the
//! mirror.
ghost use Rattle.std.specs.List.{All};
ghost use Rattle.sf_base.specs.declared.ids.LayerId.{LayerId as LayerIdValue};
ghost use Rattle.sf_output_shown.specs.sf_layer.declared.layer.Layer.{Layer as LayerValue};
ghost use Rattle.std.specs.Prelude.{◌≡◌, ◌<◌, IfOk, IfSome, is_some, map, true};
ghost use Rattle.sf_output_shown.specs.Copies.{copied, copy_of, parent_of, relative_of};

use sf_base::{LayerId, NoMemory};
use sf_output_shown::ByLayer;
use sf_output_shown::sf_layer::{Layer, Parent};
use std::alloc::Global;

/// The number of a layer's copy, if it has one.
fn copy_of(names: &ByLayer<LayerId>, id: LayerId) -> Option<LayerId>
    ensures value { result ≡ copy_of names.now id }
    ensures positive { All (λ (name : LayerIdValue × LayerIdValue). 0 < name.1.0) names.now → IfSome result (λ copy. 0 < copy.0) }
{
    names.of(id)
}

/// What a copy is relative to, where its layer is relative to this.
fn relative_of(names: &ByLayer<LayerId>, relative: Option<LayerId>) -> Option<LayerId>
    ensures { result ≡ relative_of names.now relative }
{
    match relative {
        Some(id) => copy_of(names, id),
        None => None,
    }
}

/// What a copy hangs from, where its layer hangs from this.
fn parent_of(names: &ByLayer<LayerId>, parent: Parent) -> Parent
    ensures { result ≡ parent_of names.now parent }
{
    match parent {
        Parent::Layer(id) => match copy_of(names, id) {
            Some(copy) => Parent::Layer(copy),
            None => Parent::Nothing,
        },
        Parent::Root | Parent::Nothing => Parent::Nothing,
    }
}

/// The copy of a layer that has a number for it: of the layer that the mirror shows, or of one below
/// it.
fn copied(mirror: LayerId, id: LayerId, names: &ByLayer<LayerId>, layer: &Layer) -> Layer
    requires positive { All (λ (name : LayerIdValue × LayerIdValue). 0 < name.1.0) names.now }
    requires named { is_some (copy_of names.now layer.now.number) ≡ true }
    ensures value { result ≡ copied mirror id names.now layer.now }
    ensures numbered { 0 < result.number.0 }
{
    let Some(number) = copy_of(names, layer.number) else {
        unreachable!();
    };
    if layer.number.0 == id.0 {
        Layer {
            number,
            parent: Parent::Layer(mirror),
            position: (0, 0),
            z: 0,
            relative: None,
            ..*layer
        }
    } else {
        Layer {
            number,
            parent: parent_of(names, layer.parent),
            relative: relative_of(names, layer.relative),
            ..*layer
        }
    }
}

/// The copies of these layers, in their order. There is a number for each.
pub fn copy_all(
    alloc: Global,
    mirror: LayerId,
    id: LayerId,
    names: &ByLayer<LayerId>,
    layers: &[Layer],
) -> Result<Vec<Layer>, NoMemory>
    requires positive { All (λ (name : LayerIdValue × LayerIdValue). 0 < name.1.0) names.now }
    requires named { All (λ (layer : LayerValue). is_some (copy_of names.now layer.number) ≡ true) layers.now }
    ensures value { IfOk result (λ copies. copies.items ≡ map (copied mirror id names.now) layers.now) }
    ensures numbered { IfOk result (λ copies. All (λ (copy : LayerValue). 0 < copy.number.0) copies.items) }
{
    let mut copies = Vec::new(alloc);
    for layer in layers {
        copies.push(copied(mirror, id, names, layer))?;
    }
    Ok(copies)
}
