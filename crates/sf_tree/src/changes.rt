//! One operation in place, with its tests and with how it is taken back.
ghost use Rattle.std.specs.Prelude.{◌≡◌, ◌≢◌, ◌<◌, List, IfOk, length, slice_index_or};
ghost use Rattle.sf_layer.specs.declared.layer.Layer.{Layer as LayerValue};
ghost use Rattle.sf_layer.specs.declared.op.Op.TheVariants as variants;
ghost use Rattle.sf_tree.specs.Changes.{changed, created, destroyed, edited, edited_layer, fits_kind, made_relative, new_layer, reparented};
ghost use Rattle.sf_tree.specs.Layers.{layer_of};
ghost use Rattle.sf_tree.specs.inner.ChangeAnswers.{draw_cause, IsChange, IsDone, parent_cause, Settles};
ghost use Rattle.sf_tree.specs.inner.Journal.{GoesBack};

use crate::cycles::{Along, reaches_itself};
use crate::journal::{Journal, Undo};
use crate::layers::Layers;
use crate::reject::Reject;
use sf_base::{LayerId, NoMemory, Rgba};
use sf_layer::{Kind, Layer, Op, Parent};
use std::alloc::Global;

// Why a change was not made.
#[derive(Clone, Copy)]
pub enum ChangeFault {
    Rejected(Reject),
    NoMemory,
}

/// A layer as it is created: shown, at its parent's place, with z 0 and alpha 255.
fn new_layer(number: LayerId, kind: Kind, parent: Parent) -> Layer
    ensures { result ≡ new_layer number kind parent }
{
    Layer {
        number,
        kind,
        parent,
        relative: None,
        z: 0,
        position: (0, 0),
        crop: None,
        alpha: 255,
        hidden: false,
        opaque: false,
        backpressure: false,
        colour: Rgba {
            r: 0,
            g: 0,
            b: 0,
            a: 255,
        },
        shown: None,
        orient: 0,
    }
}

/// Creates a layer, as the newest. Refused: a parent that is not there, a number in use, one layer
/// more than the most.
#[tactic(auto, using(crate::proofs::Lookups::lookups), unfolding(crate::specs::Changes::created))]
fn create(
    layers: &mut Layers,
    most: u32,
    id: LayerId,
    kind: Kind,
    parent: Parent,
) -> Result<Undo, ChangeFault>
    ensures { IsChange result layers.old layers.new (created most layers.old id kind parent) }
{
    if !layers.has_parent(parent) {
        return Err(ChangeFault::Rejected(Reject::UnknownLayer));
    }
    if layers.has(id) {
        return Err(ChangeFault::Rejected(Reject::LayerExists));
    }
    if layers.len() >= most as usize {
        return Err(ChangeFault::Rejected(Reject::TooManyLayers));
    }
    match layers.push(new_layer(id, kind, parent)) {
        Ok(()) => Ok(Undo::Created),
        Err(_) => Err(ChangeFault::NoMemory),
    }
}

/// Destroys a layer in place, once the journal has all layers.
#[tactic(auto, using(crate::proofs::Lookups::lookups), unfolding(crate::specs::Changes::destroyed))]
pub fn destroy(
    alloc: Global,
    layers: &mut Layers,
    journal: &mut Journal,
    id: LayerId,
) -> Result<(), ChangeFault>
    ensures done { IsDone result layers.new (destroyed layers.old id) }
    ensures back { (first : List LayerValue) → GoesBack journal.old layers.old first → GoesBack journal.new layers.new first }
{
    let Some(place) = layers.index_of(id) else {
        return Err(ChangeFault::Rejected(Reject::UnknownLayer));
    };
    match journal.keep_all(alloc, layers) {
        Ok(()) => {
            layers.remove(id, place);
            Ok(())
        }
        Err(NoMemory) => Err(ChangeFault::NoMemory),
    }
}

/// Whether an operation is one for a layer of this kind: a colour is for colour layers, a buffer
/// for buffer layers.
fn fits_kind(op: &Op, kind: Kind) -> bool
    ensures { result ≡ fits_kind op.now kind }
{
    match (op, kind) {
        (Op::Colour(..), Kind::Colour) | (Op::Show(..), Kind::Buffer) => true,
        (Op::Colour(..) | Op::Show(..), _) => false,
        _ => true,
    }
}

/// A layer after an operation that changes it alone. Setting its z ends its relation to another
/// layer.
fn edited(op: &Op, layer: Layer) -> Layer
    ensures { result ≡ edited op.now layer }
{
    let mut layer = layer;
    match *op {
        Op::Z(z) => {
            layer.z = z;
            layer.relative = None;
        }
        Op::Position(x, y) => layer.position = (x, y),
        Op::Crop(crop) => layer.crop = crop,
        Op::Alpha(alpha) => layer.alpha = alpha,
        Op::Hidden(hidden) => layer.hidden = hidden,
        Op::Opaque(opaque) => layer.opaque = opaque,
        Op::Colour(colour) => layer.colour = colour,
        Op::Backpressure(backpressure) => layer.backpressure = backpressure,
        Op::Show(shown) => layer.shown = Some(shown),
        Op::Orient(orient) => layer.orient = orient,
        Op::Create(..) | Op::Destroy | Op::Reparent(..) | Op::Relative(..) => {}
    }
    layer
}

/// Changes one layer alone. Refused: a layer that is not there, one of another kind.
#[tactic(auto, using(crate::proofs::Lookups::lookups))]
fn edit(layers: &mut Layers, id: LayerId, op: &Op) -> Result<Undo, ChangeFault>
    ensures { IsChange result layers.old layers.new (edited_layer layers.old id op.now (layer_of layers.old id)) }
{
    let Some(place) = layers.index_of(id) else {
        return Err(ChangeFault::Rejected(Reject::UnknownLayer));
    };
    let layer = layers.at(place);
    if !fits_kind(op, layer.kind) {
        return Err(ChangeFault::Rejected(Reject::WrongKind));
    }
    layers.set(place, edited(op, layer));
    Ok(Undo::Edited(place, layer))
}

/// Why a layer cannot hang where it hangs now, if it cannot.
fn parent_fault(alloc: Global, layers: &Layers, id: LayerId) -> Result<Option<Reject>, NoMemory>
    ensures { IfOk result (λ cause. cause ≡ parent_cause layers.now id) }
{
    if reaches_itself(alloc, layers, id, Along::Parents)? {
        return Ok(Some(Reject::ParentCycle));
    }
    draw_fault(alloc, layers, id)
}

/// Why a layer cannot be drawn with what it is drawn with now, if it cannot.
fn draw_fault(alloc: Global, layers: &Layers, id: LayerId) -> Result<Option<Reject>, NoMemory>
    ensures { IfOk result (λ cause. cause ≡ draw_cause layers.now id) }
{
    if reaches_itself(alloc, layers, id, Along::All)? {
        return Ok(Some(Reject::DrawCycle));
    }
    Ok(None)
}

/// Leaves a layer as it is now, or puts it back as it was before where a cause was found.
fn settle(
    layers: &mut Layers,
    place: usize,
    before: Layer,
    fault: Result<Option<Reject>, NoMemory>,
) -> Result<Undo, ChangeFault>
    requires inside { place < length layers.old }
    requires same { (slice_index_or layers.old place before).number ≡ before.number }
    ensures { Settles fault result layers.old layers.new place before }
{
    match fault {
        Ok(None) => Ok(Undo::Edited(place, before)),
        Ok(Some(cause)) => {
            layers.set(place, before);
            Err(ChangeFault::Rejected(cause))
        }
        Err(NoMemory) => {
            layers.set(place, before);
            Err(ChangeFault::NoMemory)
        }
    }
}

fn with_parent(layer: Layer, parent: Parent) -> Layer
    ensures { result ≡ record layer { parent = parent } }
{
    let mut layer = layer;
    layer.parent = parent;
    layer
}

fn with_relative(layer: Layer, other: LayerId, z: i32) -> Layer
    ensures { result ≡ record layer { relative = Some other; z = z } }
{
    let mut layer = layer;
    layer.relative = Some(other);
    layer.z = z;
    layer
}

/// Sets a layer's parent, unless the layer would then reach itself by steps to parents or relative
/// layers. Refused too: a layer or a parent that is not there.
fn reparent(
    alloc: Global,
    layers: &mut Layers,
    id: LayerId,
    parent: Parent,
) -> Result<Undo, ChangeFault>
    ensures { IsChange result layers.old layers.new (reparented layers.old id parent) }
{
    let Some(place) = layers.index_of(id) else {
        return Err(ChangeFault::Rejected(Reject::UnknownLayer));
    };
    if !layers.has_parent(parent) {
        return Err(ChangeFault::Rejected(Reject::UnknownLayer));
    }
    let before = layers.at(place);
    layers.set(place, with_parent(before, parent));
    let fault = parent_fault(alloc, layers, id);
    settle(layers, place, before, fault)
}

/// Sets the layer with which another is drawn, unless it would then reach itself. Refused too: a
/// layer that is not there.
fn relate(
    alloc: Global,
    layers: &mut Layers,
    id: LayerId,
    other: LayerId,
    z: i32,
) -> Result<Undo, ChangeFault>
    ensures { IsChange result layers.old layers.new (made_relative layers.old id other z) }
{
    let Some(place) = layers.index_of(id) else {
        return Err(ChangeFault::Rejected(Reject::UnknownLayer));
    };
    if !layers.has(other) {
        return Err(ChangeFault::Rejected(Reject::UnknownLayer));
    }
    let before = layers.at(place);
    layers.set(place, with_relative(before, other, z));
    let fault = draw_fault(alloc, layers, id);
    settle(layers, place, before, fault)
}

/// Does one operation in place, except `destroy`, and returns how it is taken back.
pub fn change(
    alloc: Global,
    layers: &mut Layers,
    most: u32,
    id: LayerId,
    op: &Op,
) -> Result<Undo, ChangeFault>
    requires { op.now ≢ variants.Destroy }
    ensures { IsChange result layers.old layers.new (changed most layers.old id op.now) }
{
    match *op {
        Op::Create(kind, parent) => create(layers, most, id, kind, parent),
        Op::Reparent(parent) => reparent(alloc, layers, id, parent),
        Op::Relative(other, z) => relate(alloc, layers, id, other, z),
        _ => edit(layers, id, op),
    }
}
