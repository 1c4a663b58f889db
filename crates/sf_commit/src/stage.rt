//! What applied operations make of the buffers on layers: a layer gets one, keeps it or loses it.
ghost use Rattle.std.specs.List.{find, position};
ghost use Rattle.std.specs.Option.{option_to_list};
ghost use Rattle.std.specs.Prelude.{◌≡◌, ◌++◌, ◌∷◌, [], OnOk};
ghost use Rattle.sf_commit.specs.OnLayers.{brought, gone_with, is_on, on_after, without};

use crate::on::OnLayer;
use sf_base::{LayerId, NoMemory};
use sf_commit_next::{BufferOp, Lease};
use sf_view::sf_layer::Op;

/// The place of a layer's buffer, if it shows one.
fn index_on<L: Lease>(on: &[OnLayer<L>], layer: LayerId) -> Option<usize>
    ensures { result ≡ position (is_on layer) on.now }
{
    on.iter().position(|one| one.layer.0 == layer.0)
}

/// Takes the buffer of a layer out, if it shows one.
fn take_on<L: Lease>(on: &mut Vec<OnLayer<L>>, layer: LayerId) -> Option<OnLayer<L>>
    ensures taken { result ≡ find (is_on layer) on.old.items }
    ensures left { on.new.items ≡ without layer on.old.items }
{
    match index_on(on, layer) {
        Some(place) => Some(on.remove(place)),
        None => None,
    }
}

/// A layer shows nothing any more: its buffer goes.
fn leave<L: Lease + Drop>(
    on: &mut Vec<OnLayer<L>>,
    gone: &mut Vec<OnLayer<L>>,
    layer: LayerId,
) -> Result<(), NoMemory>
where
    L::Reading: Drop,
    ensures on { OnOk result (on.new.items ≡ without layer on.old.items) }
    ensures gone { OnOk result (gone.new.items ≡ gone.old.items ++ option_to_list (find (is_on layer) on.old.items)) }
{
    if let Some(one) = take_on(on, layer) {
        gone.push(one)?;
    }
    Ok(())
}

/// A layer shows a buffer: the one that it showed goes.
fn show<L: Lease + Drop>(
    on: &mut Vec<OnLayer<L>>,
    gone: &mut Vec<OnLayer<L>>,
    layer: LayerId,
    buffer: BufferOp<L>,
) -> Result<(), NoMemory>
where
    L::Reading: Drop,
    ensures on { OnOk result (on.new.items ≡ without layer on.old.items ++ brought buffer ∷ []) }
    ensures gone { OnOk result (gone.new.items ≡ gone.old.items ++ option_to_list (find (is_on layer) on.old.items)) }
{
    leave(on, gone, layer)?;
    on.push(OnLayer::brought(buffer))?;
    Ok(())
}

/// What operations that were applied to the tree make of the buffers on layers, in their order. Each
/// that shows a buffer shows the next of these. Those that go are appended to a list.
pub(crate) fn show_all<L: Lease + Drop>(
    on: &mut Vec<OnLayer<L>>,
    gone: &mut Vec<OnLayer<L>>,
    ops: &[(LayerId, Op)],
    buffers: Vec<BufferOp<L>>,
) -> Result<(), NoMemory>
where
    L::Reading: Drop,
    ensures on { OnOk result (on.new.items ≡ on_after on.old.items ops.now buffers.items) }
    ensures gone { OnOk result (gone.new.items ≡ gone.old.items ++ gone_with on.old.items ops.now buffers.items) }
{
    let mut waiting = buffers.into_iter();
    for (layer, op) in ops {
        match op {
            Op::Show(_) => {
                if let Some(buffer) = waiting.next() {
                    show(on, gone, *layer, buffer)?;
                }
            }
            Op::Destroy => leave(on, gone, *layer)?,
            _ => (),
        }
    }
    Ok(())
}
