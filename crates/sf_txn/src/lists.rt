//! The lists of a transaction, where a later operation or buffer takes the place of an earlier one
//! of its kind.
ghost use Rattle.std.specs.List.{AllPairs, position};
ghost use Rattle.std.specs.Prelude.{◌≡◌, ◌+◌, ◌++◌, ◌<◌, ◌≤◌, IfSome, OnOk, Bool, find, length};
ghost use Rattle.std.specs.Vec.{vec_capacity, vec_len};
ghost use Rattle.sf_txn.specs.Places.{AreApart};
ghost use Rattle.sf_txn.specs.Transactions.{all_replaced, is_cumulative, is_for, replaced_by, replaces, with_buffer, with_buffers, with_op, with_ops, without_first};

use crate::buffer::BufferOp;
use crate::lease::Lease;
use sf_base::{LayerId, NoMemory};
use sf_layer::Op;

/// Whether an operation takes no earlier one's place.
pub(crate) fn is_cumulative(op: &Op) -> bool
    ensures { result ≡ is_cumulative op.now }
{
    matches!(op, Op::Create(..) | Op::Destroy)
}

/// Whether an operation takes an earlier one's place.
fn replaces(later: &(LayerId, Op), earlier: &(LayerId, Op)) -> bool
    ensures { result ≡ replaces later.now earlier.now }
{
    !is_cumulative(&later.1) && earlier.0.0 == later.0.0 && earlier.1.kind_of() == later.1.kind_of()
}

/// The place of the operation whose place another takes.
pub(crate) fn place_of_op(ops: &[(LayerId, Op)], later: &(LayerId, Op)) -> Option<usize>
    ensures { result ≡ position (replaces later.now) ops.now }
{
    ops.iter().position(|earlier| replaces(later, earlier))
}

/// The place of a layer's buffer.
fn place_of_buffer<L: Lease>(buffers: &[BufferOp<L>], layer: LayerId) -> Option<usize>
    ensures { result ≡ position (is_for layer) buffers.now }
{
    buffers.iter().position(|buffer| buffer.layer.0 == layer.0)
}

/// Takes out the item at a place, which is that of the first that passes some test.
fn take_at<T>(items: &mut Vec<T>, place: Option<usize>) -> Option<T>
    requires { IfSome place (λ k. k < vec_len items.old) }
    ensures items { (test : T → Bool) → place ≡ position test items.old.items → items.new.items ≡ without_first test items.old.items }
    ensures taken { (test : T → Bool) → place ≡ position test items.old.items → result ≡ find test items.old.items }
    ensures len { vec_len items.new ≤ vec_len items.old }
    ensures capacity { vec_capacity items.new ≡ vec_capacity items.old }
{
    match place {
        Some(place) => Some(items.remove(place)),
        None => None,
    }
}

/// Appends an operation for which there is room, and drops the one whose place it takes.
pub fn put_op(ops: &mut Vec<(LayerId, Op)>, operation: (LayerId, Op))
    requires { vec_len ops.old < vec_capacity ops.old }
    ensures items { ops.new.items ≡ with_op ops.old.items operation }
    ensures len { vec_len ops.new ≤ vec_len ops.old + 1 }
    ensures capacity { vec_capacity ops.old ≤ vec_capacity ops.new }
{
    let place = place_of_op(ops, &operation);
    let _ = take_at(ops, place);
    // There is room for it.
    let _ = ops.push(operation);
}

/// Appends a buffer for which there is room, and takes out the one whose place it takes.
pub fn put_buffer<L: Lease + Drop>(
    buffers: &mut Vec<BufferOp<L>>,
    buffer: BufferOp<L>,
) -> Option<BufferOp<L>>
    requires { vec_len buffers.old < vec_capacity buffers.old }
    ensures items { buffers.new.items ≡ with_buffer buffers.old.items buffer }
    ensures replaced { result ≡ replaced_by buffers.old.items buffer }
    ensures len { vec_len buffers.new ≤ vec_len buffers.old + 1 }
    ensures capacity { vec_capacity buffers.old ≤ vec_capacity buffers.new }
{
    let place = place_of_buffer(buffers, buffer.layer);
    let replaced = take_at(buffers, place);
    // There is room for it.
    let _ = buffers.push(buffer);
    replaced
}

/// Puts buffers, for which there is room, one after another, and appends those whose places they
/// take to a list with room for as many.
fn put_buffers<L: Lease + Drop>(
    buffers: &mut Vec<BufferOp<L>>,
    more: Vec<BufferOp<L>>,
    replaced: &mut Vec<BufferOp<L>>,
)
    requires room { vec_len buffers.old + vec_len more ≤ vec_capacity buffers.old }
    requires room_for_replaced { vec_len replaced.old + vec_len more ≤ vec_capacity replaced.old }
    ensures buffers { buffers.new.items ≡ with_buffers buffers.old.items more.items }
    ensures replaced { replaced.new.items ≡ replaced.old.items ++ all_replaced buffers.old.items more.items }
{
    for buffer in more {
        if let Some(old) = put_buffer(buffers, buffer) {
            // There is room for it.
            let _ = replaced.push(old);
        }
    }
}

/// Puts buffers of different layers, for which there is room, behind others, and appends those whose
/// places they take to a list with room for as many. Where there are no others, none is put anew.
pub fn merge_buffers<L: Lease + Drop>(
    buffers: &mut Vec<BufferOp<L>>,
    more: Vec<BufferOp<L>>,
    replaced: &mut Vec<BufferOp<L>>,
)
    requires apart { AllPairs AreApart more.items }
    requires room { vec_len buffers.old + vec_len more ≤ vec_capacity buffers.old }
    requires room_for_replaced { vec_len replaced.old + vec_len more ≤ vec_capacity replaced.old }
    ensures buffers { buffers.new.items ≡ with_buffers buffers.old.items more.items }
    ensures replaced { replaced.new.items ≡ replaced.old.items ++ all_replaced buffers.old.items more.items }
{
    if buffers.is_empty() {
        *buffers = more;
        return;
    }
    put_buffers(buffers, more, replaced);
}
