//! Moves of one slot or one right in the lists that a queue keeps.
ghost use Rattle.std.specs.Prelude.{◌≡◌, ◌<◌, ◌≤◌, ◌∷◌, ◌++◌, [], length, slice_index_or, slice_set};
ghost use Rattle.circular_buffer.specs.Buffer.{buffer};
ghost use Rattle.sf_slots.specs.Told.{unused};
ghost use Rattle.sf_slots.specs.Queue.{without, rotated};

use circular_buffer::HeapCircularBuffer;

/// Puts a slot last into a list that has room for it.
pub(crate) fn push(list: &mut HeapCircularBuffer<u32>, number: u32)
    requires { length list.old.items < list.old.capacity }
    ensures { list.new ≡ buffer (list.old.items ++ number ∷ []) list.old.capacity }
{
    let _ = list.push_back(number);
}

/// Puts the first slot of a list last, or drops it where it is the one to go.
fn rotate(list: &mut HeapCircularBuffer<u32>, number: u32)
    requires { length list.old.items ≤ list.old.capacity }
    ensures { list.new ≡ buffer (rotated number list.old.items) list.old.capacity }
{
    match list.pop_front() {
        Some(first) if first != number => push(list, first),
        _ => {}
    }
}

/// Takes a slot out of a list. The order of the others stays.
pub(crate) fn remove(list: &mut HeapCircularBuffer<u32>, number: u32)
    ensures { list.new ≡ buffer (without number list.old.items) list.old.capacity }
{
    for _ in 0..list.len() {
        rotate(list, number);
    }
}

/// Takes the right out of a slot.
pub(crate) fn take_right<R>(rights: &mut Vec<Option<R>>, number: u32) -> Option<R>
    requires { number < length rights.old.items }
    ensures value { result ≡ slice_index_or rights.old.items number None }
    ensures after { rights.new.items ≡ slice_set rights.old.items number None }
{
    rights[number as usize].take()
}

/// Puts a right into a slot.
pub(crate) fn put_right<R: Drop>(rights: &mut Vec<Option<R>>, number: u32, right: R)
    requires { number < length rights.old.items }
    ensures { rights.new.items ≡ slice_set rights.old.items number (Some right) }
{
    rights[number as usize] = Some(right);
}
