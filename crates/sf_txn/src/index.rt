//! Where the operations of a long transaction are, so that one which replaces an earlier one finds
//! it without a walk over all.
ghost use Rattle.std.specs.List.{AllPairs, position_from};
ghost use Rattle.std.specs.Prelude.{◌≡◌, ◌+◌, ◌<◌, ◌≤◌, ◌++◌, ◌∷◌, [], List, OnOk, IfOk, IfSome, IsSomeAnd, length, take, true};
ghost use Rattle.std.specs.Vec.{vec_capacity, vec_len};
ghost use Rattle.sf_base.specs.declared.ids.LayerId.{LayerId as Layer};
ghost use Rattle.sf_layer.specs.declared.op.Op.{Op as Operation};
ghost use Rattle.sf_txn.specs.Places.{HasPlaces, IsIndexed, IsNoted, IsPutFirst, emptied, is_kept, kept, key_of};
ghost use Rattle.sf_txn.specs.Transactions.{Stays, replaces, with_ops};

use crate::lists::{is_cumulative, place_of_op};
use sf_base::{LayerId, NoMemory};
use sf_layer::Op;
use std::alloc::Global;
use std::collections::BTreeMap;

/// What stands in the place of an operation that was taken out, and in each place in front.
pub(crate) const TAKEN: (LayerId, Op) = (LayerId(0), Op::Destroy);

/// Where the operations of a list are.
#[derive(Drop)]
pub(crate) struct Index {
    /// The place of each by its layer and kind; None once there was no memory for one more.
    pub(crate) places: Option<BTreeMap<u64, usize>>,
    /// How many operations were taken out.
    pub(crate) gaps: usize,
    /// So many of the first places are empty: there is room for operations before all others.
    pub(crate) front: usize,
}

/// Whether an operation is kept. The number 0 marks one that another took the place of.
pub(crate) fn is_kept(operation: &(LayerId, Op)) -> bool
    ensures { result ≡ is_kept operation.now }
{
    operation.0.0 != 0
}

/// The number of an operation's layer and kind.
fn key_of(operation: &(LayerId, Op)) -> u64
    ensures { result ≡ key_of operation.now }
{
    u64::from(operation.0.0) * 16 + u64::from(operation.1.kind_of())
}

/// Notes an operation's place, unless it is create or destroy. Where memory runs out the map goes.
fn note(places: &mut Option<BTreeMap<u64, usize>>, operation: &(LayerId, Op), place: usize)
    ensures { IfSome places.new (λ new. IsSomeAnd places.old (λ old. IsNoted operation.now place old new)) }
{
    let Some(mut map) = places.take() else {
        return;
    };
    if !is_cumulative(&operation.1) && map.insert(key_of(operation), place).is_err() {
        return;
    }
    *places = Some(map);
}

/// Notes the place of one more operation, unless it is create or destroy.
fn note_next(
    places: &mut BTreeMap<u64, usize>,
    ops: &[(LayerId, Op)],
    place: usize,
) -> Result<(), NoMemory>
    requires inside { place < length ops.now }
    requires apart { AllPairs Stays ops.now }
    requires found { HasPlaces (take place ops.now) places.old }
    ensures { OnOk result (HasPlaces (take (place + 1) ops.now) places.new) }
{
    let operation = &ops[place];
    if is_cumulative(&operation.1) {
        return Ok(());
    }
    places.insert(key_of(operation), place)?;
    Ok(())
}

/// The places of operations of which none replaces another.
pub(crate) fn places_of(
    alloc: Global,
    ops: &[(LayerId, Op)],
) -> Result<BTreeMap<u64, usize>, NoMemory>
    requires { AllPairs Stays ops.now }
    ensures { IfOk result (λ places. HasPlaces ops.now places) }
{
    let mut places = BTreeMap::new(alloc);
    for place in 0..ops.len() {
        note_next(&mut places, ops, place)?;
    }
    Ok(places)
}

/// The place of the operation that is of one layer and kind with this one.
fn place_of(
    places: &Option<BTreeMap<u64, usize>>,
    ops: &[(LayerId, Op)],
    operation: &(LayerId, Op),
) -> Option<usize>
    requires layer { 0 < operation.now.0.0 }
    requires found { IfSome places.now (HasPlaces ops.now) }
    ensures { result ≡ position_from (replaces operation.now) 0 ops.now }
{
    match places {
        Some(places) => places.get(&key_of(operation)).copied(),
        None => place_of_op(ops, operation),
    }
}

/// Empties the place of the operation that this one replaces, if there is one.
fn empty_at(items: &mut Vec<(LayerId, Op)>, place: Option<usize>, operation: &(LayerId, Op))
    requires { place ≡ position_from (replaces operation.now) 0 items.old.items }
    ensures items { items.new.items ≡ emptied operation.now items.old.items }
    ensures len { vec_len items.new ≡ vec_len items.old }
    ensures capacity { vec_capacity items.new ≡ vec_capacity items.old }
{
    match place {
        Some(place) => items[place] = TAKEN,
        None => (),
    }
}

/// Appends an operation for which there is room.
fn append(items: &mut Vec<(LayerId, Op)>, operation: (LayerId, Op))
    requires { vec_len items.old < vec_capacity items.old }
    ensures items { items.new.items ≡ items.old.items ++ operation ∷ [] }
    ensures len { vec_len items.new ≡ vec_len items.old + 1 }
    ensures capacity { vec_capacity items.old ≤ vec_capacity items.new }
{
    // There is room for it.
    let _ = items.push(operation);
}

/// How many were taken out after the one at this place was.
fn gaps_after(gaps: usize, place: Option<usize>) -> usize {
    match place {
        Some(_) => gaps.saturating_add(1),
        None => gaps,
    }
}

/// Appends an operation for which there is room, and takes out the one that it replaces.
pub(crate) fn put_last(items: &mut Vec<(LayerId, Op)>, index: &mut Index, operation: (LayerId, Op))
    requires layer { 0 < operation.0.0 }
    requires room { vec_len items.old < vec_capacity items.old }
    requires indexed { IsIndexed items.old.items index.old }
    ensures items { items.new.items ≡ emptied operation items.old.items ++ operation ∷ [] }
    ensures indexed { IsIndexed items.new.items index.new }
    ensures len { vec_len items.new ≡ vec_len items.old + 1 }
    ensures capacity { vec_capacity items.old ≤ vec_capacity items.new }
{
    let place = place_of(&index.places, items, &operation);
    index.gaps = gaps_after(index.gaps, place);
    empty_at(items, place, &operation);
    let last = items.len();
    append(items, operation);
    note(&mut index.places, &operation, last);
}

/// Puts an operation before all others, in the last of the places in front, unless one of the
/// others replaces it. One that was taken out stays out.
fn put_first(items: &mut Vec<(LayerId, Op)>, index: &mut Index, operation: (LayerId, Op))
    requires room { is_kept operation ≡ true → 0 < index.old.front }
    requires indexed { IsIndexed items.old.items index.old }
    ensures items { IsPutFirst operation items.old.items items.new.items }
    ensures indexed { IsIndexed items.new.items index.new }
    ensures room { (earlier : List (Layer × Operation)) → length (kept (earlier ++ operation ∷ [])) ≤ index.old.front → length (kept earlier) ≤ index.new.front }
{
    if !is_kept(&operation) {
        return;
    }
    if place_of(&index.places, items, &operation).is_some() {
        return;
    }
    index.front -= 1;
    items[index.front] = operation;
    note(&mut index.places, &operation, index.front);
}

/// Puts operations, for which there is room in front, before all others.
pub(crate) fn put_all_first(
    items: &mut Vec<(LayerId, Op)>,
    index: &mut Index,
    mut earlier: Vec<(LayerId, Op)>,
)
    requires apart { AllPairs Stays earlier.items }
    requires room { length (kept earlier.items) ≤ index.old.front }
    requires indexed { IsIndexed items.old.items index.old }
    ensures items { kept items.new.items ≡ with_ops (kept earlier.items) (kept items.old.items) }
    ensures indexed { IsIndexed items.new.items index.new }
{
    while let Some(operation) = earlier.pop() {
        put_first(items, index, operation);
    }
}
