//! One look at each buffer of each pending transaction, at the begin of a vsync, with its room made
//! before the first look.
ghost use Rattle.std.specs.Prelude.{◌≡◌, ◌≢◌, ◌≤◌, ◌+◌, ℕ, [], IfOk, IsSome, length, map, nat_eq};
ghost use Rattle.std.specs.List.{All, AllByRecursion, IsDistinct};
ghost use Rattle.std.specs.Vec.{vec_capacity, vec_len};
ghost use Rattle.std.specs.BTreeMap.{values};
ghost use Rattle.sf_txn.specs.Leases.{IsEyeAfter, IsShownTo};
ghost use Rattle.slab.specs.Slab.{get};
ghost use Rattle.sf_token.specs.Loads.{IsLookedArrival, looks_at};
ghost use Rattle.sf_token.specs.inner.Rooms.{AreLooked, Fits, HasRoom, IsLookedSlot};

use crate::arrived::Arrived;
use crate::looks::Looks;
use sf_base::{Items, NoMemory};
use sf_txn::Lease;
use slab::Slab;
use std::alloc::Global;
use std::collections::BTreeMap;

/// A key, with an empty list that has room for what a look at each buffer of its transaction shows.
#[derive(Drop)]
pub struct Room {
    pub key: usize,
    pub drawn: Vec<bool>,
}

/// Room for what looks at one key's transaction show.
fn room_for<L: Lease + Drop>(
    alloc: Global,
    slots: &Slab<Arrived<L>>,
    key: usize,
) -> Result<Room, NoMemory>
    requires { IsSome (get slots.now key) }
    ensures key { IfOk result (λ room. room.key ≡ key) }
    ensures room { IfOk result (λ room. HasRoom (get slots.now key) (vec_len room.drawn) (vec_capacity room.drawn)) }
{
    let buffers = slots[key].txn.buffers();
    let drawn = Vec::with_capacity(alloc, buffers.len())?;
    Ok(Room { key, drawn })
}

/// Room for what looks at each key's transaction show, key by key, by rising number.
pub fn rooms_for<L: Lease + Drop>(
    alloc: Global,
    slots: &Slab<Arrived<L>>,
    keys: &BTreeMap<u32, usize>,
) -> Result<Vec<Room>, NoMemory>
    requires { AllByRecursion (λ key. IsSome (get slots.now key)) (values keys.now) }
    ensures keys { IfOk result (λ rooms. map (λ room. room.key) rooms.items ≡ values keys.now) }
    ensures rooms { IfOk result (λ rooms. AllByRecursion
        (λ room. HasRoom (get slots.now room.key) (vec_len room.drawn) (vec_capacity room.drawn)) rooms.items) }
{
    let mut rooms = Vec::new(alloc);
    for key in keys.values() {
        rooms.push(room_for(alloc, slots, *key)?)?;
    }
    Ok(rooms)
}

/// Looks at a transaction's buffers, and returns what the looks showed.
fn look_at<L: Lease + Drop>(
    arrived: &mut Arrived<L>,
    eye: &mut L::Eye,
    mut drawn: Vec<bool>,
) -> Looks
    requires fits { All (λ buffer. L.fits (L.mark eye.old) buffer.lease) arrived.old.txn.buffers }
    requires empty { vec_len drawn ≡ 0 }
    requires room { length arrived.old.txn.buffers ≤ vec_capacity drawn }
    ensures looked { IsLookedArrival L.Lease arrived.old arrived.new }
    ensures told { All (λ buffer. IsShownTo L.Lease eye.old eye.new buffer.lease) arrived.new.txn.buffers }
    ensures looks { result ≡ looks_at L.Lease arrived.new }
    ensures eye { IsEyeAfter L.Lease eye.old eye.new [] }
{
    arrived.txn.look(eye, &mut drawn);
    Looks {
        number: arrived.number,
        drawn: Items::new(drawn),
    }
}

/// Looks at what a key has.
fn look_in<L: Lease + Drop>(slots: &mut Slab<Arrived<L>>, eye: &mut L::Eye, room: Room) -> Looks
    requires room { HasRoom (get slots.old room.key) (vec_len room.drawn) (vec_capacity room.drawn) }
    requires fits { Fits (L.fits (L.mark eye.old)) (get slots.old room.key) }
    ensures looked { IsLookedSlot L.Lease eye.old eye.new (get slots.old room.key) (get slots.new room.key) result }
    ensures others { (other : ℕ) → other ≢ room.key → get slots.new other ≡ get slots.old other }
    ensures eye { IsEyeAfter L.Lease eye.old eye.new [] }
{
    let Room { key, drawn } = room;
    look_at(&mut slots[key], eye, drawn)
}

/// Looks at what each key has, in order, and returns for each what the looks showed, in a list that
/// has room for it.
pub fn look_each<L: Lease + Drop>(
    slots: &mut Slab<Arrived<L>>,
    eye: &mut L::Eye,
    rooms: Vec<Room>,
    looks: &mut Vec<Looks>,
)
    requires rooms { AllByRecursion
        (λ room. HasRoom (get slots.old room.key) (vec_len room.drawn) (vec_capacity room.drawn)) rooms.items }
    requires fits { AllByRecursion (λ room. Fits (L.fits (L.mark eye.old)) (get slots.old room.key)) rooms.items }
    requires distinct { IsDistinct nat_eq (map (λ room. room.key) rooms.items) }
    requires empty { looks.old.items ≡ [] }
    requires room { vec_len looks.old + vec_len rooms ≤ vec_capacity looks.old }
    ensures { AreLooked L.Lease eye.old eye.new (get slots.old) (get slots.new) (map (λ room. room.key) rooms.items) looks.new.items }
{
    for room in rooms {
        looks.push_reserved(look_in(slots, eye, room));
    }
}
