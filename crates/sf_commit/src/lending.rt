//! The pixels of the buffers on layers, at hand or lent to their renderer, and the reads that end
//! when they come back.
ghost use Rattle.std.specs.Prelude.{◌≡◌, ◌+◌, ◌≤◌, ◌++◌, ◌∷◌, [], IsSome, OnOk, if◌then◌else◌};
ghost use Rattle.std.specs.Prelude.{List, Some, None, false, true, get_or, length, map, slice_set};
ghost use Rattle.std.specs.Vec.{vec_capacity, vec_len};
ghost use Rattle.sf_commit.specs.Inside.{HasRoomIn, cleared, place_of, taken_from};
ghost use Rattle.sf_commit.specs.Leases.{pictures, pictures_here};
ghost use Rattle.sf_commit.specs.Lending.{AllKept, AreThere, IsThere, KeptRead as Kept, ends_of, read_of};
ghost use Rattle.sf_commit.specs.OnLayers.{at_hand, lent_from};
ghost use Rattle.sf_commit_next.specs.sf_txn.Leases.{IsEyeAfter};

use crate::keeping::KeptRead;
use crate::on::TakenPixels;
use crate::opening::{Reading, taken_at};
use sf_base::NoMemory;
use sf_commit_next::Lease;
use sf_view::sf_picture::Painted;
use std::alloc::Global;
use std::marker::Model;
use std::mem;

/// The pixels of the buffers on layers, as they were entered for reading, which a compositor lends.
#[derive(Drop)]
pub struct Contents {
    /// In the order in which the compositor holds them.
    pub list: Vec<Painted>,
}

impl Model for Contents {
    ghost use Rattle.std.specs.Prelude.{List};
    ghost use Rattle.sf_view.specs.sf_picture.declared.picture.Picture.{Picture};

    ghost Value = { List Picture };

    ghost view = { λ c. c.list.items };
}

/// Room for pixels that come back.
#[derive(Drop)]
pub(crate) struct Room {
    /// A slot for each place at which pixels are lent.
    pub slots: Vec<Option<Painted>>,
    /// For the pixels of all buffers on layers.
    pub contents: Vec<Painted>,
}

impl Room {
    /// No room.
    pub fn new(alloc: Global) -> Room
        ensures slots { vec_len result.slots ≡ 0 }
        ensures contents { vec_len result.contents ≡ 0 }
    {
        Room {
            slots: Vec::new(alloc),
            contents: Vec::new(alloc),
        }
    }

    /// Makes room for what comes back, where so many buffers are on layers: for these when they are
    /// lent next, and for all of them where some are lent now.
    pub fn make(&mut self, many: usize, is_lent: bool) -> Result<(), NoMemory>
        ensures no_slots { vec_len self.new.slots ≡ vec_len self.old.slots }
        ensures no_contents { vec_len self.new.contents ≡ vec_len self.old.contents }
        ensures kept { vec_capacity self.old.slots ≤ vec_capacity self.new.slots }
        ensures slots { OnOk result (vec_len self.new.slots + many ≤ vec_capacity self.new.slots) }
        ensures contents { OnOk result (is_lent ≡ true → vec_len self.new.contents + many ≤ vec_capacity self.new.contents) }
    {
        self.slots.reserve(many)?;
        if is_lent {
            self.contents.reserve(many)?;
        }
        Ok(())
    }
}

/// What comes together when lent pixels come back.
pub(crate) struct Returned<L: Lease> {
    /// The reads that were kept for them.
    pub kept: Vec<KeptRead<L>>,
    /// The pixels that stayed at hand.
    pub stayed: Vec<Painted>,
    /// The pixels that were lent.
    pub list: Vec<Painted>,
}

/// The pixels of all buffers on layers are lent, in their order.
pub(crate) fn mark_lent<L: Lease>(on: &mut Vec<Reading<L>>)
    ensures { on.new.items ≡ lent_from 0 on.old.items }
{
    for (place, reading) in on.iter_mut().enumerate() {
        reading.place = Some(place);
    }
}

/// The pixels of all buffers on layers are at hand.
pub(crate) fn mark_at_hand<L: Lease>(on: &mut Vec<Reading<L>>)
    ensures { on.new.items ≡ map at_hand on.old.items }
{
    for reading in on.iter_mut() {
        reading.place = None;
    }
}

/// Puts pixels that come back into slots, each at its place.
fn spread(slots: &mut Vec<Option<Painted>>, list: Vec<Painted>)
    requires empty { vec_len slots.old ≡ 0 }
    requires room { vec_len list ≤ vec_capacity slots.old }
    ensures slots { slots.new.items ≡ map (λ picture. Some picture) list.items }
    ensures room { vec_capacity slots.new ≡ vec_capacity slots.old }
{
    for painted in list {
        slots.push_reserved(Some(painted));
    }
}

/// Takes out the pixels at a place where some stand.
fn take_slot(slots: &mut Vec<Option<Painted>>, place: usize) -> Painted
    requires { IsSome (get_or slots.old.items place None) }
    ensures taken { Some result ≡ get_or slots.old.items place None }
    ensures left { slots.new.items ≡ slice_set slots.old.items place None }
    ensures room { vec_capacity slots.new ≡ vec_capacity slots.old }
{
    match slots[place].take() {
        Some(painted) => painted,
        None => unreachable!(),
    }
}

/// Takes the pixels of a read: those at hand, or those that came back to its place.
fn take_painted(slots: &mut Vec<Option<Painted>>, taken: TakenPixels) -> Painted
    requires { IsSome (taken_from slots.old.items taken) }
    ensures taken { Some result ≡ taken_from slots.old.items taken }
    ensures left { slots.new.items ≡ cleared slots.old.items (place_of taken) }
    ensures room { vec_capacity slots.new ≡ vec_capacity slots.old }
{
    match taken {
        TakenPixels::Here(painted) => painted,
        TakenPixels::Lent(place) => take_slot(slots, place),
    }
}

/// Leaves a read with its pixels.
fn leave<L: Lease + Drop>(eye: &mut L::Eye, one: KeptRead<L>, slots: &mut Vec<Option<Painted>>)
    requires fits { L.fits (L.mark eye.old) one.lease }
    requires there { IsThere L.Lease slots.old.items one }
    ensures reads { IsEyeAfter L.Lease eye.old eye.new (L.end one.lease ∷ []) }
    ensures left { slots.new.items ≡ cleared slots.old.items one.place }
    ensures room { vec_capacity slots.new ≡ vec_capacity slots.old }
{
    let KeptRead {
        opened: _,
        closing,
        taken,
    } = one;
    let painted = take_painted(slots, taken);
    L::close(closing, eye, painted);
}

/// Leaves reads, in their order. The pixels of others that stand at places of their own stay.
fn leave_all<L: Lease + Drop>(
    eye: &mut L::Eye,
    kept: Vec<KeptRead<L>>,
    slots: &mut Vec<Option<Painted>>,
)
    requires fits { AllKept (L.fits (L.mark eye.old)) kept.items }
    requires there { AreThere L.Lease slots.old.items kept.items }
    ensures reads { IsEyeAfter L.Lease eye.old eye.new (ends_of L.Lease kept.items) }
    ensures left { (others : List (Kept L)) → AreThere L.Lease slots.old.items (kept.items ++ others) → AreThere L.Lease slots.new.items others }
    ensures room { vec_capacity slots.new ≡ vec_capacity slots.old }
{
    let mut left = kept;
    left.reverse();
    while let Some(one) = left.pop() {
        leave(eye, one, slots);
    }
    left.destroy_empty();
}

/// Leaves the reads that were kept, where nothing is lent.
#[tactic(auto, using(crate::proofs::SettleLemmas::eye_same))]
pub(crate) fn leave_unlent<L: Lease + Drop>(
    alloc: Global,
    eye: &mut L::Eye,
    kept: &mut Vec<KeptRead<L>>,
    is_lent: bool,
)
    requires fits { AllKept (L.fits (L.mark eye.old)) kept.old.items }
    requires there { is_lent ≡ false → AreThere L.Lease [] kept.old.items }
    ensures kept { kept.new.items ≡ (if is_lent then kept.old.items else []) }
    ensures reads { IsEyeAfter L.Lease eye.old eye.new (if is_lent then [] else ends_of L.Lease kept.old.items) }
{
    if is_lent {
        return;
    }
    let reads = mem::replace(kept, Vec::new(alloc));
    let mut none = Vec::new(alloc);
    leave_all(eye, reads, &mut none);
}

/// The pixels of all buffers on layers, in their order: those that came back, and those that stayed
/// at hand.
fn collect<L: Lease + Drop>(
    room: Vec<Painted>,
    on: &[Reading<L>],
    stayed: Vec<Painted>,
    slots: &mut Vec<Option<Painted>>,
) -> Vec<Painted>
    requires empty { vec_len room ≡ 0 }
    requires room { length on.now ≤ vec_capacity room }
    requires stayed { stayed.items ≡ pictures_here L.Lease on.now }
    requires there { AreThere L.Lease slots.old.items (map read_of on.now) }
    ensures contents { result.items ≡ pictures L.Lease on.now }
    ensures room { vec_capacity slots.new ≡ vec_capacity slots.old }
{
    let mut contents = room;
    let mut stayed = stayed.into_iter();
    for reading in on {
        let taken = taken_at(reading.place, &mut stayed);
        contents.push_reserved(take_painted(slots, taken));
    }
    contents
}

/// Takes pixels back that were lent, leaves the reads that were kept for them, and gives those of
/// all buffers on layers.
fn take_back<L: Lease + Drop>(
    alloc: Global,
    eye: &mut L::Eye,
    room: &mut Room,
    on: &[Reading<L>],
    returned: Returned<L>,
) -> Vec<Painted>
    requires fits { AllKept (L.fits (L.mark eye.old)) returned.kept.items }
    requires lends { AreThere L.Lease (map (λ picture. Some picture) returned.list.items) (returned.kept.items ++ map read_of on.now) }
    requires stayed { returned.stayed.items ≡ pictures_here L.Lease on.now }
    requires room { HasRoomIn room.old (vec_len returned.list) (length on.now) true }
    ensures contents { result.items ≡ pictures L.Lease on.now }
    ensures reads { IsEyeAfter L.Lease eye.old eye.new (ends_of L.Lease returned.kept.items) }
    ensures no_slots { vec_len room.new.slots ≡ 0 }
    ensures slots { vec_capacity room.new.slots ≡ vec_capacity room.old.slots }
    ensures no_contents { vec_len room.new.contents ≡ 0 }
{
    let Returned { kept, stayed, list } = returned;
    spread(&mut room.slots, list);
    leave_all(eye, kept, &mut room.slots);
    let contents = mem::replace(&mut room.contents, Vec::new(alloc));
    let contents = collect(contents, on, stayed, &mut room.slots);
    room.slots.clear();
    contents
}

/// Puts pixels back that were lent, leaves the reads that were kept for them, and gives those of all
/// buffers on layers. They are the ones that were lent where no vsync has changed what is shown.
pub(crate) fn put_back<L: Lease + Drop>(
    alloc: Global,
    eye: &mut L::Eye,
    room: &mut Room,
    on: &[Reading<L>],
    returned: Returned<L>,
    has_changed: bool,
) -> Vec<Painted>
    requires fits { AllKept (L.fits (L.mark eye.old)) returned.kept.items }
    requires lends { AreThere L.Lease (map (λ picture. Some picture) returned.list.items) (returned.kept.items ++ map read_of on.now) }
    requires stayed { returned.stayed.items ≡ pictures_here L.Lease on.now }
    requires room { HasRoomIn room.old (vec_len returned.list) (length on.now) has_changed }
    requires unchanged { has_changed ≡ false → (returned.list.items ≡ pictures L.Lease on.now) × (returned.kept.items ≡ []) }
    ensures contents { result.items ≡ pictures L.Lease on.now }
    ensures reads { IsEyeAfter L.Lease eye.old eye.new (ends_of L.Lease returned.kept.items) }
    ensures no_slots { vec_len room.new.slots ≡ 0 }
    ensures slots { vec_capacity room.new.slots ≡ vec_capacity room.old.slots }
    ensures no_contents { vec_len room.new.contents ≡ 0 }
{
    if has_changed {
        return take_back(alloc, eye, room, on, returned);
    }
    let Returned {
        kept,
        stayed: _,
        list,
    } = returned;
    kept.destroy_empty();
    list
}
