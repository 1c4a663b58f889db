//! The compositor between two vsyncs, as its callers hold it: `commit` does one, `vsync` returns
//! its view as well, and `lend` and `give_back` let others read the pixels while the next is
//! decided.
ghost use Rattle.std.specs.Prelude.{◌≡◌, ◌≤◌, true, false, [], IfOk, IsErr, None, OnErr, Some, is_some, map};
ghost use Rattle.sf_commit_next.specs.sf_token.Pending.{IsRisingFrom};
ghost use Rattle.sf_view.specs.Views.{IsDisplay, Views};
ghost use Rattle.sf_commit.specs.Handlers.{Decides, FitsHandler, IsHandler, Stops, last_of, new_handler, source_of};
ghost use Rattle.sf_commit.specs.Leases.{pictures};
ghost use Rattle.sf_commit.specs.Lending.{AllKept, ends_of};
ghost use Rattle.sf_commit.specs.OnLayers.{IsPlaceOf, at_hand, lent_from};
ghost use Rattle.sf_commit.specs.Releases.{committed_in};
ghost use Rattle.sf_commit_next.specs.sf_token.Loads.{AllLeases};
ghost use Rattle.sf_commit_next.specs.sf_txn.Leases.{IsEyeAfter};

use crate::commit::Stage;
use crate::finish::{Settled, settle_all};
use crate::follow::decide_all;
use crate::keeping::KeptRead;
use crate::lending::{Contents, Returned, Room, leave_unlent, mark_at_hand, mark_lent, put_back};
use crate::opening::{Reading, gather};
use crate::sources::{index_of_shown, sources};
use crate::vsync::{Committed, Vsync};
use sf_base::{Items, NoMemory, Seen};
use sf_commit_next::{Arrived, Facts, Instant, Lease, TokenQueues};
use sf_view::sf_layer::Shown;
use sf_view::sf_picture::Painted;
use sf_view::sf_tree::Tree;
use sf_view::{Drawn, View, view_of};
use std::alloc::Global;
use std::marker::Model;
use std::mem;
use std::snapshot::Snapshot;

// How many layers there are at most where no limit is given.
const MOST_LAYERS: u32 = 256;

/// The compositor's layers, the buffers that they show, and the transactions that wait. It may keep
/// reads, which only the pixels that are lent can end, so it is used up by `finish`.
pub struct Handler<L: Lease> {
    alloc: Global,
    width: u32,
    height: u32,
    tree: Tree,
    queues: TokenQueues<L>,
    facts: Facts,
    on: Vec<Reading<L>>,
    // The pixels of the buffers on layers that are not lent, in their order.
    contents: Vec<Painted>,
    lent: Option<Snapshot<Contents>>,
    // Whether a vsync came since the pixels were lent.
    has_changed: bool,
    kept: Vec<KeptRead<L>>,
    room: Room,
    is_spent: bool,
}

impl<L: Lease> Model for Handler<L> {
    ghost use Rattle.std.specs.Option.{option_map};
    ghost use Rattle.std.specs.Prelude.{◌≡◌, false, length};
    ghost use Rattle.sf_commit.specs.Handlers.{HandlerOf, IsKept, lent_pixels};
    ghost use Rattle.sf_commit.specs.Inside.{HasRoomIn};
    ghost use Rattle.sf_commit.specs.Rounds.{pressed_in};
    ghost use Rattle.sf_commit_next.specs.sf_ready.Facts.{HasSame};

    ghost Value = { HandlerOf L };

    ghost view = { λ h. record {
      width = h.width;
      height = h.height;
      tree = h.tree;
      pending = h.queues.pending;
      frames = h.facts.frames;
      on = h.on.items;
      last = h.queues.last;
      is_spent = h.is_spent;
      lent = option_map (λ lent. lent.value) h.lent;
      kept = h.kept.items;
    } };

    ghost invariant = { λ h. IsKept L.Lease (record {
      width = h.width;
      height = h.height;
      tree = h.tree;
      pending = h.queues.pending;
      frames = h.facts.frames;
      on = h.on.items;
      last = h.queues.last;
      is_spent = h.is_spent;
      lent = option_map (λ lent. lent.value) h.lent;
      kept = h.kept.items;
    }) h.contents.items h.has_changed
        × HasRoomIn h.room (length (lent_pixels (option_map (λ lent. lent.value) h.lent))) (length h.on.items) h.has_changed
        × (h.is_spent ≡ false → HasSame h.facts.pressed (pressed_in h.tree.layers)) };
}

impl<L: Lease + Drop> Handler<L>
where
    L::Reading: Drop,
{
    /// A compositor for a display of this size, 1 to 1,024 pixels wide and high, to which nothing
    /// was sent yet, with at most 256 layers.
    pub fn new(alloc: Global, width: u32, height: u32) -> Result<Handler<L>, NoMemory>
        requires { IsDisplay width height }
        ensures { IfOk result (λ handler. handler ≡ new_handler width height 256) }
    {
        Handler::with_limit(alloc, width, height, MOST_LAYERS)
    }

    /// As `new`, with at most so many layers, which are at most 9,216.
    pub fn with_limit(
        alloc: Global,
        width: u32,
        height: u32,
        most: u32,
    ) -> Result<Handler<L>, NoMemory>
        requires display { IsDisplay width height }
        requires most { most ≤ 9216 }
        ensures { IfOk result (λ handler. handler ≡ new_handler width height most) }
    {
        Ok(Handler {
            alloc,
            width,
            height,
            tree: Tree::with_limit(alloc, most)?,
            queues: TokenQueues::new(alloc)?,
            facts: Facts::new(alloc),
            on: Vec::new(alloc),
            contents: Vec::new(alloc),
            lent: None,
            has_changed: false,
            kept: Vec::new(alloc),
            room: Room::new(alloc),
            is_spent: false,
        })
    }

    /// A vsync that expects its frame at this present time, in nanoseconds. It takes what arrived,
    /// in the order of arrival, looks once at each pending buffer, and commits until every first
    /// transaction of a token is held. `seen` is what was observed of the timelines. The eye fits
    /// every lease that was handed in, and the numbers of what arrived rise above all earlier ones.
    ///
    /// While the pixels are lent, the leases of what goes are handed on and their reads kept until the
    /// pixels are given back; else these reads have ended when it returns.
    ///
    /// Once it has run out of memory the handler is spent: everything pending is given up, and
    /// every later vsync answers so. What was lent can be given back then, too.
    pub fn commit(
        &mut self,
        eye: &mut L::Eye,
        arrived: Vec<Arrived<L>>,
        seen: &Seen,
        expected: u64,
    ) -> Result<Committed<L>, NoMemory>
        requires fits { self.old.is_spent ≡ false → FitsHandler L.Lease eye.old self.old }
        requires brought { AllLeases (L.fits (L.mark eye.old)) arrived.items }
        requires rising { self.old.is_spent ≡ false → IsRisingFrom self.old.last arrived.items (last_of self.old.last arrived.items) }
        ensures decides { IfOk result (λ told. Decides L.Lease self.old eye.old arrived.items seen.now expected told self.new eye.new) }
        ensures stops { OnErr result (Stops L.Lease self.old eye.old arrived.items seen.now expected self.new eye.new) }
        ensures again { self.old.is_spent ≡ true → IsErr result }
        ensures mark { L.mark eye.new ≡ L.mark eye.old }
        ensures keeps { (l : L) → L.knows eye.old l → L.knows eye.new l }
    {
        if self.is_spent {
            return Err(NoMemory);
        }
        self.is_spent = true;
        let alloc = self.alloc;
        let tree = mem::replace(&mut self.tree, Tree::with_limit(alloc, MOST_LAYERS)?);
        let is_lent = self.lent.is_some();
        self.has_changed = is_lent;
        let readings = mem::replace(&mut self.on, Vec::new(alloc));
        let contents = mem::replace(&mut self.contents, Vec::new(alloc));
        let on = gather(alloc, readings, contents)?;
        let begun = Stage {
            alloc,
            tree,
            on,
            commits: Vec::new(alloc),
            gone: Vec::new(alloc),
        };
        let instant = Instant { seen, expected };
        let (stage, held) = decide_all(
            begun,
            &mut self.queues,
            &mut self.facts,
            eye,
            arrived,
            instant,
        )?;
        let Stage {
            tree,
            on,
            commits,
            gone,
            ..
        } = stage;
        let settled = settle_all(alloc, on, gone, &mut self.kept, eye);
        leave_unlent(alloc, eye, &mut self.kept, is_lent);
        let Settled {
            on,
            contents,
            releases,
        } = settled?;
        self.room.make(on.len(), is_lent)?;
        self.tree = tree;
        self.on = on;
        self.contents = contents;
        self.is_spent = false;
        Ok(Committed {
            commits: Items::new(commits),
            releases: Items::new(releases),
            held: Items::new(held),
        })
    }

    /// The view that the display shows, with the places of its buffers in the contents.
    fn show(&self) -> Result<(View, Items<u32>), NoMemory>
        requires { self.now.is_spent ≡ false }
        ensures view { IfOk result (λ shown. Views self.now.tree.layers self.now.width self.now.height shown.0) }
        ensures sources { IfOk result (λ shown. shown.1 ≡ map (source_of self.now.on) shown.0.drawn) }
    {
        let view = view_of(self.alloc, &self.tree, self.width, self.height)?;
        let sources = self.sources(view.drawn.as_slice())?;
        Ok((view, sources))
    }

    /// A vsync as `commit` does it, and the view that the display shows then. Where no frame is shown,
    /// or one of other layers than these, `commit` is enough.
    pub fn vsync(
        &mut self,
        eye: &mut L::Eye,
        arrived: Vec<Arrived<L>>,
        seen: &Seen,
        expected: u64,
    ) -> Result<Vsync<L>, NoMemory>
        requires fits { self.old.is_spent ≡ false → FitsHandler L.Lease eye.old self.old }
        requires brought { AllLeases (L.fits (L.mark eye.old)) arrived.items }
        requires rising { self.old.is_spent ≡ false → IsRisingFrom self.old.last arrived.items (last_of self.old.last arrived.items) }
        ensures decides { IfOk result (λ told. Decides L.Lease self.old eye.old arrived.items seen.now expected (committed_in told) self.new eye.new) }
        ensures view { IfOk result (λ told. Views self.new.tree.layers self.new.width self.new.height told.view) }
        ensures sources { IfOk result (λ told. told.sources ≡ map (source_of self.new.on) told.view.drawn) }
        ensures stops { OnErr result (Stops L.Lease self.old eye.old arrived.items seen.now expected self.new eye.new) }
        ensures again { self.old.is_spent ≡ true → IsErr result }
        ensures mark { L.mark eye.new ≡ L.mark eye.old }
        ensures keeps { (l : L) → L.knows eye.old l → L.knows eye.new l }
    {
        let Committed {
            commits,
            releases,
            held,
        } = self.commit(eye, arrived, seen, expected)?;
        let Ok((view, sources)) = self.show() else {
            self.is_spent = true;
            return Err(NoMemory);
        };
        Ok(Vsync {
            commits,
            view,
            sources,
            releases,
            held,
        })
    }

    /// Moves the pixels of the buffers on layers out, which are not lent. It takes no memory.
    pub fn lend(&mut self) -> Contents
        requires { self.old.lent ≡ None }
        ensures pictures { result ≡ pictures L.Lease self.old.on }
        ensures lent { self.new ≡ record self.old { on = lent_from 0 self.old.on; lent = Some (pictures L.Lease self.old.on) } }
    {
        mark_lent(&mut self.on);
        let list = mem::replace(&mut self.contents, Vec::new(self.alloc));
        let contents = Contents { list };
        self.lent = Some(Snapshot::of(&contents));
        self.has_changed = false;
        contents
    }

    /// Puts the pixels back that were lent, with the pictures that they had, in their order, and
    /// leaves each read whose lease was handed on since. It takes no memory.
    pub fn give_back(&mut self, eye: &mut L::Eye, contents: Contents)
        requires lent { self.old.lent ≡ Some contents }
        requires fits { AllKept (L.fits (L.mark eye.old)) self.old.kept }
        ensures back { self.new ≡ record self.old { on = map at_hand self.old.on; lent = None; kept = [] } }
        ensures reads { IsEyeAfter L.Lease eye.old eye.new (ends_of L.Lease self.old.kept) }
    {
        let alloc = self.alloc;
        let kept = mem::replace(&mut self.kept, Vec::new(alloc));
        let stayed = mem::replace(&mut self.contents, Vec::new(alloc));
        let returned = Returned {
            kept,
            stayed,
            list: contents.list,
        };
        self.contents = put_back(
            alloc,
            eye,
            &mut self.room,
            &self.on,
            returned,
            self.has_changed,
        );
        mark_at_hand(&mut self.on);
        self.lent = None;
        self.has_changed = false;
    }

    /// Whether the pixels are lent. It takes no memory.
    pub fn is_lent(&self) -> bool
        ensures { result ≡ is_some self.now.lent }
    {
        self.lent.is_some()
    }

    /// Ends the compositor, whose pixels are not lent. It takes no memory.
    pub fn finish(self)
        requires { self.lent ≡ None }
    {
        let Handler {
            alloc: _,
            width: _,
            height: _,
            tree: _,
            queues: _,
            facts: _,
            on: _,
            contents: _,
            lent: _,
            has_changed: _,
            kept,
            room: _,
            is_spent: _,
        } = self;
        kept.destroy_empty();
    }

    /// The pixels of the buffers on layers, which are not lent, as they were entered for reading.
    pub fn contents(&self) -> &[Painted]
        requires { self.now.lent ≡ None }
        ensures pictures { result.now ≡ pictures L.Lease self.now.on }
        ensures kept { self.now.is_spent ≡ false → IsHandler L.Lease self.now }
    {
        &self.contents
    }

    /// The layers, as the last vsync left them, also while pixels are lent. It takes no memory.
    pub fn tree(&self) -> &Tree
        ensures tree { result.now ≡ self.now.tree }
        ensures kept { self.now.is_spent ≡ false → IsHandler L.Lease self.now }
    {
        &self.tree
    }

    /// For each drawn layer the place of its buffer in the contents, as they stand when nothing is
    /// lent, and 0 where the layer has none. It may be asked while pixels are lent.
    pub fn sources(&self, drawn: &[Drawn]) -> Result<Items<u32>, NoMemory>
        ensures sources { IfOk result (λ sources. sources ≡ map (source_of self.now.on) drawn.now) }
    {
        Ok(Items::new(sources(self.alloc, drawn, &self.on)?))
    }

    /// The place of just this buffer, with its picture and its crop, in the contents, as they stand
    /// when nothing is lent; None exactly where no layer shows it. It may be asked while pixels are
    /// lent, and takes no memory.
    pub fn source(&self, shown: &Shown) -> Option<u32>
        ensures source { IsPlaceOf shown.now self.now.on result }
        ensures kept { self.now.is_spent ≡ false → IsHandler L.Lease self.now }
    {
        u32::try_from(index_of_shown(&self.on, shown)?).ok()
    }
}
