//! The steps that draw, and looks at the timelines, which several steps make.
ghost use Rattle.std.specs.Prelude.{◌≡◌, ◌-◌, ◌<◌, ◌≤◌, slice_index, nat_lt};
ghost use Rattle.sf_actor.specs.Desks.{ChangesTimes};
ghost use Rattle.sf_actor.specs.Tries.{Sees};
ghost use Rattle.sf_actor.specs.sf_times.Seats.{raised};

use crate::bindings::Bindings;
use crate::tried::Tried;
use sf_actor::{Desk, DrawFault, Held, Holding, Owing, Picture, TableName, TokensOf, WriteLease};
use sf_base::{NoMemory, Seen, TimelineId};

/// What is drawn, by what was seen of the timelines.
#[derive(Clone, Copy)]
struct Drawing<'a> {
    picture: &'a Picture,
    seen: &'a Seen,
}

/// Looks at the timelines.
pub fn look<B: TableName, D: Desk<TokensOf<B>>>(desk: &mut D) -> Seen
    ensures sees { Sees (D.home desk.old) (D.view desk.old) (D.view desk.new) result }
    ensures times { ChangesTimes (D.view desk.old) (D.view desk.new) }
    ensures home { D.home desk.new ≡ D.home desk.old }
{
    desk.see()
}

/// Raises a timeline to a value.
pub fn signal<B: TableName, D: Desk<TokensOf<B>>>(desk: &mut D, timeline: u32, value: u64)
    requires low { 1 ≤ timeline }
    requires high { timeline ≤ 64 }
    ensures signalled { (D.view desk.new).times ≡ raised (D.view desk.old).times (timeline, value) }
    ensures times { ChangesTimes (D.view desk.old) (D.view desk.new) }
    ensures home { D.home desk.new ≡ D.home desk.old }
{
    desk.signal(TimelineId(timeline), value);
}

/// Whether a timeline has not reached a value.
pub fn is_below(seen: &Seen, timeline: u32, value: u64) -> bool
    requires low { 1 ≤ timeline }
    requires high { timeline ≤ 64 }
    ensures { result ≡ nat_lt (slice_index seen.now.values (timeline - 1)) value }
{
    seen.values[timeline as usize - 1] < value
}

impl<B: TableName> Bindings<B> {
    ghost use Rattle.std.specs.Prelude.{◌≡◌, IfOk, None, get_or};
    ghost use Rattle.sf_actor.specs.sf_surface.Tokens.{is_size_of};
    ghost use Rattle.std.specs.Prelude.{true};
    ghost use Rattle.sf_actor.specs.Desks.{ChangesTurns};
    ghost use Rattle.sf_actor.specs.declared.holding.Holding.TheVariants as holding;
    ghost use Rattle.sf_actor_steps.specs.Drawing.{Draws, TakesPicture, TriesDraw};

    /// Draws a picture in a lent buffer that a name held.
    fn paint<D: Desk<TokensOf<B>>>(
        &mut self,
        desk: &mut D,
        name: u32,
        lease: WriteLease<B>,
        drawing: Drawing,
    ) -> Result<Tried, NoMemory>
        requires fits { is_size_of drawing.picture.now lease.held ≡ true }
        ensures tries { IfOk result (TriesDraw name drawing.entry.picture.now drawing.entry.seen.now (holding.Lends lease) self.old self.new (D.view desk.old) (D.view desk.new)) }
        ensures turns { ChangesTurns (D.view desk.old) (D.view desk.new) }
        ensures home { D.home desk.new ≡ D.home desk.old }
    {
        match desk.paint(self.alloc, lease, drawing.picture, drawing.seen) {
            Ok(lease) => {
                self.names.put(name, Holding::Lends(lease));
                Ok(Tried::Own(0))
            }
            Err(DrawFault::NotYet(lease)) => {
                self.names.put(name, Holding::Lends(lease));
                Ok(Tried::NotYet)
            }
            Err(DrawFault::NoMemory(_)) => Err(NoMemory),
            Err(DrawFault::BadPicture(_)) => unreachable!(),
        }
    }

    /// Draws what is owed under a name.
    fn pay<D: Desk<TokensOf<B>>>(
        &mut self,
        desk: &mut D,
        name: u32,
        owing: Owing<B>,
        held: Held,
        drawing: Drawing,
    ) -> Result<Tried, NoMemory>
        requires fits { drawing.picture.now ≡ owing.turn.promises }
        ensures tries { IfOk result (TriesDraw name drawing.entry.picture.now drawing.entry.seen.now (holding.Owes owing held)
            self.old self.new (D.view desk.old) (D.view desk.new)) }
        ensures turns { ChangesTurns (D.view desk.old) (D.view desk.new) }
        ensures home { D.home desk.new ≡ D.home desk.old }
    {
        match desk.pay(self.alloc, owing, drawing.picture, drawing.seen) {
            Ok(()) => Ok(Tried::Own(0)),
            Err(DrawFault::NotYet(owing)) => {
                self.names.put(name, Holding::Owes(owing, held));
                Ok(Tried::NotYet)
            }
            Err(DrawFault::NoMemory(_)) => Err(NoMemory),
            Err(DrawFault::BadPicture(_)) => unreachable!(),
        }
    }

    /// Draws a picture in the buffer that a name holds, or the one that it owes.
    pub fn draw<D: Desk<TokensOf<B>>>(
        &mut self,
        desk: &mut D,
        name: u32,
        picture: &Picture,
    ) -> Result<Tried, NoMemory>
        requires fits { TakesPicture picture.now (get_or self.old.names name None) }
        ensures draws { IfOk result (Draws (D.home desk.old) name picture.now self.old self.new (D.view desk.old) (D.view desk.new)) }
        ensures home { D.home desk.new ≡ D.home desk.old }
    {
        let seen = look(desk);
        let drawing = Drawing {
            picture,
            seen: &seen,
        };
        match self.names.take(name) {
            Some(Holding::Lends(lease)) => self.paint(desk, name, lease, drawing),
            Some(Holding::Owes(owing, held)) => self.pay(desk, name, owing, held, drawing),
            _other => unreachable!(),
        }
    }
}
