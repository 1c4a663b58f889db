//! The tests that a step makes itself, before any call: of its names, its numbers and its picture.
ghost use Rattle.std.specs.Prelude.{◌≡◌, ◌==◌, not, None, Some, if◌then◌else◌, true};
ghost use Rattle.std.specs.List.{find};
ghost use Rattle.std.specs.Option.{option_copied};
ghost use Rattle.sf_actor.specs.sf_surface.Tokens.{is_size_of};
ghost use Rattle.sf_actor.specs.Scripts.{picture_at};
ghost use Rattle.sf_actor.specs.Tests.{shows_other};
ghost use Rattle.sf_actor.specs.sf_script_scene.Scene.{has_picture};
ghost use Rattle.sf_actor_steps.specs.Bindings.{is_numbered, lent_of};

use crate::bindings::Bindings;
use sf_actor::{Holding, Owing, Picture, ReadLease, Step, TableName, Work, WriteLease};

/// The picture can't be drawn there, another one was drawn, or the frame has no number.
pub const BAD_VALUE: u32 = 11;

/// A name or number does not hold what the step asks for.
const EMPTY: u32 = 15;

/// A name or number that is to be filled holds something.
const OCCUPIED: u32 = 16;

/// The status of a test that is met.
fn refused_if(met: bool, status: u32) -> Option<u32>
    ensures { result ≡ (if met then Some status else None) }
{
    if met { Some(status) } else { None }
}

/// The first picture of a number.
fn find_picture(pictures: &[Picture], number: u32) -> Option<&Picture>
    ensures { option_copied result ≡ find (is_numbered number) pictures.now }
{
    pictures.iter().find(|picture| picture.number == number)
}

/// The picture of a number.
pub fn picture_of(pictures: &[Picture], number: u32) -> &Picture
    requires { has_picture pictures.now number ≡ true }
    ensures { result.now ≡ picture_at pictures.now number }
{
    let Some(picture) = find_picture(pictures, number) else {
        unreachable!()
    };
    picture
}

/// Whether a picture can be drawn in a lent buffer.
fn fits<B: TableName>(lease: &WriteLease<B>, picture: &Picture) -> bool
    ensures { result ≡ is_size_of picture.now lease.now.held }
{
    picture.width == lease.held.width && picture.height == lease.held.height
}

/// Whether another picture than this one was drawn in a lent buffer.
fn shows_other<B: TableName>(lease: &WriteLease<B>, picture: u32) -> bool
    ensures { result ≡ shows_other picture (Some (lent_of lease.now)) }
{
    match &lease.work {
        Work::Fresh(_) => false,
        Work::Drawn(_, pixels) => pixels.picture().number != picture,
    }
}

/// Whether another picture than this one is owed.
fn owes_other<B: TableName>(owing: &Owing<B>, picture: u32) -> bool
    ensures { result ≡ not (owing.now.turn.promises.number == picture) }
{
    owing.turn.promised().number != picture
}

impl<B: TableName> Bindings<B> {
    ghost use Rattle.std.specs.Prelude.{◌≡◌, ℕ, MatchOption, Some, None, false, true, is_some, not, ◌==◌, if◌then◌else◌};
    ghost use Rattle.sf_actor.specs.sf_picture.declared.picture.Picture.{Picture};
    ghost use Rattle.sf_actor.specs.sf_script_scene.declared.step.Step.TheVariants as step;
    ghost use Rattle.sf_actor.specs.Names.{is_apart, is_frame, is_lent, is_owing, name_in, transaction_in};
    ghost use Rattle.sf_actor.specs.Scripts.{picture_at};
    ghost use Rattle.sf_actor.specs.Tests.{is_taken, refusal_of};
    ghost use Rattle.sf_actor.specs.sf_script_scene.Named.{KnowsPicture};
    ghost use Rattle.sf_actor.specs.sf_script_scene.Scene.{has_picture};
    ghost use Rattle.sf_actor_steps.specs.Bindings.{HoldsOwing, holdings_of, lent_of, merge_refusal, queue_refusal, shown_of};

    /// Whether a name holds something.
    fn holds(&self, name: u32) -> bool
        ensures { result ≡ is_some (name_in (holdings_of self.now) name) }
    {
        self.names.get(name).is_some()
    }

    /// Whether a number holds a transaction.
    fn fills(&self, number: u32) -> bool
        ensures { result ≡ is_some (transaction_in (holdings_of self.now) number) }
    {
        self.transactions.get(number).is_some()
    }

    /// The lent buffer that a name holds.
    #[tactic(auto, using(crate::proofs::HoldingLemmas::held))]
    fn lent(&self, name: u32) -> Option<&WriteLease<B>>
        ensures { MatchOption result (is_lent (name_in (holdings_of self.now) name) ≡ false)
            (λ lease. name_in (holdings_of self.now) name ≡ Some (lent_of lease.now)) }
    {
        match self.names.get(name) {
            Some(Holding::Lends(lease)) => Some(lease),
            _ => None,
        }
    }

    /// Whether a name holds a lent buffer.
    fn lends(&self, name: u32) -> bool
        ensures { result ≡ is_lent (name_in (holdings_of self.now) name) }
    {
        self.lent(name).is_some()
    }

    /// The frame that a name holds.
    #[tactic(auto, using(crate::proofs::HoldingLemmas::held))]
    fn frame(&self, name: u32) -> Option<&ReadLease<B>>
        ensures { MatchOption result (is_frame (name_in (holdings_of self.now) name) ≡ false)
            (λ lease. name_in (holdings_of self.now) name ≡ Some (shown_of lease.now)) }
    {
        match self.names.get(name) {
            Some(Holding::Reads(lease)) => Some(lease),
            _ => None,
        }
    }

    /// The drawing that a name owes.
    #[tactic(auto, using(crate::proofs::HoldingLemmas::held))]
    fn owed(&self, name: u32) -> Option<&Owing<B>>
        ensures { MatchOption result (is_owing (name_in (holdings_of self.now) name) ≡ false)
            (λ owing. HoldsOwing (holdings_of self.now) name owing.now) }
    {
        match self.names.get(name) {
            Some(Holding::Owes(owing, _)) => Some(owing),
            _ => None,
        }
    }

    /// Whether a name holds a frame.
    fn shows(&self, name: u32) -> bool
        ensures { result ≡ is_frame (name_in (holdings_of self.now) name) }
    {
        self.frame(name).is_some()
    }

    /// Whether a name holds a buffer that is in no queue.
    #[tactic(auto, using(crate::proofs::HoldingLemmas::held))]
    fn frees(&self, name: u32) -> bool
        ensures { result ≡ is_apart (name_in (holdings_of self.now) name) }
    {
        match self.names.get(name) {
            Some(Holding::Frees(..)) => true,
            _ => false,
        }
    }

    /// Whether a name that is to be filled holds something, and is not the one that the step empties.
    fn is_taken(&self, emptied: u32, filled: u32) -> bool
        ensures { result ≡ is_taken (holdings_of self.now) emptied filled }
    {
        filled != emptied && self.holds(filled)
    }

    /// Where a name holds what a step asks for, the test of the name that is to be filled.
    fn move_refusal(&self, holds: bool, emptied: u32, filled: u32) -> Option<u32>
        ensures { result ≡ (if not holds then Some 15 else if is_taken (holdings_of self.now) emptied filled then Some 16 else None) }
    {
        if !holds {
            Some(EMPTY)
        } else {
            refused_if(self.is_taken(emptied, filled), OCCUPIED)
        }
    }

    /// The tests of a step that draws.
    fn draw_refusal(&self, name: u32, pictures: &[Picture], picture: u32) -> Option<u32>
        requires { has_picture pictures.now picture ≡ true }
        ensures { result ≡ refusal_of (picture_at pictures.now) (holdings_of self.now) (step.Draw name picture) }
    {
        if let Some(lease) = self.lent(name) {
            return refused_if(!fits(lease, picture_of(pictures, picture)), BAD_VALUE);
        }
        match self.owed(name) {
            Some(owing) => refused_if(owes_other(owing, picture), BAD_VALUE),
            None => Some(EMPTY),
        }
    }

    /// The tests of a step that queues.
    fn queue_refusal(&self, name: u32, picture: u32) -> Option<u32>
        ensures { result ≡ queue_refusal (holdings_of self.now) name picture }
    {
        match self.lent(name) {
            Some(lease) => refused_if(shows_other(lease, picture), BAD_VALUE),
            None => Some(EMPTY),
        }
    }

    /// The tests of a step that moves a frame into a transaction.
    fn buffer_refusal(&self, number: u32, name: u32) -> Option<u32>
        ensures { (pictures : ℕ → Picture) (layer : ℕ) → result ≡ refusal_of pictures (holdings_of self.now) (step.Buffer number layer name) }
    {
        match self.frame(name) {
            Some(lease) if self.fills(number) => { refused_if(lease.frame == 0, BAD_VALUE) }
            _ => Some(EMPTY),
        }
    }

    /// The tests of a step that merges transactions.
    fn merge_refusal(&self, number: u32, other: u32) -> Option<u32>
        ensures { result ≡ merge_refusal (holdings_of self.now) number other }
    {
        if !self.fills(number) {
            return Some(EMPTY);
        }
        if !self.fills(other) {
            return Some(EMPTY);
        }
        refused_if(number == other, BAD_VALUE)
    }

    /// The status of the first of a step's own tests that is met: by what names and numbers hold.
    #[tactic(auto, unfolding(sf_actor::specs::Tests::refusal_of))]
    pub fn refusal(&self, pictures: &[Picture], step: &Step) -> Option<u32>
        requires { KnowsPicture pictures.now step.now }
        ensures { result ≡ refusal_of (picture_at pictures.now) (holdings_of self.now) step.now }
    {
        match step {
            Step::Dequeue(_, name, _) | Step::DequeueWait(_, name, _) | Step::Acquire(_, name, _) =>
                { refused_if(self.holds(*name), OCCUPIED) }
            Step::Request(name) | Step::Cancel(name, _) => { refused_if(!self.lends(*name), EMPTY) }
            Step::Draw(name, picture) => self.draw_refusal(*name, pictures, *picture),
            Step::Queue(name, picture, ..) => self.queue_refusal(*name, *picture),
            Step::PDetach(name, filled) => { self.move_refusal(self.lends(*name), *name, *filled) }
            Step::CDetach(name, filled) => { self.move_refusal(self.shows(*name), *name, *filled) }
            Step::PAttach(_, name, filled) | Step::CAttach(_, name, filled) => {
                self.move_refusal(self.frees(*name), *name, *filled)
            }
            Step::Release(name, _) => refused_if(!self.shows(*name), EMPTY),
            Step::Tx(number) => refused_if(self.fills(*number), OCCUPIED),
            Step::Desire(number, _)
            | Step::Barrier(number, ..)
            | Step::Apply(number, _)
            | Step::Set(number, ..) => refused_if(!self.fills(*number), EMPTY),
            Step::Buffer(number, _, name) => self.buffer_refusal(*number, *name),
            Step::Merge(number, other) => self.merge_refusal(*number, *other),
            _ => None,
        }
    }
}
