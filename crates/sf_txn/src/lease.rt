//! What a transaction needs of the right to a buffer's pixels, as a trait: `sf_surface` gives it by
//! its read leases.
ghost use Rattle.std.specs.Prelude.{◌≡◌, ℕ, ◌++◌, ◌∷◌, [], ◌↔◌, Bool, true, List, IfOk, IfErr, IsTrue};
ghost use Rattle.sf_picture.specs.declared.picture.Picture.{Picture as PictureValue};
ghost use Rattle.sf_txn.specs.Counts.{HasRisen};

use sf_base::NoMemory;
use sf_picture::Painted;
use std::alloc::Global;

/// The right to read the pixels of a shown buffer once, after its writer has left them. It says
/// through an eye whether the write has ended, and a reading hands the right on before it ends, so
/// that the buffer's next holder can be named while the pixels are still read.
pub trait Lease: Sized {
    /// What a thread knows of writes and reads that ended.
    type Eye;
    /// A lease whose pixels were taken out.
    type Reading;
    /// A reading after which the next lease was issued, and whose pixels have yet to come back.
    type Closing;

    // What stays of a lease, and of the leases that are handed on from it.
    ghost Plain: { Type 0 };

    // What no call changes of an eye.
    ghost Mark: { Type 0 };

    ghost plain: { Self → Self.Plain };

    // The picture that the pixels will show.
    ghost picture: { Self → PictureValue };

    // The end that a read of the lease makes, as buffer and turn, and the one that follows it.
    ghost end: { Self → ℕ × ℕ };

    ghost next_end: { Self → ℕ × ℕ };

    // How often it was looked at, and what the last look showed.
    ghost looks: { Self → ℕ };

    ghost shown: { Self → Bool };

    ghost mark: { Self.Eye → Self.Mark };

    // The ends that an eye made.
    ghost ends: { Self.Eye → List (ℕ × ℕ) };

    // An eye of this mark fits the lease.
    ghost fits: { Self.Mark → Self → Type 0 };

    // The eye knows the lease's write to have ended.
    ghost knows: { Self.Eye → Self → Type 0 };

    // A look through an eye of this mark shows what the eye's ends say of the lease's end.
    ghost is_exact: { Self.Mark → Bool };

    ghost tells: { List (ℕ × ℕ) → ℕ × ℕ → Bool };

    // The lease that was opened.
    ghost opened: { Self.Reading → Self };

    // What a closing has yet to do: the end that it makes, the picture of the pixels that come back,
    // and which eyes fit it.
    ghost closing_end: { Self.Closing → ℕ × ℕ };

    ghost closing_picture: { Self.Closing → PictureValue };

    ghost closing_fits: { Self.Mark → Self.Closing → Type 0 };

    /// Whether the buffer's write has ended, as one look through the eye shows it: exactly where the
    /// eye knows it then. Once it is true, it stays true through this eye. The lease counts just this
    /// look, up to the greatest number.
    fn drawn(&mut self, eye: &mut Self::Eye) -> bool
        requires { fits (mark eye.old) self.old }
        ensures shown { shown self.new ≡ result }
        ensures looks { HasRisen (looks self.old) (looks self.new) }
        ensures known { IsTrue result ↔ knows eye.new self.new }
        ensures still { knows eye.old self.old → IsTrue result }
        ensures exact { is_exact (mark eye.old) ≡ true → result ≡ tells (ends eye.old) (end self.old) }
        ensures plain { plain self.new ≡ plain self.old }
        ensures picture { picture self.new ≡ picture self.old }
        ensures end { (end self.new ≡ end self.old) × (next_end self.new ≡ next_end self.old) }
        ensures fits { (m : Self.Mark) → fits m self.new ↔ fits m self.old }
        ensures test { (e : Self.Eye) → knows e self.new ↔ knows e self.old }
        ensures mark { mark eye.new ≡ mark eye.old }
        ensures ends { ends eye.new ≡ ends eye.old }
        ensures keeps { (other : Self) → knows eye.old other → knows eye.new other };

    /// Takes the pixels out. They show the picture that the lease expects.
    fn open(self, eye: &mut Self::Eye) -> (Self::Reading, Painted)
        requires fits { fits (mark eye.old) self }
        requires drawn { knows eye.old self }
        ensures opened { opened result.0 ≡ self }
        ensures picture { result.1 ≡ picture self }
        ensures mark { mark eye.new ≡ mark eye.old }
        ensures ends { ends eye.new ≡ ends eye.old }
        ensures keeps { (other : Self) → knows eye.old other → knows eye.new other };

    /// Issues the next lease of the buffer, which expects the same picture. Out of memory hands
    /// the reading back.
    fn hand_on(
        alloc: Global,
        reading: Self::Reading,
    ) -> Result<(Self::Closing, Self), (NoMemory, Self::Reading)>
        ensures plain { IfOk result (λ r. plain r.1 ≡ plain (opened reading)) }
        ensures picture { IfOk result (λ r. (picture r.1 ≡ picture (opened reading)) × (closing_picture r.0 ≡ picture (opened reading))) }
        ensures end { IfOk result (λ r. (end r.1 ≡ next_end (opened reading)) × (closing_end r.0 ≡ end (opened reading))) }
        ensures fits { IfOk result (λ r. (m : Self.Mark) → (fits m r.1 ↔ fits m (opened reading)) × (fits m (opened reading) → closing_fits m r.0)) }
        ensures back { IfErr result (λ e. e.1 ≡ reading) };

    /// Gives the pixels back: the read has ended.
    fn close(closing: Self::Closing, eye: &mut Self::Eye, p: Painted)
        requires fits { closing_fits (mark eye.old) closing }
        requires picture { p ≡ closing_picture closing }
        ensures mark { mark eye.new ≡ mark eye.old }
        ensures ends { ends eye.new ≡ ends eye.old ++ closing_end closing ∷ [] }
        ensures keeps { (other : Self) → knows eye.old other → knows eye.new other };
}
