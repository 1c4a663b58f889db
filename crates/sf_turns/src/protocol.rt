//! What the words, the slots and the seats of the turns' table keep between any two atomic steps,
//! and what each kind of step shows the thread that makes it. Nothing here has code that runs. Per
//! buffer the table has a word, which counts the turns that left, and a slot, the home of the
//! pixels; the last word counts nothing.
use crate::stamped::Stamped;
use atomic_table::{Join, Play, Split, TableRule};
use std::collections::LinkedList;
use std::marker::PhantomData;

/// What a slot of the table holds. `Said` is never in a slot: a step announces it, for the proof
/// alone.
#[derive(Drop)]
pub enum Home<P, T> {
    /// No pixels yet, or they are out with a token.
    Vacant,
    /// The pixels.
    Full(P),
    /// The promise that comes with a turn that is issued.
    Said(T),
}

/// How far the token of a turn that has not left has come.
pub enum Stage {
    /// It has not entered.
    Away,
    /// It has the pixels.
    Inside,
    /// The pixels are home again, as it promised.
    Done,
}

/// A turn that has not left. It exists in proofs alone: no value of it is made.
pub struct Token<T> {
    pub buffer: u64,
    pub number: u64,
    pub stage: Stage,
    /// What it finds when it enters.
    pub expects: T,
    /// What it promised to leave, once the next turn was issued.
    pub promise: Option<T>,
}

/// What a seat at the table knows. It exists in proofs alone: no value of it is made.
pub struct Knows<T> {
    /// Whether this is the seat that `open_turns` gave, which alone is split and joined.
    pub is_first: bool,
    /// 1 for a thread's seat; 0 for a stock, a permit, a token or a note, and once it was joined
    /// into another.
    pub live: u64,
    /// How many live were split off this one and not joined.
    pub out: u64,
    /// The turns that left through it or through seats that it took in, as buffer and number.
    pub leaves: LinkedList<(u64, u64)>,
    /// The counts of leaves that it has seen, as buffer and count.
    pub seen: LinkedList<(u64, u64)>,
    /// The buffers that it may open.
    pub stock: LinkedList<u64>,
    /// Whether it has the slot of the one buffer that it may open.
    pub opens: bool,
    /// The turn that it is the token of.
    pub token: Option<Token<T>>,
    /// How many buffers its last step asked for.
    pub asked: u64,
    /// The promise that its last step announced.
    pub said: Option<T>,
}

/// The rule that holds between any two steps.
pub struct TurnRule<P> {
    of: PhantomData<P>,
}

impl<P: Stamped> TableRule<Home<P, P::Stamp>, Knows<P::Stamp>, u64> for TurnRule<P> {
    ghost use Rattle.sf_turns.specs.Rule.{Kept, opened};

    ghost holds = { Kept P.stamp_of };

    ghost first = { opened };
}

/// A load of how many turns of a buffer have left.
pub struct Load;

impl<P, T> Play<Home<P, T>, Knows<T>> for Load {
    ghost use Rattle.sf_turns.specs.Rule.{Loads};

    ghost then = { Loads };
}

/// A load that shows the first seat, while no other is out, that its leaves are all.
pub struct Audit;

impl<P, T> Play<Home<P, T>, Knows<T>> for Audit {
    ghost use Rattle.sf_turns.specs.Rule.{Audits};

    ghost then = { Audits };
}

/// Announces the promise of a turn that is issued next.
pub struct Announce;

impl<P, T> Play<Home<P, T>, Knows<T>> for Announce {
    ghost use Rattle.sf_turns.specs.Rule.{Says};

    ghost then = { Says };
}

/// Asks for a number of buffers of a stock.
pub struct Ask;

impl<P, T> Play<Home<P, T>, Knows<T>> for Ask {
    ghost use Rattle.sf_turns.specs.Rule.{Asks};

    ghost then = { Asks };
}

/// The token enters, and takes the pixels.
pub struct Enter;

impl<P: Stamped> Play<Home<P, P::Stamp>, Knows<P::Stamp>> for Enter {
    ghost use Rattle.sf_turns.specs.Rule.{Takes};

    ghost then = { Takes P.stamp_of };
}

/// Takes the pixels where it is the token's turn.
pub struct Reach;

impl<P, T> Play<Home<P, T>, Knows<T>> for Reach {
    ghost use Rattle.sf_turns.specs.Rule.{Reaches};

    ghost then = { Reaches };
}

/// Gives the pixels back as they were found; the token has not entered then.
pub struct Return;

impl<P, T> Play<Home<P, T>, Knows<T>> for Return {
    ghost use Rattle.sf_turns.specs.declared.protocol.Stage.TheVariants.{Away};
    ghost use Rattle.sf_turns.specs.Rule.{Returns};

    ghost then = { Returns Away };
}

/// Gives the pixels back as they were promised.
pub struct Finish;

impl<P, T> Play<Home<P, T>, Knows<T>> for Finish {
    ghost use Rattle.sf_turns.specs.declared.protocol.Stage.TheVariants.{Done};
    ghost use Rattle.sf_turns.specs.Rule.{Returns};

    ghost then = { Returns Done };
}

/// Takes the empty slot of a buffer that is opened.
pub struct Clear;

impl<P, T> Play<Home<P, T>, Knows<T>> for Clear {
    ghost use Rattle.sf_turns.specs.Rule.{Clears};

    ghost then = { Clears };
}

/// Gives the slot of a buffer that is opened back, with its pixels.
pub struct Begin;

impl<P: Stamped> Play<Home<P, P::Stamp>, Knows<P::Stamp>> for Begin {
    ghost use Rattle.sf_turns.specs.Rule.{Begins};

    ghost then = { Begins P.stamp_of };
}

/// The turn leaves: the count of its buffer rises by one.
pub struct Leave;

impl<P, T> Play<Home<P, T>, Knows<T>> for Leave {
    ghost use Rattle.sf_turns.specs.Rule.{Leaves};

    ghost then = { Leaves };
}

/// A note of what a seat has seen, for a token to take in.
pub struct Tell;

impl<T> Split<Knows<T>> for Tell {
    ghost use Rattle.sf_turns.specs.Rule.{note};

    ghost left = { λ v. v };

    ghost right = { note };
}

impl<T> Join<Knows<T>> for Tell {
    ghost use Rattle.sf_turns.specs.Rule.{told, spent};

    ghost both = { told };

    ghost spent = { spent };
}

/// The token of the next turn, split off that of the last one.
pub struct Issue;

impl<T> Split<Knows<T>> for Issue {
    ghost use Rattle.sf_turns.specs.Rule.{issuing, heir};

    ghost left = { issuing };

    ghost right = { heir };
}

/// The whole stock, split off the first seat.
pub struct Endow;

impl<T> Split<Knows<T>> for Endow {
    ghost use Rattle.sf_turns.specs.Rule.{endowing, endowed};

    ghost left = { endowing };

    ghost right = { endowed };
}

/// As many buffers of a stock as were asked for.
pub struct Cut;

impl<T> Split<Knows<T>> for Cut {
    ghost use Rattle.sf_turns.specs.Rule.{cutting, cut_off};

    ghost left = { cutting };

    ghost right = { cut_off };
}

/// A seat for another thread, split off the first.
pub struct SplitOff;

impl<T> Split<Knows<T>> for SplitOff {
    ghost use Rattle.sf_turns.specs.Rule.{lending, lent};

    ghost left = { lending };

    ghost right = { lent };
}

/// The first seat takes in another.
pub struct TakeIn;

impl<T> Join<Knows<T>> for TakeIn {
    ghost use Rattle.sf_turns.specs.Rule.{absorbed, spent};

    ghost both = { absorbed };

    ghost spent = { spent };
}

/// A token goes into the seat through which its turn leaves.
pub struct HandIn;

impl<T> Join<Knows<T>> for HandIn {
    ghost use Rattle.sf_turns.specs.Rule.{handed, spent};

    ghost both = { handed };

    ghost spent = { spent };
}
