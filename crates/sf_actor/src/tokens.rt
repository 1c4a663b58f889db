//! The types of the tokens that a desk's calls take and give.
ghost use Rattle.std.specs.Prelude.{Result};
ghost use Rattle.atomic_table.specs.Seated.{TableId};
ghost use Rattle.sf_base.specs.declared.fences.Seen.{Seen};
ghost use Rattle.sf_script_scene.specs.sf_picture.declared.picture.Picture.{Picture};
ghost use Rattle.sf_surface.specs.declared.call.QCall.{QCall};
ghost use Rattle.sf_surface.specs.declared.call.QReply.{QReply};
ghost use Rattle.sf_surface.specs.declared.drawing.DrawFault.{DrawFault};
ghost use Rattle.sf_surface.specs.Tokens.{EndingOf, ReadLeaseOf};
ghost use Rattle.sf_surface.specs.sf_turns.Views.{SeatView};
ghost use Rattle.sf_token.specs.sf_txn.Transactions.{Contents};

use sf_surface::{Ending, Owing, QCall, QReply, ReadLease, TableName, WriteLease};
use sf_token::Transaction;
use std::marker::PhantomData;

/// The types of what a desk's calls bring and give. A desk's clauses speak of each by what contracts
/// see of it.
pub trait Tokens {
    /// Names the table of turns.
    type Table;
    /// A call on a queue.
    type Call;
    /// The reply to it.
    type Reply;
    /// A transaction that is sent.
    type Sent;
    /// A lease to draw in.
    type Write;
    /// A drawing that is owed.
    type Owed;
    /// A drawing that is to end.
    type Ends;

    ghost table: { TableId };

    ghost call: { Self.Call → QCall Self.Table };

    ghost reply: { Self.Reply → QReply Self.Table };

    ghost sent: { Self.Sent → Contents ReadLeaseOf };

    // What drawing in a lease does, and drawing what is owed.
    ghost draws: { Self.Write → Picture → Seen → SeatView → SeatView → Result Self.Write (DrawFault Self.Write) → Type 0 };

    ghost pays: { Self.Owed → Picture → Seen → SeatView → SeatView → Result (Unit {0}) (DrawFault Self.Owed) → Type 0 };

    ghost ends: { Self.Ends → EndingOf };
}

/// The tokens of the table `B`.
#[derive(Drop)]
pub struct TokensOf<B> {
    pub of: PhantomData<B>,
}

impl<B: TableName> Tokens for TokensOf<B> {
    ghost use Rattle.sf_surface.specs.Drawing.{DrawsLease, PaysOwing};

    type Table = B;

    type Call = QCall<B>;

    type Reply = QReply<B>;

    type Sent = Transaction<ReadLease<B>>;

    type Write = WriteLease<B>;

    type Owed = Owing<B>;

    type Ends = Ending<B>;

    ghost table = { B.table };

    ghost call = { λ call. call };

    ghost reply = { λ reply. reply };

    ghost sent = { λ txn. txn };

    ghost draws = { DrawsLease };

    ghost pays = { PaysOwing };

    ghost ends = { λ ending. ending };
}
