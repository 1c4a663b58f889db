//! What a name of an actor holds: a lent buffer, a drawing that is owed, a frame or a loose buffer.
use sf_base::QueueId;
use sf_surface::{Held, Loose, Owing, ReadLease, TableName, WriteLease};

/// What a name of an actor holds.
#[derive(Drop)]
pub enum Holding<B: TableName> {
    /// A buffer that a queue lent.
    Lends(WriteLease<B>),
    /// The drawing of a frame, which is owed, with the frame's buffer.
    Owes(Owing<B>, Held),
    /// A frame of a queue, or a buffer of the consumer's own.
    Reads(ReadLease<B>),
    /// A buffer in no queue, and the queue in which it was last.
    Frees(QueueId, Loose<B>),
}
