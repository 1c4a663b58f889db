//! A BufferQueue as its users hold it: one object that takes calls with tokens and keeps the history
//! of its calls, and the tokens, which carry the right to a buffer's pixels between the queue, the
//! producer that draws them and the consumer that shows them. A producer dequeues a lease, draws a
//! picture in it and queues it, or queues it first and owes the drawing; a consumer acquires the
//! frame as a lease to read and releases it. The right goes on before the work is done.
#![tactic(auto)]

mod attaching;
mod call;
mod cancelling;
mod connecting;
mod consuming;
mod context;
mod detaching;
mod dispatch;
mod drawing;
mod entry;
mod held;
mod history;
mod lending;
mod lent;
mod mark;
mod object;
mod plain;
mod queueing;
mod reading;
mod replies;
mod requesting;
mod rights;
mod settings;
mod shown;
mod token;
mod values;
mod work;

pub use call::{Gives, QCall, QReply};
pub use drawing::DrawFault;
pub use entry::HistEntry;
pub use mark::QueueMark;
pub use object::QueueObject;
pub use sf_slots::{Held, PlainReply};
pub use sf_turns::{Permit, Stock, TableName, TurnSeat};
pub use token::{Ending, Loose, Owing, ReadLease, WriteLease};
pub use work::Work;
