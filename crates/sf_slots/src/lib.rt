//! The slots of a BufferQueue: their states and buffers, the items that wait for the consumer, the
//! list of freed buffers and the queue's settings, with the moves between them. The calls of
//! producers and consumers, in the crates above, are made of these moves. The definitions of what a
//! history of calls makes of a queue, and of the reply to each call, stand here too.
#![tactic(auto)]

mod calls;
mod item;
mod laws;
mod limits;
mod queueing;
mod rings;
mod settings;
mod shown;
mod slot;
mod slots;

pub use calls::{Entry, PlainCall, PlainReply, ReadToken, WriteToken};
pub use item::{Item, PlainItem};
pub use laws::{
    a_free_slot_is_found_where_there_is_one, calls_are_told_by_their_history,
    no_calls_tell_of_a_new_queue, refusals_are_listed,
};
pub use settings::Settings;
pub use slot::{Held, Slot, SlotState};
pub use slots::Slots;
