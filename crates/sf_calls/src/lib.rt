//! A lock over an object whose callers know one legal history of its calls. The queues and the
//! arrivals of transactions are such objects: threads call them while a frame is made, and what
//! each thread learns of the others' calls stands in one history that a single thread could have
//! made. A call waits for the mutex, draws a ticket, applies itself to the object once the ticket
//! is served, and passes the lock on.
#![tactic(auto)]

mod fault;
mod lock;
mod object;
mod pass;
mod protocol;
mod steps;

pub use fault::CallFault;
pub use lock::CallLock;
pub use object::{Answer, Entry, Object, Outcome};
pub use pass::Pass;
