//! An object whose calls bring stamps and whose replies give them. A stamp is above that of every
//! earlier call of the object, and above the one that the call brought. So a caller that brings the
//! stamp of its last call, to whichever object, gives all calls of all objects one order, which goes
//! along with each object's history and with each caller's calls.
#![tactic(auto)]

mod laws;
mod stamped;

pub use laws::{legal, stamps_rise};
pub use stamped::Stamped;
