//! Records as lines of text, and the numbers in them, for the programs whose output shows what runs
//! wrote.
#![tactic(auto)]

mod body;
mod layout;
mod lines;
mod records;

pub use body::Body;
pub use layout::{Layout, TAGS, Tail, Width, layout_of};
pub use lines::{push_counts, push_records};
pub use records::Records;
