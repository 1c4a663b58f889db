//! The grammar of scripts. A script is the text that a run begins with: the display, what is
//! declared, each actor's steps, and the order in which actors and vsyncs are picked. `parse`
//! reads it whole before the first step is done. Lines are read one by one; each is read after the
//! draft that the lines before it left, and its leftmost wrong word is reported with what is wrong.
#![tactic(auto)]

mod changes;
mod declarations;
mod draft;
mod fault;
mod keywords;
mod line;
mod mentions;
mod order;
mod parts;
mod script;
mod second;
mod steps;
mod transactions;

pub use fault::{ParseFault, ScriptFault};
pub use script::{LONGEST_SCRIPT, parse};
