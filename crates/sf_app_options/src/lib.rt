//! The words of the program: what it is asked to do, read by `clap`.
#![tactic(auto)]

mod about;
mod laws;
mod matched;
mod options;

pub use about::About;
pub use laws::no_words_play;
pub use options::{Intake, Options, OptionsFault, Run};
