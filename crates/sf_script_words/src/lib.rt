//! The words of a script. A script is cut into lines, and a line into words, which spaces and tabs
//! separate. A line is read from its first word on: each reader gives a value and what is left of
//! the line behind it, or the fault of the word at which it failed.
#![tactic(auto)]

mod colours;
mod fault;
mod names;
mod numbers;
mod reading;
mod text;

pub use colours::colour;
pub use fault::{Cause, WordFault};
pub use names::name;
pub use reading::{
    count_words, demand, end, fixed, flag, is, number_within, number32, number64, signed, word,
    wrong,
};
pub use text::{next_line, next_word, trim};
