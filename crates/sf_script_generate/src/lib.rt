//! A load that a number generates: the script of a scene of four producers, each with a queue and a
//! layer of its own, that show picture after picture.
#![tactic(auto)]

mod draws;
mod lines;
mod script;

pub use script::generate;
