//! Public calls of the crates below the steps of actors, each under a few clauses copied from its
//! contract. It is there for its must-fail edits: what these clauses refuse instead of a call, the
//! contract of the call refuses, too, and for the price of this small crate. No program calls it.
#![tactic(auto)]

mod calls;
mod queues;
mod tokens;
mod transactions;
mod trees;
mod turns;
mod views;
