//! The run of the program and live runs, each under a few clauses copied from its contract. It is
//! there for its must-fail edits: what these clauses refuse instead of a call, the contract of the
//! call refuses, too, and for the price of this small crate. No program calls it.
#![tactic(auto)]

mod live;
mod statuses;
