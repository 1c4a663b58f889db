//! A run that a player goes on with stays in one order: what its actors do and its vsyncs come behind
//! all that happened before, and no vsync passes over an arrival. How far each has come stands in
//! specs/; here are laws.
#![tactic(auto)]

ghost use Rattle.law_rounds.specs.Rounds.{ComesSoFar, KeepsOrder};

use sf_play_report::{Lease, ReadLease, TableName};

/// Where what a player has shown is in one order, nothing of it is of a later step or vsync than those
/// that its actors and its compositor have come to.
pub fn a_player_has_come_so_far<B: TableName>()
    ensures { ComesSoFar B }
{}

/// An action of a player leaves all that it has shown in one order, and no vsync passes over an arrival,
/// also where threads did the steps before, and however transactions arrive.
pub fn an_action_leaves_one_order<B: TableName>()
    ensures { KeepsOrder B ⟦<ReadLease<B> as Lease>⟧ }
{}
