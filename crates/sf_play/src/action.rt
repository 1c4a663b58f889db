//! The next action of a play: the try of an actor's step or a vsync, by the order of the script and
//! then in rounds, up to the first round in which nothing is done.
ghost use Rattle.std.specs.Prelude.{◌≡◌, ◌<◌, ◌||◌, ℕ, true, false, if◌then◌else◌, List, length, IfErr, IfOk, IfSome, IsErr};
ghost use Rattle.std.specs.List.{list_any};
ghost use Rattle.sf_play_report.specs.sf_ready.declared.hold.Hold.{Hold as HoldValue};
ghost use Rattle.sf_play_report.specs.law_played.Progress.{is_time};
ghost use Rattle.sf_play_report.specs.sf_actor.Tries.{ActorOf};
ghost use Rattle.sf_script_scene.specs.Scene.{SceneValue};
ghost use Rattle.sf_play.specs.Going.{GoesAlong, GoesOn, LeavesLess};
ghost use Rattle.sf_play.specs.Places.{settled};
ghost use Rattle.sf_play.specs.Players.{SoFar, home_in};
ghost use Rattle.sf_play.specs.Playing.{MayMakeVsync};
ghost use Rattle.sf_play.specs.Standing.{StandsAlong, StandsInRun};
ghost use Rattle.sf_play.specs.declared.place.Place.TheVariants as at;
ghost use Rattle.sf_play_report.specs.Reports.{has_commits};
ghost use Rattle.sf_play.specs.Actions.{KeepsActorSet, Picks, Rounds, TriesStep, TakesAction, TakesActionAt, is_step, next_tried, picked_place, action_by, is_end};

use crate::kept::KeptReport;
use crate::place::Place;
use crate::player::Player;
use sf_base::NoMemory;
use sf_play_report::{Hold, Lease, ReadLease, Stepped, TableName};

/// What a player did at a pick of the order, or in a round.
#[derive(Drop)]
pub enum Action {
    /// The actor of this place, from 0, did a step.
    Step(usize),
    /// The picked actor did nothing: it has ended, or it is not time for its next step.
    Idle,
    Vsync(KeptReport),
    /// Nothing, and nothing will be done any more.
    End,
}

impl Action {
    /// Whether an actor did a step.
    fn is_step(&self) -> bool
        ensures { result ≡ is_step self.now }
    {
        match self {
            Action::Step(_) => true,
            _ => false,
        }
    }

    /// Whether nothing will be done any more.
    pub fn is_end(&self) -> bool
        ensures { result ≡ is_end self.now }
    {
        match self {
            Action::End => true,
            _ => false,
        }
    }
}

/// The action whose try of an actor's step came to this.
fn action_by(place: usize, stepped: Stepped) -> Action
    ensures { result ≡ action_by place stepped }
{
    match stepped {
        Stepped::Done => Action::Step(place),
        _ => Action::Idle,
    }
}

/// Whether it is held until its time.
pub fn is_time(entry: &(u32, Hold)) -> bool
    ensures { result ≡ is_time entry.now.1 }
{
    match entry.1 {
        Hold::Time(_) => true,
        _ => false,
    }
}

/// Whether something is held until its time.
fn waits_for_time(held: &[(u32, Hold)]) -> bool
    ensures { result ≡ list_any (λ (h : ℕ × HoldValue). is_time h.1) held.now }
{
    held.iter().any(is_time)
}

/// Where a play stands behind the vsync of a round: before the next round, where a step was done,
/// something was committed, or something is held until its time.
fn behind_round(stepped: bool, commits: bool, waits: bool) -> Place
    ensures { result ≡ (if stepped || (commits || waits) then at.Round 0 false else at.End) }
{
    if stepped || commits || waits {
        Place::Round(0, false)
    } else {
        Place::End
    }
}

impl<B: TableName> Player<B> {
    /// Tries the next step of the actor at a place.
    fn step(&mut self, place: usize) -> Result<Action, NoMemory>
        requires spent { self.old.is_spent ≡ true }
        requires there { place < length self.old.play.actor_set.actors }
        ensures tries { (ofs : List (ActorOf B)) → KeepsActorSet B.table self.old.play ofs
            → IfOk result (TriesStep B.table place ofs self.old.play self.new.play) }
        ensures rest { self.new ≡ record self.old { play = record self.old.play { actor_set = self.new.play.actor_set } } }
    {
        let stepped = self.actor_set.try_step(place)?;
        Ok(action_by(place, stepped))
    }

    /// Does the action of a pick: a vsync for 0, else the next step of the actor of this number.
    fn pick(&mut self, number: u32) -> Result<Action, NoMemory>
        requires spent { self.old.is_spent ≡ true }
        requires may { MayMakeVsync B.table self.old.play }
        ensures picks { (ofs : List (ActorOf B)) → KeepsActorSet B.table self.old.play ofs
            → IfOk result (Picks ⟦<ReadLease<B> as Lease>⟧ B.table ofs number self.old self.new) }
        ensures spent { self.new.is_spent ≡ true }
        ensures place { self.new.place ≡ self.old.place }
    {
        if number == 0 {
            let report = self.vsync()?;
            return Ok(Action::Vsync(KeptReport::new(self.alloc, report)?));
        }
        match self.actor_set.index_of(number) {
            Some(place) => self.step(place),
            None => Ok(Action::Idle),
        }
    }

    /// Does an action of a round, in which the actors before this place were tried.
    fn round(&mut self, place: usize, stepped: bool) -> Result<Action, NoMemory>
        requires spent { self.old.is_spent ≡ true }
        requires may { MayMakeVsync B.table self.old.play }
        ensures rounds { (ofs : List (ActorOf B)) → KeepsActorSet B.table self.old.play ofs
            → IfOk result (Rounds ⟦<ReadLease<B> as Lease>⟧ B.table ofs place stepped self.old self.new) }
        ensures spent { self.new.is_spent ≡ true }
    {
        if place < self.actor_set.actors().len() {
            let action = self.step(place)?;
            self.place = Place::Round(place + 1, stepped || action.is_step());
            return Ok(action);
        }
        let report = self.vsync()?;
        let commits = report.has_commits();
        let waits = waits_for_time(self.held.as_slice());
        self.place = behind_round(stepped, commits, waits);
        Ok(Action::Vsync(KeptReport::new(self.alloc, report)?))
    }

    /// Does the next action, from this place on.
    fn action_at(&mut self, place: Place) -> Result<Action, NoMemory>
        requires spent { self.old.is_spent ≡ true }
        requires may { MayMakeVsync B.table self.old.play }
        requires settled { place ≡ settled self.old.play.order self.old.place }
        ensures acts { (ofs : List (ActorOf B)) → KeepsActorSet B.table self.old.play ofs
            → IfOk result (TakesActionAt ⟦<ReadLease<B> as Lease>⟧ B.table ofs place self.old self.new) }
        ensures spent { self.new.is_spent ≡ true }
    {
        match place {
            Place::Order(place, done) => {
                self.place = Place::Order(place, done + 1);
                let number = self.order.as_slice()[place].actor;
                self.pick(number)
            }
            Place::Round(place, stepped) => self.round(place, stepped),
            Place::End => Ok(Action::End),
        }
    }

    /// The place of the actor whose next step a pick of this number tries: a pick of 0 is a vsync.
    fn picked_place(&self, number: u32) -> Option<usize>
        ensures names { result ≡ picked_place self.now.play.actor_set.actors number }
        ensures there { IfSome result (λ place. place < length self.now.play.actor_set.actors) }
    {
        if number == 0 {
            return None;
        }
        self.actor_set.index_of(number)
    }

    /// The place, from 0, of the actor whose next step the next action tries, if it tries one.
    pub fn next_actor(&self) -> Option<usize>
        ensures names { result ≡ next_tried self.now }
        ensures there { IfSome result (λ place. place < length self.now.play.actor_set.actors) }
    {
        match self.place.settled(self.order.as_slice()) {
            Place::Order(place, _) => match self.order.as_slice().get(place) {
                Some(pick) => self.picked_place(pick.actor),
                None => None,
            },
            Place::Round(place, _) if place < self.actor_set.actors().len() => Some(place),
            _ => None,
        }
    }

    /// Does the next action of the play. A player that found no memory does nothing any more.
    pub fn next(&mut self) -> Result<Action, NoMemory>
        ensures acts { (ofs : List (ActorOf B)) → KeepsActorSet B.table self.old.play ofs
            → IfOk result (TakesAction ⟦<ReadLease<B> as Lease>⟧ B.table ofs self.old self.new) }
        ensures on { (scene : SceneValue) (so : SoFar B) → StandsInRun B.table scene so self.old
            → IfOk result (λ action. GoesOn B.table scene so action self.new) }
        ensures along { (scene : SceneValue) (so : SoFar B) → StandsAlong B.table scene so self.old
            → IfOk result (λ action. GoesAlong B.table scene so action self.new) }
        ensures less { IfOk result (λ action. LeavesLess action self.old self.new) }
        ensures told { IfOk result (λ _. (home_in self.new.play).tells ≡ (home_in self.old.play).tells) }
        ensures no_memory { IfErr result (λ _. self.new.is_spent ≡ true) }
        ensures ok { IfOk result (λ _. self.new.is_spent ≡ false) }
        ensures spent { self.old.is_spent ≡ true → IsErr result }
    {
        if self.is_spent {
            return Err(NoMemory);
        }
        self.is_spent = true;
        self.tells();
        let place = self.place.settled(self.order.as_slice());
        let action = self.action_at(place)?;
        self.tells();
        self.is_spent = false;
        Ok(action)
    }
}
